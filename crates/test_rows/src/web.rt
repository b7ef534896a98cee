//! Messages, targets, parameters and cookies, as their users call them. What is expected is that of RFC 9112, RFC 9110,
//! RFC 3986, RFC 6265, the URL Standard and Jakarta Servlet 6.0.

pub mod cookies;
pub mod fields;
pub mod forms;
pub mod lengths;
pub mod responses;
pub mod streams;
pub mod targets;
mod told;
