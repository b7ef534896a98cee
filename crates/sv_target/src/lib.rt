//! What a request's head says beside its method: its target, its parameters, its cookies.
//!
//! A floor above the plain data, below the connection. [`Target`] is the path and the query that a target names (RFC
//! 9112, section 3.2; RFC 3986, over the crates `http_uri` and `percent_encoding`); [`params`] and [`form`] give the
//! parameters (URL Standard, section 5.1, over `form_urlencoded`). [`cookies`] gives the pairs of the Cookie fields (RFC
//! 6265, sections 4.2.1 and 5.4); [`session_cookie`] and [`cookie_text`] read and spell the cookie that names a session
//! (Jakarta Servlet 6.0, section 7.1.1). Contracts cite `specs/Target.antt`, `Path`, `Params`, `Cookies` and
//! `SessionCookie`. [`laws`] says that a text is one target, that what a client sends is read back, and that a session's
//! cookie and what is read of it are each other's inverse. Nothing here knows whether a session that is named exists.
#![tactic(auto)]

mod cookie_fields;
mod digits;
mod fault;
mod jsessionid;
pub mod laws;
mod name;
mod parameters;
mod path;
mod segment;
mod target;

pub use cookie_fields::cookies;
pub use fault::TargetFault;
pub use jsessionid::{SESSION_COOKIE, cookie_text, session_cookie};
pub use parameters::{form, params};
pub use target::Target;
