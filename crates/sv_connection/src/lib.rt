//! A connection: bytes in, a request; a response, bytes out (RFC 9112).
//!
//! Stands on the reader of requests and the text of responses. [`Connection`] cites definitions over the bytes that have come
//! and those that are written. Nothing here knows servlets, sockets, sites or nodes.
#![tactic(auto)]

mod arrive;
mod connection;
pub mod laws;
mod outcome;
mod received;
mod reply;
mod request;
mod speak;

pub use connection::Connection;
pub use outcome::{Outcome, RequestFault};
pub use received::Received;
pub use reply::{Naming, refusal_by};
pub use speak::memory_lines;
