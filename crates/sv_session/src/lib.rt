//! The edit of a session while a request is served (Jakarta Servlet 6.0, chapter "Sessions").
//!
//! Stands on the plain data. Contracts see a [`SessionEdit`] as an edit state: the session that was
//! handed in and what became of it, the session that was made, and the events so far; each call is a function
//! of that state. Nothing here knows nodes, records or servlets.
#![tactic(auto)]

mod edit;
mod expiry;
mod fault;

pub use edit::{Edited, SessionEdit};
pub use expiry::{expired, join_request};
pub use fault::SessionFault;
