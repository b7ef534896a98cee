//! Servlets, filters and listeners, and what they are lent (Jakarta Servlet 6.0, chapters "The Servlet Interface", "The
//! Request", "The Response", "Filtering" and "Application Lifecycle Events").
//!
//! Stands on the session's edit. A servlet or a filter is an object with a meaning that no call changes and a phase that
//! each call needs; a listener has numbers, and what an event makes of them. Contracts see a [`Call`] and a [`Reply`] as
//! plain values. Nothing here knows paths' mapping, contexts or connections.
#![tactic(auto)]

mod attributes;
mod call;
mod fields;
mod filter;
mod filter_box;
mod generic_filter;
mod generic_servlet;
mod listener;
mod listener_box;
mod reply;
mod servlet;
mod servlet_box;
mod setting;

pub use attributes::{Entries, RequestAttributes};
pub use call::Call;
pub use filter::{Before, Filter};
pub use generic_filter::{GenericFilter, Surrounds};
pub use generic_servlet::{Answers, GenericServlet};
pub use listener::Listener;
pub use reply::{BODY_LIMIT, FIELD_LIMIT, Replied, Reply, ReplyFault};
pub use servlet::{InitFault, Next, Phase, Servlet};
pub use setting::Setting;
