//! The dispatcher: a call goes through filters to a servlet, and on by forwards and includes to others (Jakarta
//! Servlet 6.0, chapters "Dispatching Requests" and "Filtering").
//!
//! Stands on servlets, the mapping and the reading of targets. [`run_at`] takes a path that is mapped already, and [`run`] maps it. Both keep
//! the dispatches that wait on a stack of their own, so a servlet that asks for another dispatch has returned, also where it asks for itself;
//! their contract is the big step of `Dispatching`, by recursion on what the servlets answer, and `Pages` above it. A request that one call of
//! a servlet answers needs no stack. Nothing here knows contexts, sessions beyond the edit, or connections.
#![tactic(auto)]

mod attributes;
mod calls;
mod chain;
mod changes;
mod destination;
mod first;
mod hosted;
pub mod laws;
mod mapped_path;
mod mode;
mod page;
mod request;
mod stack;
mod stage;
mod steps;
mod view;
mod visit;

pub use hosted::Hosted;
pub use page::{ErrorPage, PageFor};
pub use request::{Ended, run, run_at};
pub use stage::Stage;
