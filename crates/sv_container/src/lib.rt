//! The container: the web applications of a deployment behind one engine (Jakarta Servlet 6.0, chapters "Servlet
//! Context", "Sessions" and "Application Lifecycle Events").
//!
//! Stands on the dispatcher and the descriptor. [`Container::start`] takes a deployment and the objects that it names,
//! and gives an engine: its meaning is the container function of `Serving.antt`, by which a request goes to its context,
//! its session is joined or turned away, its dispatch is run, and a session that was made is named by a cookie. No call
//! changes that function. Nothing here keeps sessions, or knows connections and other nodes.
#![tactic(auto)]

mod admission;
mod answer;
mod application;
mod arrange;
mod assemble;
mod container;
mod engine;
pub mod laws;
mod life;
mod named;
mod outcome;
mod prepare;
mod recall;
mod remember;
mod set_cookie;
mod tell;

pub use container::{Container, Stopped};
pub use named::{Named, NotStarted, StartFault};
