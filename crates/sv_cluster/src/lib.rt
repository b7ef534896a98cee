//! A cluster of nodes from one script: what the program `cluster_run` does with its words.
//!
//! The top of the floors that call nodes, under a `main` of a few lines. [`read_words`] reads the command line. A script has lines
//! `start N`, `ask N PATH`, `move N TO`, `tick N`, `halt N` and `kill N`: [`read_script`] reads it whole, by `specs/Script.antt`, and
//! [`run_script`] runs its lines one after the other, and prints each with what came of it: it starts the processes of nodes, and
//! sends requests and commands to them. [`write_request`] is what is sent for a path, and [`read_reply`] reads what is answered.
#![tactic(auto)]

mod fault;
mod files;
mod nodes;
mod perform;
mod process;
mod reply;
mod request;
mod script;
mod words;

pub use fault::Fault;
pub use perform::run_script;
pub use reply::{Reply, read_reply};
pub use request::write_request;
pub use script::{Act, Line, ScriptFault, read_script};
pub use words::{Arguments, Words, read_words};
