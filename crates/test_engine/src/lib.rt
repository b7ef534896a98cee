//! What tests of nodes share: an engine of a proved meaning, its requests, what nodes put out as texts, and how a value is held so that
//! its proof stays short.
//!
//! Part of no program. The tests of cores, of worlds and of running nodes stand on it.
#![tactic(auto)]

mod asking;
mod counter;
mod own;
mod texts;

pub use asking::{hello, request};
pub use counter::Counter;
pub use own::Own;
pub use texts::{numbered, output_text, packet_text, state_text};
