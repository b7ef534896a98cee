//! The samples as an application: what the names of a descriptor stand for in the program `node`, and the descriptor that it has
//! built in.
//!
//! Stands on the samples and on `sv_launch`. The part of a name before its first `-` says which sample it stands for; a filter `stamp`
//! takes its mark from what is after it.
#![tactic(auto)]

mod names;

pub use names::{Samples, showcase};
pub use sv_samples::BUILT_IN;
