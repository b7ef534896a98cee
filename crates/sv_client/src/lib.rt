//! The client of a node: how nodes are numbered, one exchange on a connection of its own, a command with its answer, and the session
//! that a cookie names.
//!
//! Under the programs that call nodes, `cluster_run` and `kegctl`. What a socket gives no contract says; a command that is sent is
//! within the ranges of the formats, so that its frame has one spelling.
#![tactic(auto)]

mod calling;
mod number;
mod session;

pub use calling::{Address, Network, Unanswered, command, exchange};
pub use number::NodeNumber;
pub use session::{Session, session_named, session_set};
