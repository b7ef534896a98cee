//! A running node: a core, and the journal in which its records stand.
//!
//! The floor on which a node outlives its process. It stands on the core of a node among others (`sv_core`), the log on two
//! disks (`sv_journal`) and the spelling of records (`sv_record`). Its contracts cite the step of a node by the whole table,
//! and say of every call, by its answer, what the node keeps, and what a stop leaves of the disks: the state before the step
//! or the state after it, and nothing else. It knows no connection and no clock: its caller hands in the moment and sends
//! what is put out.
#![tactic(auto)]

mod compaction;
mod fault;
mod group;
pub mod laws;
mod ledger;
mod node;
mod not_opened;
mod session_counts;
mod starting;

pub use fault::OpenFault;
pub use node::Node;
pub use not_opened::NotOpened;
pub use session_counts::SessionCounts;
