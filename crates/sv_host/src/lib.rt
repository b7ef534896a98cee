//! A node among others: the loop over sockets, the clock, the secrets and the journal's files.
//!
//! The floor between a node and the machine that it runs on. A program hands in an engine and says where it stands in its
//! cluster ([`Place`]); [`run_node`] opens the journal, listens, and serves until it is told to stop. What a socket, a clock
//! or a file does is outside what contracts can say. What they say is what a process makes of its node whatever comes: from
//! the opening of its disks to its end it makes calls of the node and nothing else ([`Host::run`]), by inputs within the
//! ranges of the formats, and each packet that is put out can be sent.
#![tactic(auto)]

mod asking;
mod awaited;
mod compaction;
mod event_loop;
mod expiry;
mod fault;
mod gathering;
mod greeting;
mod group;
mod handing_on;
mod handing_out;
mod held;
mod holding;
mod host;
mod intake;
mod judging;
pub mod laws;
mod lease;
mod nudges;
mod outcome;
mod packets;
mod parked;
mod paths;
mod peers;
mod place;
mod room;
mod round;
mod run;
mod secrets;
mod serve;
mod server;
mod time;
mod want;

pub use fault::{HostFault, Stop};
pub use host::{Ended, Host};
pub use paths::{IfLocked, Paths};
pub use place::{Place, PlaceFault};
pub use round::{ROUND_LIMIT, Round, Share};
pub use run::run_node;
pub use secrets::secret_of;
pub use time::{ClockSet, Time};
