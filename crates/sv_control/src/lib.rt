//! What an operator has in hand: the sessions and the records of a node's journal, read beside the node that writes it, how
//! sessions and commands are named, and what a descriptor says or where it is at fault.
//!
//! Under the program `kegctl`, a `main` over it, which has the files and the sockets. [`entries_of`] reads a journal from images of
//! its two files, in memory, so that nothing is ever written; [`replay`] gives what its records give. [`session_line`] is what is
//! shown of a session and [`ShownRecord`] of a record, and [`places_of`] says where each record stands; [`KeyRoom`] says how full the
//! node's table of keys is, and [`KeysLine`] of what; [`look_at`] tells of a descriptor, and [`losses`] of one that takes the place
//! of another; [`left_in`] counts what a drain has left, by what the node keeps; [`is_anothers`] and [`is_own`] say whose journal a
//! record can be in; [`seen_of`] says what the other nodes know of the sessions of one that is gone for good, and [`remade`] makes
//! the journal of a node that takes its number.
#![tactic(auto)]

mod descriptor;
mod gone;
mod images;
mod kept;
pub mod laws;
mod left;
mod lines;
mod losing;
mod naming;
mod once;
mod places;
mod records;
mod room;
mod whose;

pub use descriptor::{Look, look_at};
pub use gone::{LastSeen, Whereabouts, payloads_of, remade, seen_of};
pub use images::{FoundFault, entries_of};
pub use kept::{Replayed, records_of, recovered, replay};
pub use left::{Left, left_in};
pub use lines::{AttributeLine, Disclosure, SessionLine, SessionPlace, SessionTimes, session_line};
pub use losing::{Moved, losses, moved_contexts};
pub use naming::{ShownKey, key_text, shown_key};
pub use places::{RecordPlace, places_of};
pub use records::ShownRecord;
pub use room::{KeyRoom, KeysLine, known_in};
pub use sv_core::Census;
pub use whose::{is_anothers, is_own};
