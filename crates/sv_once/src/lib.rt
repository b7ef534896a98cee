//! What a session remembers of the requests that have a key, so that one that is sent again is answered as it was (the IETF's
//! draft "The Idempotency-Key HTTP Header Field").
//!
//! Stands on the plain data. A [`Choice`] says which key a request has; an [`Entry`] is a request that was served, with its answer;
//! a [`Memory`] is the last of them, and is the bytes of one attribute of the session. Each is a function of plain values in
//! `specs/`. Nothing here serves a request, or knows nodes and servlets.
#![tactic(auto)]

mod answer;
mod choice;
mod entry;
mod field;
mod laws;
mod mark;
mod memory;
mod parts;
mod room;

pub use answer::{ANSWER_LIMIT, kept_answer, response_in};
pub use choice::{Choice, KEY_LIMIT, is_key, is_safe};
pub use entry::Entry;
pub use laws::{parted_by_content, read_as_written};
pub use mark::mark_of;
pub use memory::Memory;
pub use room::{MEMORY, memory_of, take_memory, with_memory};
