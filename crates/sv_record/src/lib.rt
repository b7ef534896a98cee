//! What a node keeps and sends, as bytes: the records of a journal, the packets between nodes, and the frames that
//! packets and commands travel in.
//!
//! The floor of formats, above the plain data of `sv_model`. All numbers are big-endian, and a record or packet begins
//! with its version. Contracts cite `specs/`: a `Format` is the spelling of a value, which values have one, and how
//! bytes are read, with the first trouble in their order. `Record`, `Packet` and `Frame` are made of such formats; what may be
//! written is said by the ranges of `sv_model`. Nothing here knows what a record does to a node, or reads a file or a connection.
#![tactic(auto)]

mod attribute;
mod attributes;
mod change;
mod fault;
mod frame;
mod greeting;
mod handover;
mod key;
pub mod laws;
mod number;
mod packet;
mod packet_fields;
mod record;
mod record_fields;
mod session;
mod start_fields;
mod state;
mod version;

pub use fault::RecordFault;
pub use frame::{CONTROL, Frame, PAYLOAD_LIMIT, PEER, read_frame, write_frame};
pub use greeting::{
    CONTEXTS_LEN, Errand, GREETING, GREETING_LEN, Greeting, read_greeting, write_greeting,
};
pub use packet::{read_packet, write_packet};
pub use record::{RECORD_LIMIT, read_record, write_record};
pub use sv_model::{Packet, Record};
