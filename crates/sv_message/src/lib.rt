//! Messages of HTTP/1.1: bytes to requests, and responses to bytes.
//!
//! A floor above `sv_model`, below the connection. [`RequestReader`] cuts a stream into requests by
//! RFC 9112, sections 2 to 7 and 9.3, over the grammar of `httparse`; its contracts cite `specs/Message.antt` (what
//! a message is), `specs/Chunked.antt` (a chunked body) and `specs/Fault.antt` (which fault stands at the front).
//! `specs/Partial.antt` says what the reader keeps of a message that isn't whole. [`write_response`] writes the
//! text of `specs/Response.antt`. [`laws`] says what follows over whole runs. Trailers are read and dropped.
//! Nothing here reads or writes a connection.
#![tactic(auto)]

mod body;
mod chunk;
mod coding;
pub mod fault;
mod framing;
mod head;
mod host;
pub mod laws;
mod length;
mod message;
mod persistence;
pub mod reader;
pub mod request;
pub mod response;

pub use fault::ReadFault;
pub use reader::RequestReader;
pub use request::RawRequest;
pub use response::write_response;
