//! What a reader answers after a fault.

use std::alloc::Global;
use sv_message::{ReadFault, RequestReader};

/// Why the reader has no next request.
fn fault_of(reader: &mut RequestReader) -> Option<ReadFault> {
    reader.next().err()
}

/// Whether a head without a Host closes a reader: for what follows it, and for what is fed then.
fn is_closed_by_a_fault(reader: &mut RequestReader) -> bool {
    reader.feed(b"GET / HTTP/1.1\r\n\r\nGET / HTTP/1.0\r\n\r\n") == Ok(())
        && fault_of(reader) == Some(ReadFault::BadHost)
        && fault_of(reader) == Some(ReadFault::Closed)
        && fault_of(reader) == Some(ReadFault::Closed)
        && reader.feed(b"GET") == Err(ReadFault::Closed)
}

pub(super) fn a_fault_closes_the_reader(alloc: Global) -> bool {
    let mut reader = RequestReader::new(alloc);
    is_closed_by_a_fault(&mut reader)
}
