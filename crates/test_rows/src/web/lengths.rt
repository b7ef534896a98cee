//! How many bytes a long body has, however its stream is cut.

use crate::fault::RowFault;
use crate::repeat::repeated;
use std::alloc::{AllocError, Global};
use sv_message::{ReadFault, RequestReader};

/// Feeds a piece; how many bytes the body of the request has that is then there.
fn len_behind(reader: &mut RequestReader, piece: &[u8]) -> Result<Option<usize>, ReadFault> {
    reader.feed(piece)?;
    match reader.next() {
        Ok(Some(raw)) => Ok(Some(raw.body.len())),
        Ok(None) => Ok(None),
        Err(fault) => Err(fault),
    }
}

fn len_in_pieces(
    reader: &mut RequestReader,
    stream: &[u8],
    size: usize,
) -> Result<Option<usize>, ReadFault> {
    for piece in stream.chunks(size.max(1)) {
        if let Some(len) = len_behind(reader, piece)? {
            return Ok(Some(len));
        }
    }
    Ok(None)
}

/// How many bytes the body of the first request has.
fn body_len(alloc: Global, stream: &[u8], size: usize) -> Result<Option<usize>, ReadFault> {
    let mut reader = RequestReader::new(alloc);
    len_in_pieces(&mut reader, stream, size)
}

/// The first size of pieces in which the body hasn't so many bytes.
fn other_size(alloc: Global, stream: &[u8], len: usize) -> Option<usize> {
    for size in [1, 4_096] {
        if body_len(alloc, stream, size) != Ok(Some(len)) {
            return Some(size);
        }
    }
    None
}

fn len_text(alloc: Global, stream: &[u8]) -> Result<String, AllocError> {
    let Ok(Some(len)) = body_len(alloc, stream, 1_048_576) else {
        return String::from_str(alloc, "no request");
    };
    match other_size(alloc, stream, len) {
        Some(size) => format!(in alloc; "{len}, but not in pieces of {size}"),
        None => format!(in alloc; "{len}"),
    }
}

/// How many bytes the body of a long stream's first request has.
pub fn length(alloc: Global, parts: &str) -> Result<String, RowFault> {
    let stream = repeated(alloc, parts)?;
    Ok(len_text(alloc, &stream)?)
}
