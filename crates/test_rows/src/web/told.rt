//! What a reader tells of a stream, as one text.

use crate::escape::shown;
use std::alloc::{AllocError, Global};
use sv_message::{RawRequest, ReadFault, RequestReader};

/// More calls of `next` than any piece of a row has requests.
const CALLS: usize = 1_000;

/// Adds a request as its method, its target, what becomes of the connection, and its body, each with a space after it.
fn tell_request(alloc: Global, told: &mut String, raw: &RawRequest) -> Result<(), AllocError> {
    let body = shown(alloc, raw.body.as_slice())?;
    told.push_str(raw.method.as_str())?;
    told.push_str(" ")?;
    told.push_str(raw.target.as_str())?;
    told.push_str(if raw.close { " closes <" } else { " stays <" })?;
    told.push_str(&body)?;
    told.push_str("> ")?;
    Ok(())
}

fn tell_fault(alloc: Global, told: &mut String, fault: ReadFault) -> Result<(), AllocError> {
    let text = format!(in alloc; "{fault:?}")?;
    told.push_str(&text)?;
    Ok(())
}

/// Adds what the calls of `next` give until one gives nothing; whether the stream goes on.
fn tell_requests(
    alloc: Global,
    told: &mut String,
    reader: &mut RequestReader,
) -> Result<bool, AllocError> {
    for _ in 0..CALLS {
        match reader.next() {
            Ok(Some(raw)) => tell_request(alloc, told, &raw)?,
            Ok(None) => return Ok(true),
            Err(fault) => {
                tell_fault(alloc, told, fault)?;
                return Ok(false);
            }
        }
    }
    Ok(false)
}

/// Feeds a piece and adds what is told then; whether the stream goes on.
fn tell_piece(
    alloc: Global,
    told: &mut String,
    reader: &mut RequestReader,
    piece: &[u8],
) -> Result<bool, ReadFault> {
    reader.feed(piece)?;
    Ok(tell_requests(alloc, told, reader)?)
}

fn tell_pieces(
    alloc: Global,
    told: &mut String,
    reader: &mut RequestReader,
    stream: &[u8],
    size: usize,
) -> Result<(), ReadFault> {
    for piece in stream.chunks(size.max(1)) {
        if !tell_piece(alloc, told, reader, piece)? {
            return Ok(());
        }
    }
    told.push_str("none")?;
    Ok(())
}

fn tell_in_two(
    alloc: Global,
    told: &mut String,
    reader: &mut RequestReader,
    stream: &[u8],
    cut: usize,
) -> Result<(), ReadFault> {
    let (front, back) = stream.split_at(cut.min(stream.len()));
    for piece in [front, back] {
        if !tell_piece(alloc, told, reader, piece)? {
            return Ok(());
        }
    }
    told.push_str("none")?;
    Ok(())
}

/// All requests of a stream that comes in pieces of a size, and then `none` or the fault's name.
pub fn told(alloc: Global, stream: &[u8], size: usize) -> Result<String, ReadFault> {
    let mut told = String::new(alloc);
    let mut reader = RequestReader::new(alloc);
    tell_pieces(alloc, &mut told, &mut reader, stream, size)?;
    Ok(told)
}

/// The same of a stream that is cut at one place.
pub fn told_in_two(alloc: Global, stream: &[u8], cut: usize) -> Result<String, ReadFault> {
    let mut told = String::new(alloc);
    let mut reader = RequestReader::new(alloc);
    tell_in_two(alloc, &mut told, &mut reader, stream, cut)?;
    Ok(told)
}
