//! Streams of requests, by RFC 9112 and RFC 9110: the same is told of them, however they are cut.

use crate::escape::{bytes_of, push_bytes};
use crate::fault::RowFault;
use crate::repeat::repeated;
use crate::web::told::{told, told_in_two};
use std::alloc::{AllocError, Global};
use sv_message::ReadFault;

/// More bytes than a stream that is written out has.
const WHOLE: usize = 8_192;

/// What stands before a row that is a body.
const HEAD: &[u8] = b"POST / HTTP/1.1\r\nHost: h\r\n";

fn is_told(answer: Result<String, ReadFault>, want: &str) -> bool {
    match answer {
        Ok(text) => text.as_str() == want,
        Err(_) => false,
    }
}

/// The first size of pieces in which another text is told.
fn other_size(alloc: Global, stream: &[u8], want: &str) -> Option<usize> {
    for size in [1, 2, 3, 5, 7] {
        if !is_told(told(alloc, stream, size), want) {
            return Some(size);
        }
    }
    None
}

/// The first place where another text is told of the stream, cut there.
fn other_cut(alloc: Global, stream: &[u8], want: &str) -> Option<usize> {
    for cut in 0..=stream.len() {
        if !is_told(told_in_two(alloc, stream, cut), want) {
            return Some(cut);
        }
    }
    None
}

/// A text, with what is wrong about the stream in pieces and cut in two.
fn judged(
    alloc: Global,
    text: &str,
    size: Option<usize>,
    cut: Option<usize>,
) -> Result<String, AllocError> {
    if let Some(size) = size {
        return format!(in alloc; "{text}, but not in pieces of {size}");
    }
    if let Some(cut) = cut {
        return format!(in alloc; "{text}, but not when cut at {cut}");
    }
    String::from_str(alloc, text)
}

/// What is told of a stream: whole, in pieces of each size, and cut at each byte.
fn told_each_way(alloc: Global, stream: &[u8]) -> Result<String, AllocError> {
    match told(alloc, stream, WHOLE) {
        Ok(text) => {
            let size = other_size(alloc, stream, text.as_str());
            let cut = other_cut(alloc, stream, text.as_str());
            judged(alloc, text.as_str(), size, cut)
        }
        Err(fault) => format!(in alloc; "fed, it is {fault:?}"),
    }
}

/// Whole streams.
pub fn stream(alloc: Global, parts: &str) -> Result<String, RowFault> {
    let stream = bytes_of(alloc, parts)?;
    Ok(told_each_way(alloc, &stream)?)
}

/// The fields that frame a body, and the body, after `POST / HTTP/1.1` and a Host field.
pub fn body(alloc: Global, parts: &str) -> Result<String, RowFault> {
    let mut stream = Vec::from_slice(alloc, HEAD)?;
    push_bytes(&mut stream, parts)?;
    Ok(told_each_way(alloc, &stream)?)
}

fn told_by_seven(alloc: Global, stream: &[u8]) -> Result<String, AllocError> {
    match told(alloc, stream, 7) {
        Ok(text) => Ok(text),
        Err(fault) => format!(in alloc; "fed, it is {fault:?}"),
    }
}

/// A stream that is too long to be written out, in pieces of 7 bytes.
pub fn long(alloc: Global, parts: &str) -> Result<String, RowFault> {
    let stream = repeated(alloc, parts)?;
    Ok(told_by_seven(alloc, &stream)?)
}
