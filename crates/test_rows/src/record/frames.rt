//! Frames.

use crate::digits::bytes_of_digits;
use crate::fault::RowFault;
use crate::record::shown::frame_text;
use crate::row::first;
use std::alloc::{AllocError, Global};
use sv_record::{Frame, RecordFault, read_frame, write_frame};

/// What stands at the front of a stream: a frame, the bytes that it takes, and its spelling.
#[derive(Drop)]
struct Front {
    frame: Frame,
    taken: usize,
    again: Vec<u8>,
}

fn front_of(alloc: Global, stream: &[u8]) -> Result<Option<Front>, RecordFault> {
    let mut again = Vec::new(alloc);
    match read_frame(alloc, stream)? {
        Some((frame, taken)) => {
            write_frame(&frame, &mut again)?;
            Ok(Some(Front {
                frame,
                taken,
                again,
            }))
        }
        None => Ok(None),
    }
}

/// What is wrong about the bytes that a frame takes, or about its spelling.
fn fault_of(front: &Front, len: usize, spelled: &[u8]) -> Option<&'static str> {
    if front.taken != len {
        Some("takes other bytes")
    } else if front.again.as_slice() != spelled {
        Some("is spelled otherwise")
    } else {
        None
    }
}

fn front_text(
    alloc: Global,
    front: &Front,
    len: usize,
    spelled: &[u8],
) -> Result<String, AllocError> {
    let text = frame_text(alloc, &front.frame)?;
    match fault_of(front, len, spelled) {
        Some(fault) => format!(in alloc; "{text}, but it {fault}"),
        None => Ok(text),
    }
}

/// The frame at the front of a stream, which has to take so many bytes and to be spelled so.
fn told(alloc: Global, stream: &[u8], len: usize, spelled: &[u8]) -> Result<String, AllocError> {
    match front_of(alloc, stream) {
        Ok(Some(front)) => front_text(alloc, &front, len, spelled),
        Ok(None) => String::from_str(alloc, "none yet"),
        Err(fault) => format!(in alloc; "{fault:?}"),
    }
}

/// The first place where a frame, cut there, isn't answered by none.
fn other_cut(alloc: Global, bytes: &[u8]) -> Option<usize> {
    for end in 0..bytes.len() {
        if !matches!(read_frame(alloc, &bytes[..end]), Ok(None)) {
            return Some(end);
        }
    }
    None
}

/// The same where the bytes are a frame.
fn cut_of(alloc: Global, bytes: &[u8]) -> Option<usize> {
    if matches!(read_frame(alloc, bytes), Ok(Some(_))) {
        other_cut(alloc, bytes)
    } else {
        None
    }
}

/// What is told of bytes with the first two of another frame after them.
fn told_with_more(alloc: Global, bytes: &[u8]) -> Result<String, AllocError> {
    let mut more = Vec::from_slice(alloc, bytes)?;
    more.extend_from_slice(&[0xe1, 0x00])?;
    told(alloc, &more, bytes.len(), bytes)
}

/// The frame that bytes are: the same with more after it, and none before its end.
fn told_each_way(alloc: Global, bytes: &[u8]) -> Result<String, AllocError> {
    let text = told(alloc, bytes, bytes.len(), bytes)?;
    let behind = told_with_more(alloc, bytes)?;
    if behind.as_str() != text.as_str() {
        return format!(in alloc; "{text}, but with more behind it {behind}");
    }
    match cut_of(alloc, bytes) {
        Some(end) => format!(in alloc; "{text}, but not when cut at {end}"),
        None => Ok(text),
    }
}

/// What a frame says.
pub fn frame(alloc: Global, parts: &str) -> Result<String, RowFault> {
    let bytes = bytes_of_digits(alloc, parts)?;
    Ok(told_each_way(alloc, &bytes)?)
}

/// What a frame with a packet by version 1 says; the second part is its spelling by version 2.
pub fn old(alloc: Global, parts: &str) -> Result<String, RowFault> {
    let (old, now) = first(parts);
    let old = bytes_of_digits(alloc, old)?;
    let now = bytes_of_digits(alloc, now)?;
    Ok(told(alloc, &old, old.len(), &now)?)
}
