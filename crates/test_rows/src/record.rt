//! Records, packets and frames in hexadecimal, spelled out by the tables of `docs/FORMATS.md` beside what they say.

pub mod attributes;
pub mod changed;
pub mod frames;
pub mod greetings;
pub mod keys;
mod shown;
pub mod spelled;

use crate::digits::bytes_of_digits;
use crate::fault::RowFault;
use std::alloc::{AllocError, Global};

/// How many bytes there are.
pub fn count(alloc: Global, parts: &str) -> Result<String, RowFault> {
    let bytes = bytes_of_digits(alloc, parts)?;
    Ok(format!(in alloc; "{}", bytes.len())?)
}

/// The bytes with another one after.
fn longer(alloc: Global, bytes: &[u8]) -> Result<Vec<u8>, AllocError> {
    let mut more = Vec::from_slice(alloc, bytes)?;
    more.push(0)?;
    Ok(more)
}

/// A text, with what is wrong about the spelling and the cuts of what it says.
fn judged(
    alloc: Global,
    text: &str,
    is_spelled: bool,
    cut: Option<usize>,
) -> Result<String, AllocError> {
    if let Some(end) = cut {
        return format!(in alloc; "{text}, but not when cut at {end}");
    }
    if is_spelled {
        String::from_str(alloc, text)
    } else {
        format!(in alloc; "{text}, but spelled otherwise")
    }
}
