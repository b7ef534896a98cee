//! Bytes that are too long to be written out.

use crate::escape::{bytes_of, push_bytes};
use crate::fault::RowFault;
use crate::row::{first, number};
use std::alloc::Global;

/// The bytes of a front, of a part as often as the number after it says, and of a back.
pub fn repeated(alloc: Global, parts: &str) -> Result<Vec<u8>, RowFault> {
    let (front, rest) = first(parts);
    let (part, rest) = first(rest);
    let (count, back) = first(rest);
    let mut bytes = bytes_of(alloc, front)?;
    for _ in 0..number(count)? {
        push_bytes(&mut bytes, part)?;
    }
    push_bytes(&mut bytes, back)?;
    Ok(bytes)
}
