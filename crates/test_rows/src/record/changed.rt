//! Records with one byte changed.

use crate::digits::bytes_of_digits;
use crate::fault::RowFault;
use crate::record::spelled::Spelled;
use crate::row::{first, size};
use std::alloc::{AllocError, Global};
use sv_model::Record;
use sv_record::RecordFault;

/// The bytes with this value at a place.
fn with_byte(alloc: Global, bytes: &[u8], at: usize, value: u8) -> Result<Vec<u8>, AllocError> {
    let mut changed = Vec::from_slice(alloc, bytes)?;
    if let Some(byte) = changed.get_mut(at) {
        *byte = value;
    }
    Ok(changed)
}

fn spelled(is_so: bool) -> Result<bool, RowFault> {
    if is_so {
        Ok(true)
    } else {
        Err(RowFault::Spelling)
    }
}

/// Whether bytes are read as a record; and if so, it has to be spelled so.
fn is_read(alloc: Global, bytes: &[u8]) -> Result<bool, RowFault> {
    match Record::again(alloc, bytes) {
        Ok((_, again)) => spelled(again.as_slice() == bytes),
        Err(RecordFault::Memory) => Err(RowFault::Memory),
        Err(_) => Ok(false),
    }
}

/// How many of the 256 values at a place are read.
fn values_read(alloc: Global, bytes: &[u8], at: usize) -> Result<u64, RowFault> {
    let mut read = 0u64;
    for value in 0..=255u8 {
        let changed = with_byte(alloc, bytes, at, value)?;
        if is_read(alloc, &changed)? {
            read = read.saturating_add(1);
        }
    }
    Ok(read)
}

/// The numbers of values that are read at places one after the other: one number where they are all the same.
fn numbers_text(
    alloc: Global,
    bytes: &[u8],
    start: usize,
    places: usize,
) -> Result<String, RowFault> {
    let want = values_read(alloc, bytes, start)?;
    for at in start..start.saturating_add(places) {
        let read = values_read(alloc, bytes, at)?;
        if read != want {
            return Ok(format!(in alloc; "{want}, but {read} at {at}")?);
        }
    }
    Ok(format!(in alloc; "{want}")?)
}

/// How many of the 256 values are read at each of the places from the first part on, so many as the second one says,
/// in the record of the third one.
pub fn changed(alloc: Global, parts: &str) -> Result<String, RowFault> {
    let (start, rest) = first(parts);
    let (places, digits) = first(rest);
    let (start, places) = (size(start)?, size(places)?);
    let bytes = bytes_of_digits(alloc, digits)?;
    numbers_text(alloc, &bytes, start, places)
}
