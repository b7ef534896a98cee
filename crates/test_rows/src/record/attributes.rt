//! Records whose session has many or long attributes.

use crate::digits::bytes_of_digits;
use crate::fault::RowFault;
use crate::record::spelled::Spelled;
use crate::row::{first, number};
use std::alloc::{AllocError, Global};
use sv_model::Record;

/// A record after its version, up to the count of its session's attributes.
const TAKEN: &str = "05 00 0000000000000001 0000000000000002 03 \
    00000000000000000000000000000001 00 00000000000003e8 00000000000003e8 00000708 01";

/// Adds the bytes that digits say.
fn push_hex(alloc: Global, bytes: &mut Vec<u8>, digits: &str) -> Result<(), AllocError> {
    let more = bytes_of_digits(alloc, digits)?;
    bytes.extend_from_slice(&more)?;
    Ok(())
}

/// Adds a length of two bytes, or of four, and so many times the byte.
fn push_run(bytes: &mut Vec<u8>, is_long: bool, byte: u8, count: u64) -> Result<(), AllocError> {
    let length = count.to_be_bytes();
    if is_long {
        bytes.extend_from_slice(&length[4..])?;
    } else {
        bytes.extend_from_slice(&length[6..])?;
    }
    for _ in 0..count {
        bytes.push(byte)?;
    }
    Ok(())
}

/// Adds the attributes; the first name is all `!`, the next one all `"`.
fn push_attributes(bytes: &mut Vec<u8>, is_long: bool, counts: Counts) -> Result<(), AllocError> {
    let mut letter = 0x20u8;
    for _ in 0..counts.there {
        letter = letter.saturating_add(1);
        push_run(bytes, false, letter, counts.name)?;
        push_run(bytes, is_long, 0, counts.value)?;
    }
    Ok(())
}

/// The bytes up to the count of attributes: the version decides by how many bytes a value's length is written.
fn front_of(alloc: Global, version: &str, count: u64) -> Result<Vec<u8>, AllocError> {
    let mut bytes = bytes_of_digits(alloc, version)?;
    push_hex(alloc, &mut bytes, TAKEN)?;
    bytes.extend_from_slice(&count.to_be_bytes()[6..])?;
    Ok(bytes)
}

/// What is said of bytes that are read.
fn read_text(is_spelled: bool) -> &'static str {
    if is_spelled {
        "read"
    } else {
        "read, but spelled otherwise"
    }
}

/// Whether the bytes are read, and by version 2 spelled again; or the fault.
fn outcome(alloc: Global, bytes: &[u8], is_long: bool) -> Result<String, AllocError> {
    match Record::again(alloc, bytes) {
        Ok((_, again)) => {
            let is_spelled = !is_long || again.as_slice() == bytes;
            String::from_str(alloc, read_text(is_spelled))
        }
        Err(fault) => format!(in alloc; "{fault:?}"),
    }
}

/// Numbers of attributes, and the lengths of their names and values.
#[derive(Clone, Copy)]
struct Counts {
    /// How many the record says that there are.
    said: u64,
    there: u64,
    name: u64,
    value: u64,
}

fn counts_of(parts: &str) -> Result<Counts, RowFault> {
    let (said, rest) = first(parts);
    let (there, rest) = first(rest);
    let (name, value) = first(rest);
    Ok(Counts {
        said: number(said)?,
        there: number(there)?,
        name: number(name)?,
        value: number(value)?,
    })
}

/// The bytes of a version and of these attributes.
fn bytes_of(alloc: Global, version: &str, counts: Counts) -> Result<Vec<u8>, AllocError> {
    let mut bytes = front_of(alloc, version, counts.said)?;
    push_attributes(&mut bytes, version == "02", counts)?;
    Ok(bytes)
}

/// A record by a version that says a number of attributes, has so many with names and values of these lengths, and
/// then the bytes of the last part.
pub fn attributes(alloc: Global, parts: &str) -> Result<String, RowFault> {
    let (version, rest) = first(parts);
    let (rest, behind) = rest.rsplit_once('|').unwrap_or((rest, ""));
    let counts = counts_of(rest)?;
    let mut bytes = bytes_of(alloc, version, counts)?;
    push_hex(alloc, &mut bytes, behind)?;
    Ok(outcome(alloc, &bytes, version == "02")?)
}
