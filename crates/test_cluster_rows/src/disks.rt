//! What stands on a disk, as texts.

use crate::records::push_record;
use crate::said::next_part;
use std::alloc::{AllocError, Global};
use sv_journal::MemoryDisk;
use sv_record::{Record, read_record};

/// The payload of the entry that stands in front, where its gate is open, and the bytes after it.
fn entry(bytes: &[u8]) -> Option<(&[u8], &[u8])> {
    match bytes {
        [0xA5, a, b, c, d, rest @ ..] => {
            let len = u32::from_be_bytes([*a, *b, *c, *d]) as usize;
            rest.split_at_checked(len)
        }
        _ => None,
    }
}

/// Adds a record after the version of its payload.
fn push_versioned(text: &mut String, version: u8, record: &Record) -> Result<(), AllocError> {
    write!(text, "v{version} ")?;
    push_record(text, record)
}

/// Adds the record of a payload.
fn push_payload(alloc: Global, text: &mut String, payload: &[u8]) -> Result<(), AllocError> {
    let version = payload.first().map_or(0, |version| *version);
    match read_record(alloc, payload) {
        Ok(record) => push_versioned(text, version, &record),
        Err(fault) => write!(text, "{fault:?}"),
    }
}

/// The records of the journal on a disk, in order.
pub fn records(alloc: Global, disk: &[u8]) -> Result<String, AllocError> {
    let mut text = String::new(alloc);
    let mut rest = disk.get(16..).unwrap_or(&[]);
    for _ in 0..disk.len() {
        let Some((payload, behind)) = entry(rest) else {
            return Ok(text);
        };
        next_part(&mut text)?;
        push_payload(alloc, &mut text, payload)?;
        rest = behind;
    }
    Ok(text)
}

/// The generation of the journal on a disk, where its first byte is an open gate; else 0.
pub fn generation(disk: &[u8]) -> u8 {
    match disk {
        [0xA5, ..] => disk.get(15).map_or(0, |generation| *generation),
        _ => 0,
    }
}

/// Adds a disk's name and its length, and where its first byte is an open gate its generation and its records.
fn push_disk(alloc: Global, text: &mut String, name: char, disk: &[u8]) -> Result<(), AllocError> {
    let len = disk.len();
    write!(text, "{name} has {len} bytes")?;
    let generation = generation(disk);
    if generation == 0 {
        return Ok(());
    }
    let records = records(alloc, disk)?;
    write!(text, ", generation {generation}: {records}")
}

/// What stands on both disks.
pub fn both(alloc: Global, a: &MemoryDisk, b: &MemoryDisk) -> Result<String, AllocError> {
    let mut text = String::new(alloc);
    push_disk(alloc, &mut text, 'A', a.bytes())?;
    text.push_str("; ")?;
    push_disk(alloc, &mut text, 'B', b.bytes())?;
    Ok(text)
}

/// A disk whose first byte is no open gate.
pub fn closed(alloc: Global, disk: &MemoryDisk) -> Result<MemoryDisk, AllocError> {
    let mut bytes = disk.bytes().to_vec(alloc)?;
    if let Some(gate) = bytes.first_mut() {
        *gate = 0;
    }
    MemoryDisk::with(alloc, bytes.as_slice())
}
