//! The journal of a node, read from its two files.

use crate::fault::Fault;
use std::alloc::Global;
use std::fs;
use std::io::ErrorKind;
use std::rt::Files;
use sv_control::{Replayed, entries_of, records_of, replay};
use sv_model::Record;

/// The bytes of a file; none where there is no such file.
fn bytes_of<R: Files + AllocGlobal>(rt: &R, path: &str) -> Result<Option<Vec<u8>>, Fault> {
    match fs::read(rt, path) {
        Ok(bytes) => Ok(Some(bytes)),
        Err(refused) if refused.kind() == ErrorKind::NotFound => Ok(None),
        Err(_) => Err(Fault::Unreadable),
    }
}

/// The bytes of the second file, which is there from the first opening on.
fn other_of<R: Files + AllocGlobal>(rt: &R, journal: &str) -> Result<Vec<u8>, Fault> {
    let path = format!(in rt.alloc(); "{journal}.b")?;
    match bytes_of(rt, path.as_str())? {
        Some(bytes) => Ok(bytes),
        None => Ok(Vec::new(rt.alloc())),
    }
}

/// The payloads of a journal, the oldest first.
pub fn entries<R: Files + AllocGlobal>(rt: &R, journal: &str) -> Result<Vec<Vec<u8>>, Fault> {
    let Some(a) = bytes_of(rt, journal)? else {
        return Err(Fault::Unreadable);
    };
    let b = other_of(rt, journal)?;
    match entries_of(rt.alloc(), &a, &b) {
        Ok(entries) => Ok(entries),
        Err(fault) => Err(fault.into()),
    }
}

/// The records that payloads are.
pub fn records<R: AllocGlobal>(rt: &R, entries: &[Vec<u8>]) -> Result<Vec<Record>, Fault> {
    match records_of(rt.alloc(), entries) {
        Ok(records) => Ok(records),
        Err(fault) => Err(fault.into()),
    }
}

/// What they give.
pub fn kept<R: Files + AllocGlobal>(rt: &R, journal: &str) -> Result<Replayed, Fault> {
    let entries = entries(rt, journal)?;
    let records = records(rt, &entries)?;
    match replay(rt.alloc(), &records) {
        Ok(found) => Ok(found),
        Err(fault) => Err(fault.into()),
    }
}
