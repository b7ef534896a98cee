//! How many keys a node knows by the records of its journal, and what it knows of them.

use crate::digits::bytes_of_digits;
use crate::fault::RowFault;
use crate::row::{first, size};
use std::alloc::Global;
use sv_control::{FoundFault, KeysLine, Replayed, records_of, replay};

/// The payloads that parts say, one each.
fn payloads_of(alloc: Global, parts: &str) -> Result<Vec<Vec<u8>>, RowFault> {
    let mut payloads = Vec::new(alloc);
    for digits in parts.split('|') {
        payloads.push(bytes_of_digits(alloc, digits)?)?;
    }
    Ok(payloads)
}

fn replayed(alloc: Global, payloads: &[Vec<u8>]) -> Result<Replayed, FoundFault> {
    let records = records_of(alloc, payloads)?;
    replay(alloc, &records)
}

/// Of a node that may know as many keys as the first part says. Each other part is a record.
fn line_of(alloc: Global, parts: &str) -> Result<KeysLine, RowFault> {
    let (limit, records) = first(parts);
    let limit = size(limit)?;
    let payloads = payloads_of(alloc, records)?;
    match replayed(alloc, &payloads) {
        Ok(found) => Ok(KeysLine::of(&found, limit)),
        Err(fault) => Err(fault.into()),
    }
}

/// What is said of such a node's keys.
pub fn text(alloc: Global, parts: &str) -> Result<String, RowFault> {
    let line = line_of(alloc, parts)?;
    Ok(format!(in alloc; "{line}")?)
}

/// The same as JSON.
pub fn json(alloc: Global, parts: &str) -> Result<String, RowFault> {
    let line = line_of(alloc, parts)?;
    match serde_json::to_string(alloc, &line) {
        Ok(text) => Ok(text),
        Err(_) => Err(RowFault::Memory),
    }
}
