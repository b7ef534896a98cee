//! Descriptors, and what each says.

use crate::application::shown::{cluster_text, contexts_text};
use crate::escape::{bytes_of, push_bytes, shown};
use crate::fault::RowFault;
use crate::row::{first, number};
use std::alloc::{AllocError, Global};
use sv_config::{ConfigFault, Deployment};
use sv_control::look_at;

/// The deployment of a part that is a descriptor.
pub fn deployment_of(alloc: Global, part: &str) -> Result<Deployment, ConfigFault> {
    let bytes = bytes_of(alloc, part)?;
    match str::from_utf8(&bytes) {
        Ok(text) => Deployment::from_toml(alloc, text),
        Err(_) => Err(ConfigFault::NotToml),
    }
}

/// Whether a descriptor is read, or its fault.
fn outcome(alloc: Global, text: &str) -> Result<String, AllocError> {
    match Deployment::from_toml(alloc, text) {
        Ok(_) => String::from_str(alloc, "read"),
        Err(fault) => format!(in alloc; "{fault:?}"),
    }
}

fn outcome_of_bytes(alloc: Global, bytes: &[u8]) -> Result<String, RowFault> {
    match str::from_utf8(bytes) {
        Ok(text) => Ok(outcome(alloc, text)?),
        Err(_) => Err(RowFault::Part),
    }
}

/// Whether a descriptor is read, or its fault.
pub fn config(alloc: Global, parts: &str) -> Result<String, RowFault> {
    let bytes = bytes_of(alloc, parts)?;
    outcome_of_bytes(alloc, &bytes)
}

/// Adds a line with a number in it.
fn push_line(
    alloc: Global,
    bytes: &mut Vec<u8>,
    before: &str,
    number: u64,
    behind: &str,
) -> Result<(), AllocError> {
    push_bytes(bytes, before)?;
    bytes.extend_from_slice(format!(in alloc; "{number}")?.as_bytes())?;
    push_bytes(bytes, behind)?;
    push_bytes(bytes, "\n")
}

/// The same of a head, of a line for each number below the first part, and of a tail. In a line the number stands
/// between what is before and what is after.
pub fn counted(alloc: Global, parts: &str) -> Result<String, RowFault> {
    let (count, rest) = first(parts);
    let (head, rest) = first(rest);
    let (before, rest) = first(rest);
    let (behind, tail) = first(rest);
    let mut bytes = bytes_of(alloc, head)?;
    for n in 0..number(count)? {
        push_line(alloc, &mut bytes, before, n, behind)?;
    }
    push_bytes(&mut bytes, tail)?;
    outcome_of_bytes(alloc, &bytes)
}

/// The cluster of a descriptor.
pub fn cluster(alloc: Global, parts: &str) -> Result<String, RowFault> {
    match deployment_of(alloc, parts) {
        Ok(deployment) => Ok(cluster_text(alloc, &deployment.cluster)?),
        Err(fault) => Ok(format!(in alloc; "{fault:?}")?),
    }
}

/// The contexts of a descriptor.
pub fn contexts(alloc: Global, parts: &str) -> Result<String, RowFault> {
    match deployment_of(alloc, parts) {
        Ok(deployment) => Ok(contexts_text(alloc, &deployment.contexts)?),
        Err(fault) => Ok(format!(in alloc; "{fault:?}")?),
    }
}

/// What is told of a descriptor, and a line of what is warned of.
fn told_of(alloc: Global, text: &str) -> Result<String, AllocError> {
    let look = look_at(alloc, text)?;
    let mut told = look.text;
    if let Some(warning) = look.warning {
        told.push_str("\nwarning: ")?;
        told.push_str(warning.as_str())?;
    }
    Ok(told)
}

fn checked_bytes(alloc: Global, bytes: &[u8]) -> Result<String, RowFault> {
    match str::from_utf8(bytes) {
        Ok(text) => {
            let told = told_of(alloc, text)?;
            Ok(shown(alloc, told.as_bytes())?)
        }
        Err(_) => Err(RowFault::Part),
    }
}

/// The lines that are told of a descriptor: what it says and what is warned of, or its least fault with the places where it stands.
pub fn checked(alloc: Global, parts: &str) -> Result<String, RowFault> {
    let bytes = bytes_of(alloc, parts)?;
    checked_bytes(alloc, &bytes)
}
