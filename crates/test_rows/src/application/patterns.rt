//! Texts as patterns, by the forms of section 12.2.

use crate::escape::bytes_of;
use crate::fault::RowFault;
use crate::repeat::repeated;
use std::alloc::{AllocError, Global};
use sv_mapping::Pattern;

/// The form of a pattern, which has to print as the text that it was read from.
fn form_text(alloc: Global, pattern: &Pattern, text: &str) -> Result<String, AllocError> {
    let printed = format!(in alloc; "{pattern}")?;
    let form = pattern.form();
    if pattern.as_str() == text && printed.as_str() == text {
        format!(in alloc; "{form:?}")
    } else {
        format!(in alloc; "{form:?}, but it prints as {printed}")
    }
}

/// The form of a text as a pattern, or the fault.
fn pattern_text(alloc: Global, text: &str) -> Result<String, AllocError> {
    match Pattern::read(alloc, text) {
        Ok(pattern) => form_text(alloc, &pattern, text),
        Err(fault) => format!(in alloc; "{fault:?}"),
    }
}

fn of_bytes(alloc: Global, bytes: &[u8]) -> Result<String, RowFault> {
    match str::from_utf8(bytes) {
        Ok(text) => Ok(pattern_text(alloc, text)?),
        Err(_) => Err(RowFault::Part),
    }
}

/// The form of a text as a pattern.
pub fn pattern(alloc: Global, parts: &str) -> Result<String, RowFault> {
    let bytes = bytes_of(alloc, parts)?;
    of_bytes(alloc, &bytes)
}

/// The form of a text that is too long to be written out.
pub fn long(alloc: Global, parts: &str) -> Result<String, RowFault> {
    let bytes = repeated(alloc, parts)?;
    of_bytes(alloc, &bytes)
}
