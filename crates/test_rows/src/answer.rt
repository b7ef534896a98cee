//! What is printed of a line.

use crate::kinds::tried;
use crate::row::named;
use std::alloc::{AllocError, Global};

/// A row's name, and after a colon what came of it.
fn of_row(alloc: Global, kind: &str, row: &str) -> Result<String, AllocError> {
    let (name, parts) = named(row);
    match tried(alloc, kind, parts) {
        Ok(text) if text.is_empty() => format!(in alloc; "{name}:"),
        Ok(text) => format!(in alloc; "{name}: {text}"),
        Err(fault) => format!(in alloc; "{name}: {fault}"),
    }
}

/// What is printed of a line: of a heading the line itself.
pub fn answer(alloc: Global, line: &str) -> Result<String, AllocError> {
    match line.split_once(' ') {
        Some(("#", _)) => String::from_str(alloc, line),
        Some((kind, row)) => of_row(alloc, kind, row),
        None => String::from_str(alloc, line),
    }
}
