//! The servlet of a path, with its servlet path and path info (sections 3.5, 12.1 and 12.2).

use crate::fault::RowFault;
use crate::row::first;
use std::alloc::{AllocError, Global};
use sv_mapping::{MappingFault, Mappings, Pattern};

/// The number of a path's servlet, and between angle brackets its servlet path and after a bar its path info.
pub fn servlet_text(alloc: Global, mappings: &Mappings, path: &str) -> Result<String, AllocError> {
    let Some(found) = mappings.find(path) else {
        return String::from_str(alloc, "none");
    };
    let front = found.servlet_path(path);
    match found.path_info(path) {
        Some(info) => format!(in alloc; "{} <{front}|{info}>", found.servlet),
        None => format!(in alloc; "{} <{front}>", found.servlet),
    }
}

/// Maps a pattern to a servlet.
fn add(
    alloc: Global,
    mappings: &mut Mappings,
    text: &str,
    servlet: usize,
) -> Result<(), MappingFault> {
    let pattern = Pattern::read(alloc, text)?;
    mappings.add(pattern, servlet)
}

/// Maps the patterns to the servlets 0, 1 and so on, and gives the last fault.
fn add_all(alloc: Global, mappings: &mut Mappings, patterns: &str) -> Option<MappingFault> {
    let mut last = None;
    for (servlet, text) in patterns.split('|').enumerate() {
        if let Err(fault) = add(alloc, mappings, text, servlet) {
            last = Some(fault);
        }
    }
    last
}

/// The servlet of a path, which is the first part; the others are patterns, mapped to the servlets 0, 1 and so on.
pub fn servlet(alloc: Global, parts: &str) -> Result<String, RowFault> {
    let (path, rest) = first(parts);
    let mut mappings = Mappings::new(alloc);
    let fault = add_all(alloc, &mut mappings, rest);
    let text = servlet_text(alloc, &mappings, path)?;
    match fault {
        Some(fault) => Ok(format!(in alloc; "{fault:?}, and {text}")?),
        None => Ok(text),
    }
}
