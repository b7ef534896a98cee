//! The context of a path, and the path within it (section 12.1).

use crate::fault::RowFault;
use crate::row::first;
use std::alloc::{AllocError, Global};
use sv_mapping::{choose_context, is_at_or_below, path_in_context};

/// Adds a context path.
fn add_path(paths: &mut Vec<String>, alloc: Global, path: &str) -> Result<(), AllocError> {
    paths.push(String::from_str(alloc, path)?)?;
    Ok(())
}

/// The context paths that the parts are.
fn paths_of(alloc: Global, parts: &str) -> Result<Vec<String>, AllocError> {
    let mut paths = Vec::new(alloc);
    for part in parts.split('|') {
        add_path(&mut paths, alloc, part)?;
    }
    Ok(paths)
}

/// The number of the context that a path has among context paths.
pub fn context_text(alloc: Global, contexts: &[String], path: &str) -> Result<String, AllocError> {
    match choose_context(contexts, path) {
        Some(context) => format!(in alloc; "{context}"),
        None => String::from_str(alloc, "none"),
    }
}

/// The context of a path, which is the first part; the others are the context paths.
pub fn context(alloc: Global, parts: &str) -> Result<String, RowFault> {
    let (path, rest) = first(parts);
    let contexts = paths_of(alloc, rest)?;
    Ok(context_text(alloc, &contexts, path)?)
}

/// The path within a context of a path that is at or below it.
pub fn below(alloc: Global, parts: &str) -> Result<String, RowFault> {
    let (context, path) = first(parts);
    if is_at_or_below(context, path) {
        Ok(String::from_str(alloc, path_in_context(context, path))?)
    } else {
        Ok(String::from_str(alloc, "not below")?)
    }
}
