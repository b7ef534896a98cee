//! The attributes of a request, in two copies of which one changes.
//!
//! The parts of `request-attributes` are what is set, `NAME=VALUE` with blanks between; the names that are then removed from the one; and
//! the names whose values are read of it. `init` has no parts: an object whose initialisation wants memory says so by `?`.

use crate::fault::RowFault;
use crate::listed::push_listed;
use crate::row;
use std::alloc::{AllocError, Global};
use sv_servlet::{InitFault, RequestAttributes};

fn set_all(attributes: &mut RequestAttributes, pairs: &str) -> Result<(), AllocError> {
    for pair in pairs.split(' ') {
        let (name, value) = row::pair(pair);
        attributes.insert(name, value)?;
    }
    Ok(())
}

fn remove_all(attributes: &mut RequestAttributes, names: &str) {
    for name in names.split(' ') {
        attributes.remove(name);
    }
}

/// The values of these names, or `none`.
fn values_text(
    alloc: Global,
    attributes: &RequestAttributes,
    names: &str,
) -> Result<String, AllocError> {
    let mut text = String::new(alloc);
    for name in names.split(' ') {
        push_listed(&mut text, attributes.get(name).unwrap_or("none"))?;
    }
    Ok(text)
}

fn push_pair(alloc: Global, list: &mut String, name: &str, value: &str) -> Result<(), AllocError> {
    let pair = format!(in alloc; "{name}={value}")?;
    push_listed(list, &pair)
}

/// Names and values in order.
fn listed(alloc: Global, attributes: &RequestAttributes) -> Result<String, AllocError> {
    let mut list = String::new(alloc);
    for (name, value) in attributes.iter() {
        push_pair(alloc, &mut list, name, value)?;
    }
    Ok(list)
}

/// The values that are read, and all of the attributes.
fn changed_text(
    alloc: Global,
    attributes: &RequestAttributes,
    names: &str,
) -> Result<String, AllocError> {
    let values = values_text(alloc, attributes, names)?;
    let all = listed(alloc, attributes)?;
    format!(in alloc; "{values}; {all}")
}

/// What comes of a copy that changes, beside the one that doesn't.
fn both_text(
    alloc: Global,
    attributes: &mut RequestAttributes,
    copy: &RequestAttributes,
    parts: &str,
) -> Result<String, AllocError> {
    let (removed, read) = row::first(parts);
    remove_all(attributes, removed);
    let changed = changed_text(alloc, attributes, read)?;
    let whole = listed(alloc, copy)?;
    format!(in alloc; "{changed}; {whole}")
}

pub fn attributes(alloc: Global, parts: &str) -> Result<String, RowFault> {
    let (pairs, rest) = row::first(parts);
    let mut attributes = RequestAttributes::new(alloc);
    set_all(&mut attributes, pairs)?;
    let copy = attributes.copy()?;
    Ok(both_text(alloc, &mut attributes, &copy, rest)?)
}

/// An object's initialisation.
fn init(alloc: Global) -> Result<(), InitFault> {
    let mut attributes = RequestAttributes::new(alloc);
    attributes.insert("a", "1")?;
    Ok(())
}

pub fn init_text(alloc: Global) -> Result<String, RowFault> {
    match init(alloc) {
        Ok(()) => Ok(String::from_str(alloc, "done")?),
        Err(fault) => Ok(format!(in alloc; "{fault:?}")?),
    }
}
