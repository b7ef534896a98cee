//! The filters of a dispatch (sections 6.2.4 and 6.2.5).

use crate::escape::bytes_of;
use crate::fault::RowFault;
use crate::row::{first, first_word, size};
use std::alloc::{AllocError, Global};
use sv_mapping::{Dispatcher, Dispatchers, FilterMapping, FilterTarget, Pattern, filters_for};

/// The dispatcher of a word.
pub fn dispatcher_of(word: &str) -> Result<Dispatcher, RowFault> {
    match word.parse::<Dispatcher>() {
        Ok(dispatcher) => Ok(dispatcher),
        Err(_) => Err(RowFault::Part),
    }
}

/// The dispatchers of words with blanks between them.
fn dispatchers_of(alloc: Global, words: &str) -> Result<Dispatchers, RowFault> {
    let mut listed = Vec::new(alloc);
    for word in words.split(' ') {
        if !word.is_empty() {
            listed.push(dispatcher_of(word)?)?;
        }
    }
    Ok(Dispatchers::of(&listed))
}

/// What a filter is mapped to: `servlet=` and the number of one, or a pattern.
fn target_of(alloc: Global, text: &str) -> Result<FilterTarget, RowFault> {
    if let Some(servlet) = text.strip_prefix("servlet=") {
        return Ok(FilterTarget::Servlet(size(servlet)?));
    }
    match Pattern::read(alloc, text) {
        Ok(pattern) => Ok(FilterTarget::Pattern(pattern)),
        Err(_) => Err(RowFault::Part),
    }
}

/// A filter's number, what it is mapped to, and the words of dispatchers, with blanks between them.
fn mapping_of(alloc: Global, part: &str) -> Result<FilterMapping, RowFault> {
    let Some((filter, rest)) = part.split_once(' ') else {
        return Err(RowFault::Part);
    };
    let (target, words) = first_word(rest);
    let filter = size(filter)?;
    let dispatchers = dispatchers_of(alloc, words)?;
    let target = target_of(alloc, target)?;
    Ok(FilterMapping {
        filter,
        target,
        dispatchers,
    })
}

fn mappings_of(alloc: Global, parts: &str) -> Result<Vec<FilterMapping>, RowFault> {
    let mut mappings = Vec::new(alloc);
    for part in parts.split('|') {
        mappings.push(mapping_of(alloc, part)?)?;
    }
    Ok(mappings)
}

/// The numbers of filters, with blanks between them.
fn numbers_text(alloc: Global, filters: &[usize]) -> Result<String, AllocError> {
    let mut text = String::new(alloc);
    for filter in filters {
        if !text.is_empty() {
            text.push_str(" ")?;
        }
        text.push_str(&format!(in alloc; "{filter}")?)?;
    }
    Ok(text)
}

/// The filters of a dispatch to a path, which has a servlet of this number or none.
pub fn chain_text(
    alloc: Global,
    mappings: &[FilterMapping],
    path: &str,
    servlet: Option<usize>,
    dispatcher: Dispatcher,
) -> Result<String, AllocError> {
    match filters_for(alloc, mappings, path, servlet, dispatcher) {
        Ok(chain) => numbers_text(alloc, &chain),
        Err(fault) => format!(in alloc; "{fault:?}"),
    }
}

/// The servlet of a number, or none for a dash.
fn servlet_of(text: &str) -> Result<Option<usize>, RowFault> {
    if text == "-" {
        return Ok(None);
    }
    Ok(Some(size(text)?))
}

/// The filters of a dispatch: the path, the servlet, the dispatcher's word, and the filter mappings in order.
pub fn filters(alloc: Global, parts: &str) -> Result<String, RowFault> {
    let (path, rest) = first(parts);
    let (servlet, rest) = first(rest);
    let (word, rest) = first(rest);
    let servlet = servlet_of(servlet)?;
    let dispatcher = dispatcher_of(word)?;
    let mappings = mappings_of(alloc, rest)?;
    Ok(chain_text(alloc, &mappings, path, servlet, dispatcher)?)
}

/// The dispatcher that a word means, and its own word.
pub fn dispatcher(alloc: Global, parts: &str) -> Result<String, RowFault> {
    let bytes = bytes_of(alloc, parts)?;
    let word = str::from_utf8(&bytes).unwrap_or("");
    match word.parse::<Dispatcher>() {
        Ok(dispatcher) => Ok(format!(in alloc; "{dispatcher:?} {}", dispatcher.word())?),
        Err(_) => Ok(String::from_str(alloc, "none")?),
    }
}
