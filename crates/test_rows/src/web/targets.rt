//! Targets of requests and paths within a context, by RFC 9112, section 3.2, and RFC 3986, sections 2.1, 3.3 and 5.2.4.

use crate::escape::{bytes_of, push_shown, shown};
use crate::fault::RowFault;
use crate::row::first;
use http::Method;
use std::alloc::{AllocError, Global};
use sv_target::{Target, TargetFault};

/// The path of a target and after ` ?` its query.
fn target_text(alloc: Global, target: &Target) -> Result<String, AllocError> {
    let mut text = shown(alloc, target.path.as_str().as_bytes())?;
    if let Some(query) = &target.query {
        text.push_str(" ?")?;
        push_shown(&mut text, query.as_str().as_bytes())?;
    }
    Ok(text)
}

/// The text of a target, or the fault.
fn answer_text(alloc: Global, answer: Result<Target, TargetFault>) -> Result<String, AllocError> {
    match answer {
        Ok(target) => target_text(alloc, &target),
        Err(fault) => format!(in alloc; "{fault:?}"),
    }
}

/// What comes of bytes as the target of a request.
fn as_target(alloc: Global, method: &Method, bytes: &[u8]) -> Result<String, RowFault> {
    match str::from_utf8(bytes) {
        Ok(raw) => Ok(answer_text(alloc, Target::read(alloc, method, raw))?),
        Err(_) => Err(RowFault::Part),
    }
}

/// What comes of bytes as a path within a context.
fn as_path(alloc: Global, bytes: &[u8]) -> Result<String, RowFault> {
    match str::from_utf8(bytes) {
        Ok(text) => Ok(answer_text(alloc, Target::read_within(alloc, text))?),
        Err(_) => Err(RowFault::Part),
    }
}

/// A text, with what comes of the bytes within a context where that isn't right.
fn judged(alloc: Global, text: &str, within: &str, is_right: bool) -> Result<String, AllocError> {
    if is_right {
        String::from_str(alloc, text)
    } else {
        format!(in alloc; "{text}, but within a context {within}")
    }
}

fn same_within(alloc: Global, raw: &[u8]) -> Result<String, RowFault> {
    let text = as_target(alloc, &Method::GET, raw)?;
    let within = as_path(alloc, raw)?;
    let is_right = within.as_str() == text.as_str();
    Ok(judged(alloc, &text, &within, is_right)?)
}

fn bad_within(alloc: Global, raw: &[u8]) -> Result<String, RowFault> {
    let text = as_target(alloc, &Method::GET, raw)?;
    let within = as_path(alloc, raw)?;
    let is_right = within.as_str() == "BadTarget";
    Ok(judged(alloc, &text, &within, is_right)?)
}

/// The target of a GET, which has to be the same as a path within a context.
pub fn path(alloc: Global, parts: &str) -> Result<String, RowFault> {
    let raw = bytes_of(alloc, parts)?;
    same_within(alloc, &raw)
}

/// The target of a GET, of a form that no path within a context has.
pub fn target(alloc: Global, parts: &str) -> Result<String, RowFault> {
    let raw = bytes_of(alloc, parts)?;
    bad_within(alloc, &raw)
}

/// The target of a request of a method.
pub fn method(alloc: Global, parts: &str) -> Result<String, RowFault> {
    let (name, raw) = first(parts);
    let raw = bytes_of(alloc, raw)?;
    let Ok(method) = Method::from_bytes(alloc, name.as_bytes()) else {
        return Err(RowFault::Part);
    };
    as_target(alloc, &method, &raw)
}

fn raw_path_text(alloc: Global, bytes: &[u8]) -> Result<String, AllocError> {
    match str::from_utf8(bytes) {
        Ok(raw) => match Target::read(alloc, &Method::GET, raw) {
            Ok(target) => shown(alloc, target.raw_path.as_str().as_bytes()),
            Err(fault) => format!(in alloc; "{fault:?}"),
        },
        Err(_) => String::from_str(alloc, "no UTF-8"),
    }
}

/// The path of a GET's target as it was sent.
pub fn raw_path(alloc: Global, parts: &str) -> Result<String, RowFault> {
    let raw = bytes_of(alloc, parts)?;
    Ok(raw_path_text(alloc, &raw)?)
}
