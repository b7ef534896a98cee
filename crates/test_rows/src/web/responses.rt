//! The texts of responses, by RFC 9112, sections 4 to 6 and 9.6, and RFC 9110, sections 5.6.7, 6.6.1 and 8.6.

use crate::escape::shown;
use crate::fault::RowFault;
use crate::row::{first, number};
use http::StatusCode;
use std::alloc::{AllocError, Global};
use sv_message::write_response;
use sv_model::{Response, Sequence, plain_type};

fn hello(
    alloc: Global,
    status: StatusCode,
    head_only: bool,
    close: bool,
) -> Result<Response, AllocError> {
    let mut fields = Sequence::new(alloc);
    fields.push(plain_type())?;
    let mut body = Sequence::new(alloc);
    body.extend_from_slice(b"Hello\n")?;
    Ok(Response {
        status,
        fields,
        body,
        head_only,
        close,
    })
}

/// The text that is written of a response, after bytes that are there already.
fn written(alloc: Global, response: &Response, now: u64) -> Result<String, AllocError> {
    let mut out = Vec::from_slice(alloc, b"before ")?;
    write_response(alloc, response, now, &mut out)?;
    match out.strip_prefix(b"before ") {
        Some(text) => shown(alloc, text),
        None => String::from_str(alloc, "what stood before has changed"),
    }
}

/// The text of a copy.
fn written_again(alloc: Global, response: &Response, now: u64) -> Result<String, AllocError> {
    let copy = response.copy(alloc)?;
    written(alloc, &copy, now)
}

/// A copy of the response `Hello` of a status, to `HEAD` or another method, which `closes` or `stays`, at a moment in seconds
/// since 1970.
pub fn response(alloc: Global, parts: &str) -> Result<String, RowFault> {
    let (code, rest) = first(parts);
    let (method, rest) = first(rest);
    let (fate, now) = first(rest);
    let now = number(now)?;
    let Ok(status) = StatusCode::from_bytes(code.as_bytes()) else {
        return Err(RowFault::Part);
    };
    let response = hello(alloc, status, method == "HEAD", fate == "closes")?;
    Ok(written_again(alloc, &response, now)?)
}
