//! Parameters, by the URL Standard, section 5.1, and which body is a form, by RFC 9110, section 8.3.1.

use crate::escape::{bytes_of, push_pair, shown};
use crate::fault::RowFault;
use crate::row::first;
use crate::web::fields::fields_of;
use http::Method;
use std::alloc::{AllocError, Global};
use sv_model::Param;
use sv_target::{form, params};

/// Each parameter as its name, a bar and its value between angle brackets.
fn params_text(alloc: Global, params: &[Param]) -> Result<String, AllocError> {
    let mut text = String::new(alloc);
    for param in params {
        push_pair(
            &mut text,
            param.name.as_str().as_bytes(),
            param.value.as_str().as_bytes(),
        )?;
    }
    Ok(text)
}

/// The parameters of a query and a form.
fn told(alloc: Global, query: &[u8], form: &[u8]) -> Result<String, AllocError> {
    let found = params(alloc, query, form)?;
    params_text(alloc, found.as_slice())
}

fn told_twice(alloc: Global, text: &[u8]) -> Result<String, AllocError> {
    let query = told(alloc, text, b"")?;
    let form = told(alloc, b"", text)?;
    if form.as_str() == query.as_str() {
        return Ok(query);
    }
    format!(in alloc; "{query}, but as a form {form}")
}

/// The parameters of a text: as a query and as a form they have to be the same.
pub fn parameters(alloc: Global, parts: &str) -> Result<String, RowFault> {
    let bytes = bytes_of(alloc, parts)?;
    Ok(told_twice(alloc, &bytes)?)
}

/// The parameters of a query and of the form after it.
pub fn both(alloc: Global, parts: &str) -> Result<String, RowFault> {
    let (query, form) = first(parts);
    let query = bytes_of(alloc, query)?;
    let form = bytes_of(alloc, form)?;
    Ok(told(alloc, &query, &form)?)
}

/// What of the body `a=1` is a form, in a request of a method and fields.
pub fn body(alloc: Global, parts: &str) -> Result<String, RowFault> {
    let (name, rest) = first(parts);
    let fields = fields_of(alloc, rest)?;
    let Ok(method) = Method::from_bytes(alloc, name.as_bytes()) else {
        return Err(RowFault::Part);
    };
    Ok(shown(alloc, form(&method, fields.as_slice(), b"a=1"))?)
}
