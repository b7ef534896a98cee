//! What a request asks, and the numbers in it.
//!
//! `u8`, `u16` and `u64` have a text that may be a number; `post` has a method; `parameter` and `parameter-or` have a name and
//! parameters as `a=1&b=2`, of which nothing is decoded. `parameter-or` has `other` where there is no such parameter.

use crate::fault::RowFault;
use crate::row;
use http::Method;
use std::alloc::{AllocError, Global};
use sv_model::{Param, Text};
use sv_web::{is_post, read_u8, read_u16, read_u64};

/// A number, or `none`.
pub fn shown(alloc: Global, number: Option<u64>) -> Result<String, RowFault> {
    match number {
        Some(number) => Ok(format!(in alloc; "{number}")?),
        None => Ok(String::from_str(alloc, "none")?),
    }
}

pub fn u8(alloc: Global, word: &str) -> Result<String, RowFault> {
    shown(alloc, read_u8(word).map(u64::from))
}

pub fn u16(alloc: Global, word: &str) -> Result<String, RowFault> {
    shown(alloc, read_u16(word).map(u64::from))
}

pub fn u64(alloc: Global, word: &str) -> Result<String, RowFault> {
    shown(alloc, read_u64(word))
}

/// `yes` or `no`.
pub fn answered(alloc: Global, is_so: bool) -> Result<String, RowFault> {
    Ok(String::from_str(alloc, if is_so { "yes" } else { "no" })?)
}

pub fn post(alloc: Global, word: &str) -> Result<String, RowFault> {
    match Method::from_bytes(alloc, word.as_bytes()) {
        Ok(method) => answered(alloc, is_post(&method)),
        Err(_) => Err(RowFault::Part),
    }
}

fn param(alloc: Global, pair: &str) -> Result<Param, AllocError> {
    let (name, value) = row::pair(pair);
    Ok(Param {
        name: Text::from_str(alloc, name)?,
        value: Text::from_str(alloc, value)?,
    })
}

fn params(alloc: Global, query: &str) -> Result<Vec<Param>, RowFault> {
    let mut params = Vec::new(alloc);
    for pair in query.split('&') {
        params.push(param(alloc, pair)?)?;
    }
    Ok(params)
}

/// The value between angle brackets, or `none`.
pub fn parameter(alloc: Global, words: &str) -> Result<String, RowFault> {
    let (name, query) = row::first_word(words);
    let params = params(alloc, query)?;
    match sv_web::parameter(&params, name) {
        Some(value) => Ok(format!(in alloc; "<{value}>")?),
        None => Ok(String::from_str(alloc, "none")?),
    }
}

/// The value between angle brackets.
pub fn parameter_or(alloc: Global, words: &str) -> Result<String, RowFault> {
    let (name, query) = row::first_word(words);
    let params = params(alloc, query)?;
    let value = sv_web::parameter_or(alloc, &params, name, "other")?;
    Ok(format!(in alloc; "<{}>", value.as_str())?)
}
