//! The request that a client sends.

use crate::fault::RowFault;
use crate::words::word;
use http::Method;
use http_header::{HeaderName, HeaderValue};
use std::alloc::{AllocError, Global};
use sv_model::{Cookie, Field, Param, Request, Sequence};
use sv_target::{SESSION_COOKIE, Target, params};

fn bytes(alloc: Global, text: &str) -> Result<Sequence<u8>, AllocError> {
    let mut bytes = Sequence::new(alloc);
    bytes.extend_from_slice(text.as_bytes())?;
    Ok(bytes)
}

/// The session cookie of this value, where it has one.
fn cookies(alloc: Global, value: &str) -> Result<Sequence<Cookie>, AllocError> {
    let mut cookies = Sequence::new(alloc);
    if !value.is_empty() {
        let name = bytes(alloc, SESSION_COOKIE)?;
        let value = bytes(alloc, value)?;
        cookies.push(Cookie { name, value })?;
    }
    Ok(cookies)
}

/// The query of a target; nothing where there is none.
fn query_of(target: &Target) -> &[u8] {
    match &target.query {
        Some(query) => query.as_str().as_bytes(),
        None => &[],
    }
}

/// The field with a key, where the word is one; `-` is none.
fn fields(alloc: Global, key: &str) -> Result<Sequence<Field>, RowFault> {
    let mut fields = Sequence::new(alloc);
    if key != "-" {
        let Ok(value) = HeaderValue::from_bytes(alloc, key.as_bytes()) else {
            return Err(RowFault::Word);
        };
        let name = HeaderName::from_bytes(alloc, b"idempotency-key").map_err(|_| RowFault::Word)?;
        fields.push(Field { name, value })?;
    }
    Ok(fields)
}

fn request_of(
    method: Method,
    target: Target,
    fields: Sequence<Field>,
    cookies: Sequence<Cookie>,
    params: Sequence<Param>,
    body: Sequence<u8>,
) -> Request {
    let Target {
        raw_path,
        path,
        query,
    } = target;
    Request {
        method,
        raw_path,
        path,
        query,
        fields,
        cookies,
        params,
        body,
        close: false,
    }
}

/// The request of a method and a key that the words `TARGET COOKIE` say.
fn keyed(alloc: Global, method: Method, key: &str, words: &str) -> Result<Request, RowFault> {
    let (target, cookie) = word(words);
    let target = Target::read(alloc, &method, target)?;
    let fields = fields(alloc, key)?;
    let cookies = cookies(alloc, cookie)?;
    let params = params(alloc, query_of(&target), &[])?;
    Ok(request_of(
        method,
        target,
        fields,
        cookies,
        params,
        Sequence::new(alloc),
    ))
}

/// The request of a method that the words `KEY TARGET COOKIE` say.
fn with_method(alloc: Global, method: Method, words: &str) -> Result<Request, RowFault> {
    let (key, words) = word(words);
    keyed(alloc, method, key, words)
}

/// The GET that the words `TARGET COOKIE` say, or the request of another method that `METHOD KEY TARGET COOKIE` say, where the key
/// is that of the field `Idempotency-Key`, and `-` is none; the cookie's value may be left out.
pub fn request(alloc: Global, words: &str) -> Result<Request, RowFault> {
    match word(words) {
        ("POST", rest) => with_method(alloc, Method::POST, rest),
        ("PUT", rest) => with_method(alloc, Method::PUT, rest),
        ("HEAD", rest) => with_method(alloc, Method::HEAD, rest),
        ("GET", rest) => with_method(alloc, Method::GET, rest),
        _ => keyed(alloc, Method::GET, "-", words),
    }
}
