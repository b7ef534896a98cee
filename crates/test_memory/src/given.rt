//! What cases are given: values that own memory at each place where they can.

use http::Method;
use http_header::{HeaderName, HeaderValue};
use std::alloc::{AllocError, Global};
use sv_model::{
    Attributes, Cookie, Field, Key, Param, Request, Response, Secret, Sequence, Session, Text,
    plain_type,
};

/// The first session of node 0.
pub const KEY: Key = Key { home: 0, serial: 1 };

pub const SECRET: Secret = Secret([1; 16]);

/// In whole seconds.
pub const NOW: u64 = 1_000;

pub fn text(alloc: Global, text: &str) -> Result<Text, AllocError> {
    Text::from_str(alloc, text)
}

pub fn bytes(alloc: Global, bytes: &[u8]) -> Result<Sequence<u8>, AllocError> {
    let mut all = Sequence::new(alloc);
    all.extend_from_slice(bytes)?;
    Ok(all)
}

/// Puts a value at a name.
pub fn put(
    alloc: Global,
    attributes: &mut Attributes,
    name: &str,
    value: &[u8],
) -> Result<(), AllocError> {
    if attributes.size() > 1_000 || name.len() > 1_000 || value.len() > 1_000 {
        // no case has so many
        return Ok(());
    }
    let name = Text::from_str(alloc, name)?;
    let value = Sequence::from_vec(Vec::from_slice(alloc, value)?);
    attributes.insert(name, value)?;
    Ok(())
}

/// One attribute.
pub fn attributes(alloc: Global) -> Result<Attributes, AllocError> {
    let mut attributes = Attributes::new(alloc);
    put(alloc, &mut attributes, "user", b"ann")?;
    Ok(attributes)
}

pub fn session(alloc: Global) -> Result<Session, AllocError> {
    let attributes = attributes(alloc)?;
    Ok(Session {
        context: 0,
        secret: SECRET,
        created: NOW,
        last: NOW,
        interval: 1_800,
        fresh: true,
        attributes,
    })
}

fn fields(alloc: Global) -> Result<Sequence<Field>, AllocError> {
    let mut fields = Sequence::new(alloc);
    fields.push(plain_type())?;
    Ok(fields)
}

fn cookie(alloc: Global) -> Result<Cookie, AllocError> {
    let name = bytes(alloc, b"colour")?;
    let value = bytes(alloc, b"green")?;
    Ok(Cookie { name, value })
}

fn param(alloc: Global) -> Result<Param, AllocError> {
    let name = text(alloc, "user")?;
    let value = text(alloc, "ann")?;
    Ok(Param { name, value })
}

pub fn params(alloc: Global) -> Result<Sequence<Param>, AllocError> {
    let mut params = Sequence::new(alloc);
    params.push(param(alloc)?)?;
    Ok(params)
}

/// Puts something in each of a request's lists.
fn fill(alloc: Global, request: &mut Request) -> Result<(), AllocError> {
    request.fields.push(plain_type())?;
    request.cookies.push(cookie(alloc)?)?;
    request.params.push(param(alloc)?)?;
    request.body.extend_from_slice(b"body")
}

/// A request for a path, with nothing in its lists.
fn empty_request(alloc: Global, path: &str) -> Result<Request, AllocError> {
    Ok(Request {
        method: Method::GET,
        raw_path: text(alloc, path)?,
        path: text(alloc, path)?,
        query: Some(text(alloc, "user=ann")?),
        fields: Sequence::new(alloc),
        cookies: Sequence::new(alloc),
        params: Sequence::new(alloc),
        body: Sequence::new(alloc),
        close: false,
    })
}

/// A request for a path, with something in each of its lists.
pub fn request(alloc: Global, path: &str) -> Result<Request, AllocError> {
    let mut request = empty_request(alloc, path)?;
    fill(alloc, &mut request)?;
    Ok(request)
}

pub fn response(alloc: Global) -> Result<Response, AllocError> {
    Ok(Response {
        status: http::StatusCode::OK,
        fields: fields(alloc)?,
        body: bytes(alloc, b"Hello\n")?,
        head_only: false,
        close: false,
    })
}

/// A field that no reply has.
pub fn field(alloc: Global) -> Result<Field, AllocError> {
    let name = match HeaderName::from_bytes(alloc, b"x-own-name-of-a-field") {
        Ok(name) => name,
        Err(_) => return Err(AllocError),
    };
    let value = match HeaderValue::from_str(alloc, "a value of its own") {
        Ok(value) => value,
        Err(_) => return Err(AllocError),
    };
    Ok(Field { name, value })
}
