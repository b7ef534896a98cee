//! A request as a site is asked it.

ghost use Rattle.std.specs.Prelude.{◌≡◌, IfOk};

use crate::copied::Copied;
use crate::field::Field;
use crate::sequence::Sequence;
use crate::text::Text;
use http::Method;
use std::alloc::{AllocError, Global};

/// A parameter of the query or of a form, decoded.
#[derive(Drop)]
pub struct Param {
    pub name: Text,
    pub value: Text,
}

/// A pair of the Cookie field (RFC 6265, section 4.2.1), as it was sent.
#[derive(Drop)]
pub struct Cookie {
    pub name: Sequence<u8>,
    pub value: Sequence<u8>,
}

/// A request (RFC 9110, section 3.4) with its target already read.
pub struct Request {
    pub method: Method,
    /// The path of the target as it was sent.
    pub raw_path: Text,
    /// The path without dot segments, decoded once; it begins with `/`.
    pub path: Text,
    /// What stands after the first `?` of the target, as it was sent.
    pub query: Option<Text>,
    /// All fields in order, names in lower case.
    pub fields: Sequence<Field>,
    /// The pairs of all Cookie fields in order.
    pub cookies: Sequence<Cookie>,
    /// The parameters of the query, then those of a form in the body.
    pub params: Sequence<Param>,
    pub body: Sequence<u8>,
    /// The connection closes after the response.
    pub close: bool,
}

impl Copied for Param {
    fn copy(&self, alloc: Global) -> Result<Param, AllocError> {
        Ok(Param {
            name: self.name.copy(alloc)?,
            value: self.value.copy(alloc)?,
        })
    }
}

impl Copied for Cookie {
    fn copy(&self, alloc: Global) -> Result<Cookie, AllocError> {
        Ok(Cookie {
            name: self.name.copy(alloc)?,
            value: self.value.copy(alloc)?,
        })
    }
}

fn copied(alloc: Global, text: &Option<Text>) -> Result<Option<Text>, AllocError>
    ensures { IfOk result (λ copy. copy ≡ text.now) }
{
    match text {
        Some(text) => Ok(Some(text.copy(alloc)?)),
        None => Ok(None),
    }
}

impl Request {
    /// An equal request; the values of its fields share their bytes with it.
    pub fn copy(&self, alloc: Global) -> Result<Request, AllocError>
        ensures { IfOk result (λ copy. copy ≡ self.now) }
    {
        Ok(Request {
            raw_path: self.raw_path.copy(alloc)?,
            path: self.path.copy(alloc)?,
            fields: self.fields.copy(alloc)?,
            cookies: self.cookies.copy(alloc)?,
            params: self.params.copy(alloc)?,
            body: self.body.copy(alloc)?,
            query: copied(alloc, &self.query)?,
            method: self.method.clone()?,
            close: self.close,
        })
    }
}

/// By hand, so that the proof of a caller has one step for it and not a step for each field.
impl Drop for Request {
    fn drop(self) {
        let Request {
            method: _,
            raw_path: _,
            path: _,
            query: _,
            fields: _,
            cookies: _,
            params: _,
            body: _,
            close: _,
        } = self;
    }
}
