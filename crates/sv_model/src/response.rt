//! A response as an engine answers it.

ghost use Rattle.std.specs.Prelude.{◌≡◌, IfOk};

use crate::field::Field;
use crate::sequence::Sequence;
use http::StatusCode;
use std::alloc::{AllocError, Global};

/// A response (RFC 9110, section 3.4) before it is written.
#[derive(Drop)]
pub struct Response {
    pub status: StatusCode,
    /// The fields in the order in which they are written; the writer adds Date, Content-Length and Connection.
    pub fields: Sequence<Field>,
    pub body: Sequence<u8>,
    /// The body isn't written, as in an answer to HEAD.
    pub head_only: bool,
    /// The connection closes after the response.
    pub close: bool,
}

impl Response {
    /// An equal response; the values of its fields share their bytes with it.
    pub fn copy(&self, alloc: Global) -> Result<Response, AllocError>
        ensures { IfOk result (λ copy. copy ≡ self.now) }
    {
        Ok(Response {
            status: self.status,
            fields: self.fields.copy(alloc)?,
            body: self.body.copy(alloc)?,
            head_only: self.head_only,
            close: self.close,
        })
    }
}
