//! What a node answers to a request.

use httparse::{EMPTY_HEADER, Header, Response, Status};
use std::alloc::{AllocError, Global};
use std::str;
use sv_client::{Session, session_set};

/// The fields of a response, at most: 64 of an application, and those that a container and a connection add.
const FIELDS: usize = 80;

/// What is looked at of a response.
#[derive(Drop)]
pub struct Reply<'a> {
    pub status: u16,
    /// The session whose cookie is set.
    pub session: Option<Session>,
    pub body: &'a [u8],
}

/// The session that the fields set last.
fn session_of(alloc: Global, fields: &[Header<'_>]) -> Result<Option<Session>, AllocError> {
    let mut session = None;
    for field in fields {
        if field.name.eq_ignore_ascii_case("set-cookie") {
            if let Some(set) = session_set(alloc, field.value)? {
                session = Some(set);
            }
        }
    }
    Ok(session)
}

/// The length of the body, where the fields say it.
fn length_of(fields: &[Header<'_>]) -> Option<usize> {
    let field = fields
        .iter()
        .find(|field| field.name.eq_ignore_ascii_case("content-length"))?;
    str::from_utf8(field.value).ok()?.parse::<usize>().ok()
}

/// The body of that length, or all bytes where no length is said (RFC 9112, section 6.3).
fn whole(body: &[u8], length: Option<usize>) -> Option<&[u8]> {
    match length {
        Some(length) if body.len() != length => None,
        _ => Some(body),
    }
}

/// The response that all bytes of a connection are; none where they are no whole one, or where memory is refused.
pub fn read_reply(alloc: Global, bytes: &[u8]) -> Option<Reply<'_>> {
    let mut fields = [EMPTY_HEADER; FIELDS];
    let mut response = Response::new(&mut fields);
    let Ok(Status::Complete(len)) = response.parse(bytes) else {
        return None;
    };
    Some(Reply {
        status: response.code?,
        session: session_of(alloc, response.headers).ok()?,
        body: whole(bytes.get(len..)?, length_of(response.headers))?,
    })
}
