//! The fields of a reply (RFC 9110, section 5), of texts that are the program's own.

ghost use Rattle.std.specs.Prelude.{◌≡◌, IfOk, IsTrue};
ghost use Rattle.http_header.specs.FieldName.{is_header_name};
ghost use Rattle.http_header.specs.FieldValue.{is_visible_text};
ghost use Rattle.http_header.specs.Token.{is_visible_or_blank};
ghost use Rattle.sv_model.specs.Field.{plain_type};
ghost use Rattle.sv_servlet.specs.Reply.{Answers, addition_result, field_result};
ghost use Rattle.sv_web.specs.Header.{header, html_type, visible_value};

use http_header::{CONTENT_TYPE, HeaderName, HeaderValue, HeaderValueError};
use std::alloc::{AllocError, Global};
use sv_model::Field;
use sv_servlet::{Reply, ReplyFault};

/// A byte of visible ASCII, a blank or a tab.
fn is_visible(byte: u8) -> bool
    ensures { result ≡ is_visible_or_blank byte }
{
    (byte >= 32 && byte < 127) || byte == b'\t'
}

fn is_visible_text(text: &[u8]) -> bool
    ensures { result ≡ is_visible_text text.now }
{
    text.iter().all(|byte| is_visible(*byte))
}

/// A field's value of visible bytes; none of any other.
#[tactic(auto, unfolding(crate::specs::Header::visible_value))]
pub(crate) fn visible_value(alloc: Global, text: &[u8]) -> Result<Option<HeaderValue>, AllocError>
    ensures { IfOk result (λ value. value ≡ visible_value text.now) }
{
    if !is_visible_text(text) {
        return Ok(None);
    }
    match HeaderValue::from_bytes(alloc, text) {
        Ok(value) => Ok(Some(value)),
        Err(HeaderValueError::Invalid) => Ok(None),
        Err(HeaderValueError::OutOfMemory) => Err(AllocError),
    }
}

/// The field of a name in lower case and a value of visible ASCII.
fn header(name: &'static str, value: &'static str) -> Field
    requires name { IsTrue (is_header_name name.now) }
    requires value { IsTrue (is_visible_text value.now) }
    ensures { result ≡ header name.now value.now }
{
    Field {
        name: HeaderName::from_static(name),
        value: HeaderValue::from_static(value),
    }
}

/// Sets a field of a name in lower case and a value of visible ASCII (`setHeader`); refused as [`Reply::set`] refuses it.
pub fn set_header(
    reply: &mut Reply,
    name: &'static str,
    value: &'static str,
) -> Result<(), ReplyFault>
    requires name { IsTrue (is_header_name name.now) }
    requires value { IsTrue (is_visible_text value.now) }
    ensures { Answers reply.old (field_result reply.old (header name.now value.now)) result reply.new }
{
    reply.set(header(name, value))
}

/// Adds a field of a name in lower case and a value of visible ASCII after those that there are (`addHeader`); as [`Reply::add`] adds
/// it, and for the same fields.
pub fn add_header(
    reply: &mut Reply,
    name: &'static str,
    value: &'static str,
) -> Result<(), ReplyFault>
    requires name { IsTrue (is_header_name name.now) }
    requires value { IsTrue (is_visible_text value.now) }
    ensures { Answers reply.old (addition_result reply.old (header name.now value.now)) result reply.new }
{
    reply.add(header(name, value))
}

/// `content-type: text/plain`, by the name's constant, for which no table is looked through.
fn plain_text() -> Field
    ensures { result ≡ plain_type }
{
    Field {
        name: CONTENT_TYPE,
        value: HeaderValue::from_static("text/plain"),
    }
}

/// Says that the body is plain text: `content-type: text/plain` (`setContentType`).
pub fn set_plain_text(reply: &mut Reply) -> Result<(), ReplyFault>
    ensures { Answers reply.old (field_result reply.old plain_type) result reply.new }
{
    reply.set(plain_text())
}

/// Says that the body is HTML in UTF-8: `content-type: text/html; charset=utf-8` (`setContentType`).
pub fn set_html(reply: &mut Reply) -> Result<(), ReplyFault>
    ensures { Answers reply.old (field_result reply.old html_type) result reply.new }
{
    set_header(reply, "content-type", "text/html; charset=utf-8")
}
