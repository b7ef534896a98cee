//! The parts of a form's body (RFC 7578; RFC 2046, section 5.1.1).

ghost use Rattle.std.specs.Prelude.{◌≡◌, ◌+◌, ◌≤◌, ℕ, codes, length, IfOk, option_and_then, option_copied, option_map};
ghost use Rattle.sv_web.specs.Multipart as spec;
ghost use Rattle.sv_web.specs.Request.{field as spec_field};

use crate::cutting::{before, begins_with, behind, cut, is_type};
use crate::request::field;
use std::alloc::{AllocError, Global};
use std::marker::Model;
use sv_model::Field;
use sv_servlet::Call;

fn without_blank(text: &[u8]) -> &[u8]
    ensures { result.now ≡ spec.without_blank text.now }
{
    if begins_with(text, b" ") {
        &text[1..]
    } else {
        text
    }
}

/// The value of a field of a head: the rest of its line.
#[tactic(auto, unfolding(crate::specs::Multipart::line_of))]
fn line_of<'a>(alloc: Global, head: &'a [u8], key: &[u8]) -> Result<Option<&'a [u8]>, AllocError>
    ensures { IfOk result (λ found. option_copied found ≡ spec.line_of head.now key.now) }
{
    match behind(alloc, head, key)? {
        Some(value) => Ok(Some(before(without_blank(value), b"\r\n"))),
        None => Ok(None),
    }
}

/// The quoted value of a parameter.
#[tactic(auto, unfolding(crate::specs::Multipart::quoted_of))]
fn quoted_of<'a>(alloc: Global, text: &'a [u8], key: &[u8]) -> Result<Option<&'a [u8]>, AllocError>
    ensures { IfOk result (λ found. option_copied found ≡ spec.quoted_of text.now key.now) }
{
    match behind(alloc, text, key)? {
        Some(value) => Ok(Some(before(value, b"\""))),
        None => Ok(None),
    }
}

/// A parameter of the field `content-disposition` (RFC 7578, section 4.2).
#[tactic(auto, unfolding(crate::specs::Multipart::disposed))]
fn disposed<'a>(alloc: Global, head: &'a [u8], key: &[u8]) -> Result<Option<&'a [u8]>, AllocError>
    ensures { IfOk result (λ found. option_copied found ≡ spec.disposed head.now key.now) }
{
    match line_of(alloc, head, b"\r\ncontent-disposition:")? {
        Some(line) => quoted_of(alloc, line, key),
        None => Ok(None),
    }
}

fn is_named(alloc: Global, head: &[u8], name: &str) -> Result<bool, AllocError>
    ensures { IfOk result (λ is. is ≡ spec.is_named head.now name.now) }
{
    match disposed(alloc, head, b" name=\"")? {
        Some(text) => Ok(text == name.as_bytes()),
        None => Ok(false),
    }
}

/// Where a step of the search for a part leads to.
#[derive(Clone, Copy)]
enum Search<'a> {
    Over,
    /// A head, and the content.
    Here(&'a [u8], &'a [u8]),
    /// The text after the next delimiter.
    Further(&'a [u8]),
}

/// One step of the search.
#[tactic(auto, unfolding(crate::specs::Multipart::found))]
fn step<'a>(
    alloc: Global,
    text: &'a [u8],
    delimiter: &[u8],
    name: &str,
) -> Result<Search<'a>, AllocError>
    ensures { IfOk result (λ search. (n : ℕ) → spec.found (n + 1) text.now delimiter.now name.now ≡ spec.found_by search n delimiter.now name.now) }
{
    if begins_with(text, b"--") {
        return Ok(Search::Over);
    }
    let Some((part, next)) = cut(text, delimiter) else {
        return Ok(Search::Over);
    };
    let Some((head, content)) = cut(part, b"\r\n\r\n") else {
        return Ok(Search::Further(next));
    };
    if is_named(alloc, head, name)? {
        return Ok(Search::Here(head, content));
    }
    Ok(Search::Further(next))
}

/// The head and the content of the first part of a name, among the first 64.
fn find<'a>(
    alloc: Global,
    text: &'a [u8],
    delimiter: &[u8],
    name: &str,
) -> Result<Option<(&'a [u8], &'a [u8])>, AllocError>
    ensures { IfOk result (λ found. option_map (λ p. (p.0.now, p.1.now)) found ≡ spec.found 64 text.now delimiter.now name.now) }
{
    let mut rest = text;
    for _past in 0..64u8 {
        match step(alloc, rest, delimiter, name)? {
            Search::Over => return Ok(None),
            Search::Here(head, content) => return Ok(Some((head, content))),
            Search::Further(next) => rest = next,
        }
    }
    Ok(None)
}

/// What stands after the first delimiter.
#[tactic(auto, unfolding(crate::specs::Multipart::first_behind))]
fn first_behind<'a>(body: &'a [u8], delimiter: &[u8]) -> Option<&'a [u8]>
    requires { 2 ≤ length delimiter.now }
    ensures { option_copied result ≡ spec.first_behind body.now delimiter.now }
{
    if begins_with(body, &delimiter[2..]) {
        return Some(&body[delimiter.len() - 2..]);
    }
    match cut(body, delimiter) {
        Some((_, behind)) => Some(behind),
        None => None,
    }
}

#[tactic(auto, unfolding(crate::specs::Multipart::unquoted))]
fn unquoted(text: &[u8]) -> &[u8]
    ensures { result.now ≡ spec.unquoted text.now }
{
    if begins_with(text, b"\"") {
        before(&text[1..], b"\"")
    } else {
        before(text, b";")
    }
}

/// The boundary that a content type names, where it is that of such a form (RFC 7578, section 4.1).
fn boundary_of(alloc: Global, value: &[u8]) -> Result<Option<&[u8]>, AllocError>
    ensures { IfOk result (λ found. option_copied found ≡ spec.boundary_of value.now) }
{
    if !is_type(alloc, value, "multipart/form-data")? {
        return Ok(None);
    }
    match behind(alloc, value, b"boundary=")? {
        Some(text) => Ok(Some(unquoted(text))),
        None => Ok(None),
    }
}

/// The boundary of a request.
fn boundary<'a>(alloc: Global, fields: &'a [Field]) -> Result<Option<&'a [u8]>, AllocError>
    ensures { IfOk result (λ found. option_copied found ≡ option_and_then spec.boundary_of (spec_field fields.now (codes "content-type"))) }
{
    match field(fields, "content-type") {
        Some(value) => boundary_of(alloc, value),
        None => Ok(None),
    }
}

/// The head and the content of the first part of a name.
#[tactic(auto, unfolding(crate::specs::Multipart::part_in))]
fn part_in<'a>(
    alloc: Global,
    body: &'a [u8],
    boundary: &[u8],
    name: &str,
) -> Result<Option<(&'a [u8], &'a [u8])>, AllocError>
    ensures { IfOk result (λ found. option_map (λ p. (p.0.now, p.1.now)) found ≡ spec.part_in body.now boundary.now name.now) }
{
    let mut delimiter = Vec::from_slice(alloc, b"\r\n--")?;
    delimiter.extend_from_slice(boundary)?;
    match first_behind(body, delimiter.as_slice()) {
        Some(text) => find(alloc, text, delimiter.as_slice(), name),
        None => Ok(None),
    }
}

/// A part of a form's body.
#[derive(Drop)]
pub struct FormPart<'a> {
    /// The name of a file on the client's side, as it was sent; it is no path of the server's.
    pub file_name: Option<&'a [u8]>,
    /// The media type that the client gives it.
    pub media_type: Option<&'a [u8]>,
    pub content: &'a [u8],
}

impl<'a> Model for FormPart<'a> {
    ghost use Rattle.std.specs.Option.{option_map};
    ghost use Rattle.sv_web.specs.Multipart.{PartOf};

    ghost Value = { PartOf };

    ghost view = { λ p. record {
      file_name = option_map (λ t. t.now) p.file_name;
      media_type = option_map (λ t. t.now) p.media_type;
      content = p.content.now;
    } };
}

/// A part, of its head and its content.
#[tactic(auto, unfolding(crate::specs::Multipart::part_of))]
fn part_of<'a>(alloc: Global, head: &'a [u8], content: &'a [u8]) -> Result<FormPart<'a>, AllocError>
    ensures { IfOk result (λ part. part ≡ spec.part_of head.now content.now) }
{
    let file_name = disposed(alloc, head, b" filename=\"")?;
    let media_type = line_of(alloc, head, b"\r\ncontent-type:")?;
    Ok(FormPart {
        file_name,
        media_type,
        content,
    })
}

/// The first part of a name, in a body that is `multipart/form-data` (`getPart`); none in any other.
///
/// Names are compared as they were sent, in quotes (RFC 7578, section 4.2). The first 64 parts are looked at.
pub fn part<'a>(
    alloc: Global,
    call: &Call<'a>,
    name: &str,
) -> Result<Option<FormPart<'a>>, AllocError>
    ensures { IfOk result (λ part. part ≡ spec.part call.now name.now) }
{
    let body = call.body;
    let Some(boundary) = boundary(alloc, call.fields)? else {
        return Ok(None);
    };
    match part_in(alloc, body, boundary, name)? {
        Some((head, content)) => Ok(Some(part_of(alloc, head, content)?)),
        None => Ok(None),
    }
}
