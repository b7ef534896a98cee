//! An answer as it is kept.

ghost use Rattle.std.specs.Prelude.{◌≡◌, ◌++◌, ◌&&◌, IfOk, IsTrue, OnOk, map, length, option_map, nat_lt};
ghost use Rattle.std.specs.List.{flat_map, list_all};
ghost use Rattle.sv_once.specs.Answer as spec;

use crate::field::{field_of, is_field, push_field};
use crate::parts::{byte_at, cut_long, cut_short, long_at, past, push_number};
use http::StatusCode;
use std::alloc::{AllocError, Global};
use sv_model::{Field, Request, Response, Sequence, is_head};

/// The bytes of an answer that is kept, at most: its status, its fields and its body.
pub const ANSWER_LIMIT: usize = 2_048;

fn is_status(status: usize) -> bool
    ensures { result ≡ spec.is_status status }
{
    100 <= status && status <= 999
}

// ---- as bytes

fn are_fields(fields: &[Field]) -> bool
    ensures { result ≡ list_all spec.is_field (map spec.shown_field fields.now) }
{
    for field in fields {
        if !is_field(field.name.as_bytes(), field.value.as_bytes()) {
            return false;
        }
    }
    true
}

/// Status and fields can be kept.
fn is_answer(status: StatusCode, fields: &[Field]) -> bool
    ensures { result ≡ (spec.is_answer status (map spec.shown_field fields.now) && nat_lt (length (map spec.shown_field fields.now)) 256) }
{
    (is_status(usize::from(status.as_u16())) && are_fields(fields)) && fields.len() < 256
}

fn push_fields(out: &mut Vec<u8>, fields: &[Field]) -> Result<(), AllocError>
    requires { IsTrue (list_all spec.is_field (map spec.shown_field fields.now)) }
    ensures { OnOk result (out.new.items ≡ out.old.items ++ flat_map spec.field_bytes (map spec.shown_field fields.now)) }
{
    for field in fields {
        push_field(out, field)?;
    }
    Ok(())
}

/// The bytes of a response that can be kept.
#[tactic(auto, unfolding(crate::specs::Answer::answer_bytes))]
fn answer_bytes(alloc: Global, response: &Response) -> Result<Vec<u8>, AllocError>
    requires { IsTrue (spec.is_answer response.now.status (map spec.shown_field response.now.fields) && nat_lt (length (map spec.shown_field response.now.fields)) 256) }
    ensures { IfOk result (λ bytes. bytes.items ≡ spec.answer_bytes (spec.shown response.now)) }
{
    let mut bytes = Vec::new(alloc);
    push_number(&mut bytes, usize::from(response.status.as_u16()))?;
    bytes.push(response.fields.len() as u8)?;
    push_fields(&mut bytes, response.fields.as_slice())?;
    bytes.extend_from_slice(response.body.as_slice())?;
    Ok(bytes)
}

/// What is kept of a response: its status, its fields and its body; nothing where they are longer than [`ANSWER_LIMIT`].
#[tactic(auto, unfolding(crate::specs::Answer::kept_answer))]
pub fn kept_answer(alloc: Global, response: &Response) -> Result<Sequence<u8>, AllocError>
    ensures { IfOk result (λ bytes. bytes ≡ spec.kept_answer response.now) }
{
    if !is_answer(response.status, response.fields.as_slice()) {
        return Ok(Sequence::new(alloc));
    }
    if response.body.len() > ANSWER_LIMIT {
        return Ok(Sequence::new(alloc));
    }
    let bytes = answer_bytes(alloc, response)?;
    if bytes.len() > ANSWER_LIMIT {
        return Ok(Sequence::new(alloc));
    }
    Ok(Sequence::from_vec(bytes))
}

// ---- as it is read

/// So many fields, and what follows them.
fn fields_in<'a>(
    alloc: Global,
    count: usize,
    bytes: &'a [u8],
) -> Result<(Vec<(&'a [u8], &'a [u8])>, &'a [u8]), AllocError>
    ensures fields { IfOk result (λ r. map (λ p. (p.0.now, p.1.now)) r.0.items ≡ spec.fields_in count bytes.now) }
    ensures rest { IfOk result (λ r. r.1.now ≡ spec.past_fields count bytes.now) }
{
    let mut fields = Vec::new(alloc);
    let mut rest = bytes;
    let mut left = count;
    while left > 0 {
        let (name, more) = cut_short(rest);
        let (value, more) = cut_long(more);
        fields.push((name, value))?;
        rest = more;
        left -= 1;
    }
    Ok((fields, rest))
}

fn are_pairs(pairs: &[(&[u8], &[u8])]) -> bool
    ensures { result ≡ list_all spec.is_field (map (λ p. (p.0.now, p.1.now)) pairs.now) }
{
    for (name, value) in pairs {
        if !is_field(name, value) {
            return false;
        }
    }
    true
}

fn fields_of(alloc: Global, pairs: &[(&[u8], &[u8])]) -> Result<Vec<Field>, AllocError>
    requires { IsTrue (list_all spec.is_field (map (λ p. (p.0.now, p.1.now)) pairs.now)) }
    ensures { IfOk result (λ fields. fields.items ≡ map spec.field_of (map (λ p. (p.0.now, p.1.now)) pairs.now)) }
{
    let mut fields = Vec::new(alloc);
    for (name, value) in pairs {
        fields.push(field_of(alloc, name, value)?)?;
    }
    Ok(fields)
}

/// The response to a request that shows a status, these fields and a body.
fn response_with(
    alloc: Global,
    request: &Request,
    status: usize,
    pairs: &[(&[u8], &[u8])],
    body: &[u8],
) -> Result<Option<Response>, AllocError>
    ensures { IfOk result (λ r. r ≡ option_map (spec.response_of request.now) (spec.answer_with status (map (λ p. (p.0.now, p.1.now)) pairs.now) body.now)) }
{
    if !is_status(status) || !are_pairs(pairs) {
        return Ok(None);
    }
    let Ok(status) = StatusCode::from_u16(status as u16) else {
        return Ok(None);
    };
    let fields = fields_of(alloc, pairs)?;
    let body = Vec::from_slice(alloc, body)?;
    Ok(Some(Response {
        status,
        fields: Sequence::from_vec(fields),
        body: Sequence::from_vec(body),
        head_only: is_head(&request.method),
        close: request.close,
    }))
}

/// The response to a request that bytes keep, if they keep one.
#[tactic(auto, unfolding(crate::specs::Answer::answer_in))]
pub fn response_in(
    alloc: Global,
    request: &Request,
    bytes: &[u8],
) -> Result<Option<Response>, AllocError>
    ensures { IfOk result (λ r. r ≡ option_map (spec.response_of request.now) (spec.answer_in bytes.now)) }
{
    let (pairs, body) = fields_in(alloc, byte_at(2, bytes), past(bytes, 3))?;
    response_with(alloc, request, long_at(bytes), pairs.as_slice(), body)
}
