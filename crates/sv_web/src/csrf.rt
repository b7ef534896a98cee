//! The filter that tells a site's own forms from those of others by a token of the session.

ghost use Rattle.std.specs.Prelude.{◌≡◌, bytes_eq, option_copied, IfOk};
ghost use Rattle.sv_session.specs.Calls.{value_result};
ghost use Rattle.sv_web.specs.Attributes.{SetsNumber};
ghost use Rattle.sv_web.specs.Csrf as spec;
ghost use Rattle.sv_web.specs.Exchange.{CompletesGiving};

use crate::attributes::has_session;
use crate::exchange::Exchange;
use crate::http_filter::HttpFilter;
use crate::multipart::part;
use crate::refusal::Refusal;
use crate::request::{field, parameter};
use crate::tokens::token;
use http::Method;
use std::alloc::{AllocError, Global};
use sv_model::{Sequence, Text};
use sv_servlet::{Before, Call, Reply};
use sv_session::{SessionEdit, SessionFault};

/// The attribute of a session that has its token.
const ATTRIBUTE: &str = "csrf";

/// Refuses what a page of another site has a client send (OWASP's synchronizer token pattern).
///
/// A session gets a token at its first GET or HEAD, or where a servlet asks for it by [`csrf_token`], and keeps it as the attribute
/// `csrf`. A request of any other method than GET, HEAD, OPTIONS and TRACE (RFC 9110, section 9.2.1) has to bring it, as its first
/// parameter `csrf`, or else as the field `x-csrf-token`, or else as the first part `csrf` of a `multipart/form-data` (RFC 7578): else
/// it is answered 403, and no servlet is called. So a form is shown to a session alone.
#[derive(Clone, Copy)]
pub struct Csrf;

/// Whether two texts are the same. Of texts of one length all bytes are looked at, wherever they differ.
fn is_equal(one: &[u8], other: &[u8]) -> bool
    ensures { result ≡ bytes_eq one.now other.now }
{
    let mut is_equal = true;
    let mut left = one;
    let mut right = other;
    while let [byte, left_tail @ ..] = left {
        let [other_byte, right_tail @ ..] = right else {
            return false;
        };
        is_equal &= *byte == *other_byte;
        left = left_tail;
        right = right_tail;
    }
    is_equal && right.is_empty()
}

/// Whether a method is to change nothing.
fn is_safe(method: &Method) -> bool
    ensures { result ≡ spec.is_safe method.now }
{
    let method = method.as_str();
    method == "GET" || method == "HEAD" || method == "OPTIONS" || method == "TRACE"
}

/// The token that a session keeps; none without a session.
fn kept_token(edit: &SessionEdit) -> Option<&[u8]>
    ensures { option_copied result ≡ spec.kept_token edit.entry.now }
{
    match edit.get(ATTRIBUTE) {
        Ok(token) => token,
        Err(_) => None,
    }
}

/// The token among the parts of a request's body.
fn part_token<'a>(alloc: Global, call: &Call<'a>) -> Result<Option<&'a [u8]>, AllocError>
    ensures { IfOk result (λ token. option_copied token ≡ spec.part_token call.now) }
{
    match part(alloc, call, "csrf")? {
        Some(part) => Ok(Some(part.content)),
        None => Ok(None),
    }
}

/// The token that a request brings.
fn brought<'a>(alloc: Global, call: &Call<'a>) -> Result<Option<&'a [u8]>, AllocError>
    ensures { IfOk result (λ token. option_copied token ≡ spec.brought call.now) }
{
    if let Some(token) = parameter(call.params, "csrf") {
        return Ok(Some(token.as_bytes()));
    }
    if let Some(token) = field(call.fields, "x-csrf-token") {
        return Ok(Some(token));
    }
    part_token(alloc, call)
}

/// Whether a request brings the token of its session.
fn has_token(alloc: Global, call: &Call<'_>, edit: &SessionEdit) -> Result<bool, AllocError>
    ensures { IfOk result (λ is. is ≡ spec.is_same (spec.brought call.now) (spec.kept_token edit.entry.now)) }
{
    match (brought(alloc, call)?, kept_token(edit)) {
        (Some(sent), Some(token)) => Ok(is_equal(sent, token)),
        _ => Ok(false),
    }
}

/// Lets a request through that brings the token of its session.
fn admit(alloc: Global, call: &Call<'_>, edit: &SessionEdit) -> Result<Before, AllocError>
    ensures { IfOk result (λ before. before ≡ spec.admitted call.now edit.entry.now) }
{
    if has_token(alloc, call, edit)? {
        return Ok(Before::Pass);
    }
    let text = Text::from_str(alloc, "This request has no token of its session.")?;
    Ok(Before::SendError { code: 403, text })
}

/// The token that a request makes, as the bytes that are kept.
fn new_token(alloc: Global, edit: &SessionEdit) -> Result<Sequence<u8>, AllocError>
    ensures { IfOk result (λ token. token ≡ spec.new_token edit.entry.now) }
{
    let token = token(alloc, edit, "csrf")?;
    Ok(Sequence::from_vec(Vec::from_slice(alloc, token.as_str().as_bytes())?))
}

/// Makes a session's token and keeps it.
fn make_token(alloc: Global, edit: &mut SessionEdit) -> Result<(), SessionFault>
    ensures { SetsNumber edit.old (value_result edit.old spec.attribute (spec.new_token edit.old)) result edit.new }
{
    let token = new_token(alloc, edit)?;
    edit.set(ATTRIBUTE, Some(token.as_slice()))
}

impl HttpFilter for Csrf {
    ghost use Rattle.sv_web.specs.Csrf.{guarding};

    ghost work = { λ _. guarding };

    fn before(
        &mut self,
        alloc: Global,
        call: &Call<'_>,
        edit: &mut SessionEdit,
        _reply: &mut Reply,
    ) -> Result<Before, Refusal> {
        if !is_safe(call.method) {
            return Ok(admit(alloc, call, edit)?);
        }
        if has_session(edit) && kept_token(edit).is_none() {
            make_token(alloc, edit)?;
        }
        Ok(Before::Pass)
    }

    fn after(
        &mut self,
        _alloc: Global,
        _call: &Call<'_>,
        _edit: &mut SessionEdit,
        _reply: &mut Reply,
    ) -> Result<(), AllocError> {
        Ok(())
    }
}

/// Bytes in memory of their own.
fn copied(alloc: Global, bytes: Option<&[u8]>) -> Result<Option<Sequence<u8>>, AllocError>
    ensures { IfOk result (λ copy. copy ≡ option_copied bytes.entry) }
{
    match bytes {
        Some(bytes) => Ok(Some(Sequence::from_vec(Vec::from_slice(alloc, bytes)?))),
        None => Ok(None),
    }
}

/// The token of the session, for the hidden field `csrf` of a form; it is made and kept where there is none. NoSession without a session.
#[tactic(auto, unfolding(crate::specs::Csrf::csrf_token))]
pub fn csrf_token(web: &mut Exchange<'_>) -> Result<Sequence<u8>, Refusal>
    ensures { CompletesGiving spec.csrf_token web.old web.new result }
{
    if let Some(token) = copied(web.alloc, web.edit.get(ATTRIBUTE)?)? {
        return Ok(token);
    }
    let token = new_token(web.alloc, web.edit)?;
    web.edit.set(ATTRIBUTE, Some(token.as_slice()))?;
    Ok(token)
}
