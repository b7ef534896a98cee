//! One segment of a path: its escapes, and the text that it stands for (RFC 3986, sections 2.1 and 3.3).

ghost use Rattle.std.specs.Prelude.{◌≡◌, position, true, false, IfOk, IsErrOf};
ghost use Rattle.std.specs.Cow.{cow_str_bytes};
ghost use Rattle.percent_encoding.specs.Percent as percent;
ghost use Rattle.sv_target.specs.Segment as spec;

use crate::fault::TargetFault;
use percent_encoding::{DecodeError, percent_decode};
use std::alloc::Global;
use std::borrow::CowStr;

/// A segment up to its first semicolon.
pub(crate) fn cut(segment: &str) -> &str
    ensures { result.now ≡ spec.cut segment.now }
{
    match segment.split_once(';') {
        Some((front, _)) => front,
        None => segment,
    }
}

fn is_forbidden(byte: u32) -> bool
    ensures { result ≡ spec.is_forbidden byte }
{
    byte == 0 || byte == 47 || byte == 92
}

/// Whether two hexadecimal digits name a byte that an escape may name.
#[tactic(auto, unfolding(crate::specs::Segment::is_allowed_escape))]
fn is_allowed_escape(high: u8, low: u8) -> bool
    ensures { result ≡ spec.is_allowed_escape high low }
{
    match (char::from(high).to_digit(16), char::from(low).to_digit(16)) {
        (Some(high), Some(low)) => !is_forbidden(16 * high + low),
        _ => false,
    }
}

fn begins_escape(text: &[u8]) -> bool
    ensures { result ≡ spec.begins_escape text.now }
{
    text.len() > 1 && is_allowed_escape(text[0], text[1])
}

/// Whether each piece of what stands after the first percent sign begins with two digits.
#[tactic(auto, unfolding(crate::specs::Segment::are_escapes))]
fn are_escapes(behind: &[u8]) -> bool
    ensures { result ≡ spec.are_escapes behind.now }
{
    behind
        .split(|byte| *byte == b'%')
        .all(|piece| begins_escape(piece))
}

fn place_of_percent(segment: &[u8]) -> Option<usize>
    ensures { result ≡ position spec.is_percent segment.now }
{
    segment.iter().position(|byte| *byte == b'%')
}

/// Whether each percent sign begins an allowed escape.
fn has_good_escapes(segment: &[u8]) -> bool
    ensures { result ≡ spec.has_good_escapes segment.now }
{
    match place_of_percent(segment) {
        Some(at) => are_escapes(&segment[at + 1..]),
        None => true,
    }
}

/// Whether a text is `.` or `..`.
#[tactic(auto, unfolding(crate::specs::Segment::is_dots))]
pub(crate) fn is_dots(text: &str) -> bool
    ensures { result ≡ spec.is_dots text.now }
{
    text == "." || text == ".."
}

/// Whether a text is `.` or `..` and was written otherwise.
fn hides_dots(text: &str, written: &str) -> bool
    ensures { result ≡ spec.hides_dots text.now written.now }
{
    is_dots(text) && !is_dots(written)
}

/// The text that a segment stands for; it is copied only where there is an escape.
#[tactic(auto, unfolding(crate::specs::Segment::is_good_segment))]
pub(crate) fn decoded(alloc: Global, segment: &str) -> Result<CowStr<'_, Global>, TargetFault>
    ensures ok { IfOk result (λ text. cow_str_bytes text ≡ percent.percent_decode segment.now) }
    ensures good { IfOk result (λ text. spec.is_good_segment segment.now ≡ true) }
    ensures bad { IsErrOf result TargetFault.BadTarget → spec.is_good_segment segment.now ≡ false }
    ensures other { IsErrOf result TargetFault.Connect → ⊥ }
{
    if !has_good_escapes(segment.as_bytes()) {
        return Err(TargetFault::BadTarget);
    }
    let text = match percent_decode(segment.as_bytes()).decode_utf8(alloc) {
        Ok(text) => text,
        Err(DecodeError::Utf8(_)) => return Err(TargetFault::BadTarget),
        Err(DecodeError::OutOfMemory) => return Err(TargetFault::Memory),
    };
    if hides_dots(text.as_str(), segment) {
        return Err(TargetFault::BadTarget);
    }
    Ok(text)
}
