//! Texts of bytes, and others within them.

ghost use Rattle.std.specs.Prelude.{◌≡◌, ◌+◌, ◌≤◌, length, IfOk, IfSome, option_map, option_copied};
ghost use Rattle.sv_web.specs.Cutting as spec;

use memchr::memmem;
use std::alloc::{AllocError, Global};

/// Where a text first stands in another.
fn place_of(text: &[u8], sought: &[u8]) -> Option<usize>
    ensures place { result ≡ spec.place_of text.now sought.now }
    ensures fits { IfSome result (λ at. at + length sought.now ≤ length text.now) }
{
    memmem::find(text, sought)
}

/// What stands before the first place of a text, and what after it.
#[tactic(auto, unfolding(crate::specs::Cutting::cut))]
pub(crate) fn cut<'a>(text: &'a [u8], sought: &[u8]) -> Option<(&'a [u8], &'a [u8])>
    ensures { option_map (λ p. (p.0.now, p.1.now)) result ≡ spec.cut text.now sought.now }
{
    match place_of(text, sought) {
        Some(at) => Some((&text[..at], &text[at + sought.len()..])),
        None => None,
    }
}

/// A text in lower case.
pub(crate) fn lowered(alloc: Global, text: &[u8]) -> Result<Vec<u8>, AllocError>
    ensures { IfOk result (λ v. v.items ≡ spec.lowered text.now) }
{
    let mut lower = Vec::new(alloc);
    for byte in text {
        lower.push(byte.to_ascii_lowercase())?;
    }
    Ok(lower)
}

/// What stands after the first place of a text in lower case, whatever the case of letters.
#[tactic(auto, unfolding(crate::specs::Cutting::behind))]
pub(crate) fn behind<'a>(
    alloc: Global,
    text: &'a [u8],
    sought: &[u8],
) -> Result<Option<&'a [u8]>, AllocError>
    ensures { IfOk result (λ found. option_copied found ≡ spec.behind text.now sought.now) }
{
    let lower = lowered(alloc, text)?;
    match place_of(lower.as_slice(), sought) {
        Some(at) => Ok(Some(&text[at + sought.len()..])),
        None => Ok(None),
    }
}

/// What stands before the first place of a text, or all.
#[tactic(auto, unfolding(crate::specs::Cutting::before))]
pub(crate) fn before<'a>(text: &'a [u8], sought: &[u8]) -> &'a [u8]
    ensures { result.now ≡ spec.before text.now sought.now }
{
    match cut(text, sought) {
        Some((before, _)) => before,
        None => text,
    }
}

pub(crate) fn begins_with(text: &[u8], word: &[u8]) -> bool
    ensures { result ≡ spec.begins_with text.now word.now }
{
    text.len() >= word.len() && &text[..word.len()] == word
}

/// A media type ends: by nothing, a semicolon or a blank (RFC 9110, section 8.3.1).
fn is_end(text: &[u8]) -> bool
    ensures { result ≡ spec.is_end text.now }
{
    match text {
        [] => true,
        [byte, ..] => *byte == b';' || *byte == b' ' || *byte == b'\t',
    }
}

/// The content type is this one, which is in lower case, with any parameters.
#[tactic(auto, unfolding(crate::specs::Cutting::is_type))]
pub(crate) fn is_type(alloc: Global, value: &[u8], media_type: &str) -> Result<bool, AllocError>
    ensures { IfOk result (λ is. is ≡ spec.is_type value.now media_type.now) }
{
    let lower = lowered(alloc, value)?;
    let media_type = media_type.as_bytes();
    Ok(begins_with(lower.as_slice(), media_type) && is_end(&value[media_type.len()..]))
}
