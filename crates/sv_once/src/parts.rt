//! Texts after their lengths, one after the other.

ghost use Rattle.std.specs.Prelude.{◌≡◌, ◌<◌, ◌++◌, length, take, drop, OnOk};
ghost use Rattle.sv_once.specs.Parts as spec;

use std::alloc::AllocError;

/// The number of a byte; 0 past the end.
pub fn byte_at(at: usize, bytes: &[u8]) -> usize
    ensures { result ≡ spec.byte_at at bytes.now }
{
    if at < bytes.len() {
        usize::from(bytes[at])
    } else {
        0
    }
}

/// The number of the first two bytes, high byte first.
pub fn long_at(bytes: &[u8]) -> usize
    ensures { result ≡ spec.long_at bytes.now }
{
    256 * byte_at(0, bytes) + byte_at(1, bytes)
}

/// The first bytes, so many at most, and the others.
fn cut(bytes: &[u8], count: usize) -> (&[u8], &[u8])
    ensures first { result.0.now ≡ take count bytes.now }
    ensures rest { result.1.now ≡ drop count bytes.now }
{
    bytes.split_at(count.min(bytes.len()))
}

/// What follows so many bytes.
pub fn past(bytes: &[u8], count: usize) -> &[u8]
    ensures { result.now ≡ drop count bytes.now }
{
    cut(bytes, count).1
}

/// The first part, of a length of one byte, and what follows it.
#[tactic(auto, unfolding(crate::specs::Parts::short_first, crate::specs::Parts::short_rest))]
pub fn cut_short(bytes: &[u8]) -> (&[u8], &[u8])
    ensures first { result.0.now ≡ spec.short_first bytes.now }
    ensures rest { result.1.now ≡ spec.short_rest bytes.now }
{
    cut(past(bytes, 1), byte_at(0, bytes))
}

/// The first part, of a length of two bytes, and what follows it.
#[tactic(auto, unfolding(crate::specs::Parts::long_first, crate::specs::Parts::long_rest))]
pub fn cut_long(bytes: &[u8]) -> (&[u8], &[u8])
    ensures first { result.0.now ≡ spec.long_first bytes.now }
    ensures rest { result.1.now ≡ spec.long_rest bytes.now }
{
    cut(past(bytes, 2), long_at(bytes))
}

/// Adds a length of one byte, and so many bytes.
pub fn push_short(out: &mut Vec<u8>, text: &[u8]) -> Result<(), AllocError>
    requires { length text.now < 256 }
    ensures { OnOk result (out.new.items ≡ out.old.items ++ spec.short_part text.now) }
{
    out.push(text.len() as u8)?;
    out.extend_from_slice(text)
}

/// Adds a number of two bytes, high byte first.
pub fn push_number(out: &mut Vec<u8>, number: usize) -> Result<(), AllocError>
    requires { number < 65536 }
    ensures { OnOk result (out.new.items ≡ out.old.items ++ spec.long_number number) }
{
    out.push((number / 256) as u8)?;
    out.push((number % 256) as u8)?;
    Ok(())
}

/// Adds a length of two bytes, and so many bytes.
pub fn push_long(out: &mut Vec<u8>, text: &[u8]) -> Result<(), AllocError>
    requires { length text.now < 65536 }
    ensures { OnOk result (out.new.items ≡ out.old.items ++ spec.long_part text.now) }
{
    push_number(out, text.len())?;
    out.extend_from_slice(text)
}
