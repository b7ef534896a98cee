//! One attribute of a session.

ghost use Rattle.std.specs.Prelude.{◌≡◌, ◌<◌, ◌≤◌, ◌+◌, ◌^◌, ◌++◌, true, false, length, take, IfOk, OnOk, OnErr, MatchOption};
ghost use Rattle.std.specs.Int.{w16, w32, to_be_bytes};
ghost use Rattle.std.specs.Str.{is_utf8};
ghost use Rattle.sv_record.specs.Reading.{Gives};
ghost use Rattle.sv_record.specs.Session.{name, value, attribute, at_first, is_below};
ghost use Rattle.sv_record.specs.Version.{session_limit};
ghost use Rattle.sv_record.specs.declared.version.Version.TheVariants.{Two};
ghost use Rattle.sv_model.specs.declared.session.TheConstants.{NAME_LIMIT, VALUE_LIMIT};

use crate::fault::RecordFault;
use crate::number::{read_bytes, read_u16};
use crate::version::Version;
use std::alloc::AllocError;
use sv_model::NAME_LIMIT;

/// The text that the bytes are.
fn text_of(bytes: &[u8]) -> Option<&str>
    ensures { MatchOption result (is_utf8 bytes.now ≡ false) (λ text. (text.now ≡ bytes.now) × (is_utf8 bytes.now ≡ true)) }
{
    match std::str::from_utf8(bytes) {
        Ok(text) => Some(text),
        Err(_) => None,
    }
}

fn is_above(text: &[u8], last: &[u8]) -> bool
    ensures { result ≡ is_below last.now text.now }
{
    last.cmp(text).is_lt()
}

/// The bytes of `total` are those of the names and values before.
#[tactic(auto, unfolding(crate::specs::Session::name))]
fn read_name<'a>(
    version: Version,
    bytes: &'a [u8],
    last: &[u8],
    total: usize,
) -> Result<(&'a str, &'a [u8]), RecordFault>
    requires { total ≤ session_limit version }
    ensures read { Gives (λ x. (x.0.now, x.1.now)) result ((name version (record { last = last.now; total = total })).read bytes.now) }
    ensures rises { IfOk result (λ x. is_below last.now x.0.now ≡ true) }
    ensures small { IfOk result (λ x. total + length x.0.now ≤ session_limit version) }
{
    let limit = version.session_limit();
    let (count, rest) = read_u16(bytes)?;
    let count = usize::from(count);
    if count == 0 || count > NAME_LIMIT || count > limit - total {
        return Err(RecordFault::BadField);
    }
    let (text, rest) = read_bytes(rest, count)?;
    match text_of(text) {
        Some(name) if is_above(text, last) => Ok((name, rest)),
        _ => Err(RecordFault::BadField),
    }
}

#[tactic(auto, unfolding(crate::specs::Session::value))]
fn read_value(version: Version, bytes: &[u8], total: usize) -> Result<(&[u8], &[u8]), RecordFault>
    requires { total ≤ session_limit version }
    ensures read { Gives (λ x. (x.0.now, x.1.now)) result ((value version total).read bytes.now) }
    ensures small { IfOk result (λ x. total + length x.0.now ≤ session_limit version) }
{
    let limit = version.session_limit();
    let (count, rest) = version.read_value_length(bytes)?;
    if count > version.value_limit() || count > limit - total {
        return Err(RecordFault::BadField);
    }
    read_bytes(rest, count)
}

/// An attribute after one of the name `last`, where names and values have `total` bytes so far.
#[tactic(auto, unfolding(crate::specs::Session::attribute))]
pub(crate) fn read_attribute<'a>(
    version: Version,
    bytes: &'a [u8],
    last: &[u8],
    total: usize,
) -> Result<((&'a str, &'a [u8]), &'a [u8]), RecordFault>
    requires { total ≤ session_limit version }
    ensures read { Gives (λ x. ((x.0.0.now, x.0.1.now), x.1.now)) result ((attribute version (record { last = last.now; total = total })).read bytes.now) }
    ensures rises { IfOk result (λ x. is_below last.now x.0.0.now ≡ true) }
    ensures small { IfOk result (λ x. total + length x.0.0.now + length x.0.1.now ≤ session_limit version) }
{
    let (name, rest) = read_name(version, bytes, last, total)?;
    let (value, rest) = read_value(version, rest, total + name.len())?;
    Ok(((name, value), rest))
}

#[tactic(auto, unfolding(crate::specs::Session::attribute, crate::specs::Session::name, crate::specs::Session::value))]
pub(crate) fn write_attribute(name: &str, value: &[u8], out: &mut Vec<u8>) -> Result<(), AllocError>
    requires name { length name.now ≤ NAME_LIMIT }
    requires value { length value.now ≤ VALUE_LIMIT }
    ensures ok { OnOk result (out.new.items ≡ out.old.items ++ (attribute Two at_first).text (name.now, value.now)) }
    ensures err { OnErr result (take (length out.old.items) out.new.items ≡ out.old.items) }
    ensures text { is_utf8 name.now ≡ true }
{
    write_name(name.as_bytes(), out)?;
    write_value(value, out)
}

/// A length of two bytes, and so many bytes.
fn write_name(bytes: &[u8], out: &mut Vec<u8>) -> Result<(), AllocError>
    requires { length bytes.now < 2 ^ 16 }
    ensures ok { OnOk result (out.new.items ≡ out.old.items ++ (to_be_bytes w16 (length bytes.now) ++ bytes.now)) }
    ensures err { OnErr result (take (length out.old.items) out.new.items ≡ out.old.items) }
{
    out.extend_from_slice(&(bytes.len() as u16).to_be_bytes())?;
    out.extend_from_slice(bytes)
}

/// A length of four bytes, and so many bytes.
fn write_value(bytes: &[u8], out: &mut Vec<u8>) -> Result<(), AllocError>
    requires { length bytes.now < 2 ^ 32 }
    ensures ok { OnOk result (out.new.items ≡ out.old.items ++ (to_be_bytes w32 (length bytes.now) ++ bytes.now)) }
    ensures err { OnErr result (take (length out.old.items) out.new.items ≡ out.old.items) }
{
    out.extend_from_slice(&(bytes.len() as u32).to_be_bytes())?;
    out.extend_from_slice(bytes)
}
