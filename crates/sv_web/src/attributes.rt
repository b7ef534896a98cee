//! The attributes of a session as texts and numbers.

ghost use Rattle.std.specs.Prelude.{◌≡◌, decimal, option_copied};
ghost use Rattle.sv_session.specs.Calls.{Answers, value_result};
ghost use Rattle.sv_web.specs.Attributes as spec;
ghost use Rattle.sv_web.specs.Attributes.{SetsNumber};
ghost use Rattle.sv_web.specs.Numeral.{number_in};

use crate::numeral::read_u64;
use std::alloc::Global;
use sv_session::{SessionEdit, SessionFault};

/// Whether a session is held.
pub fn has_session(edit: &SessionEdit) -> bool
    ensures { result ≡ spec.has_session edit.entry.now }
{
    edit.key().is_ok()
}

/// The number of decimal digits in bytes that may be no text.
fn number_in(bytes: &[u8]) -> Option<u64>
    ensures { result ≡ number_in 64 bytes.now }
{
    match str::from_utf8(bytes) {
        Ok(text) => read_u64(text),
        Err(_) => None,
    }
}

/// The number that an attribute's value is, in decimal digits; none where there is no value, or it is no number of 64 bits.
pub fn number_of(value: Option<&[u8]>) -> Option<u64>
    ensures { result ≡ spec.number_of (option_copied value.entry) }
{
    match value {
        Some(bytes) => number_in(bytes),
        None => None,
    }
}

/// The number that the attribute of a name is, as [`set_number`] sets it; none where there is no such attribute, or it is no number
/// of 64 bits. NoSession without a session.
pub fn get_number(edit: &SessionEdit, name: &str) -> Result<Option<u64>, SessionFault>
    ensures { result ≡ spec.number_result edit.entry.now name.now }
{
    Ok(number_of(edit.get(name)?))
}

/// Sets an attribute to a text; refused as [`SessionEdit::set`] refuses it.
pub fn set_text(edit: &mut SessionEdit, name: &str, text: &str) -> Result<(), SessionFault>
    ensures { Answers edit.old (value_result edit.old name.now text.now) result edit.new }
{
    edit.set(name, Some(text.as_bytes()))
}

/// Sets an attribute to a number, in decimal digits; refused as [`SessionEdit::set`] refuses it.
pub fn set_number(
    alloc: Global,
    edit: &mut SessionEdit,
    name: &str,
    number: u64,
) -> Result<(), SessionFault>
    ensures { SetsNumber edit.old (value_result edit.old name.now (decimal number)) result edit.new }
{
    let text = format!(in alloc; "{number}")?;
    edit.set(name, Some(text.as_bytes()))
}
