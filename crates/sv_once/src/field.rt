//! A field of an answer that is kept.

ghost use Rattle.std.specs.Prelude.{◌≡◌, ◌==◌, ◌++◌, IfOk, IsTrue, OnOk, codes};
ghost use Rattle.std.specs.List.{list_all, list_any};
ghost use Rattle.http_header.specs.FieldValue.{plain_value};
ghost use Rattle.http_header.specs.Token.{is_value_byte, token_test};
ghost use Rattle.sv_once.specs.Answer as spec;

use crate::parts::{push_long, push_short};
use http_header::{HeaderName, HeaderNameError, HeaderValue, HeaderValueError};
use std::alloc::{AllocError, Global};
use sv_model::Field;

/// A byte of a token that is no letter and no digit (RFC 9110, section 5.6.2).
fn is_mark(byte: u8) -> bool
    ensures { result ≡ list_any (λ c. c == byte) (codes "!#$%&'*+-.^_`|~") }
{
    b"!#$%&'*+-.^_`|~".iter().any(|mark| *mark == byte)
}

fn is_token_byte(byte: u8) -> bool
    ensures { result ≡ token_test byte }
{
    byte.is_ascii_alphanumeric() || is_mark(byte)
}

fn is_name_byte(byte: u8) -> bool
    ensures { result ≡ spec.is_name_byte byte }
{
    is_token_byte(byte) && !byte.is_ascii_uppercase()
}

fn is_value_byte(byte: u8) -> bool
    ensures { result ≡ is_value_byte byte }
{
    byte == 9 || (byte >= 32 && byte != 127)
}

fn are_name_bytes(name: &[u8]) -> bool
    ensures { result ≡ list_all spec.is_name_byte name.now }
{
    name.iter().all(|byte| is_name_byte(*byte))
}

fn are_value_bytes(value: &[u8]) -> bool
    ensures { result ≡ list_all is_value_byte value.now }
{
    value.iter().all(|byte| is_value_byte(*byte))
}

fn is_name(name: &[u8]) -> bool
    ensures { result ≡ spec.is_name name.now }
{
    !name.is_empty() && are_name_bytes(name)
}

/// The name and the value are those of a field, and their lengths have room.
pub fn is_field(name: &[u8], value: &[u8]) -> bool
    ensures { result ≡ spec.is_field (name.now, value.now) }
{
    (is_name(name) && are_value_bytes(value)) && (name.len() < 256 && value.len() < 65536)
}

fn name_of(alloc: Global, name: &[u8], value: &[u8]) -> Result<HeaderName, AllocError>
    requires { IsTrue (spec.is_field (name.now, value.now)) }
    ensures { IfOk result (λ n. n ≡ name.now) }
{
    match HeaderName::from_bytes(alloc, name) {
        Ok(name) => Ok(name),
        Err(HeaderNameError::Invalid) => unreachable!(),
        Err(HeaderNameError::OutOfMemory) => Err(AllocError),
    }
}

fn value_of(alloc: Global, name: &[u8], value: &[u8]) -> Result<HeaderValue, AllocError>
    requires { IsTrue (spec.is_field (name.now, value.now)) }
    ensures { IfOk result (λ v. v ≡ plain_value value.now) }
{
    match HeaderValue::from_bytes(alloc, value) {
        Ok(value) => Ok(value),
        Err(HeaderValueError::Invalid) => unreachable!(),
        Err(HeaderValueError::OutOfMemory) => Err(AllocError),
    }
}

/// The field of a name and a value.
pub fn field_of(alloc: Global, name: &[u8], value: &[u8]) -> Result<Field, AllocError>
    requires { IsTrue (spec.is_field (name.now, value.now)) }
    ensures { IfOk result (λ field. field ≡ spec.field_of (name.now, value.now)) }
{
    Ok(Field {
        name: name_of(alloc, name, value)?,
        value: value_of(alloc, name, value)?,
    })
}

/// Adds the bytes of a field.
pub fn push_field(out: &mut Vec<u8>, field: &Field) -> Result<(), AllocError>
    requires { IsTrue (spec.is_field (spec.shown_field field.now)) }
    ensures { OnOk result (out.new.items ≡ out.old.items ++ spec.field_bytes (spec.shown_field field.now)) }
{
    push_short(out, field.name.as_bytes())?;
    push_long(out, field.value.as_bytes())
}
