//! Fields of requests and responses (RFC 9110, section 5).

ghost use Rattle.std.specs.Prelude.{◌≡◌, OnOk, OnErr, IfSome, IfNone, ◌<◌, length};
ghost use Rattle.std.specs.Str.{bytes_eq};
ghost use Rattle.sv_model.specs.Field.{with_field, place_of_field, plain_type};

use crate::copied::Copied;
use crate::sequence::Sequence;
use http_header::{HeaderName, HeaderValue};
use std::alloc::{AllocError, Global};

/// A field line: a name, held in lower case, and a value.
///
/// A value that was received has no white space round it (RFC 9112, section 5.1); one that an application sets is kept as it
/// was given.
#[derive(Drop)]
pub struct Field {
    pub name: HeaderName,
    pub value: HeaderValue,
}

impl Copied for Field {
    /// The bytes of the value are shared with the copy.
    fn copy(&self, _: Global) -> Result<Field, AllocError> {
        Ok(Field {
            name: self.name.clone()?,
            value: self.value.clone()?,
        })
    }
}

/// The place of the first field of a name.
pub fn place_of_field(fields: &[Field], name: &HeaderName) -> Option<usize>
    ensures place { result ≡ place_of_field fields.now name.now }
    ensures within { IfSome result (λ at. at < length fields.now) }
{
    fields
        .iter()
        .position(|field| field.name.as_bytes() == name.as_bytes())
}

#[tactic(auto, unfolding(crate::specs::Field::with_field))]
/// Puts a field in the place of the first one of its name, or adds it last.
pub fn set_field(fields: &mut Sequence<Field>, field: Field) -> Result<(), AllocError>
    ensures ok { OnOk result (fields.new ≡ with_field fields.old field) }
    ensures err { OnErr result (fields.new ≡ fields.old) }
{
    match place_of_field(fields.as_slice(), &field.name) {
        Some(at) => {
            fields.replace(at, field);
            Ok(())
        }
        None => fields.push(field),
    }
}

/// `content-type: text/plain`.
pub fn plain_type() -> Field
    ensures { result ≡ plain_type }
{
    Field {
        name: HeaderName::from_static("content-type"),
        value: HeaderValue::from_static("text/plain"),
    }
}
