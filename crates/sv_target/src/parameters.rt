//! The parameters of a query and of a form (URL Standard, section 5.1; Jakarta Servlet 6.0, section 3.1).

ghost use Rattle.std.specs.Prelude.{◌≡◌, ◌++◌, option_copied, position, IfOk, OnOk};
ghost use Rattle.std.specs.List.{find};
ghost use Rattle.sv_target.specs.Params as spec;
ghost use Rattle.sv_target.specs.Segment.{is_semicolon};

use crate::name::is_same;
use form_urlencoded::{decode, raw_pairs};
use http::Method;
use std::alloc::{AllocError, Global};
use sv_model::{Field, Param, Sequence, Text, trim};

/// The text that a name or a value stands for.
#[tactic(auto, unfolding(crate::specs::Params::text_of))]
fn text(alloc: Global, raw: &[u8]) -> Result<Text, AllocError>
    ensures { IfOk result (λ text. text ≡ spec.text_of raw.now) }
{
    let text = decode(alloc, raw)?.into_owned(alloc)?;
    Ok(Text::from_string(text))
}

/// Adds the parameters of a text.
fn add_params(alloc: Global, params: &mut Sequence<Param>, input: &[u8]) -> Result<(), AllocError>
    ensures { OnOk result (params.new ≡ params.old ++ spec.params_in input.now) }
{
    for (name, value) in raw_pairs(input) {
        params.push(Param {
            name: text(alloc, name)?,
            value: text(alloc, value)?,
        })?;
    }
    Ok(())
}

/// The parameters of a query, and then those of a form; either may be empty.
///
/// Names and values are decoded, and nothing is refused: bytes that are no UTF-8 become U+FFFD. The form of a request's
/// body is that of [`form`].
pub fn params(alloc: Global, query: &[u8], form: &[u8]) -> Result<Sequence<Param>, AllocError>
    ensures { IfOk result (λ params. params ≡ spec.params_of query.now form.now) }
{
    let mut params = Sequence::new(alloc);
    add_params(alloc, &mut params, query)?;
    add_params(alloc, &mut params, form)?;
    Ok(params)
}

#[tactic(auto, unfolding(crate::specs::Params::is_content_type))]
fn is_content_type(field: &Field) -> bool
    ensures { result ≡ spec.is_content_type field.now }
{
    is_same(field.name.as_bytes(), b"content-type")
}

fn place_of_semicolon(value: &[u8]) -> Option<usize>
    ensures { result ≡ position is_semicolon value.now }
{
    value.iter().position(|byte| *byte == b';')
}

/// What stands before the first semicolon.
fn media_type(value: &[u8]) -> &[u8]
    ensures { result.now ≡ spec.media_type value.now }
{
    match place_of_semicolon(value) {
        Some(at) => &value[..at],
        None => value,
    }
}

#[tactic(auto, unfolding(crate::specs::Params::is_form_type))]
fn is_form_type(value: &[u8]) -> bool
    ensures { result ≡ spec.is_form_type value.now }
{
    trim(media_type(value)).eq_ignore_ascii_case(b"application/x-www-form-urlencoded")
}

/// The first Content-Type field.
fn content_type(fields: &[Field]) -> Option<&Field>
    ensures { option_copied result ≡ find spec.is_content_type fields.now }
{
    fields.iter().find(|field| is_content_type(field))
}

fn has_form_type(fields: &[Field]) -> bool
    ensures { result ≡ spec.has_form_type fields.now }
{
    match content_type(fields) {
        Some(field) => is_form_type(field.value.as_bytes()),
        None => false,
    }
}

/// The form that a request's body is: the body of a POST whose first Content-Type is
/// `application/x-www-form-urlencoded`, and no bytes otherwise.
///
/// Methods are compared with case, media types without; a media type's parameters aren't looked at.
pub fn form<'a>(method: &Method, fields: &[Field], body: &'a [u8]) -> &'a [u8]
    ensures { result.now ≡ spec.form_of method.now fields.now body.now }
{
    if method.as_str() == "POST" && has_form_type(fields) {
        body
    } else {
        &[]
    }
}
