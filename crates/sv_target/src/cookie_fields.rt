//! The pairs of a request's Cookie fields (RFC 6265, sections 4.2.1 and 5.4).

ghost use Rattle.std.specs.Prelude.{◌≡◌, ◌++◌, ◌∷◌, [], IfOk, IfSome, OnOk, is_some, position};
ghost use Rattle.sv_target.specs.Cookies as spec;

use crate::name::is_same;
use std::alloc::{AllocError, Global};
use sv_model::{Cookie, Field, Sequence, trim};

/// The pairs of all Cookie fields of a request, in order.
///
/// A field's value is cut at each `;`, the spaces and tabs round a part are dropped, and a part without `=` is skipped.
/// The name ends at the first `=`; blanks round that stay, quotes too, and a name or a value may be empty. Names of
/// `fields` are in lower case.
pub fn cookies(alloc: Global, fields: &[Field]) -> Result<Sequence<Cookie>, AllocError>
    ensures { IfOk result (λ cookies. cookies ≡ spec.cookies_of fields.now) }
{
    let mut cookies = Sequence::new(alloc);
    for field in fields {
        if is_cookie_field(field) {
            add_pairs(alloc, &mut cookies, field.value.as_bytes())?;
        }
    }
    Ok(cookies)
}

#[tactic(auto, unfolding(crate::specs::Cookies::is_cookie_field))]
fn is_cookie_field(field: &Field) -> bool
    ensures { result ≡ spec.is_cookie_field field.now }
{
    is_same(field.name.as_bytes(), b"cookie")
}

/// Adds the pairs of one field's value.
fn add_pairs(alloc: Global, cookies: &mut Sequence<Cookie>, value: &[u8]) -> Result<(), AllocError>
    ensures { OnOk result (cookies.new ≡ cookies.old ++ spec.pairs_of value.now) }
{
    for part in value.split(|byte| *byte == b';') {
        add_pair(alloc, cookies, trim(part))?;
    }
    Ok(())
}

/// Adds a part that is a pair.
fn add_pair(alloc: Global, cookies: &mut Sequence<Cookie>, part: &[u8]) -> Result<(), AllocError>
    ensures { OnOk result (cookies.new ≡ cookies.old ++ spec.pairs_among (part.now ∷ [])) }
{
    let Some((name, value)) = split_pair(part) else {
        return Ok(());
    };
    let name = Vec::from_slice(alloc, name)?;
    let value = Vec::from_slice(alloc, value)?;
    cookies.push(Cookie {
        name: Sequence::from_vec(name),
        value: Sequence::from_vec(value),
    })
}

/// Where the first `=` stands.
fn place_of_equals(part: &[u8]) -> Option<usize>
    ensures { result ≡ position spec.is_equals part.now }
{
    part.iter().position(|byte| *byte == b'=')
}

/// The name and the value of a pair.
fn split_pair(part: &[u8]) -> Option<(&[u8], &[u8])>
    ensures found { is_some result ≡ spec.is_pair part.now }
    ensures name { IfSome result (λ p. p.0.now ≡ (spec.pair_of part.now).name) }
    ensures value { IfSome result (λ p. p.1.now ≡ (spec.pair_of part.now).value) }
{
    let equals = place_of_equals(part)?;
    Some((&part[..equals], &part[equals + 1..]))
}
