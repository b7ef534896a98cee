//! The plain data: attributes, lists, pages.

ghost use Rattle.std.specs.Prelude.{◌≡◌, [], OnErr};

use crate::again::{Refusals, Unshown, again, done};
use crate::{given, shown};
use http::StatusCode;
use std::alloc::{AllocError, Global};
use sv_model::{Attributes, Sequence, Text, plain_body, plain_page};

type Shown = Result<String, Unshown>;

pub fn push(alloc: Global, refusals: &mut Refusals) -> Shown {
    let mut items = given::bytes(alloc, b"12345678")?;
    again!(refusals, items.push(9))?;
    done(format!(in alloc; "{:?}", items.as_slice()))
}

pub fn extend(alloc: Global, refusals: &mut Refusals) -> Shown {
    let mut items = given::bytes(alloc, b"12345678")?;
    again!(refusals, items.extend_from_slice(b"90"))?;
    done(format!(in alloc; "{:?}", items.as_slice()))
}

/// Puts a value at a name, beside one attribute.
pub fn inserted(alloc: Global, refusals: &mut Refusals, name: &str, value: &[u8]) -> Shown {
    let mut attributes = given::attributes(alloc)?;
    again!(refusals, given::put(alloc, &mut attributes, name, value))?;
    done(shown::attributes(alloc, &attributes))
}

pub fn names(alloc: Global, refusals: &mut Refusals) -> Shown {
    let attributes = given::attributes(alloc)?;
    let names = again!(refusals, attributes.names(alloc))?;
    match names.as_slice() {
        [name] => done(String::from_str(alloc, name.as_str())),
        _ => Err(Unshown::Other),
    }
}

/// Adds the first attribute, above all that are there.
fn push_first(alloc: Global, attributes: &mut Attributes) -> Result<(), AllocError>
    requires { attributes.old ≡ [] }
    ensures { OnErr result (attributes.new ≡ []) }
{
    let name = Text::from_str(alloc, "user")?;
    let value = Sequence::from_vec(Vec::from_slice(alloc, b"ann")?);
    attributes.push(name, value)
}

/// The name and the value are made anew; the one growth of the call itself is the room of the list.
pub fn pushed(alloc: Global, refusals: &mut Refusals) -> Shown {
    let mut attributes = Attributes::new(alloc);
    if push_first(alloc, &mut attributes).is_err() {
        refusals.add();
        if attributes.size() != 0 {
            return Err(Unshown::Other);
        }
        push_first(alloc, &mut attributes)?;
    }
    done(shown::attributes(alloc, &attributes))
}

pub fn body(alloc: Global, refusals: &mut Refusals) -> Shown {
    let body = again!(refusals, plain_body(alloc, StatusCode::NOT_FOUND))?;
    done(format!(in alloc; "{:?}", body.as_slice()))
}

pub fn page(alloc: Global, refusals: &mut Refusals) -> Shown {
    let page = again!(
        refusals,
        plain_page(
            alloc,
            StatusCode::NOT_FOUND,
            Sequence::new(alloc),
            false,
            false,
        )
    )?;
    done(shown::response(alloc, &page))
}
