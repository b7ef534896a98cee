//! Plain pages: the body that stands where no servlet wrote one.

ghost use Rattle.std.specs.Prelude.{◌≡◌, IfOk, OnOk, OnErr};
ghost use Rattle.sv_model.specs.Page.{phrase, plain_body, plain_page};

use crate::field::{Field, plain_type, set_field};
use crate::response::Response;
use crate::sequence::Sequence;
use http::StatusCode;
use std::alloc::{AllocError, Global};

/// The phrase of a status (RFC 9110, section 15, in the wording of the `http` crate), empty where it has none.
#[tactic(auto, unfolding(crate::specs::Page::phrase))]
pub fn phrase(status: StatusCode) -> &'static str
    ensures { result.now ≡ phrase status }
{
    match status.canonical_reason() {
        Some(phrase) => phrase,
        None => "",
    }
}

/// The status, a space, its phrase and a line feed.
pub fn plain_body(alloc: Global, status: StatusCode) -> Result<Sequence<u8>, AllocError>
    ensures { IfOk result (λ body. body ≡ plain_body status) }
{
    let mut body = Sequence::new(alloc);
    body.extend_from_slice(status.as_str().as_bytes())?;
    body.extend_from_slice(b" ")?;
    body.extend_from_slice(phrase(status).as_bytes())?;
    body.extend_from_slice(b"\n")?;
    Ok(body)
}

/// The plain page of a status, after the fields that were set so far; `content-type` becomes `text/plain`.
pub fn plain_page(
    alloc: Global,
    status: StatusCode,
    fields: Sequence<Field>,
    head_only: bool,
    close: bool,
) -> Result<Response, AllocError>
    ensures { IfOk result (λ page. page ≡ plain_page status fields head_only close) }
{
    let mut fields = fields;
    let body = plain_body(alloc, status)?;
    set_field(&mut fields, plain_type())?;
    Ok(Response {
        status,
        fields,
        body,
        head_only,
        close,
    })
}
