//! A refusal, with its cause.

ghost use Rattle.std.specs.Prelude.{◌≡◌, IfOk};
ghost use Rattle.sv_connection.specs.Reply.{cause_field, refusal_by};

use http::StatusCode;
use http_header::{HeaderName, HeaderValue};
use std::alloc::{AllocError, Global};
use sv_model::{Cause, Field, Response, Sequence, plain_type};

/// Where a refusal names its cause.
#[derive(Clone, Copy, Debug, PartialEq, Eq)]
pub enum Naming {
    /// In its body.
    InBody,
    /// In a field, too: `kegbramble-cause`, which a front server can decide by.
    InField,
}

/// `kegbramble-cause`, with the cause's name.
fn cause_field(cause: Cause) -> Field
    ensures { result ≡ cause_field cause }
{
    Field {
        name: HeaderName::from_static("kegbramble-cause"),
        value: HeaderValue::from_static(cause.name()),
    }
}

/// The response for a refused request: status 503 (RFC 9110, section 15.6.4), and the cause's name in the body, or also in a field.
pub fn refusal_by(
    alloc: Global,
    naming: Naming,
    cause: Cause,
    head_only: bool,
    close: bool,
) -> Result<Response, AllocError>
    ensures { IfOk result (λ response. response ≡ refusal_by naming cause head_only close) }
{
    let mut fields = Sequence::new(alloc);
    fields.push(plain_type())?;
    if naming == Naming::InField {
        fields.push(cause_field(cause))?;
    }
    let mut body = Sequence::new(alloc);
    body.extend_from_slice(b"503 ")?;
    body.extend_from_slice(cause.name().as_bytes())?;
    body.extend_from_slice(b"\n")?;
    Ok(Response {
        status: StatusCode::SERVICE_UNAVAILABLE,
        fields,
        body,
        head_only,
        close,
    })
}
