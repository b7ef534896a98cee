//! What a request has of its own: its time, and a text that nobody can tell beforehand.

ghost use Rattle.std.specs.Prelude.{◌≡◌, IfOk};
ghost use Rattle.sv_web.specs.Tokens as spec;

use std::alloc::{AllocError, Global};
use sv_model::Text;
use sv_session::SessionEdit;

/// The time of the request, in whole seconds since the beginning of 1970 in UTC.
pub fn now(edit: &SessionEdit) -> u64
    ensures { result ≡ edit.entry.now.now }
{
    edit.now()
}

/// The request's token of a label, in 64 digits of `0-9a-f`: what [`SessionEdit::token`] says of it holds.
///
/// Another request has another, so it is kept as an attribute of the session by whoever wants to know it again.
pub fn token(alloc: Global, edit: &SessionEdit, label: &str) -> Result<Text, AllocError>
    ensures { IfOk result (λ text. text ≡ spec.token_text edit.entry.now label.now) }
{
    let digits = hex::encode(alloc, edit.token(label).as_slice())?;
    Ok(Text::from_string(digits))
}
