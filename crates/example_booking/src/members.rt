//! Who may book.

ghost use Rattle.std.specs.Prelude.{◌≡◌};
ghost use Rattle.example_booking.specs.Members as spec;

use crate::login::NAME;
use std::alloc::{AllocError, Global};
use sv_model::Text;
use sv_servlet::{Before, Call, Reply};
use sv_session::SessionEdit;
use sv_web::{HttpFilter, Refusal};

/// Lets through whoever has logged in, and sends the error 403 to everybody else.
#[derive(Clone, Copy)]
pub struct Members;

fn is_member(edit: &SessionEdit) -> bool
    ensures { result ≡ spec.is_member edit.entry.now }
{
    match edit.get(NAME) {
        Ok(name) => name.is_some(),
        Err(_) => false,
    }
}

impl HttpFilter for Members {
    ghost use Rattle.example_booking.specs.Members.{members};

    ghost work = { λ _. members };

    fn before(
        &mut self,
        alloc: Global,
        _call: &Call<'_>,
        edit: &mut SessionEdit,
        _reply: &mut Reply,
    ) -> Result<Before, Refusal> {
        if is_member(edit) {
            return Ok(Before::Pass);
        }
        let text = Text::from_str(alloc, "log in first")?;
        Ok(Before::SendError { code: 403, text })
    }

    fn after(
        &mut self,
        _alloc: Global,
        _call: &Call<'_>,
        _edit: &mut SessionEdit,
        _reply: &mut Reply,
    ) -> Result<(), AllocError> {
        Ok(())
    }
}
