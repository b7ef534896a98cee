//! Who may see which page.

ghost use Rattle.std.specs.Prelude.{◌≡◌, IsTrue};
ghost use Rattle.http_header.specs.FieldValue.{is_visible_text};
ghost use Rattle.club_site.specs.Guard as spec;

use crate::kept::{NAME, seen};
use std::alloc::{AllocError, Global};
use sv_servlet::{Before, Call, Reply};
use sv_session::SessionEdit;
use sv_web::{HttpFilter, Refusal, send_redirect};

/// Sends whoever has not logged in to the login, which leads back to the page.
#[derive(Clone, Copy)]
pub struct Guard;

/// The login that leads to a page.
fn login_for(path: &str) -> &'static str
    ensures text { result.now ≡ spec.login_for path.now }
    ensures visible { IsTrue (is_visible_text result.now) }
{
    match path {
        "/upload" => "login?next=/upload",
        _ => "login?next=/courts",
    }
}

impl HttpFilter for Guard {
    ghost use Rattle.club_site.specs.Guard.{guarding};

    ghost work = { λ _. guarding };

    fn before(
        &mut self,
        _alloc: Global,
        call: &Call<'_>,
        edit: &mut SessionEdit,
        reply: &mut Reply,
    ) -> Result<Before, Refusal> {
        if !seen(edit, NAME).is_empty() {
            return Ok(Before::Pass);
        }
        send_redirect(reply, login_for(call.servlet_path))?;
        Ok(Before::Stop)
    }

    fn after(
        &mut self,
        _alloc: Global,
        _call: &Call<'_>,
        _edit: &mut SessionEdit,
        _reply: &mut Reply,
    ) -> Result<(), AllocError> {
        Ok(())
    }
}
