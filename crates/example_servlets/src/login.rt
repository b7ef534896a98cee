//! Logging in.

ghost use Rattle.sv_web.specs.Exchange.{Completes, CompletesPart};
ghost use Rattle.example_servlets.specs.Login as spec;

use crate::kept::NAME;
use crate::told::name_of;
use sv_servlet::Next;
use sv_web::{Exchange, Post, Refusal, has_session, send_error, send_redirect, set_text};

/// Takes the name of whoever logs in, and sends the browser on to the cart. The session that there is goes on under another id,
/// so that an id that somebody else knew before is worth nothing.
#[derive(Clone, Copy)]
pub struct Login;

/// Has the session go on under another id, or makes one.
fn enter(web: &mut Exchange<'_>) -> Result<(), Refusal>
    ensures { CompletesPart spec.entered web.old web.new result }
{
    if has_session(web.edit) {
        web.edit.change_id()?;
        return Ok(());
    }
    web.edit.create()?;
    Ok(())
}

/// Keeps the name, and sends the browser on.
#[tactic(auto, unfolding(crate::specs::Login::named))]
fn keep_name(web: &mut Exchange<'_>, name: &str) -> Result<Next, Refusal>
    ensures { Completes (spec.named name.now) web.old web.new result }
{
    set_text(web.edit, NAME, name)?;
    send_redirect(web.reply, "cart")?;
    Ok(Next::Done)
}

/// Answers the form of a name.
fn take(web: &mut Exchange<'_>, name: &str) -> Result<Next, Refusal>
    ensures { Completes (spec.entered (spec.named name.now)) web.old web.new result }
{
    enter(web)?;
    keep_name(web, name)
}

impl Post for Login {
    ghost use Rattle.example_servlets.specs.Login.{posted};

    ghost posts = { λ _. posted };

    fn post(&mut self, web: &mut Exchange<'_>) -> Result<Next, Refusal> {
        let call = web.call;
        match name_of(call.params) {
            Some(name) => take(web, name),
            None => Ok(send_error(
                web.alloc,
                400,
                "A name has 1 to 64 letters, and not blanks alone. Please log in above.",
            )?),
        }
    }
}
