//! Logging in.

use sv_servlet::Next;
use sv_web::{Exchange, Get, Post, Refusal, parameter_or, send_redirect, set_html, set_text};

/// The attribute that holds the name of whoever has logged in.
pub const NAME: &str = "name";

/// The form.
const FORM: &str =
    "<!DOCTYPE html><title>Booking</title><form method=post><label>Name <input name=name></label> <button>Log in</button></form>";

/// Shows a form. A POST keeps its first parameter `name`, or `somebody`, in a session, and sends the client on to the seats.
#[derive(Clone, Copy)]
pub struct Login;

impl Get for Login {
    ghost use Rattle.example_booking.specs.Login.{shown};

    ghost gets = { λ _. shown };

    fn get(&mut self, web: &mut Exchange<'_>) -> Result<Next, Refusal> {
        set_html(web.reply)?;
        web.reply.write(FORM.as_bytes())?;
        Ok(Next::Done)
    }
}

impl Post for Login {
    ghost use Rattle.example_booking.specs.Login.{taken};

    ghost posts = { λ _. taken };

    fn post(&mut self, web: &mut Exchange<'_>) -> Result<Next, Refusal> {
        let call = web.call;
        let name = parameter_or(web.alloc, call.params, "name", "somebody")?;
        web.edit.create()?;
        set_text(web.edit, NAME, name.as_str())?;
        send_redirect(web.reply, "seats")?;
        Ok(Next::Done)
    }
}
