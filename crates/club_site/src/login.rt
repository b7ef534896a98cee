//! Logging in and out.

ghost use Rattle.std.specs.Prelude.{◌≡◌, IfOk};
ghost use Rattle.sv_web.specs.Exchange.{Completes};
ghost use Rattle.club_site.specs.Login as spec;

use crate::frame::{begin, write_around};
use crate::kept::NAME;
use crate::language::{LOGIN, LOGIN_DE, next_of, say, text};
use sha2::{Digest, Sha256};
use std::alloc::{AllocError, Global};
use sv_servlet::Next;
use sv_web::{
    Exchange, Get, Post, Refusal, csrf_token, send_page, send_redirect, send_to, set_text, setting,
};

const TOKEN: &str = "\"><input type=hidden name=csrf value=\"";

/// Shows a form for a name and a password. A POST with those of a member leads to the page of the parameter `next`.
#[derive(Clone, Copy)]
pub struct Login;

/// Ends the session, and leads to the login.
#[derive(Clone, Copy)]
pub struct Logout;

/// The SHA-256 sum of a salt and a password, in digits of `0-9a-f`, stands after the eight bytes of the salt in what is kept of a member.
///
/// A demonstration: such a sum takes so little time that passwords are found by trying them out, and a hash that takes time would stop
/// the node. A real site lets its front server ask for passwords.
#[tactic(auto, unfolding(crate::specs::Login::is_password))]
fn is_password(alloc: Global, kept: &[u8], password: &str) -> Result<bool, AllocError>
    ensures { IfOk result (λ is. is ≡ spec.is_password kept.now password.now) }
{
    if kept.len() < 8 {
        return Ok(false);
    }
    let mut hasher = Sha256::new();
    hasher.update(&kept[..8]);
    hasher.update(password.as_bytes());
    let sum = hex::encode(alloc, hasher.finalize().as_slice())?;
    Ok(&kept[8..] == sum.as_bytes())
}

/// Shows the form, and says something.
fn show(web: &mut Exchange<'_>, said: &str) -> Result<Next, Refusal>
    ensures { Completes (spec.shown web.old.call.now said.now) web.old web.new result }
{
    let token = csrf_token(web)?;
    let mut page = begin(web, "login", said.as_bytes())?;
    let next = text(web.call, "next").as_bytes();
    write_around(&mut page, say(web.call, LOGIN, LOGIN_DE), next, TOKEN)?;
    write_around(&mut page, "", token.as_slice(), "\"></form>")?;
    send_page(web, &page)
}

impl Get for Login {
    ghost use Rattle.club_site.specs.Login.{asked};

    ghost gets = { λ _. asked };

    fn get(&mut self, web: &mut Exchange<'_>) -> Result<Next, Refusal> {
        web.edit.create()?;
        show(web, "")
    }
}

impl Post for Login {
    ghost use Rattle.club_site.specs.Login.{taken};

    ghost posts = { λ _. taken };

    fn post(&mut self, web: &mut Exchange<'_>) -> Result<Next, Refusal> {
        let call = web.call;
        let name = text(call, "name");
        let kept = setting(call.settings, name).unwrap_or("");
        if is_password(web.alloc, kept.as_bytes(), text(call, "password"))? {
            web.edit.change_id()?;
            set_text(web.edit, NAME, name)?;
            return send_to(web, next_of(call));
        }
        web.reply.status(403)?;
        show(web, say(call, "Please try again.", "Bitte noch einmal."))
    }
}

impl Post for Logout {
    ghost use Rattle.club_site.specs.Login.{left};

    ghost posts = { λ _. left };

    fn post(&mut self, web: &mut Exchange<'_>) -> Result<Next, Refusal> {
        web.edit.invalidate()?;
        send_redirect(web.reply, "login")?;
        Ok(Next::Done)
    }
}
