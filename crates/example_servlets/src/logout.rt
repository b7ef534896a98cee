//! Logging out.

ghost use Rattle.std.specs.Prelude.{◌≡◌, IfOk};
ghost use Rattle.sv_web.specs.Exchange.{Completes, CompletesPart};
ghost use Rattle.example_servlets.specs.Logout as spec;

use crate::kept::{CART, seen};
use crate::store::Store;
use crate::visits::frame_of;
use example_cart::{goodbye_page, read_cart};
use std::alloc::AllocError;
use sv_servlet::Next;
use sv_session::SessionEdit;
use sv_web::{Exchange, Get, Page, Post, Refusal, has_session, send_page, send_redirect};

/// Ends the session by a POST, with its cart and all else that it has, and sends the browser on to the page that says so.
#[derive(Clone, Copy)]
pub struct Logout {
    pub store: Store,
}

/// The page, for a session as it is.
#[tactic(auto, unfolding(crate::specs::Logout::page_of))]
fn page_of<'a>(store: Store, base: &'a str, edit: &'a SessionEdit) -> Result<Page, AllocError>
    ensures { IfOk result (λ page. page ≡ spec.page_of base.now store.node edit.entry.now) }
{
    let cart = read_cart(store.alloc, seen(edit, CART))?;
    let frame = frame_of(base, store.node, edit, &cart);
    goodbye_page(store.alloc, frame)
}

/// Ends the session, if there is one.
fn leave(web: &mut Exchange<'_>) -> Result<(), Refusal>
    ensures { CompletesPart spec.left web.old web.new result }
{
    if has_session(web.edit) {
        web.edit.invalidate()?;
    }
    Ok(())
}

/// Sends the browser on.
fn send_on(web: &mut Exchange<'_>) -> Result<Next, Refusal>
    ensures { Completes spec.sent_away web.old web.new result }
{
    send_redirect(web.reply, "logout")?;
    Ok(Next::Done)
}

impl Get for Logout {
    ghost use Rattle.example_servlets.specs.Logout.{shown};

    ghost gets = { λ s. shown s.store.node };

    fn get(&mut self, web: &mut Exchange<'_>) -> Result<Next, Refusal> {
        let call = web.call;
        let page = page_of(self.store, call.context_path, web.edit)?;
        send_page(web, &page)
    }
}

impl Post for Logout {
    ghost use Rattle.example_servlets.specs.Logout.{ended};

    ghost posts = { λ _. ended };

    fn post(&mut self, web: &mut Exchange<'_>) -> Result<Next, Refusal> {
        leave(web)?;
        send_on(web)
    }
}
