//! The catalogue.

ghost use Rattle.std.specs.Prelude.{◌≡◌, IfOk};
ghost use Rattle.sv_web.specs.Exchange.{Completes};
ghost use Rattle.example_cart.specs.Pages.{wrong_of};
ghost use Rattle.example_servlets.specs.Basket as spec;
ghost use Rattle.example_servlets.specs.Catalogue.{shown};

use crate::kept::{CART, seen};
use crate::store::Store;
use crate::visits::{begin, frame_of};
use example_cart::{Wrong, catalogue_page, read_cart};
use std::alloc::AllocError;
use sv_servlet::Next;
use sv_session::SessionEdit;
use sv_web::{Exchange, Get, Page, Refusal, send_page};

/// Shows the catalogue, with a form for each article, in a session that is made where there is none.
#[derive(Clone, Copy)]
pub struct Catalogue {
    pub store: Store,
}

/// The page, for a session as it is, with what was typed that is no quantity.
#[tactic(auto, unfolding(crate::specs::Basket::offers_of))]
pub fn offers_of<'a>(
    store: Store,
    base: &'a str,
    edit: &'a SessionEdit,
    wrong: Option<Wrong<'_>>,
) -> Result<Page, AllocError>
    ensures { IfOk result (λ page. page ≡ spec.offers_of store.articles.now base.now store.node (wrong_of wrong.entry) edit.entry.now) }
{
    let cart = read_cart(store.alloc, seen(edit, CART))?;
    let frame = frame_of(base, store.node, edit, &cart);
    catalogue_page(store.alloc, frame, store.articles, &cart, wrong)
}

/// Shows it, in a session as it is.
fn show(store: Store, web: &mut Exchange<'_>) -> Result<Next, Refusal>
    ensures { Completes (shown store.articles.now web.old.call.now.context_path store.node) web.old web.new result }
{
    let call = web.call;
    let page = offers_of(store, call.context_path, web.edit, None)?;
    send_page(web, &page)
}

impl Get for Catalogue {
    ghost use Rattle.example_servlets.specs.Catalogue.{catalogue};

    ghost gets = { λ s. catalogue s.store.articles.now s.store.node };

    fn get(&mut self, web: &mut Exchange<'_>) -> Result<Next, Refusal> {
        begin(web, self.store.node)?;
        show(self.store, web)
    }
}
