//! Ordering.

ghost use Rattle.std.specs.Prelude.{◌≡◌, ◌<◌, IfOk};
ghost use Rattle.sv_web.specs.Exchange.{Completes};
ghost use Rattle.example_servlets.specs.Checkout as spec;

use crate::basket::refuse;
use crate::kept::{CART, NOTICE, ORDER, seen};
use crate::store::Store;
use crate::told::order_form;
use crate::visits::frame_of;
use example_cart::{
    Cart, Notice, Order, is_ordered, kept_order, order_page, read_cart, read_order,
};
use std::alloc::AllocError;
use sv_servlet::Next;
use sv_session::SessionEdit;
use sv_web::{Exchange, Get, Page, Post, Refusal, send_page, send_redirect};

/// Orders what is in the cart, where a POST has the number of the next order's form, empties the cart, and sends the browser on to
/// the page of the last order.
#[derive(Clone, Copy)]
pub struct Checkout {
    pub store: Store,
}

/// The page, for a session as it is.
#[tactic(auto, unfolding(crate::specs::Checkout::page_of))]
fn page_of<'a>(store: Store, base: &'a str, edit: &'a SessionEdit) -> Result<Page, AllocError>
    ensures { IfOk result (λ page. page ≡ spec.page_of store.articles.now base.now store.node edit.entry.now) }
{
    let cart = read_cart(store.alloc, seen(edit, CART))?;
    let order = read_order(store.alloc, seen(edit, ORDER))?;
    let frame = frame_of(base, store.node, edit, &cart);
    order_page(store.alloc, frame, store.articles, &order)
}

/// Keeps a cart as the order of the next number, empties the cart, and sends the browser on to the order.
#[tactic(auto, unfolding(crate::specs::Checkout::placed))]
fn place(web: &mut Exchange<'_>, last: u16, cart: Cart) -> Result<Next, Refusal>
    requires { last < 65535 }
    ensures { Completes (spec.placed last cart) web.old web.new result }
{
    let order = Order {
        number: last + 1,
        cart,
    };
    let order = kept_order(web.alloc, &order)?;
    let empty = Cart::new(web.alloc)?;
    web.edit.set(ORDER, Some(order.as_slice()))?;
    web.edit.set(CART, Some(empty.as_slice()))?;
    send_redirect(web.reply, "checkout")?;
    Ok(Next::Done)
}

/// Leaves a cart that a form doesn't order. Where there is something in it, the page of the cart is to say so.
#[tactic(auto, unfolding(crate::specs::Checkout::left))]
fn leave(web: &mut Exchange<'_>, cart: &Cart) -> Result<Next, Refusal>
    ensures { Completes (spec.left cart.now) web.old web.new result }
{
    if cart.is_empty() {
        send_redirect(web.reply, "checkout")?;
        return Ok(Next::Done);
    }
    web.edit.set(NOTICE, Some(&Notice::not_ordered().kept()))?;
    send_redirect(web.reply, "cart")?;
    Ok(Next::Done)
}

/// Orders what is in the cart, where the form is that of the next order and there is something in the cart.
#[tactic(auto, unfolding(crate::specs::Checkout::ordered))]
fn order(web: &mut Exchange<'_>, form: u16) -> Result<Next, Refusal>
    ensures { Completes (spec.ordered form) web.old web.new result }
{
    let cart = read_cart(web.alloc, seen(web.edit, CART))?;
    let order = read_order(web.alloc, seen(web.edit, ORDER))?;
    if !is_ordered(&order, &cart, form) {
        return leave(web, &cart);
    }
    place(web, order.number, cart)
}

impl Get for Checkout {
    ghost use Rattle.example_servlets.specs.Checkout.{shown};

    ghost gets = { λ s. shown s.store.articles.now s.store.node };

    fn get(&mut self, web: &mut Exchange<'_>) -> Result<Next, Refusal> {
        let call = web.call;
        let page = page_of(self.store, call.context_path, web.edit)?;
        send_page(web, &page)
    }
}

impl Post for Checkout {
    ghost use Rattle.example_servlets.specs.Checkout.{taken};

    ghost posts = { λ _. taken };

    fn post(&mut self, web: &mut Exchange<'_>) -> Result<Next, Refusal> {
        let call = web.call;
        match order_form(call.params) {
            Some(form) => order(web, form),
            None => Ok(refuse(web.alloc)?),
        }
    }
}
