//! The cart, shown and changed.

ghost use Rattle.std.specs.Prelude.{◌≡◌, IfOk};
ghost use Rattle.sv_web.specs.Exchange.{Completes, CompletesPart};
ghost use Rattle.example_cart.specs.Pages.{wrong_of};
ghost use Rattle.example_servlets.specs.Basket as spec;
ghost use Rattle.example_servlets.specs.Visits.{begun};

use crate::catalogue::offers_of;
use crate::kept::{CART, FORMS, NOTICE, ORDER, seen, session_number};
use crate::sent::send_back;
use crate::store::Store;
use crate::told::{sent_of, text};
use crate::visits::{begin, frame_of};
use example_cart::{
    Beside, Cart, Forms, Listing, Notice, Post as Form, Sent, Wrong, cart_page, kept_forms,
    read_cart, read_forms, read_order, take_post,
};
use std::alloc::{AllocError, Global};
use sv_servlet::Next;
use sv_session::SessionEdit;
use sv_web::{
    Exchange, Get, Page, Post, Refusal, has_session, send_error, send_page, send_redirect,
};

/// Shows the cart; a POST changes it by the form of an article, and sends the browser on to the page, which says what happened.
#[derive(Clone, Copy)]
pub struct Basket {
    pub store: Store,
}

/// A cart after a form, the forms that have counted, and what is said of this one.
#[derive(Drop)]
struct Taken {
    cart: Cart,
    forms: Forms,
    notice: Notice,
}

/// The cart of a session after a form.
#[tactic(auto, unfolding(crate::specs::Basket::basket_after, crate::specs::Basket::notice_of))]
fn basket_after(
    store: Store,
    edit: &SessionEdit,
    post: Form,
    is_new: bool,
) -> Result<Taken, AllocError>
    ensures basket { IfOk result (λ t. record { cart = t.cart; forms = t.forms } ≡ spec.basket_after post edit.entry.now) }
    ensures notice { IfOk result (λ t. t.notice ≡ spec.notice_of post is_new edit.entry.now) }
{
    let mut cart = read_cart(store.alloc, seen(edit, CART))?;
    let mut forms = read_forms(store.alloc, seen(edit, FORMS))?;
    let before = cart.quantity(post.article);
    let standing = take_post(&mut cart, &mut forms, session_number(edit), post)?;
    Ok(Taken {
        cart,
        forms,
        notice: Notice::of_post(standing, before, post, is_new),
    })
}

/// Keeps a cart, its forms and what is said in the session, and sends the browser on to the page.
#[tactic(auto, unfolding(crate::specs::Basket::with_basket))]
fn keep_taken(web: &mut Exchange<'_>, taken: &Taken) -> Result<Next, Refusal>
    ensures { Completes (spec.with_basket (record { cart = taken.now.cart; forms = taken.now.forms }) taken.now.notice) web.old web.new result }
{
    let forms = kept_forms(web.alloc, &taken.forms)?;
    web.edit.set(CART, Some(taken.cart.as_slice()))?;
    web.edit.set(FORMS, Some(forms.as_slice()))?;
    web.edit.set(NOTICE, Some(&taken.notice.kept()))?;
    send_redirect(web.reply, "cart")?;
    Ok(Next::Done)
}

/// Changes the cart of a session by a form.
fn take(store: Store, web: &mut Exchange<'_>, post: Form, is_new: bool) -> Result<Next, Refusal>
    ensures { Completes (spec.taken_in post is_new) web.old web.new result }
{
    let taken = basket_after(store, web.edit, post, is_new)?;
    keep_taken(web, &taken)
}

/// Changes the cart by a form, in a session that is made where there is none.
#[tactic(auto, unfolding(crate::specs::Basket::changed))]
fn change(store: Store, web: &mut Exchange<'_>, post: Form) -> Result<Next, Refusal>
    ensures { Completes (spec.changed store.node post) web.old web.new result }
{
    let is_new = !has_session(web.edit);
    begin(web, store.node)?;
    take(store, web, post, is_new)
}

/// The page of the cart, for a session as it is, with what was typed that is no quantity.
#[tactic(auto, unfolding(crate::specs::Basket::page_of))]
fn page_of<'a>(
    store: Store,
    base: &'a str,
    edit: &'a SessionEdit,
    wrong: Option<Wrong<'_>>,
) -> Result<Page, AllocError>
    ensures { IfOk result (λ page. page ≡ spec.page_of store.articles.now base.now store.node (wrong_of wrong.entry) edit.entry.now) }
{
    let cart = read_cart(store.alloc, seen(edit, CART))?;
    let order = read_order(store.alloc, seen(edit, ORDER))?;
    let beside = Beside {
        notice: Notice::read(seen(edit, NOTICE)),
        wrong,
        form: order.number,
    };
    let frame = frame_of(base, store.node, edit, &cart);
    cart_page(store.alloc, frame, store.articles, &cart, beside)
}

/// The form of an article stands in the cart while there is something of it there.
fn is_line(
    store: Store,
    listing: Listing,
    article: u8,
    edit: &SessionEdit,
) -> Result<bool, AllocError>
    ensures { IfOk result (λ is. is ≡ spec.is_line listing article edit.entry.now) }
{
    let cart = read_cart(store.alloc, seen(edit, CART))?;
    match listing {
        Listing::Lines => Ok(cart.quantity(article) > 0),
        Listing::Offers | Listing::Ordered => Ok(false),
    }
}

/// The page of a form again, with what was typed in it.
#[tactic(auto, unfolding(crate::specs::Basket::wrong_page))]
fn wrong_page<'a>(
    store: Store,
    base: &'a str,
    edit: &'a SessionEdit,
    listing: Listing,
    article: u8,
    typed: &'a str,
) -> Result<Page, AllocError>
    ensures { IfOk result (λ page. page ≡ spec.wrong_page store.articles.now base.now store.node listing article typed.now edit.entry.now) }
{
    let wrong = Some(Wrong {
        article: usize::from(article),
        typed,
    });
    if is_line(store, listing, article, edit)? {
        return page_of(store, base, edit, wrong);
    }
    offers_of(store, base, edit, wrong)
}

/// Shows the page of a form again, where what was typed is no quantity.
#[tactic(auto, unfolding(crate::specs::Basket::wrong_shown))]
fn show_wrong(
    store: Store,
    web: &mut Exchange<'_>,
    listing: Listing,
    article: u8,
) -> Result<Next, Refusal>
    ensures { Completes (spec.wrong_shown store.articles.now web.old.call.now.context_path store.node listing article (spec.typed web.old.call.now))
        web.old web.new result }
{
    let call = web.call;
    let typed = text(call.params, "quantity");
    let page = wrong_page(store, call.context_path, web.edit, listing, article, typed)?;
    send_back(web, &page)
}

/// The same, in a session that is made where there is none.
fn show_again(
    store: Store,
    web: &mut Exchange<'_>,
    listing: Listing,
    article: u8,
) -> Result<Next, Refusal>
    ensures { Completes (begun store.node (spec.wrong_shown store.articles.now web.old.call.now.context_path store.node listing article
        (spec.typed web.old.call.now))) web.old web.new result }
{
    begin(web, store.node)?;
    show_wrong(store, web, listing, article)
}

/// Refuses what is no form.
pub fn refuse(alloc: Global) -> Result<Next, AllocError>
    ensures { IfOk result (λ next. next ≡ spec.refusal) }
{
    send_error(
        alloc,
        400,
        "This form is not one of the shop's, or it has lost a field.",
    )
}

/// Forgets the notice, if there is a session.
fn forget_notice(web: &mut Exchange<'_>) -> Result<(), Refusal>
    ensures { CompletesPart spec.forgotten web.old web.new result }
{
    if has_session(web.edit) {
        web.edit.remove(NOTICE)?;
    }
    Ok(())
}

/// Sends a page, and forgets the notice that is on it.
fn send_once(web: &mut Exchange<'_>, page: &Page) -> Result<Next, Refusal>
    ensures { Completes (spec.sent_once page.now) web.old web.new result }
{
    forget_notice(web)?;
    send_page(web, page)
}

impl Get for Basket {
    ghost use Rattle.example_servlets.specs.Basket.{shown};

    ghost gets = { λ s. shown s.store.articles.now s.store.node };

    fn get(&mut self, web: &mut Exchange<'_>) -> Result<Next, Refusal> {
        let call = web.call;
        let page = page_of(self.store, call.context_path, web.edit, None)?;
        send_once(web, &page)
    }
}

impl Post for Basket {
    ghost use Rattle.example_servlets.specs.Basket.{taken};

    ghost posts = { λ s. taken s.store.articles.now s.store.node };

    fn post(&mut self, web: &mut Exchange<'_>) -> Result<Next, Refusal> {
        let call = web.call;
        match sent_of(call.params) {
            Sent::Asks(post) => change(self.store, web, post),
            Sent::Wrong { listing, article } => show_again(self.store, web, listing, article),
            Sent::NotOurs => Ok(refuse(web.alloc)?),
        }
    }
}
