//! The page of an error.

ghost use Rattle.std.specs.Prelude.{◌≡◌, IfOk};
ghost use Rattle.sv_web.specs.Exchange.{Completes};
ghost use Rattle.example_servlets.specs.Error as spec;
ghost use Rattle.example_servlets.specs.Error.{message_of, title_of};

use crate::kept::{CART, seen};
use crate::store::Store;
use crate::visits::frame_of;
use example_cart::{error_page, read_cart};
use std::alloc::{AllocError, Global};
use sv_servlet::{Call, Next, Reply, RequestAttributes};
use sv_session::SessionEdit;
use sv_web::{Exchange, HttpServlet, Page, Refusal, send_page};

/// Shows what a status means, and what is said of it, in the look of the shop (Jakarta Servlet 6.0, section 10.9.1). It is shown by
/// whatever method the faulty request asked.
#[derive(Clone, Copy)]
pub struct ErrorPage {
    pub store: Store,
}

/// What a status means to a shopper.
fn title_of(code: &str) -> &'static str
    ensures { result.now ≡ title_of code.now }
{
    match code {
        "400" => "The shop can't take that",
        "403" => "That form was not sent from here",
        "404" => "There is no such page",
        "405" => "That page can't be asked so",
        _ => "Something went wrong",
    }
}

/// What is said of an error; or where to go, where nothing is.
fn message_of(message: &str) -> &str
    ensures { result.now ≡ message_of message.now }
{
    if message.is_empty() {
        "You may go on from here:"
    } else {
        message
    }
}

/// The page of a status and a text.
#[tactic(auto, unfolding(crate::specs::Error::page_of))]
fn page_of<'a>(
    store: Store,
    base: &'a str,
    edit: &'a SessionEdit,
    code: &'a str,
    message: &'a str,
) -> Result<Page, AllocError>
    ensures { IfOk result (λ page. page ≡ spec.page_of base.now store.node edit.entry.now code.now message.now) }
{
    let cart = read_cart(store.alloc, seen(edit, CART))?;
    let frame = frame_of(base, store.node, edit, &cart);
    error_page(
        store.alloc,
        frame,
        title_of(code),
        message_of(message),
        code,
    )
}

/// The status of the error.
fn code_of(attributes: &RequestAttributes) -> &str
    ensures { result.now ≡ spec.code_of attributes.now }
{
    let code = attributes.get("jakarta.servlet.error.status_code");
    code.unwrap_or("500")
}

/// What is said of it.
fn said_of(attributes: &RequestAttributes) -> &str
    ensures { result.now ≡ spec.said_of attributes.now }
{
    let message = attributes.get("jakarta.servlet.error.message");
    message.unwrap_or("")
}

/// Shows what is known of the error.
fn show(store: Store, web: &mut Exchange<'_>) -> Result<Next, Refusal>
    ensures { Completes (spec.error store.node web.old.call.now) web.old web.new result }
{
    let call = web.call;
    let code = code_of(call.attributes);
    let message = said_of(call.attributes);
    let page = page_of(store, call.context_path, web.edit, code, message)?;
    send_page(web, &page)
}

impl HttpServlet for ErrorPage {
    ghost use Rattle.example_servlets.specs.Error.{error};

    ghost work = { λ s. error s.store.node };

    fn serve(
        &mut self,
        alloc: Global,
        call: &Call<'_>,
        edit: &mut SessionEdit,
        reply: &mut Reply,
    ) -> Result<Next, Refusal> {
        let mut web = Exchange {
            alloc,
            call,
            edit,
            reply,
        };
        show(self.store, &mut web)
    }
}
