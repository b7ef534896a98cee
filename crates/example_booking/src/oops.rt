//! The page of errors.

ghost use Rattle.std.specs.Prelude.{◌≡◌, IfOk};
ghost use Rattle.example_booking.specs.Oops.{page_of};

use std::alloc::{AllocError, Global};
use sv_servlet::{Call, Next, Reply};
use sv_session::SessionEdit;
use sv_web::{Exchange, HttpServlet, Page, Piece, Refusal, send_page};

/// Says what went wrong, as HTML, by whatever method the faulty request asked.
#[derive(Clone, Copy)]
pub struct Oops;

/// The page of what is said of an error.
#[tactic(auto, unfolding(crate::specs::Oops::page_of))]
fn page_of(alloc: Global, message: &str) -> Result<Page, AllocError>
    ensures { IfOk result (λ page. page ≡ page_of message.now) }
{
    let mut page = Page::new(alloc);
    page.write(&[
        Piece::Markup("<!DOCTYPE html><title>Booking</title><p>"),
        Piece::Shown(message.as_bytes()),
    ])?;
    Ok(page)
}

impl HttpServlet for Oops {
    ghost use Rattle.example_booking.specs.Oops.{oops};

    ghost work = { λ _. oops };

    fn serve(
        &mut self,
        alloc: Global,
        call: &Call<'_>,
        edit: &mut SessionEdit,
        reply: &mut Reply,
    ) -> Result<Next, Refusal> {
        let message = call.attributes.get("jakarta.servlet.error.message");
        let page = page_of(alloc, message.unwrap_or(""))?;
        let mut web = Exchange {
            alloc,
            call,
            edit,
            reply,
        };
        send_page(&mut web, &page)
    }
}
