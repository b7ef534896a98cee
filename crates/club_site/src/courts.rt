//! The page of the courts.

ghost use Rattle.std.specs.Prelude.{◌≡◌, OnOk};
ghost use Rattle.club_site.specs.Courts as spec;

use crate::frame::{begin, write_around};
use crate::kept::{FLASH, SLOTS, seen, take_flash};
use crate::language::{BOOKED, BOOKED_DE, COURTS, COURTS_DE, say, text};
use crate::slots::{book, place_of};
use std::alloc::AllocError;
use sv_servlet::{Call, Next};
use sv_web::Piece::{Markup, Number};
use sv_web::{
    Exchange, Get, Page, Post, Refusal, csrf_token, read_u64, send_page, send_redirect, set_text,
};

/// From the token of the form up to the slots.
const ROWS: &str = "\"></form><ul>";

/// Shows the slots that a member has booked. A POST books that of its parameters `court` and `hour`; the next page says how it went.
#[derive(Clone, Copy)]
pub struct Courts;

/// Writes slots, and the end of their list.
#[tactic(auto, unfolding(crate::specs::Courts::with_slots))]
fn write_slots(page: &mut Page, slots: &[u8]) -> Result<(), AllocError>
    ensures { OnOk result (page.new ≡ spec.with_slots page.old slots.now) }
{
    for slot in slots {
        let (court, hour) = place_of(*slot);
        page.write(&[Markup("<li>"), Number(court), Markup(", ")])?;
        page.write(&[Number(hour), Markup(":00")])?;
    }
    page.write(&[Markup("</ul>")])
}

/// A number that a form has, or 0.
fn number_of(call: &Call<'_>, name: &str) -> u64
    ensures { result ≡ spec.number_of call.now name.now }
{
    read_u64(text(call, name)).unwrap_or(0)
}

impl Get for Courts {
    ghost use Rattle.club_site.specs.Courts.{courts};

    ghost gets = { λ _. courts };

    fn get(&mut self, web: &mut Exchange<'_>) -> Result<Next, Refusal> {
        let said = take_flash(web)?;
        let token = csrf_token(web)?;
        let mut page = begin(web, "courts", said.as_slice())?;
        let forms = say(web.call, COURTS, COURTS_DE);
        write_around(&mut page, forms, token.as_slice(), ROWS)?;
        write_slots(&mut page, seen(web.edit, SLOTS))?;
        send_page(web, &page)
    }
}

impl Post for Courts {
    ghost use Rattle.club_site.specs.Courts.{taken};

    ghost posts = { λ _. taken };

    fn post(&mut self, web: &mut Exchange<'_>) -> Result<Next, Refusal> {
        let call = web.call;
        let fault = book(web, number_of(call, "court"), number_of(call, "hour"))?;
        let said = fault.unwrap_or(say(call, BOOKED, BOOKED_DE));
        set_text(web.edit, FLASH, said)?;
        send_redirect(web.reply, "courts")?;
        Ok(Next::Done)
    }
}
