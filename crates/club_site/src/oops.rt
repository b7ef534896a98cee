//! The page of an error.

ghost use Rattle.sv_web.specs.Exchange.{Completes};
ghost use Rattle.club_site.specs.Oops as spec;

use crate::frame::{begin, write_around};
use std::alloc::Global;
use sv_servlet::{Call, Next, Reply};
use sv_session::SessionEdit;
use sv_web::{Exchange, HttpServlet, Refusal, send_page};

/// Says what went wrong, by whatever method the faulty request asked.
#[derive(Clone, Copy)]
pub struct Oops;

/// Shows a status, and what is said of it.
#[tactic(auto, unfolding(crate::specs::Oops::shown))]
fn show(web: &mut Exchange<'_>, code: &str, said: &str) -> Result<Next, Refusal>
    ensures { Completes (spec.shown web.old.call.now code.now said.now) web.old web.new result }
{
    let mut page = begin(web, "courts", said.as_bytes())?;
    write_around(&mut page, "</p><h1>", code.as_bytes(), "</h1>")?;
    send_page(web, &page)
}

impl HttpServlet for Oops {
    ghost use Rattle.club_site.specs.Oops.{oops};

    ghost work = { λ _. oops };

    fn serve(
        &mut self,
        alloc: Global,
        call: &Call<'_>,
        edit: &mut SessionEdit,
        reply: &mut Reply,
    ) -> Result<Next, Refusal> {
        let code = call.attributes.get("jakarta.servlet.error.status_code");
        let message = call.attributes.get("jakarta.servlet.error.message");
        let mut web = Exchange {
            alloc,
            call,
            edit,
            reply,
        };
        show(&mut web, code.unwrap_or("500"), message.unwrap_or(""))
    }
}
