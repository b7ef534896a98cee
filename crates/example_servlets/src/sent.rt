//! What the shop sends.

ghost use Rattle.sv_web.specs.Exchange.{Completes};
ghost use Rattle.example_servlets.specs.Sent as spec;

use sv_servlet::Next;
use sv_web::{Exchange, Page, Refusal, send_page};

/// Sends a page that says what was wrong with a form (RFC 9110, section 15.5.1).
#[tactic(auto, unfolding(crate::specs::Sent::sent_back))]
pub fn send_back(web: &mut Exchange<'_>, page: &Page) -> Result<Next, Refusal>
    ensures { Completes (spec.sent_back page.now) web.old web.new result }
{
    web.reply.status(400)?;
    send_page(web, page)
}
