//! What is sent in place of a page: an error, or another address.

ghost use Rattle.std.specs.Prelude.{◌≡◌, IfOk, IsTrue};
ghost use Rattle.http_header.specs.FieldValue.{is_visible_text};
ghost use Rattle.sv_servlet.specs.Reply.{Answers};
ghost use Rattle.sv_servlet.specs.declared.servlet.Next.TheVariants.{SendError};
ghost use Rattle.sv_web.specs.Redirect as spec;

use crate::header::set_header;
use std::alloc::{AllocError, Global};
use sv_model::Text;
use sv_servlet::{Next, Reply, ReplyFault};

/// What leads to the error page of a status, with a text for it (`sendError`).
pub fn send_error(alloc: Global, code: u16, text: &str) -> Result<Next, AllocError>
    ensures { IfOk result (λ next. next ≡ SendError code text.now) }
{
    let text = Text::from_str(alloc, text)?;
    Ok(Next::SendError { code, text })
}

/// Sends a client on to an address, where it asks by GET (`sendRedirect`): the field `location`, and the status 303 (RFC 9110,
/// section 15.4.4).
///
/// The address is a text of the program's own, of visible ASCII: no client chooses where another one is sent. What was written
/// before stays. Does nothing while the reply is held.
pub fn send_redirect(reply: &mut Reply, to: &'static str) -> Result<(), ReplyFault>
    requires { IsTrue (is_visible_text to.now) }
    ensures { Answers reply.old (spec.redirect_result reply.old to.now) result reply.new }
{
    set_header(reply, "location", to)?;
    reply.status(303)
}
