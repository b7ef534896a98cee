//! A servlet that counts the requests of a session.

ghost use Rattle.std.specs.Prelude.{◌≡◌};
ghost use Rattle.sv_servlet.specs.Servlet.{lent};
ghost use Rattle.sv_samples.specs.Count.{kept};
ghost use Rattle.sv_web.specs.Refusal.{Does};

use std::alloc::Global;
use sv_servlet::{Call, Next, Reply};
use sv_session::SessionEdit;
use sv_web::{HttpServlet, Refusal, get_number, set_number, set_plain_text};

/// The attribute that holds the count.
const COUNT: &str = "count";

/// Makes a session where there is none, and writes as plain text which of the session's requests this is, in decimal
/// digits and a line feed.
///
/// The number is kept in the session's attribute `count`; one that is no decimal number of 64 bits counts as 0, and the
/// greatest stays.
#[derive(Drop)]
pub struct Count;

/// Keeps the number in the session, and writes it.
fn keep(
    alloc: Global,
    edit: &mut SessionEdit,
    reply: &mut Reply,
    number: u64,
) -> Result<Next, Refusal>
    ensures { Does (kept number) (lent edit.old reply.old) (lent edit.new reply.new) result }
{
    set_number(alloc, edit, COUNT, number)?;
    let text = format!(in alloc; "{number}\n")?;
    reply.write(text.as_bytes())?;
    Ok(Next::Done)
}

impl HttpServlet for Count {
    ghost use Rattle.sv_samples.specs.Count.{count};

    ghost work = { λ _. count };

    fn serve(
        &mut self,
        alloc: Global,
        _call: &Call<'_>,
        edit: &mut SessionEdit,
        reply: &mut Reply,
    ) -> Result<Next, Refusal> {
        set_plain_text(reply)?;
        edit.create()?;
        let number = get_number(edit, COUNT)?.unwrap_or(0).saturating_add(1);
        keep(alloc, edit, reply, number)
    }
}
