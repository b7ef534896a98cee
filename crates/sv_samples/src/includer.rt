//! A servlet that puts another one's text between brackets.

ghost use Rattle.std.specs.Prelude.{◌≡◌};
ghost use Rattle.sv_servlet.specs.Servlet.{lent};
ghost use Rattle.sv_samples.specs.Includer.{bracketed};
ghost use Rattle.sv_web.specs.Refusal.{Does};

use std::alloc::Global;
use sv_servlet::{Call, Next, Reply};
use sv_session::SessionEdit;
use sv_web::{HttpServlet, Refusal, parameter_or, set_plain_text};

/// Writes `[`, includes the path of its first parameter `path`, or `/hello`, and writes `]` after it.
#[derive(Drop)]
pub struct Includer;

/// One bracket, and what is to follow it.
fn write_bracket(
    alloc: Global,
    call: &Call<'_>,
    edit: &SessionEdit,
    reply: &mut Reply,
) -> Result<Next, Refusal>
    ensures { Does (bracketed call.now) (lent edit.entry.now reply.old) (lent edit.entry.now reply.new) result }
{
    if call.resume != 0 {
        reply.write(b"]")?;
        return Ok(Next::Done);
    }
    reply.write(b"[")?;
    let path = parameter_or(alloc, call.params, "path", "/hello")?;
    Ok(Next::Include { path, resume: 1 })
}

impl HttpServlet for Includer {
    ghost use Rattle.sv_samples.specs.Includer.{includer};

    ghost work = { λ _. includer };

    fn serve(
        &mut self,
        alloc: Global,
        call: &Call<'_>,
        edit: &mut SessionEdit,
        reply: &mut Reply,
    ) -> Result<Next, Refusal> {
        set_plain_text(reply)?;
        write_bracket(alloc, call, edit, reply)
    }
}
