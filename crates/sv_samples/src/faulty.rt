//! A servlet that fails as it is asked to.

ghost use Rattle.std.specs.Prelude.{◌≡◌, codes, IfOk};
ghost use Rattle.sv_servlet.specs.Servlet.{lent};
ghost use Rattle.sv_samples.specs.Faulty as spec;
ghost use Rattle.sv_web.specs.Request.{parameter};
ghost use Rattle.sv_web.specs.Refusal.{Does};

use std::alloc::{AllocError, Global};
use sv_model::Text;
use sv_servlet::{Call, Next, Reply};
use sv_session::SessionEdit;
use sv_web::{HttpServlet, Refusal, parameter, read_u16, send_error, set_header, set_plain_text};

/// Sends the error of its first parameter `code`, or else the fault of its first parameter `fault`; as an error page it
/// faults with `again`. Asked for no error it answers with status 418 and a field of its own.
#[derive(Drop)]
pub struct Faulty;

/// The call is that of an error page.
fn is_error_page(call: &Call<'_>) -> bool
    ensures { result ≡ spec.is_error_page call.now }
{
    call.attributes
        .get("jakarta.servlet.error.status_code")
        .is_some()
}

fn code_in(text: &str) -> u16
    ensures { result ≡ spec.code_in text.now }
{
    read_u16(text).unwrap_or(500)
}

/// The error that a parameter asks for.
fn error_asked(alloc: Global, call: &Call<'_>) -> Result<Option<Next>, AllocError>
    ensures { IfOk result (λ next. next ≡ spec.error_asked (parameter call.now.params (codes "code")) (parameter call.now.params (codes "fault"))) }
{
    if let Some(code) = parameter(call.params, "code") {
        return Ok(Some(send_error(alloc, code_in(code), "asked")?));
    }
    match parameter(call.params, "fault") {
        Some(name) => Ok(Some(Next::Fault(Text::from_str(alloc, name)?))),
        None => Ok(None),
    }
}

/// The error that the call asks for.
fn error_in(alloc: Global, call: &Call<'_>) -> Result<Option<Next>, AllocError>
    ensures { IfOk result (λ next. next ≡ spec.error_in call.now) }
{
    if is_error_page(call) {
        return Ok(Some(Next::Fault(Text::from_str(alloc, "again")?)));
    }
    error_asked(alloc, call)
}

/// The field `x-faulty: yes` and a text.
fn mark(edit: &SessionEdit, reply: &mut Reply) -> Result<Next, Refusal>
    ensures { Does spec.marked (lent edit.entry.now reply.old) (lent edit.entry.now reply.new) result }
{
    set_header(reply, "x-faulty", "yes")?;
    reply.write(b"faulty\n")?;
    Ok(Next::Done)
}

/// A status of its own, a field and a text.
fn refuse(edit: &SessionEdit, reply: &mut Reply) -> Result<Next, Refusal>
    ensures { Does spec.refused (lent edit.entry.now reply.old) (lent edit.entry.now reply.new) result }
{
    reply.status(418)?;
    mark(edit, reply)
}

/// Sends the error that the call asks for, or refuses.
fn send(
    alloc: Global,
    call: &Call<'_>,
    edit: &SessionEdit,
    reply: &mut Reply,
) -> Result<Next, Refusal>
    ensures { Does (spec.failed (spec.error_in call.now)) (lent edit.entry.now reply.old) (lent edit.entry.now reply.new) result }
{
    match error_in(alloc, call)? {
        Some(next) => Ok(next),
        None => refuse(edit, reply),
    }
}

impl HttpServlet for Faulty {
    ghost use Rattle.sv_samples.specs.Faulty.{faulty};

    ghost work = { λ _. faulty };

    fn serve(
        &mut self,
        alloc: Global,
        call: &Call<'_>,
        edit: &mut SessionEdit,
        reply: &mut Reply,
    ) -> Result<Next, Refusal> {
        set_plain_text(reply)?;
        send(alloc, call, edit, reply)
    }
}
