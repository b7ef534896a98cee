//! A servlet that begins a user's session.

ghost use Rattle.std.specs.Prelude.{◌≡◌, ◌++◌, codes};
ghost use Rattle.sv_session.specs.Fault.{fault_name};
ghost use Rattle.sv_servlet.specs.Servlet.{lent};
ghost use Rattle.sv_servlet.specs.declared.servlet.Next.TheVariants.{Done};
ghost use Rattle.sv_samples.specs.Login as spec;
ghost use Rattle.sv_web.specs.Refusal.{Does};
ghost use Rattle.sv_web.specs.Steps.{written};

use std::alloc::Global;
use sv_servlet::{Call, Next, Reply};
use sv_session::{SessionEdit, SessionFault};
use sv_web::{
    HttpServlet, Refusal, has_session, parameter, parameter_or, set_plain_text, set_text,
};

/// Ends the session that is held, if one is, begins another for the user of the first parameter `user`, or `anonymous`,
/// keeps the name in its attribute `user`, and welcomes the user.
///
/// With a parameter `again` it ends that session too and asks for another, which one request can't have, and
/// writes the fault's name.
#[derive(Drop)]
pub struct Login;

/// The attribute that holds the user's name.
const USER: &str = "user";

fn welcome(
    alloc: Global,
    user: &str,
    edit: &SessionEdit,
    reply: &mut Reply,
) -> Result<Next, Refusal>
    ensures { Does (spec.welcomed user.now) (lent edit.entry.now reply.old) (lent edit.entry.now reply.new) result }
{
    let text = format!(in alloc; "welcome {user}\n")?;
    reply.write(text.as_bytes())?;
    Ok(Next::Done)
}

/// Writes why no session is made again.
fn write_fault(
    alloc: Global,
    fault: SessionFault,
    edit: &SessionEdit,
    reply: &mut Reply,
) -> Result<Next, Refusal>
    ensures { Does (written (fault_name fault ++ codes "\n") Done) (lent edit.entry.now reply.old) (lent edit.entry.now reply.new) result }
{
    let name = fault.name();
    let text = format!(in alloc; "{name}\n")?;
    reply.write(text.as_bytes())?;
    Ok(Next::Done)
}

/// Asks for another session in the same request.
#[tactic(auto, unfolding(crate::specs::Login::begun_again))]
fn begin_again(alloc: Global, edit: &mut SessionEdit, reply: &mut Reply) -> Result<Next, Refusal>
    ensures { Does spec.begun_again (lent edit.old reply.old) (lent edit.new reply.new) result }
{
    edit.invalidate()?;
    match edit.create() {
        Ok(_) => Ok(Next::Done),
        Err(SessionFault::Memory) => Err(Refusal::Memory),
        Err(fault) => write_fault(alloc, fault, edit, reply),
    }
}

/// Welcomes the user whose session was made, or asks for another session.
#[tactic(auto, unfolding(crate::specs::Login::named))]
fn greet(
    alloc: Global,
    call: &Call<'_>,
    user: &str,
    edit: &mut SessionEdit,
    reply: &mut Reply,
) -> Result<Next, Refusal>
    ensures { Does (spec.named call.now user.now) (lent edit.old reply.old) (lent edit.new reply.new) result }
{
    if parameter(call.params, "again").is_some() {
        return begin_again(alloc, edit, reply);
    }
    welcome(alloc, user, edit, reply)
}

/// Keeps the user's name in the session.
#[tactic(auto, unfolding(crate::specs::Login::kept))]
fn keep_user(
    alloc: Global,
    call: &Call<'_>,
    edit: &mut SessionEdit,
    reply: &mut Reply,
) -> Result<Next, Refusal>
    ensures { Does (spec.kept call.now (spec.user_of call.now)) (lent edit.old reply.old) (lent edit.new reply.new) result }
{
    let user = parameter_or(alloc, call.params, "user", "anonymous")?;
    set_text(edit, USER, user.as_str())?;
    greet(alloc, call, user.as_str(), edit, reply)
}

/// Makes a session for the user.
#[tactic(auto, unfolding(crate::specs::Login::created))]
fn make_session(
    alloc: Global,
    call: &Call<'_>,
    edit: &mut SessionEdit,
    reply: &mut Reply,
) -> Result<Next, Refusal>
    ensures { Does (spec.created call.now) (lent edit.old reply.old) (lent edit.new reply.new) result }
{
    edit.create()?;
    keep_user(alloc, call, edit, reply)
}

/// Ends the session that is held, and makes another for the user.
#[tactic(auto, unfolding(crate::specs::Login::begun))]
fn begin(
    alloc: Global,
    call: &Call<'_>,
    edit: &mut SessionEdit,
    reply: &mut Reply,
) -> Result<Next, Refusal>
    ensures { Does (spec.begun call.now) (lent edit.old reply.old) (lent edit.new reply.new) result }
{
    if !has_session(edit) {
        return make_session(alloc, call, edit, reply);
    }
    edit.invalidate()?;
    make_session(alloc, call, edit, reply)
}

impl HttpServlet for Login {
    ghost use Rattle.sv_samples.specs.Login.{login};

    ghost work = { λ _. login };

    fn serve(
        &mut self,
        alloc: Global,
        call: &Call<'_>,
        edit: &mut SessionEdit,
        reply: &mut Reply,
    ) -> Result<Next, Refusal> {
        set_plain_text(reply)?;
        begin(alloc, call, edit, reply)
    }
}
