//! A servlet that changes a session's id.

ghost use Rattle.std.specs.Prelude.{◌≡◌};
ghost use Rattle.sv_servlet.specs.Servlet.{lent};
ghost use Rattle.sv_samples.specs.Renew as spec;
ghost use Rattle.sv_web.specs.Refusal.{Does};

use std::alloc::Global;
use sv_servlet::{Call, Next, Reply};
use sv_session::SessionEdit;
use sv_web::{HttpServlet, Refusal, parameter, set_plain_text};

/// Changes the id of the session that is held, and says so.
///
/// With a parameter `make` it makes a session before, with a parameter `twice` it changes the id a second time: neither
/// goes with a change in the same request, and the answer is then the error page of the fault.
#[derive(Drop)]
pub struct Renew;

fn confirm(edit: &SessionEdit, reply: &mut Reply) -> Result<Next, Refusal>
    ensures { Does spec.confirmed (lent edit.entry.now reply.old) (lent edit.entry.now reply.new) result }
{
    reply.write(b"renewed\n")?;
    Ok(Next::Done)
}

/// Changes the id a second time.
#[tactic(auto, unfolding(crate::specs::Renew::changed_again))]
fn change_again(edit: &mut SessionEdit, reply: &mut Reply) -> Result<Next, Refusal>
    ensures { Does spec.changed_again (lent edit.old reply.old) (lent edit.new reply.new) result }
{
    edit.change_id()?;
    confirm(edit, reply)
}

/// Changes the id a second time where that is asked for.
fn repeat(call: &Call<'_>, edit: &mut SessionEdit, reply: &mut Reply) -> Result<Next, Refusal>
    ensures { Does (spec.repeated call.now) (lent edit.old reply.old) (lent edit.new reply.new) result }
{
    if parameter(call.params, "twice").is_some() {
        return change_again(edit, reply);
    }
    confirm(edit, reply)
}

/// Changes the id.
#[tactic(auto, unfolding(crate::specs::Renew::changed))]
fn change(call: &Call<'_>, edit: &mut SessionEdit, reply: &mut Reply) -> Result<Next, Refusal>
    ensures { Does (spec.changed call.now) (lent edit.old reply.old) (lent edit.new reply.new) result }
{
    edit.change_id()?;
    repeat(call, edit, reply)
}

/// Makes a session before the change.
#[tactic(auto, unfolding(crate::specs::Renew::made))]
fn make(call: &Call<'_>, edit: &mut SessionEdit, reply: &mut Reply) -> Result<Next, Refusal>
    ensures { Does (spec.made call.now) (lent edit.old reply.old) (lent edit.new reply.new) result }
{
    edit.create()?;
    change(call, edit, reply)
}

/// Makes a session before the change where that is asked for.
fn prepare(call: &Call<'_>, edit: &mut SessionEdit, reply: &mut Reply) -> Result<Next, Refusal>
    ensures { Does (spec.prepared call.now) (lent edit.old reply.old) (lent edit.new reply.new) result }
{
    if parameter(call.params, "make").is_some() {
        return make(call, edit, reply);
    }
    change(call, edit, reply)
}

impl HttpServlet for Renew {
    ghost use Rattle.sv_samples.specs.Renew.{renew};

    ghost work = { λ _. renew };

    fn serve(
        &mut self,
        _alloc: Global,
        call: &Call<'_>,
        edit: &mut SessionEdit,
        reply: &mut Reply,
    ) -> Result<Next, Refusal> {
        set_plain_text(reply)?;
        prepare(call, edit, reply)
    }
}
