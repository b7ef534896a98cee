//! Calls of objects in lists.

ghost use Rattle.std.specs.Prelude.{◌≡◌, IfOk};
ghost use Rattle.sv_servlet.specs.Filter.{verdict};
ghost use Rattle.sv_servlet.specs.Servlet.{lent, answer};
ghost use Rattle.sv_servlet.specs.declared.servlet.Phase.TheVariants.{Ready};
ghost use Rattle.sv_dispatch.specs.Rows.{rows, row, IsReadyAt, served, before_at, after_at};

use crate::hosted::Hosted;
use std::alloc::AllocError;
use sv_servlet::{Before, Call, Filter, Next, Reply, Servlet};
use sv_session::SessionEdit;

/// Calls one.
fn service_one<S: Servlet>(
    hosted: &mut Hosted<S>,
    call: &Call<'_>,
    edit: &mut SessionEdit,
    reply: &mut Reply,
) -> Result<Next, AllocError>
    requires { S.servlet_phase hosted.old.object ≡ Ready }
    ensures same { row S.serves S.servlet_phase hosted.new ≡ row S.serves S.servlet_phase hosted.old }
    ensures answer { IfOk result (λ next. answer (lent edit.new reply.new) next ≡ S.serves hosted.old.object call.now (lent edit.old reply.old)) }
{
    hosted.object.service(call, edit, reply)
}

/// Calls the servlet at a place.
pub fn service_at<S: Servlet>(
    all: &mut Vec<Hosted<S>>,
    at: usize,
    call: &Call<'_>,
    edit: &mut SessionEdit,
    reply: &mut Reply,
) -> Result<Next, AllocError>
    requires { IsReadyAt (rows S.serves S.servlet_phase all.old.items) at }
    ensures same { rows S.serves S.servlet_phase all.new.items ≡ rows S.serves S.servlet_phase all.old.items }
    ensures answer { IfOk result (λ next. answer (lent edit.new reply.new) next
        ≡ served (rows S.serves S.servlet_phase all.old.items) at call.now (lent edit.old reply.old)) }
{
    service_one(&mut all[at], call, edit, reply)
}

fn before_one<F: Filter>(
    hosted: &mut Hosted<F>,
    call: &Call<'_>,
    edit: &mut SessionEdit,
    reply: &mut Reply,
) -> Result<Before, AllocError>
    requires { F.filter_phase hosted.old.object ≡ Ready }
    ensures same { row F.filtering F.filter_phase hosted.new ≡ row F.filtering F.filter_phase hosted.old }
    ensures answer { IfOk result (λ before. verdict (lent edit.new reply.new) before
        ≡ (F.filtering hosted.old.object).before call.now (lent edit.old reply.old)) }
{
    hosted.object.before(call, edit, reply)
}

/// Calls a filter's `before`.
pub fn before_at<F: Filter>(
    all: &mut Vec<Hosted<F>>,
    at: usize,
    call: &Call<'_>,
    edit: &mut SessionEdit,
    reply: &mut Reply,
) -> Result<Before, AllocError>
    requires { IsReadyAt (rows F.filtering F.filter_phase all.old.items) at }
    ensures same { rows F.filtering F.filter_phase all.new.items ≡ rows F.filtering F.filter_phase all.old.items }
    ensures answer { IfOk result (λ before. verdict (lent edit.new reply.new) before
        ≡ before_at (rows F.filtering F.filter_phase all.old.items) at call.now (lent edit.old reply.old)) }
{
    before_one(&mut all[at], call, edit, reply)
}

fn after_one<F: Filter>(
    hosted: &mut Hosted<F>,
    call: &Call<'_>,
    edit: &mut SessionEdit,
    reply: &mut Reply,
) -> Result<(), AllocError>
    requires { F.filter_phase hosted.old.object ≡ Ready }
    ensures same { row F.filtering F.filter_phase hosted.new ≡ row F.filtering F.filter_phase hosted.old }
    ensures answer { IfOk result (λ _. lent edit.new reply.new ≡ (F.filtering hosted.old.object).after call.now (lent edit.old reply.old)) }
{
    hosted.object.after(call, edit, reply)
}

/// Calls a filter's `after`.
pub fn after_at<F: Filter>(
    all: &mut Vec<Hosted<F>>,
    at: usize,
    call: &Call<'_>,
    edit: &mut SessionEdit,
    reply: &mut Reply,
) -> Result<(), AllocError>
    requires { IsReadyAt (rows F.filtering F.filter_phase all.old.items) at }
    ensures same { rows F.filtering F.filter_phase all.new.items ≡ rows F.filtering F.filter_phase all.old.items }
    ensures answer { IfOk result (λ _. lent edit.new reply.new
        ≡ after_at (rows F.filtering F.filter_phase all.old.items) at call.now (lent edit.old reply.old)) }
{
    after_one(&mut all[at], call, edit, reply)
}
