//! Servlets whose meaning is their work.

ghost use Rattle.std.specs.Prelude.{◌≡◌};
ghost use Rattle.sv_servlet.specs.Call.{Asked};
ghost use Rattle.sv_servlet.specs.Servlet.{lent};
ghost use Rattle.sv_servlet.specs.declared.servlet.Next.{Next as Following};
ghost use Rattle.sv_web.specs.Refusal.{Does};
ghost use Rattle.sv_web.specs.Work.{Work};

use crate::refusal::Refusal;
use std::alloc::Global;
use sv_servlet::{Call, Next, Reply};
use sv_session::SessionEdit;

/// A servlet, as its author writes it: what answers its requests (Jakarta Servlet 6.0, `HttpServlet`).
///
/// Its meaning is the work that it does for a call, which no call changes. A [`sv_servlet::GenericServlet`] of a [`crate::Web`] of it
/// is the servlet.
pub trait HttpServlet: Drop {
    /// The work for a call.
    ghost work: { Self → Asked → Work Following };

    /// Answers a request. A [`Refusal::Fault`], which `?` makes of a call that the edit or the reply refuses, is followed by the error
    /// page of 500 with the fault's name; after [`Refusal::Memory`] nothing is said of the edit and the reply, which are dropped.
    fn serve(
        &mut self,
        alloc: Global,
        call: &Call<'_>,
        edit: &mut SessionEdit,
        reply: &mut Reply,
    ) -> Result<Next, Refusal>
        ensures same { work self.new ≡ work self.old }
        ensures work { Does (work self.old call.now) (lent edit.old reply.old) (lent edit.new reply.new) result };
}
