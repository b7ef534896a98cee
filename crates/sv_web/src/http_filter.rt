//! Filters whose meaning is their work.

ghost use Rattle.std.specs.Prelude.{◌≡◌};
ghost use Rattle.sv_servlet.specs.Servlet.{lent};
ghost use Rattle.sv_web.specs.Refusal.{DoesAfter, DoesBefore};
ghost use Rattle.sv_web.specs.Work.{FilterWork};

use crate::refusal::Refusal;
use std::alloc::{AllocError, Global};
use sv_servlet::{Before, Call, Reply};
use sv_session::SessionEdit;

/// A filter, as its author writes it: what is done before a servlet and after it (Jakarta Servlet 6.0, `HttpFilter`).
///
/// Its meaning is the work that it does, which no call changes. A [`sv_servlet::GenericFilter`] of a [`crate::Web`] of it is the filter.
pub trait HttpFilter: Drop {
    /// The work before a servlet, and that after it.
    ghost work: { Self → FilterWork };

    /// Called before what stands after it in the chain. What follows a [`Refusal`] is as with
    /// [`HttpServlet::serve`](crate::HttpServlet::serve).
    fn before(
        &mut self,
        alloc: Global,
        call: &Call<'_>,
        edit: &mut SessionEdit,
        reply: &mut Reply,
    ) -> Result<Before, Refusal>
        ensures same { work self.new ≡ work self.old }
        ensures work { DoesBefore ((work self.old).before call.now) (lent edit.old reply.old) (lent edit.new reply.new) result };

    /// Called once what stands after it is over, where its `before` passed. Nothing can be refused any more but memory.
    fn after(
        &mut self,
        alloc: Global,
        call: &Call<'_>,
        edit: &mut SessionEdit,
        reply: &mut Reply,
    ) -> Result<(), AllocError>
        ensures same { work self.new ≡ work self.old }
        ensures work { DoesAfter ((work self.old).after call.now) (lent edit.old reply.old) (lent edit.new reply.new) result };
}
