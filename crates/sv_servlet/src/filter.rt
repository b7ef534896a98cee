//! Filters: objects that are called round a servlet (Jakarta Servlet 6.0, chapter "Filtering").

ghost use Rattle.std.specs.Prelude.{◌≡◌, IfOk};
ghost use Rattle.sv_servlet.specs.Servlet.{lent, phase_after_init};
ghost use Rattle.sv_servlet.specs.Filter.{Filters, FilterKeeps, verdict};
ghost use Rattle.sv_servlet.specs.declared.servlet.Phase.{Phase};
ghost use Rattle.sv_servlet.specs.declared.servlet.Phase.TheVariants.{New, Ready, Destroyed};

use crate::call::Call;
use crate::reply::Reply;
use crate::servlet::InitFault;
use std::alloc::AllocError;
use sv_model::Text;
use sv_session::SessionEdit;

/// What a filter says before what stands after it in the chain is called.
#[derive(Drop)]
pub enum Before {
    /// The next filter, or the servlet, is called.
    Pass,
    /// The same, and the request has this attribute from then on (Jakarta Servlet 6.0, section 3.3): for what stands after the filter, for
    /// the dispatches inside it, and for each `after`.
    PassWith { name: Text, value: Text },
    /// Nothing after this filter is called; the reply stands.
    Stop,
    /// The error page of a status is sent, with a text for it.
    SendError { code: u16, text: Text },
    /// The error page of a fault of this name is sent.
    Fault(Text),
}

/// An application object that is called before and after a servlet.
///
/// Its meaning is a pair of functions, as that of a servlet is one; no call changes it. Both calls go on with the
/// edit and the reply that they are lent, as those of a servlet do.
pub trait Filter: Drop {
    /// What `before` and `after` answer and leave.
    ghost filtering: { Self → Filters };

    ghost filter_phase: { Self → Phase };

    /// Puts the filter into service; called once, before any request.
    fn init(&mut self) -> Result<(), InitFault>
        requires { filter_phase self.old ≡ New }
        ensures same { filtering self.new ≡ filtering self.old }
        ensures phase { filter_phase self.new ≡ phase_after_init result }
        ensures keeps { FilterKeeps (filtering self.new) };

    /// Called before what stands after it; after want of memory nothing is said of the edit and the reply.
    fn before(
        &mut self,
        call: &Call<'_>,
        edit: &mut SessionEdit,
        reply: &mut Reply,
    ) -> Result<Before, AllocError>
        requires { filter_phase self.old ≡ Ready }
        ensures same { filtering self.new ≡ filtering self.old }
        ensures phase { filter_phase self.new ≡ Ready }
        ensures answer { IfOk result (λ before. verdict (lent edit.new reply.new) before ≡ (filtering self.old).before call.now (lent edit.old reply.old)) };

    /// Called once what stands after it is over, where its `before` passed.
    fn after(
        &mut self,
        call: &Call<'_>,
        edit: &mut SessionEdit,
        reply: &mut Reply,
    ) -> Result<(), AllocError>
        requires { filter_phase self.old ≡ Ready }
        ensures same { filtering self.new ≡ filtering self.old }
        ensures phase { filter_phase self.new ≡ Ready }
        ensures answer { IfOk result (λ _. lent edit.new reply.new ≡ (filtering self.old).after call.now (lent edit.old reply.old)) };

    /// Takes the filter out of service; called once, after the last request.
    fn destroy(&mut self)
        requires { filter_phase self.old ≡ Ready }
        ensures same { filtering self.new ≡ filtering self.old }
        ensures phase { filter_phase self.new ≡ Destroyed };
}
