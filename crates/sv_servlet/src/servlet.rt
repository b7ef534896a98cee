//! Servlets: objects with a meaning and a phase.

ghost use Rattle.std.specs.Prelude.{◌≡◌, IfOk};
ghost use Rattle.sv_servlet.specs.Servlet.{Serves, lent, answer, KeepsEdits, KeepsReplies, phase_after_init};
ghost use Rattle.sv_servlet.specs.declared.servlet.InitFault.TheVariants.{Memory};
ghost use Rattle.sv_servlet.specs.declared.servlet.Phase.{Phase};
ghost use Rattle.sv_servlet.specs.declared.servlet.Phase.TheVariants.{New, Ready, Destroyed};

use crate::call::Call;
use crate::reply::Reply;
use std::alloc::AllocError;
use sv_model::Text;
use sv_session::SessionEdit;
use thiserror::Error;

/// Where an object stands in its life (Jakarta Servlet 6.0, section "Servlet Life Cycle").
#[derive(Clone, Copy, Debug, PartialEq, Eq)]
pub enum Phase {
    /// It was made and has not been initialised.
    New,
    /// It may be called.
    Ready,
    /// Its initialisation failed; it is never called.
    Failed,
    Destroyed,
}

/// Why an object can't be put into service.
#[derive(Clone, Copy, Debug, PartialEq, Eq, Error)]
pub enum InitFault {
    #[error("the object declares itself unavailable")]
    Unavailable,
    #[error("memory was refused while the object was initialised")]
    Memory,
}

impl From<AllocError> for InitFault {
    ghost from_gives = { λ _ fault. fault ≡ Memory };

    fn from(_: AllocError) -> Self {
        InitFault::Memory
    }
}

/// What follows a servlet's return.
#[derive(Drop)]
pub enum Next {
    /// The reply stands.
    Done,
    /// The request goes on to the path of another servlet, whose reply takes the place of this one's.
    Forward(Text),
    /// What the path's servlet writes goes in here; then this servlet is called again with the number.
    Include { path: Text, resume: u16 },
    /// The error page of a status is sent, with a text for it.
    SendError { code: u16, text: Text },
    /// The error page of a fault of this name is sent.
    Fault(Text),
}

/// An application object that answers requests.
///
/// Its meaning is what `service` answers and leaves in the edit and the reply: a function of the call, the
/// edit and the reply, whatever the object has lived through. A call may change the object, and leaves that
/// function the same. It goes on with the edit and the reply that it is lent: it puts no other in their place, and
/// neither holds the reply nor lets it go.
pub trait Servlet: Drop {
    /// What `service` answers.
    ghost serves: { Self → Serves };

    ghost servlet_phase: { Self → Phase };

    /// Puts the servlet into service; called once, before any request.
    fn init(&mut self) -> Result<(), InitFault>
        requires { servlet_phase self.old ≡ New }
        ensures same { serves self.new ≡ serves self.old }
        ensures phase { servlet_phase self.new ≡ phase_after_init result }
        ensures keeps_edits { KeepsEdits (serves self.new) }
        ensures keeps_replies { KeepsReplies (serves self.new) };

    /// Serves a request; after want of memory nothing is said of the edit and the reply, which are dropped.
    fn service(
        &mut self,
        call: &Call<'_>,
        edit: &mut SessionEdit,
        reply: &mut Reply,
    ) -> Result<Next, AllocError>
        requires { servlet_phase self.old ≡ Ready }
        ensures same { serves self.new ≡ serves self.old }
        ensures phase { servlet_phase self.new ≡ Ready }
        ensures answer { IfOk result (λ next. answer (lent edit.new reply.new) next ≡ serves self.old call.now (lent edit.old reply.old)) };

    /// Takes the servlet out of service; called once, after the last request.
    fn destroy(&mut self)
        requires { servlet_phase self.old ≡ Ready }
        ensures same { serves self.new ≡ serves self.old }
        ensures phase { servlet_phase self.new ≡ Destroyed };
}
