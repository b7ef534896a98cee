//! What every servlet has beside its meaning: a phase, and a count of its calls.

ghost use Rattle.std.specs.Prelude.{◌≡◌, IfOk};
ghost use Rattle.sv_servlet.specs.Servlet.{Serves, lent, answer, KeepsEdits, KeepsReplies};
ghost use Rattle.sv_servlet.specs.declared.servlet.Phase.TheVariants.{New};

use crate::call::Call;
use crate::reply::Reply;
use crate::servlet::{InitFault, Next, Phase, Servlet};
use std::alloc::AllocError;
use sv_session::SessionEdit;

/// What answers the requests of a [`GenericServlet`]: the part of a servlet that its author writes.
///
/// Its meaning is what `answer` answers and leaves in the edit and the reply, as that of a servlet is; no call changes it.
pub trait Answers: Drop {
    /// What `answer` answers.
    ghost answers: { Self → Serves };

    /// Answers a request; after want of memory nothing is said of the edit and the reply, which are dropped.
    fn answer(
        &mut self,
        call: &Call<'_>,
        edit: &mut SessionEdit,
        reply: &mut Reply,
    ) -> Result<Next, AllocError>
        ensures same { answers self.new ≡ answers self.old }
        ensures answer { IfOk result (λ next. answer (lent edit.new reply.new) next ≡ answers self.old call.now (lent edit.old reply.old)) };

    /// Does nothing: the laws of the meaning. An answer goes on with the edit and the reply that are lent, puts no other in
    /// their place, and neither holds the reply nor lets it go.
    fn goes_on(&self)
        ensures keeps_edits { KeepsEdits (answers self.now) }
        ensures keeps_replies { KeepsReplies (answers self.now) };
}

/// A servlet of whatever answers its requests (Jakarta Servlet 6.0, `GenericServlet`).
///
/// It can be put into service at once, and counts its calls, up to the greatest number; no answer shows that count.
#[derive(Drop)]
pub struct GenericServlet<A> {
    phase: Phase,
    calls: u64,
    answers: A,
}

impl<A: Answers> GenericServlet<A> {
    /// A servlet that has not been initialised.
    pub fn new(answers: A) -> GenericServlet<A>
        ensures phase { ⟦<GenericServlet<A> as Servlet>⟧.servlet_phase result ≡ New }
        ensures meaning { ⟦<GenericServlet<A> as Servlet>⟧.serves result ≡ A.answers answers }
    {
        GenericServlet {
            phase: Phase::New,
            calls: 0,
            answers,
        }
    }
}

impl<A: Answers> Servlet for GenericServlet<A> {
    ghost serves = { λ s. A.answers s.answers };

    ghost servlet_phase = { λ s. s.phase };

    fn init(&mut self) -> Result<(), InitFault> {
        self.answers.goes_on();
        self.phase = Phase::Ready;
        Ok(())
    }

    fn service(
        &mut self,
        call: &Call<'_>,
        edit: &mut SessionEdit,
        reply: &mut Reply,
    ) -> Result<Next, AllocError> {
        self.calls = self.calls.saturating_add(1);
        self.answers.answer(call, edit, reply)
    }

    fn destroy(&mut self) {
        self.phase = Phase::Destroyed;
    }
}
