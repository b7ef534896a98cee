//! What every filter has beside its meaning: a phase, and a count of its calls.

ghost use Rattle.std.specs.Prelude.{◌≡◌, IfOk};
ghost use Rattle.sv_servlet.specs.Filter.{Filters, FilterKeeps, verdict};
ghost use Rattle.sv_servlet.specs.Servlet.{lent};
ghost use Rattle.sv_servlet.specs.declared.servlet.Phase.TheVariants.{New};

use crate::call::Call;
use crate::filter::{Before, Filter};
use crate::reply::Reply;
use crate::servlet::{InitFault, Phase};
use std::alloc::AllocError;
use sv_session::SessionEdit;

/// What a [`GenericFilter`] does before and after a servlet: the part of a filter that its author writes.
///
/// Its meaning is what `before` and `after` answer and leave in the edit and the reply, as that of a filter is; no call changes it.
pub trait Surrounds: Drop {
    /// What `before` and `after` answer and leave.
    ghost surrounds: { Self → Filters };

    /// Called before what stands after it in the chain; after want of memory nothing is said of the edit and the reply, which are
    /// dropped.
    fn before(
        &mut self,
        call: &Call<'_>,
        edit: &mut SessionEdit,
        reply: &mut Reply,
    ) -> Result<Before, AllocError>
        ensures same { surrounds self.new ≡ surrounds self.old }
        ensures answer { IfOk result (λ before. verdict (lent edit.new reply.new) before ≡ (surrounds self.old).before call.now (lent edit.old reply.old)) };

    /// Called once what stands after it is over, where its `before` passed.
    fn after(
        &mut self,
        call: &Call<'_>,
        edit: &mut SessionEdit,
        reply: &mut Reply,
    ) -> Result<(), AllocError>
        ensures same { surrounds self.new ≡ surrounds self.old }
        ensures answer { IfOk result (λ _. lent edit.new reply.new ≡ (surrounds self.old).after call.now (lent edit.old reply.old)) };

    /// Does nothing: the law of the meaning. Both calls go on with the edit and the reply that are lent, put no other in their
    /// place, and neither hold the reply nor let it go.
    fn goes_on(&self)
        ensures keeps { FilterKeeps (surrounds self.now) };
}

/// A filter of whatever is done before and after a servlet (Jakarta Servlet 6.0, `GenericFilter`).
///
/// It can be put into service at once, and counts its calls, up to the greatest number; no answer shows that count.
#[derive(Drop)]
pub struct GenericFilter<F> {
    phase: Phase,
    calls: u64,
    surrounds: F,
}

impl<F: Surrounds> GenericFilter<F> {
    /// A filter that has not been initialised.
    pub fn new(surrounds: F) -> GenericFilter<F>
        ensures phase { ⟦<GenericFilter<F> as Filter>⟧.filter_phase result ≡ New }
        ensures meaning { ⟦<GenericFilter<F> as Filter>⟧.filtering result ≡ F.surrounds surrounds }
    {
        GenericFilter {
            phase: Phase::New,
            calls: 0,
            surrounds,
        }
    }
}

impl<F: Surrounds> Filter for GenericFilter<F> {
    ghost filtering = { λ f. F.surrounds f.surrounds };

    ghost filter_phase = { λ f. f.phase };

    fn init(&mut self) -> Result<(), InitFault> {
        self.surrounds.goes_on();
        self.phase = Phase::Ready;
        Ok(())
    }

    fn before(
        &mut self,
        call: &Call<'_>,
        edit: &mut SessionEdit,
        reply: &mut Reply,
    ) -> Result<Before, AllocError> {
        self.calls = self.calls.saturating_add(1);
        self.surrounds.before(call, edit, reply)
    }

    fn after(
        &mut self,
        call: &Call<'_>,
        edit: &mut SessionEdit,
        reply: &mut Reply,
    ) -> Result<(), AllocError> {
        self.calls = self.calls.saturating_add(1);
        self.surrounds.after(call, edit, reply)
    }

    fn destroy(&mut self) {
        self.phase = Phase::Destroyed;
    }
}
