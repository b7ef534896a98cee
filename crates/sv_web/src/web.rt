//! What makes a servlet or a filter of its author's part.

ghost use Rattle.std.specs.Prelude.{◌≡◌};

use crate::http_filter::HttpFilter;
use crate::http_servlet::HttpServlet;
use crate::refusal::{before_after, next_after};
use std::alloc::{AllocError, Global};
use sv_servlet::{Answers, Before, Call, Next, Reply, Surrounds};
use sv_session::SessionEdit;

/// An [`HttpServlet`] or an [`HttpFilter`], and where it takes memory from.
#[derive(Clone, Copy, Drop)]
pub struct Web<T> {
    alloc: Global,
    object: T,
}

impl<T> Web<T> {
    /// What a [`sv_servlet::GenericServlet`] or a [`sv_servlet::GenericFilter`] is made of.
    pub fn new(alloc: Global, object: T) -> Web<T>
        ensures { result.object ≡ object }
    {
        Web { alloc, object }
    }
}

impl<S: HttpServlet> Answers for Web<S> {
    ghost use Rattle.sv_web.specs.Work.{serving};

    ghost answers = { λ w. serving (S.work w.object) };

    fn answer(
        &mut self,
        call: &Call<'_>,
        edit: &mut SessionEdit,
        reply: &mut Reply,
    ) -> Result<Next, AllocError> {
        let ended = self.object.serve(self.alloc, call, edit, reply);
        next_after(self.alloc, ended)
    }

    fn goes_on(&self) {}
}

impl<F: HttpFilter> Surrounds for Web<F> {
    ghost use Rattle.sv_web.specs.Work.{surrounding};

    ghost surrounds = { λ w. surrounding (F.work w.object) };

    fn before(
        &mut self,
        call: &Call<'_>,
        edit: &mut SessionEdit,
        reply: &mut Reply,
    ) -> Result<Before, AllocError> {
        let ended = self.object.before(self.alloc, call, edit, reply);
        before_after(self.alloc, ended)
    }

    fn after(
        &mut self,
        call: &Call<'_>,
        edit: &mut SessionEdit,
        reply: &mut Reply,
    ) -> Result<(), AllocError> {
        self.object.after(self.alloc, call, edit, reply)
    }

    fn goes_on(&self) {}
}
