//! An object that does nothing.

use std::alloc::{AllocError, Global};
use sv_model::Told;
use sv_servlet::{Before, Call, Listener, Next, Reply};
use sv_session::SessionEdit;
use sv_web::{HttpFilter, HttpServlet, Refusal};

/// The objects of a table without names are of this type. None is ever made; one would do nothing.
#[derive(Clone, Copy, Drop)]
pub struct Idle;

impl HttpServlet for Idle {
    ghost use Rattle.sv_servlet.specs.declared.servlet.Next.TheVariants.{Done};
    ghost use Rattle.sv_web.specs.Work.{Ends};

    ghost work = { λ _ _. Ends Done };

    fn serve(
        &mut self,
        _alloc: Global,
        _call: &Call<'_>,
        _edit: &mut SessionEdit,
        _reply: &mut Reply,
    ) -> Result<Next, Refusal> {
        Ok(Next::Done)
    }
}

impl HttpFilter for Idle {
    ghost use Rattle.sv_servlet.specs.declared.filter.Before.TheVariants.{Pass};
    ghost use Rattle.sv_web.specs.Work.{Ends};

    ghost work = { λ _. record { before = λ _. Ends Pass; after = λ _. Ends tt } };

    fn before(
        &mut self,
        _alloc: Global,
        _call: &Call<'_>,
        _edit: &mut SessionEdit,
        _reply: &mut Reply,
    ) -> Result<Before, Refusal> {
        Ok(Before::Pass)
    }

    fn after(
        &mut self,
        _alloc: Global,
        _call: &Call<'_>,
        _edit: &mut SessionEdit,
        _reply: &mut Reply,
    ) -> Result<(), AllocError> {
        Ok(())
    }
}

impl Listener for Idle {
    ghost use Rattle.std.specs.Prelude.{[]};

    ghost hears = { λ _ _ noted. noted };

    ghost noted = { λ _. [] };

    fn hear(&mut self, _told: &Told) {}
}
