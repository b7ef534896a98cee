//! A filter that has requests have an attribute.

use std::alloc::{AllocError, Global};
use sv_servlet::{Before, Call, Reply};
use sv_session::SessionEdit;
use sv_web::{HttpFilter, Refusal, pass_with};

/// Has each request have the attribute `member`.
#[derive(Clone, Copy)]
pub struct Carrying;

impl HttpFilter for Carrying {
    ghost use Rattle.test_memory.specs.Carrying.{carrying};

    ghost work = { λ _. carrying };

    fn before(
        &mut self,
        alloc: Global,
        _call: &Call<'_>,
        _edit: &mut SessionEdit,
        _reply: &mut Reply,
    ) -> Result<Before, Refusal> {
        Ok(pass_with(alloc, "member", "Ada")?)
    }

    fn after(
        &mut self,
        _alloc: Global,
        _call: &Call<'_>,
        _edit: &mut SessionEdit,
        _reply: &mut Reply,
    ) -> Result<(), AllocError> {
        Ok(())
    }
}
