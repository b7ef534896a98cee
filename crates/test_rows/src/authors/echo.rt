//! A filter that writes what was sent.

use std::alloc::{AllocError, Global};
use sv_servlet::{Before, Call, Reply, ReplyFault};
use sv_session::SessionEdit;
use sv_web::{HttpFilter, Refusal};

/// Writes the request's body before a servlet, and again after it where it fits.
#[derive(Drop)]
pub struct Echo;

impl HttpFilter for Echo {
    ghost use Rattle.test_rows.specs.Echo.{echo};

    ghost work = { λ _. echo };

    fn before(
        &mut self,
        _alloc: Global,
        call: &Call<'_>,
        _edit: &mut SessionEdit,
        reply: &mut Reply,
    ) -> Result<Before, Refusal> {
        reply.write(call.body)?;
        Ok(Before::Pass)
    }

    fn after(
        &mut self,
        _alloc: Global,
        call: &Call<'_>,
        _edit: &mut SessionEdit,
        reply: &mut Reply,
    ) -> Result<(), AllocError> {
        match reply.write(call.body) {
            Err(ReplyFault::Memory) => Err(AllocError),
            _ => Ok(()),
        }
    }
}
