//! A filter that answers in a servlet's place.

use std::alloc::{AllocError, Global};
use sv_servlet::{Before, Call, Reply};
use sv_session::SessionEdit;
use sv_web::{HttpFilter, Refusal};

/// Answers each request by a text, and says so by a refusal.
#[derive(Drop)]
pub struct Closed;

impl HttpFilter for Closed {
    ghost use Rattle.test_rows.specs.Closed.{closed};

    ghost work = { λ _. closed };

    fn before(
        &mut self,
        _alloc: Global,
        _call: &Call<'_>,
        _edit: &mut SessionEdit,
        reply: &mut Reply,
    ) -> Result<Before, Refusal> {
        reply.write(b"closed")?;
        Err(Refusal::Answered)
    }

    fn after(
        &mut self,
        _alloc: Global,
        _call: &Call<'_>,
        _edit: &mut SessionEdit,
        _reply: &mut Reply,
    ) -> Result<(), AllocError> {
        Ok(())
    }
}
