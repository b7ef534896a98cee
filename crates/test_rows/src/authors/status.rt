//! A servlet that answers by a status of its own.

use std::alloc::Global;
use sv_servlet::{Call, Next, Reply};
use sv_session::SessionEdit;
use sv_web::{HttpServlet, Refusal};

/// Answers every request by this status, which the reply may refuse.
#[derive(Drop)]
pub struct Status {
    pub code: u16,
}

impl HttpServlet for Status {
    ghost use Rattle.test_rows.specs.Status.{status};

    ghost work = { λ s. status s.code };

    fn serve(
        &mut self,
        _alloc: Global,
        _call: &Call<'_>,
        _edit: &mut SessionEdit,
        reply: &mut Reply,
    ) -> Result<Next, Refusal> {
        reply.status(self.code)?;
        Ok(Next::Done)
    }
}
