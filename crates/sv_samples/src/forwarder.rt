//! A servlet that hands the request on to another.

use std::alloc::Global;
use sv_servlet::{Call, Next, Reply};
use sv_session::SessionEdit;
use sv_web::{HttpServlet, Refusal, parameter_or, set_plain_text};

/// Writes `lost`, which the forward takes away, and forwards to the path of its first parameter `to`, or to `/hello`.
#[derive(Drop)]
pub struct Forwarder;

impl HttpServlet for Forwarder {
    ghost use Rattle.sv_samples.specs.Forwarder.{forwarder};

    ghost work = { λ _. forwarder };

    fn serve(
        &mut self,
        alloc: Global,
        call: &Call<'_>,
        _edit: &mut SessionEdit,
        reply: &mut Reply,
    ) -> Result<Next, Refusal> {
        set_plain_text(reply)?;
        reply.write(b"lost")?;
        Ok(Next::Forward(parameter_or(alloc, call.params, "to", "/hello")?))
    }
}
