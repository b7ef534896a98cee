//! A servlet that says hello.

use std::alloc::Global;
use sv_servlet::{Call, Next, Reply};
use sv_session::SessionEdit;
use sv_web::{HttpServlet, Refusal, set_plain_text};

/// Writes `Hello` and a line feed as plain text.
#[derive(Drop)]
pub struct Hello;

impl HttpServlet for Hello {
    ghost use Rattle.sv_samples.specs.Hello.{hello};

    ghost work = { λ _. hello };

    fn serve(
        &mut self,
        _alloc: Global,
        _call: &Call<'_>,
        _edit: &mut SessionEdit,
        reply: &mut Reply,
    ) -> Result<Next, Refusal> {
        set_plain_text(reply)?;
        reply.write(b"Hello\n")?;
        Ok(Next::Done)
    }
}
