//! What the servlet answers.

use sv_servlet::Next;
use sv_web::{Exchange, Get, Refusal, set_plain_text};

/// Welcomes whoever asks.
#[derive(Clone, Copy)]
pub struct Welcome;

impl Get for Welcome {
    ghost use Rattle.example_app.specs.Welcome.{welcome};

    ghost gets = { λ _. welcome };

    fn get(&mut self, web: &mut Exchange<'_>) -> Result<Next, Refusal> {
        set_plain_text(web.reply)?;
        web.reply.write(b"Welcome\n")?;
        Ok(Next::Done)
    }
}
