//! What answers a method by a text.

use sv_servlet::Next;
use sv_web::{Delete, Exchange, Get, Post, Put, Refusal};

/// Answers by this text.
#[derive(Clone, Copy)]
pub struct Said {
    pub text: &'static str,
}

impl Get for Said {
    ghost use Rattle.test_rows.specs.Said.{said};

    ghost gets = { λ s. said s.text.now };

    fn get(&mut self, web: &mut Exchange<'_>) -> Result<Next, Refusal> {
        web.reply.write(self.text.as_bytes())?;
        Ok(Next::Done)
    }
}

impl Post for Said {
    ghost use Rattle.test_rows.specs.Said.{said};

    ghost posts = { λ s. said s.text.now };

    fn post(&mut self, web: &mut Exchange<'_>) -> Result<Next, Refusal> {
        web.reply.write(self.text.as_bytes())?;
        Ok(Next::Done)
    }
}

impl Put for Said {
    ghost use Rattle.test_rows.specs.Said.{said};

    ghost puts = { λ s. said s.text.now };

    fn put(&mut self, web: &mut Exchange<'_>) -> Result<Next, Refusal> {
        web.reply.write(self.text.as_bytes())?;
        Ok(Next::Done)
    }
}

impl Delete for Said {
    ghost use Rattle.test_rows.specs.Said.{said};

    ghost deletes = { λ s. said s.text.now };

    fn delete(&mut self, web: &mut Exchange<'_>) -> Result<Next, Refusal> {
        web.reply.write(self.text.as_bytes())?;
        Ok(Next::Done)
    }
}
