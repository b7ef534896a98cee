//! What takes JSON alone.

use sv_servlet::Next;
use sv_web::{Exchange, Put, Refusal, json};

/// Takes a body that is JSON, whatever it is, and says nothing.
#[derive(Clone, Copy)]
pub struct Checked;

impl Put for Checked {
    ghost use Rattle.test_rows.specs.Checked.{checked};

    ghost puts = { λ _. checked };

    fn put(&mut self, web: &mut Exchange<'_>) -> Result<Next, Refusal> {
        let _value = json(web)?;
        Ok(Next::Done)
    }
}
