//! Greetings.

ghost use Rattle.sv_record.specs.Greeting.{IsGreeting};

use crate::digits::bytes_of_digits;
use crate::fault::RowFault;
use std::alloc::{AllocError, Global};
use sv_record::{Errand, Greeting, read_greeting, write_greeting};

/// What a greeting is for.
fn errand_text(errand: Errand) -> &'static str {
    match errand {
        Errand::Opening => "asks before it serves",
        Errand::Serving => "serves",
        Errand::Answer => "answers",
        Errand::Look => "is asked by somebody",
    }
}

/// How many contexts it has: four bytes for each.
fn contexts_of(greeting: &Greeting) -> usize {
    greeting.contexts.iter().filter(|byte| **byte != 0).count() / 4
}

fn text_of(alloc: Global, greeting: &Greeting) -> Result<String, AllocError> {
    let Greeting {
        errand,
        from,
        to,
        nodes,
        homes,
        all_homes,
        start,
        heard,
        clock,
        ..
    } = *greeting;
    let errand = errand_text(errand);
    let contexts = contexts_of(greeting);
    format!(in alloc;
        "{from} {errand}, to {to}: of {nodes} nodes, homes below {homes} and {all_homes}, start {start}, heard {heard}, at {clock}, {contexts} contexts"
    )
}

/// What a greeting says, which has to be spelled as it was read.
fn told(alloc: Global, bytes: &[u8], greeting: &Greeting) -> Result<String, AllocError>
    requires { IsGreeting greeting.now }
{
    let text = text_of(alloc, greeting)?;
    let mut again = Vec::new(alloc);
    write_greeting(greeting, &mut again)?;
    if again.as_slice() == bytes {
        Ok(text)
    } else {
        format!(in alloc; "{text}, but it is spelled otherwise")
    }
}

/// What a greeting says.
pub fn greeting(alloc: Global, parts: &str) -> Result<String, RowFault> {
    let bytes = bytes_of_digits(alloc, parts)?;
    Ok(match read_greeting(&bytes) {
        Ok(greeting) => told(alloc, &bytes, &greeting)?,
        Err(fault) => format!(in alloc; "{fault:?}")?,
    })
}
