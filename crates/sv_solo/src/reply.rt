//! What is said to a token: an answer, or a refusal with its cause in its body.

ghost use Rattle.std.specs.Prelude.{◌≡◌, IfOk, find};
ghost use Rattle.std.specs.Option.{option_copied};
ghost use Rattle.sv_solo.specs.Reply.{refusal, speaks_to};

use std::alloc::{AllocError, Global};
use sv_connection::{Naming, refusal_by};
use sv_model::{Cause, Output, Response};

/// The response for a refused request: status 503 (RFC 9110, section 15.6.4), and the cause's name in the body.
pub fn refusal(
    alloc: Global,
    cause: Cause,
    head_only: bool,
    close: bool,
) -> Result<Response, AllocError>
    ensures { IfOk result (λ response. response ≡ refusal cause head_only close) }
{
    refusal_by(alloc, Naming::InBody, cause, head_only, close)
}

/// An output answers or refuses the token.
fn speaks_to(token: u64, output: &Output) -> bool
    ensures { result ≡ speaks_to token output.now }
{
    match output {
        Output::Answer { token: to, .. } | Output::Refuse { token: to, .. } => *to == token,
        Output::Send(_) | Output::Moved | Output::MoveRefused(_) => false,
    }
}

/// The first output that answers or refuses the token.
pub fn reply_to(token: u64, outputs: &[Output]) -> Option<&Output>
    ensures { option_copied result ≡ find (speaks_to token) outputs.now }
{
    outputs.iter().find(|output| speaks_to(token, output))
}
