//! Which tokens were used.

ghost use Rattle.std.specs.Prelude.{◌≡◌};
ghost use Rattle.sv_model.specs.Trace.{asked_of, asked_by, is_of, same_token};
ghost use Rattle.std.specs.List.{list_any};
ghost use Rattle.sv_world.specs.World.{items, is_unused};

use crate::line::Line;
use sv_model::{Input, Token};

fn same_token(one: Token, other: Token) -> bool
    ensures { result ≡ same_token one other }
{
    one.number == other.number && one.node == other.node && one.boot == other.boot
}

/// The line's request came under this token.
fn is_asked_by(line: &Line, token: Token) -> bool
    ensures { result ≡ is_of token line.now.asked }
{
    match line.asked {
        Some(asked) => same_token(token, asked),
        None => false,
    }
}

/// A request came under this token.
fn is_used(trace: &[Line], token: Token) -> bool
    ensures { result ≡ list_any (λ l. is_of token l.asked) trace.now }
{
    for line in trace {
        if is_asked_by(line, token) {
            return true;
        }
    }
    false
}

/// No request came under this token, or there is none.
pub fn is_unused(trace: &[Line], asked: Option<Token>) -> bool
    ensures { result ≡ is_unused (asked_of (items trace.now)) asked }
{
    match asked {
        Some(token) => !is_used(trace, token),
        None => true,
    }
}

/// The token of the request that comes with an input, at a node and its start.
pub fn asked_by(node: u8, boot: u64, input: &Input) -> Option<Token>
    ensures { result ≡ asked_by (λ number. record { number = number; node = node; boot = boot }) input.now }
{
    match *input {
        Input::Ask { token, .. } => Some(Token {
            number: token,
            node,
            boot,
        }),
        Input::Packet(_) | Input::Poke | Input::Tick | Input::Move { .. } => None,
    }
}
