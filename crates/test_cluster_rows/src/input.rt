//! What a node is given.

ghost use Rattle.std.specs.Prelude.{IfOk};
ghost use Rattle.sv_model.specs.Ranges.{IsInput};

use crate::digits;
use crate::fault::RowFault;
use crate::request::request;
use crate::words::{key, small, word};
use std::alloc::Global;
use sv_model::Input;
use sv_record::read_packet;

/// `KEY TO`: a session is to be handed to another node.
fn moves(words: &str) -> Result<Input, RowFault>
    ensures { IfOk result (λ input. IsInput input) }
{
    let (named, to) = word(words);
    Ok(Input::Move {
        key: key(named)?,
        to: small(to)?,
    })
}

/// The packet of some bytes.
fn packet(alloc: Global, words: &str) -> Result<Input, RowFault>
    ensures { IfOk result (λ input. IsInput input) }
{
    let bytes = digits::bytes(alloc, words)?;
    match read_packet(alloc, bytes.as_slice()) {
        Ok(packet) => Ok(Input::Packet(packet)),
        Err(_) => Err(RowFault::Word),
    }
}

/// What some words say: `ask TARGET COOKIE` or `ask METHOD KEY TARGET COOKIE`, `poke`, `tick`, `move KEY TO`, or `packet` and its bytes in hexadecimal.
pub fn input(alloc: Global, token: u64, words: &str) -> Result<Input, RowFault>
    ensures { IfOk result (λ input. IsInput input) }
{
    match word(words) {
        ("ask", rest) => Ok(Input::Ask {
            token,
            request: request(alloc, rest)?,
        }),
        ("poke", _) => Ok(Input::Poke),
        ("tick", _) => Ok(Input::Tick),
        ("move", rest) => moves(rest),
        ("packet", rest) => packet(alloc, rest),
        _ => Err(RowFault::Kind),
    }
}
