//! What happens to a world: `deliver PLACE`, the packet that was sent as this one, from 0; or a node's number and after it `crash`,
//! `restart`, `torn-restart KEPT`, `torn KEPT INPUT`, `silent INPUT` or an input. KEPT is `kept` where a stop comes after the record of
//! the step that it cuts, else `lost`. Of a silent step nothing leaves its node but its record, and the node runs on.

use crate::fault::RowFault;
use crate::input::input;
use crate::words::{is_kept, place, small, word};
use std::alloc::Global;
use sv_model::{Input, Moment};
use sv_world::WorldEvent;

/// A step that no stop cuts. A packet comes by `deliver`.
fn whole(node: u8, moment: Moment, input: Input) -> Result<WorldEvent, RowFault> {
    match input {
        Input::Ask { token, request } => Ok(WorldEvent::Ask {
            node,
            moment,
            token,
            request,
        }),
        Input::Poke => Ok(WorldEvent::Poke { node, moment }),
        Input::Tick => Ok(WorldEvent::Tick { node, moment }),
        Input::Move { key, to } => Ok(WorldEvent::Move {
            node,
            moment,
            key,
            to,
        }),
        Input::Packet(_) => Err(RowFault::Kind),
    }
}

/// A step that a stop cuts.
fn torn(
    alloc: Global,
    node: u8,
    moment: Moment,
    token: u64,
    words: &str,
) -> Result<WorldEvent, RowFault> {
    let (kept, words) = word(words);
    let kept = is_kept(kept)?;
    Ok(WorldEvent::Torn {
        node,
        moment,
        input: input(alloc, token, words)?,
        kept,
    })
}

/// What happens at a node.
fn at_node(
    alloc: Global,
    node: u8,
    moment: Moment,
    token: u64,
    words: &str,
) -> Result<WorldEvent, RowFault> {
    match word(words) {
        ("crash", _) => Ok(WorldEvent::Crash(node)),
        ("restart", _) => Ok(WorldEvent::Restart(node)),
        ("torn-restart", kept) => Ok(WorldEvent::TornRestart {
            node,
            kept: is_kept(kept)?,
        }),
        ("torn", rest) => torn(alloc, node, moment, token, rest),
        ("silent", rest) => Ok(WorldEvent::Silent {
            node,
            moment,
            input: input(alloc, token, rest)?,
        }),
        _ => whole(node, moment, input(alloc, token, words)?),
    }
}

/// The event of a line; a request comes under the token.
pub fn event(
    alloc: Global,
    moment: Moment,
    token: u64,
    line: &str,
) -> Result<WorldEvent, RowFault> {
    match word(line) {
        ("deliver", rest) => Ok(WorldEvent::Deliver {
            moment,
            place: place(rest)?,
        }),
        (node, words) => at_node(alloc, small(node)?, moment, token, words),
    }
}
