//! What a site is given, one input a step.

ghost use Rattle.std.specs.Prelude.{◌≡◌, IfOk};

use crate::key::Key;
use crate::packet::Packet;
use crate::request::Request;
use std::alloc::{AllocError, Global};

/// One event at one node.
#[derive(Drop)]
pub enum Input {
    /// A request under a number that no other request has had since the node's start.
    Ask { token: u64, request: Request },
    /// A packet from another node.
    Packet(Packet),
    /// A parked request may be served by now.
    Poke,
    /// Time has passed.
    Tick,
    /// A session is to be handed to another node.
    Move { key: Key, to: u8 },
}

impl Input {
    /// An equal input; the values of a request's fields share their bytes with it.
    pub fn copy(&self, alloc: Global) -> Result<Input, AllocError>
        ensures { IfOk result (λ copy. copy ≡ self.now) }
    {
        let copy = match *self {
            Input::Ask { token, ref request } => Input::Ask {
                token,
                request: request.copy(alloc)?,
            },
            Input::Packet(ref packet) => Input::Packet(packet.copy(alloc)?),
            Input::Poke => Input::Poke,
            Input::Tick => Input::Tick,
            Input::Move { key, to } => Input::Move { key, to },
        };
        Ok(copy)
    }
}
