//! What happens to a world, an event each.

use std::alloc::Global;
use std::process::Abort;
use sv_model::{Input, Key, Moment, Request, Secret};
use sv_world::WorldEvent;

/// A key, by its home and its serial, of one byte each.
pub type KeyName = (u8, u8);

/// The first session of node 0.
pub const K1: KeyName = (0, 1);

/// The secret of each session.
pub const SECRET: Secret = Secret([1; 16]);

/// The second in which all happens for which none is given.
pub const NOW: u64 = 1000;

/// A stop comes after the record of the step that it cuts.
pub const KEPT: bool = true;

/// One event.
#[derive(Clone, Copy)]
pub enum Act {
    /// A request that counts, at a node, with no session.
    First(u8),
    /// One that names a session.
    Again(u8, KeyName),
    /// The packet that was sent as this one, counting from 0, comes to its addressee.
    Deliver(usize),
    Poke(u8),
    /// Time has passed, up to this second.
    Tick(u8, u64),
    Move(u8, KeyName, u8),
    Crash(u8),
    Restart(u8),
    /// The node stops inside a move.
    TornMove(u8, KeyName, u8, bool),
    /// A node is asked for a session that is named, and nothing of its step leaves it.
    SilentAgain(u8, KeyName),
    /// The node stops inside its start.
    TornRestart(u8, bool),
}

fn at(now: u64) -> Moment {
    Moment {
        now,
        steady: now,
        secret: SECRET,
    }
}

pub fn key((home, serial): KeyName) -> Key {
    Key {
        home,
        serial: serial as u64,
    }
}

/// A request with this body.
pub fn request(rt: &impl Abort, alloc: Global, body: &[u8]) -> Request {
    test_engine::request(alloc, body).expect(rt, "memory")
}

/// A request with this body, at a node in a second.
pub fn ask(
    rt: &impl Abort,
    alloc: Global,
    token: u64,
    node: u8,
    now: u64,
    body: &[u8],
) -> WorldEvent {
    WorldEvent::Ask {
        node,
        moment: at(now),
        token,
        request: request(rt, alloc, body),
    }
}

/// A step that a stop cuts.
pub fn torn(node: u8, input: Input, kept: bool) -> WorldEvent {
    WorldEvent::Torn {
        node,
        moment: at(NOW),
        input,
        kept,
    }
}

/// A step of which nothing leaves its node, at a request that names a session.
fn silent_again(
    rt: &impl Abort,
    alloc: Global,
    token: u64,
    node: u8,
    named: KeyName,
) -> WorldEvent {
    WorldEvent::Silent {
        node,
        moment: at(NOW),
        input: Input::Ask {
            token,
            request: request(rt, alloc, &[named.0, named.1]),
        },
    }
}

fn torn_move(node: u8, named: KeyName, to: u8, kept: bool) -> WorldEvent {
    let key = key(named);
    torn(node, Input::Move { key, to }, kept)
}

/// The event; a request comes under the token.
pub fn event(rt: &impl Abort, alloc: Global, token: u64, act: Act) -> WorldEvent {
    match act {
        Act::First(node) => ask(rt, alloc, token, node, NOW, &[]),
        Act::Again(node, named) => ask(rt, alloc, token, node, NOW, &[named.0, named.1]),
        Act::Deliver(place) => WorldEvent::Deliver {
            moment: at(NOW),
            place,
        },
        Act::Poke(node) => WorldEvent::Poke {
            node,
            moment: at(NOW),
        },
        Act::Tick(node, now) => WorldEvent::Tick {
            node,
            moment: at(now),
        },
        Act::Move(node, named, to) => WorldEvent::Move {
            node,
            moment: at(NOW),
            key: key(named),
            to,
        },
        Act::Crash(node) => WorldEvent::Crash(node),
        Act::Restart(node) => WorldEvent::Restart(node),
        Act::TornMove(node, named, to, kept) => torn_move(node, named, to, kept),
        Act::SilentAgain(node, named) => silent_again(rt, alloc, token, node, named),
        Act::TornRestart(node, kept) => WorldEvent::TornRestart { node, kept },
    }
}
