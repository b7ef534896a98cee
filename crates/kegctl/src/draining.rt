//! Takes a node out of use: each session that is active there is moved to the other nodes in turn, until none is left and each has
//! been acknowledged. A node gets sessions while it answers and has room; where none does, what is left stays at its node.
//!
//! Only commands are sent, each of which a node carries out whole or not at all. So a drain may be interrupted anywhere, and run
//! again.

ghost use Rattle.std.specs.Prelude.{◌≡◌, OnOk};
ghost use Rattle.sv_control.specs.Left.{left_of};

use crate::commands::{PATIENCE, halt, hand_over, tick, told};
use crate::fault::Fault;
use crate::journal::kept;
use crate::route::{Moved, Route, route_of};
use crate::taker::Taker;
use crate::words::Drain;
use std::thread;
use std::time::Duration;
use sv_client::{Address, NodeNumber};
use sv_control::{Left, Replayed, key_text, left_in};
use sv_model::{Key, KeyState, NODE_LIMIT, Record};

/// Between two looks, in thousandths of a second.
const PAUSE: u64 = 250;

/// Says why a session stays.
fn say_stays(machine: &HostRuntime, key: Key, answer: u8) -> Result<(), Fault> {
    let text = key_text(machine.alloc(), key)?;
    let why = told(answer);
    match println!(machine; "{text} stays: {why}") {
        Ok(()) => Ok(()),
        Err(_) => Err(Fault::Output),
    }
}

/// Whether a session was handed over, by the answer of its node. One that has gone or ended meanwhile is none of ours any more; of one
/// that stays it is said why.
fn is_moved(machine: &HostRuntime, key: Key, answer: u8) -> Result<bool, Fault> {
    match answer {
        0 => Ok(true),
        1 | 2 => Ok(false),
        _ => match say_stays(machine, key, answer) {
            Ok(()) => Ok(false),
            Err(fault) => Err(fault),
        },
    }
}

/// Hands one session over to the node at a place of the list; whether it was.
fn move_to(
    machine: &HostRuntime,
    address: Address,
    key: Key,
    to: NodeNumber,
) -> Result<bool, Fault> {
    // No node makes another key, so none is in a journal.
    if key.home >= NODE_LIMIT || key.serial == 0 {
        return Ok(false);
    }
    match hand_over(machine, address, key, to) {
        Ok(answer) => is_moved(machine, key, answer),
        Err(fault) => Err(fault),
    }
}

/// The node at a place of the list, if it takes one more session.
fn taking_at(
    machine: &HostRuntime,
    to: &mut [Taker],
    at: usize,
) -> Result<Option<NodeNumber>, Fault> {
    let Some(taker) = to.get_mut(at) else {
        return Ok(None);
    };
    match taker.takes(machine) {
        Ok(true) => Ok(Some(taker.node)),
        Ok(false) => Ok(None),
        Err(fault) => Err(fault),
    }
}

/// The node that takes the next session, with its place in the list: the first from a place on that takes one.
fn next_taker(
    machine: &HostRuntime,
    to: &mut [Taker],
    next: usize,
) -> Result<Option<(usize, NodeNumber)>, Fault> {
    let count = to.len().max(1);
    for behind in 0..count {
        let at = next.saturating_add(behind) % count;
        if let Some(node) = taking_at(machine, to, at)? {
            return Ok(Some((at, node)));
        }
    }
    Ok(None)
}

/// Hands one session over to the node at a place of the list; whether it was.
fn move_on(
    machine: &HostRuntime,
    route: &mut Route,
    key: Key,
    (at, to): (usize, NodeNumber),
) -> Result<bool, Fault> {
    let is_moved = move_to(machine, route.address(machine), key, to)?;
    if is_moved {
        route.give(at);
    }
    Ok(is_moved)
}

/// Hands one session over to the next node that takes one; whether it was.
fn move_one(machine: &HostRuntime, route: &mut Route, key: Key) -> Result<bool, Fault> {
    let next = route.next;
    match next_taker(machine, &mut route.to, next)? {
        Some(taker) => move_on(machine, route, key, taker),
        None => {
            route.is_alone = true;
            Ok(false)
        }
    }
}

/// The session of a record of a snapshot, if it is active.
fn active(entry: &Record) -> Option<Moved> {
    match entry {
        Record::State {
            key,
            state: KeyState::Active { session, .. },
        } => Some((*key, session.last)),
        _ => None,
    }
}

/// The same, if it wasn't called back.
fn movable(route: &Route, entry: &Record) -> Option<Moved> {
    let (key, last) = active(entry)?;
    if route.is_called_back(key, last) {
        return None;
    }
    Some((key, last))
}

/// Hands over the session of a record of a snapshot, if it is active and wasn't called back.
fn move_at(
    machine: &HostRuntime,
    route: &mut Route,
    fresh: &mut Vec<Moved>,
    entry: &Record,
) -> Result<(), Fault> {
    let Some(moved) = movable(route, entry) else {
        return Ok(());
    };
    if move_one(machine, route, moved.0)? {
        fresh.push(moved)?;
    }
    Ok(())
}

/// Hands over what is active by a snapshot, for as long as there is time and a node that takes it. What is moved is added to `fresh`.
fn move_each(
    machine: &HostRuntime,
    route: &mut Route,
    fresh: &mut Vec<Moved>,
    kept: &[Record],
) -> Result<(), Fault> {
    for entry in kept {
        if route.is_alone || route.limit.is_over(machine) {
            return Ok(());
        }
        move_at(machine, route, fresh, entry)?;
    }
    Ok(())
}

/// Adds to what was moved before.
fn add_moved(known: &mut Vec<Moved>, fresh: &[Moved]) -> Result<(), Fault> {
    for moved in fresh {
        if known.binary_search_by_key(&moved.0, |old| old.0).is_err() {
            known.push(*moved)?;
        }
    }
    Ok(())
}

/// The same, in order of the keys.
fn keep_in_mind(known: &mut Vec<Moved>, fresh: &[Moved]) -> Result<(), Fault> {
    add_moved(known, fresh)?;
    Ok(known.sort_by_key(|moved| moved.0)?)
}

/// Hands over what is active by a snapshot, for as long as there is time, and keeps in mind what was moved.
fn move_all(machine: &HostRuntime, route: &mut Route, kept: &[Record]) -> Result<(), Fault> {
    let mut fresh = Vec::new(machine.alloc());
    route.doubt();
    match move_each(machine, route, &mut fresh, kept) {
        Ok(()) => keep_in_mind(&mut route.moved, &fresh),
        Err(fault) => Err(fault),
    }
}

/// Has the node send again what was lost on its way, and gives that time to arrive.
fn wait(machine: &HostRuntime, route: &Route) -> Result<(), Fault> {
    tick(machine, route.address(machine))?;
    thread::sleep(machine, Duration::from_millis(PAUSE));
    Ok(())
}

/// Moves what is active by a snapshot, and waits behind the first time. A node that doesn't answer before the time is over is
/// none that doesn't answer.
fn go_on(
    machine: &HostRuntime,
    route: &mut Route,
    kept: &[Record],
    is_first: bool,
) -> Result<(), Fault> {
    let mut done = move_all(machine, route, kept);
    if done.is_ok() && !is_first {
        done = wait(machine, route);
    }
    match done {
        Err(Fault::Unanswered(_)) if route.limit.is_over(machine) => Ok(()),
        done => done,
    }
}

/// Nothing is left by a snapshot, or nobody takes it and nothing is on its way, or the time is over.
fn is_over(machine: &HostRuntime, route: &Route, kept: &[Record]) -> Result<bool, Fault> {
    let left = left_in(machine.alloc(), kept)?;
    Ok(left.is_nothing() || route.is_alone && left.sent == 0 || route.limit.is_over(machine))
}

/// Whether the drain is over by a snapshot; else what is active is moved.
fn look_at(
    machine: &HostRuntime,
    route: &mut Route,
    kept: &[Record],
    is_first: bool,
) -> Result<bool, Fault> {
    if is_over(machine, route, kept)? {
        return Ok(true);
    }
    match go_on(machine, route, kept, is_first) {
        Ok(()) => Ok(false),
        Err(fault) => Err(fault),
    }
}

/// The same by what was read of a node's journal, which is given back if the drain is over.
fn look_through(
    machine: &HostRuntime,
    route: &mut Route,
    found: Replayed,
    is_first: bool,
) -> Result<Option<Replayed>, Fault> {
    match look_at(machine, route, &found.kept, is_first) {
        Ok(true) => Ok(Some(found)),
        Ok(false) => Ok(None),
        Err(fault) => Err(fault),
    }
}

/// The same by a node's journal.
fn look(
    machine: &HostRuntime,
    route: &mut Route,
    journal: &str,
    is_first: bool,
) -> Result<Option<Replayed>, Fault> {
    match kept(machine, journal) {
        Ok(found) => look_through(machine, route, found, is_first),
        Err(fault) => Err(fault),
    }
}

/// Moves what is active at a node, until nothing is left, or the time is over; what the node keeps then.
fn empty(machine: &HostRuntime, route: &mut Route, journal: &str) -> Result<Replayed, Fault> {
    let mut is_first = true;
    for _ in 0..u64::MAX {
        if let Some(found) = look(machine, route, journal, is_first)? {
            return Ok(found);
        }
        is_first = false;
    }
    Err(Fault::NotDone)
}

/// Says how many sessions went to a node.
fn say_count(machine: &HostRuntime, taker: &Taker) -> Result<(), Fault> {
    match println!(machine; "node {}: {} sessions", taker.node.value, taker.count) {
        Ok(()) => Ok(()),
        Err(_) => Err(Fault::Output),
    }
}

/// Says how many sessions went where.
fn say_moved(machine: &HostRuntime, to: &[Taker]) -> Result<(), Fault> {
    for taker in to {
        say_count(machine, taker)?;
    }
    Ok(())
}

/// Says how much room the nodes have that take sessions.
fn say_rooms(machine: &HostRuntime, to: &[Taker]) -> Result<(), Fault> {
    for taker in to {
        taker.say_room(machine)?;
    }
    Ok(())
}

/// Says it where sessions stay because no node takes them.
fn say_alone(machine: &HostRuntime, is_alone: bool) -> Result<(), Fault> {
    if !is_alone {
        return Ok(());
    }
    match println!(machine; "no other node takes sessions: what is left stays where it is") {
        Ok(()) => Ok(()),
        Err(_) => Err(Fault::Output),
    }
}

/// Says what is left of a drain, which isn't done then.
fn say_left(machine: &HostRuntime, left: Left) -> Fault {
    match println!(machine;
        "{} sessions stay, and {} are not acknowledged",
        left.active, left.sent
    ) {
        Ok(()) => Fault::NotDone,
        Err(_) => Fault::Output,
    }
}

/// Halts the node at a port.
fn halt_at(machine: &HostRuntime, port: u16) -> Result<(), Fault> {
    let patience = PATIENCE;
    halt(machine, Address { port, patience })?;
    Ok(())
}

/// Ends a drain by what the node keeps: says what is left by that, or halts the node if nothing is, and if that was asked for.
fn end(machine: &HostRuntime, port: u16, kept: &[Record], halts: bool) -> Result<(), Fault>
    ensures done { OnOk result (left_of kept.now ≡ (0, 0)) }
{
    let left = left_in(machine.alloc(), kept)?;
    if !left.is_nothing() {
        return Err(say_left(machine, left));
    }
    if halts {
        halt_at(machine, port)?;
    }
    Ok(())
}

/// Says how much went where, and whether nobody takes more.
fn say_went(machine: &HostRuntime, route: &Route) -> Result<(), Fault> {
    say_moved(machine, &route.to)?;
    say_alone(machine, route.is_alone)
}

/// Moves what is active at a node, and says how much went where; what the node keeps then.
fn emptied(machine: &HostRuntime, route: &mut Route, journal: &str) -> Result<Replayed, Fault> {
    match empty(machine, route, journal) {
        Ok(found) => match say_went(machine, route) {
            Ok(()) => Ok(found),
            Err(fault) => Err(fault),
        },
        Err(fault) => Err(fault),
    }
}

/// Moves what is active at a node, warns if its keys get scarce, and ends the drain.
fn take_out_by(machine: &HostRuntime, route: &mut Route, drain: Drain<'_>) -> Result<(), Fault> {
    say_rooms(machine, &route.to)?;
    match emptied(machine, route, drain.journal) {
        Ok(found) => {
            route.keys.warn(machine, &found.kept);
            end(machine, route.port, &found.kept, drain.halts)
        }
        Err(fault) => Err(fault),
    }
}

/// Takes a node out of use, and warns if its keys get scarce.
pub fn take_out(machine: &HostRuntime, drain: Drain<'_>) -> Result<(), Fault> {
    match route_of(machine, drain) {
        Ok(mut route) => take_out_by(machine, &mut route, drain),
        Err(fault) => Err(fault),
    }
}
