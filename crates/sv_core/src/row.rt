//! A step at each of a node's inputs, by the row of its table.

ghost use Rattle.std.specs.Prelude.{◌≡◌, ◌<◌, Bool, List, Option, Some, None, IfOk, IfSome, OnOk, position, length, option_copied};
ghost use Rattle.sv_model.specs.declared.node.Parked.{Parked};
ghost use Rattle.sv_model.specs.NodeState.{known};
ghost use Rattle.sv_model.specs.Waiting.{on_ask, on_named, serve_parked, on_poke};
ghost use Rattle.sv_model.specs.Migration.{on_no, on_ours, on_packet, is_ours};
ghost use Rattle.sv_model.specs.Node.{decided};
ghost use Rattle.sv_core.specs.Kept.{node_of, IsReady};
ghost use Rattle.sv_core.specs.Decision.{decision_of};

use crate::decision::Decision;
use crate::fault::Memory;
use crate::kept::Kept;
use crate::serving::serve;
use sv_model::{Engine, Input, Key, Moment, Packet, Request, Secret};

impl Kept {
    /// The packet is from another node of the cluster to this one.
    fn is_ours(&self, packet: &Packet) -> bool
        ensures { result ≡ is_ours self.now.setting packet.now }
    {
        let from = packet.sender();
        packet.addressee() == self.setting.node
            && from != self.setting.node
            && from < self.setting.nodes
    }
}

/// A request for a session that has this key.
fn ask_named<E: Engine>(
    engine: &mut E,
    kept: &Kept,
    moment: Moment,
    token: u64,
    request: Request,
    named: (Key, Secret),
) -> Result<Decision, Memory>
    requires valid { E.valid engine.old }
    requires named { Some named ≡ (E.meaning engine.old).names request }
    ensures valid { E.valid engine.new }
    ensures meaning { E.meaning engine.new ≡ E.meaning engine.old }
    ensures heard { E.heard engine.new ≡ E.heard engine.old }
    ensures decision { IfOk result (λ d. decision_of kept.now.setting (node_of kept.now) d
        ≡ on_named (E.meaning engine.old) kept.now.setting (node_of kept.now) moment token request named.0 (known (node_of kept.now).durable named.0)) }
{
    let (key, _) = named;
    if kept.is_settled(key) || kept.is_dead(key) {
        return serve(engine, kept, moment, token, request, Some(named), None);
    }
    kept.wait(moment, token, request, key)
}

/// A request.
fn ask<E: Engine>(
    engine: &mut E,
    kept: &Kept,
    moment: Moment,
    token: u64,
    request: Request,
) -> Result<Decision, Memory>
    requires { E.valid engine.old }
    ensures valid { E.valid engine.new }
    ensures meaning { E.meaning engine.new ≡ E.meaning engine.old }
    ensures heard { E.heard engine.new ≡ E.heard engine.old }
    ensures decision { IfOk result (λ d. decision_of kept.now.setting (node_of kept.now) d
        ≡ on_ask (E.meaning engine.old) kept.now.setting (node_of kept.now) moment token request ((E.meaning engine.old).names request)) }
{
    match engine.names(&request) {
        Some(named) => ask_named(engine, kept, moment, token, request, named),
        None => serve(engine, kept, moment, token, request, None, None),
    }
}

/// The request that waits at this place leaves and is served.
// Out of line, so that a step with none to serve doesn't clear the values of this one.
#[inline(never)]
fn serve_at<E: Engine>(
    engine: &mut E,
    kept: &Kept,
    moment: Moment,
    at: usize,
) -> Result<Decision, Memory>
    requires valid { E.valid engine.old }
    requires place { at < length kept.now.parked.items }
    ensures valid { E.valid engine.new }
    ensures meaning { E.meaning engine.new ≡ E.meaning engine.old }
    ensures heard { E.heard engine.new ≡ E.heard engine.old }
    ensures decision { (test : Parked → Bool) → Some at ≡ position test kept.now.parked.items
        → IfOk result (λ d. decision_of kept.now.setting (node_of kept.now) d
        ≡ serve_parked (E.meaning engine.old) kept.now.setting (node_of kept.now) moment test) }
{
    let parked = &kept.parked[at];
    let request = parked.request.copy(kept.alloc)?;
    let named = engine.names(&request);
    serve(engine, kept, moment, parked.token, request, named, Some(at))
}

/// The request that waits at this place, if there is one, leaves and is served.
fn serve_parked<E: Engine>(
    engine: &mut E,
    kept: &Kept,
    moment: Moment,
    place: Option<usize>,
) -> Result<Decision, Memory>
    requires valid { E.valid engine.old }
    requires place { IfSome place (λ at. at < length kept.now.parked.items) }
    ensures valid { E.valid engine.new }
    ensures meaning { E.meaning engine.new ≡ E.meaning engine.old }
    ensures heard { E.heard engine.new ≡ E.heard engine.old }
    ensures decision { (test : Parked → Bool) → place ≡ position test kept.now.parked.items
        → IfOk result (λ d. decision_of kept.now.setting (node_of kept.now) d
        ≡ serve_parked (E.meaning engine.old) kept.now.setting (node_of kept.now) moment test) }
{
    match place {
        Some(at) => serve_at(engine, kept, moment, at),
        None => Ok(Decision::nothing(kept.alloc)),
    }
}

/// A parked request may be served by now.
// Out of line, so that the step of a request doesn't clear the values of this one.
#[inline(never)]
fn poke<E: Engine>(engine: &mut E, kept: &Kept, moment: Moment) -> Result<Decision, Memory>
    requires { E.valid engine.old }
    ensures valid { E.valid engine.new }
    ensures meaning { E.meaning engine.new ≡ E.meaning engine.old }
    ensures heard { E.heard engine.new ≡ E.heard engine.old }
    ensures decision { IfOk result (λ d. decision_of kept.now.setting (node_of kept.now) d
        ≡ on_poke (E.meaning engine.old) kept.now.setting (node_of kept.now) moment) }
{
    serve_parked(engine, kept, moment, kept.settled_place())
}

/// Another node says that there is no such session.
fn no<E: Engine>(
    engine: &mut E,
    kept: &Kept,
    moment: Moment,
    key: Key,
    boot: u64,
    want: u64,
) -> Result<Decision, Memory>
    requires { E.valid engine.old }
    ensures valid { E.valid engine.new }
    ensures meaning { E.meaning engine.new ≡ E.meaning engine.old }
    ensures heard { E.heard engine.new ≡ E.heard engine.old }
    ensures decision { IfOk result (λ d. decision_of kept.now.setting (node_of kept.now) d
        ≡ on_no (E.meaning engine.old) kept.now.setting (node_of kept.now) moment key boot want) }
{
    if boot != kept.boot {
        return Ok(Decision::nothing(kept.alloc));
    }
    serve_parked(engine, kept, moment, kept.wanted_place(key, want))
}

/// A packet from another node.
// Out of line, so that the step of a request doesn't clear the values of this one.
#[inline(never)]
fn packet<E: Engine>(
    engine: &mut E,
    kept: &Kept,
    moment: Moment,
    packet: Packet,
) -> Result<Decision, Memory>
    requires { E.valid engine.old }
    ensures valid { E.valid engine.new }
    ensures meaning { E.meaning engine.new ≡ E.meaning engine.old }
    ensures heard { E.heard engine.new ≡ E.heard engine.old }
    ensures decision { IfOk result (λ d. decision_of kept.now.setting (node_of kept.now) d
        ≡ on_packet (E.meaning engine.old) kept.now.setting (node_of kept.now) moment packet) }
{
    if !kept.is_ours(&packet) {
        return Ok(Decision::nothing(kept.alloc));
    }
    match packet {
        Packet::Want {
            from,
            to: _,
            key,
            boot,
            want,
        } => kept.on_want(from, key, boot, want, kept.known(key)),
        Packet::Grant {
            from,
            to: _,
            key,
            epoch,
            session,
        } => kept.on_grant(from, key, epoch, session, kept.known(key)),
        Packet::Ack {
            from: _,
            to: _,
            key,
            epoch,
        } => kept.on_ack(key, epoch, kept.known(key)),
        Packet::No {
            from: _,
            to: _,
            key,
            boot,
            want,
        } => no(engine, kept, moment, key, boot, want),
    }
}

/// What a node does at an input.
pub fn decide<E: Engine>(
    engine: &mut E,
    kept: &Kept,
    moment: Moment,
    input: Input,
) -> Result<Decision, Memory>
    requires { E.valid engine.old }
    ensures valid { E.valid engine.new }
    ensures meaning { E.meaning engine.new ≡ E.meaning engine.old }
    ensures heard { E.heard engine.new ≡ E.heard engine.old }
    ensures decision { IfOk result (λ d. decision_of kept.now.setting (node_of kept.now) d
        ≡ decided (E.meaning engine.old) kept.now.setting (node_of kept.now) moment input) }
{
    match input {
        Input::Ask { token, request } => ask(engine, kept, moment, token, request),
        Input::Packet(packed) => packet(engine, kept, moment, packed),
        Input::Poke => poke(engine, kept, moment),
        Input::Tick => kept.on_tick(moment.now, moment.steady),
        Input::Move { key, to } => kept.on_move(key, to, kept.known(key)),
    }
}
