//! Which events can't happen, and why.

ghost use Rattle.std.specs.Prelude.{◌≡◌, ℕ, length, slice_get};
ghost use Rattle.sv_world.specs.Faults.{fault_of};
ghost use Rattle.sv_world.specs.Finding.{boot_in, start_fault_in, stop_by, number_in, token_by, step_by, delivery_by};
ghost use Rattle.sv_world.specs.Sent.{may_come};
ghost use Rattle.sv_world.specs.Worlds.{state_by, cluster_by, AreSet};

use crate::event::WorldEvent;
use crate::fault::WorldFault;
use crate::line::Line;
use crate::sent::{may_come, was_sent};
use crate::slot::Slot;
use crate::used::is_unused;
use sv_model::{Input, Packet, Token};

/// The number of a node's last start, where it is there and runs.
fn boot_at<E>(slots: &[Slot<E>], node: u8) -> Result<u64, WorldFault>
    ensures { result ≡ boot_in (slice_get slots.now node) }
{
    match slots.get(usize::from(node)) {
        Some(slot) => match slot.boot() {
            Some(boot) => Ok(boot),
            None => Err(WorldFault::NotRunning),
        },
        None => Err(WorldFault::NoNode),
    }
}

/// Why a node can't start.
fn start_fault<E>(slots: &[Slot<E>], node: u8) -> Option<WorldFault>
    ensures { result ≡ start_fault_in (slice_get slots.now node) }
{
    match slots.get(usize::from(node)) {
        Some(slot) => match slot.boot() {
            Some(_) => Some(WorldFault::Running),
            None => None,
        },
        None => Some(WorldFault::NoNode),
    }
}

/// Why a node can't stop.
fn stop_fault<E>(slots: &[Slot<E>], node: u8) -> Option<WorldFault>
    ensures { result ≡ stop_by (boot_in (slice_get slots.now node)) }
{
    match boot_at(slots, node) {
        Ok(_) => None,
        Err(fault) => Some(fault),
    }
}

/// The token of a request of this number.
fn token_by(node: u8, boot: u64, number: Option<u64>) -> Option<Token>
    ensures { result ≡ token_by node boot number }
{
    match number {
        Some(number) => Some(Token { number, node, boot }),
        None => None,
    }
}

/// The number of the request that comes with an input.
fn number_in(input: &Input) -> Option<u64>
    ensures { result ≡ number_in input.now }
{
    match *input {
        Input::Ask { token, .. } => Some(token),
        Input::Packet(_) | Input::Poke | Input::Tick | Input::Move { .. } => None,
    }
}

/// Why a node can't take a step, at a packet that was `sent` or at no packet, with a request of this number or with none.
fn step_fault<E>(
    slots: &[Slot<E>],
    trace: &[Line],
    node: u8,
    sent: bool,
    number: Option<u64>,
) -> Option<WorldFault>
    ensures { result ≡ step_by trace.now node sent number (boot_in (slice_get slots.now node)) }
{
    let boot = match boot_at(slots, node) {
        Ok(boot) => boot,
        Err(fault) => return Some(fault),
    };
    if !sent {
        return Some(WorldFault::NoPacket);
    }
    if !is_unused(trace, token_by(node, boot, number)) {
        return Some(WorldFault::TokenUsed);
    }
    None
}

/// Why the packet at a place can't be delivered.
fn delivery_fault<E>(
    slots: &[Slot<E>],
    packets: &[Packet],
    trace: &[Line],
    place: usize,
) -> Option<WorldFault>
    ensures { result ≡ delivery_by slots.now packets.now trace.now (slice_get packets.now place) }
{
    match packets.get(place) {
        Some(packet) => step_fault(
            slots,
            trace,
            packet.addressee(),
            was_sent(packets, packet),
            None,
        ),
        None => Some(WorldFault::NoPacket),
    }
}

/// Why a node can't take a step at an input that an event names.
fn given_fault<E>(
    slots: &[Slot<E>],
    packets: &[Packet],
    trace: &[Line],
    node: u8,
    input: &Input,
) -> Option<WorldFault>
    ensures { result ≡ step_by trace.now node (may_come packets.now input.now) (number_in input.now) (boot_in (slice_get slots.now node)) }
{
    step_fault(
        slots,
        trace,
        node,
        may_come(packets, input),
        number_in(input),
    )
}

/// The first fault of an event, in the order of their numbers, at nodes that were told of themselves.
pub fn fault_of<E>(
    slots: &[Slot<E>],
    packets: &[Packet],
    trace: &[Line],
    event: &WorldEvent,
) -> Option<WorldFault>
    ensures { AreSet slots.now → result ≡ fault_of (cluster_by slots.now) (state_by slots.now packets.now trace.now) event.now }
{
    match *event {
        WorldEvent::Ask { node, token, .. } => step_fault(slots, trace, node, true, Some(token)),
        WorldEvent::Deliver { place, .. } => delivery_fault(slots, packets, trace, place),
        WorldEvent::Poke { node, .. }
        | WorldEvent::Tick { node, .. }
        | WorldEvent::Move { node, .. } => step_fault(slots, trace, node, true, None),
        WorldEvent::Torn {
            node,
            ref input,
            ..
        } => given_fault(slots, packets, trace, node, input),
        WorldEvent::Silent {
            node,
            ref input,
            ..
        } => given_fault(slots, packets, trace, node, input),
        WorldEvent::Crash(node) => stop_fault(slots, node),
        WorldEvent::Restart(node) | WorldEvent::TornRestart { node, .. } => {
            start_fault(slots, node)
        }
    }
}
