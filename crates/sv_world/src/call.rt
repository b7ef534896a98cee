//! The step of a node that an event asks for.

ghost use Rattle.std.specs.Prelude.{◌≡◌, IfOk, slice_get};
ghost use Rattle.std.specs.Option.{option_map};
ghost use Rattle.sv_model.specs.declared.input.Input.TheVariants.{Packet as Incoming};
ghost use Rattle.sv_model.specs.Migration.{addressee};
ghost use Rattle.sv_world.specs.World.{call_of};

use crate::event::WorldEvent;
use std::alloc::{AllocError, Global};
use sv_model::{Input, Moment, Packet};

/// A step of a node: which node, when, and what it is given.
#[derive(Drop)]
pub struct Call {
    pub node: u8,
    pub moment: Moment,
    pub input: Input,
}

/// The delivery of a packet.
fn delivery(alloc: Global, moment: Moment, packet: &Packet) -> Result<Call, AllocError>
    ensures { IfOk result (λ call. call ≡ record { node = addressee packet.now; moment = moment; input = Incoming packet.now }) }
{
    Ok(Call {
        node: packet.addressee(),
        moment,
        input: Input::Packet(packet.copy(alloc)?),
    })
}

/// The delivery of the packet at a place.
fn delivery_at(
    alloc: Global,
    packets: &[Packet],
    moment: Moment,
    place: usize,
) -> Result<Option<Call>, AllocError>
    ensures { IfOk result (λ o. o ≡ option_map (λ p. record { node = addressee p; moment = moment; input = Incoming p }) (slice_get packets.now place)) }
{
    match packets.get(place) {
        Some(packet) => Ok(Some(delivery(alloc, moment, packet)?)),
        None => Ok(None),
    }
}

/// The step that an event asks for, where these packets were sent.
pub fn call_of(
    alloc: Global,
    packets: &[Packet],
    event: &WorldEvent,
) -> Result<Option<Call>, AllocError>
    ensures { IfOk result (λ o. o ≡ call_of packets.now event.now) }
{
    let call = match *event {
        WorldEvent::Ask {
            node,
            moment,
            token,
            ref request,
        } => Call {
            node,
            moment,
            input: Input::Ask {
                token,
                request: request.copy(alloc)?,
            },
        },
        WorldEvent::Deliver { moment, place } => {
            return delivery_at(alloc, packets, moment, place);
        }
        WorldEvent::Poke { node, moment } => Call {
            node,
            moment,
            input: Input::Poke,
        },
        WorldEvent::Tick { node, moment } => Call {
            node,
            moment,
            input: Input::Tick,
        },
        WorldEvent::Move {
            node,
            moment,
            key,
            to,
        } => Call {
            node,
            moment,
            input: Input::Move { key, to },
        },
        WorldEvent::Torn {
            node,
            moment,
            ref input,
            ..
        }
        | WorldEvent::Silent {
            node,
            moment,
            ref input,
        } => Call {
            node,
            moment,
            input: input.copy(alloc)?,
        },
        WorldEvent::Crash(_) | WorldEvent::Restart(_) | WorldEvent::TornRestart { .. } => {
            return Ok(None);
        }
    };
    Ok(Some(call))
}
