//! What an event asks of which node.

ghost use Rattle.std.specs.Prelude.{◌≡◌, Some, IsSome, IfOk};
ghost use Rattle.std.specs.Option.{option_map};
ghost use Rattle.sv_world.specs.Action.{whole_action, torn_action, silent_action, action_of};

use crate::call::{Call, call_of};
use crate::event::WorldEvent;
use crate::task::Task;
use std::alloc::{AllocError, Global};
use sv_model::Packet;

/// What a node is to do: a task, and which node.
#[derive(Drop)]
pub struct Action {
    pub node: u8,
    pub task: Task,
}

/// A whole step.
fn whole(call: Call) -> Action
    ensures { result ≡ whole_action call }
{
    let Call {
        node,
        moment,
        input,
    } = call;
    Action {
        node,
        task: Task::Step { moment, input },
    }
}

/// A torn step.
fn torn(call: Call, kept: bool) -> Action
    ensures { result ≡ torn_action kept call }
{
    let Call {
        node,
        moment,
        input,
    } = call;
    Action {
        node,
        task: Task::Torn {
            moment,
            input,
            kept,
        },
    }
}

/// A silent step.
fn silent(call: Call) -> Action
    ensures { result ≡ silent_action call }
{
    let Call {
        node,
        moment,
        input,
    } = call;
    Action {
        node,
        task: Task::Silent { moment, input },
    }
}

/// The whole step that is asked for, where there is one.
fn whole_if(call: Option<Call>) -> Option<Action>
    ensures { result ≡ option_map whole_action call }
{
    match call {
        Some(call) => Some(whole(call)),
        None => None,
    }
}

/// The torn step that is asked for, where there is one.
fn torn_if(call: Option<Call>, kept: bool) -> Option<Action>
    ensures { result ≡ option_map (torn_action kept) call }
{
    match call {
        Some(call) => Some(torn(call, kept)),
        None => None,
    }
}

/// The silent step that is asked for, where there is one.
fn silent_if(call: Option<Call>) -> Option<Action>
    ensures { result ≡ option_map silent_action call }
{
    match call {
        Some(call) => Some(silent(call)),
        None => None,
    }
}

/// What an event asks for, where these packets were sent.
fn action_of(
    alloc: Global,
    packets: &[Packet],
    event: &WorldEvent,
) -> Result<Option<Action>, AllocError>
    ensures { IfOk result (λ o. o ≡ action_of packets.now event.now) }
{
    match *event {
        WorldEvent::Ask { .. }
        | WorldEvent::Deliver { .. }
        | WorldEvent::Poke { .. }
        | WorldEvent::Tick { .. }
        | WorldEvent::Move { .. } => Ok(whole_if(call_of(alloc, packets, event)?)),
        WorldEvent::Torn { kept, .. } => Ok(torn_if(call_of(alloc, packets, event)?, kept)),
        WorldEvent::Silent { .. } => Ok(silent_if(call_of(alloc, packets, event)?)),
        WorldEvent::Crash(node) => Ok(Some(Action {
            node,
            task: Task::Stop,
        })),
        WorldEvent::Restart(node) => Ok(Some(Action {
            node,
            task: Task::Start,
        })),
        WorldEvent::TornRestart { node, kept } => Ok(Some(Action {
            node,
            task: Task::TornStart { kept },
        })),
    }
}

/// What an event asks for that asks for something.
pub fn action_for(
    alloc: Global,
    packets: &[Packet],
    event: &WorldEvent,
) -> Result<Action, AllocError>
    requires { IsSome (action_of packets.now event.now) }
    ensures { IfOk result (λ o. action_of packets.now event.now ≡ Some o) }
{
    match action_of(alloc, packets, event)? {
        Some(action) => Ok(action),
        None => unreachable!(),
    }
}
