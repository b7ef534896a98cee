//! Events that can't happen, as they were never sent or have used their number.

ghost use Rattle.test_world.specs.Stage.{IsStaged};

use crate::act::{Act, K1, KEPT, NOW, ask, key, torn};
use crate::stage::{Row, expect_rows, nodes};
use std::alloc::Global;
use std::process::Abort;
use sv_model::{Input, Packet, Token};
use sv_world::{World, WorldEvent, WorldFault};
use test_engine::Counter;

/// What happens to nodes; each request has the number 7.
#[derive(Clone, Copy)]
enum Event {
    Ask(u8),
    Crash(u8),
    Restart(u8),
}

/// A number is used once at a node, and again after its next start.
static ONE_NUMBER: [(Event, Option<WorldFault>); 6] = [
    (Event::Ask(0), None),
    (Event::Ask(0), Some(WorldFault::TokenUsed)),
    (Event::Ask(1), None),
    (Event::Crash(0), None),
    (Event::Restart(0), None),
    (Event::Ask(0), None),
];

fn numbered(rt: &impl Abort, alloc: Global, event: Event) -> WorldEvent {
    match event {
        Event::Ask(node) => ask(rt, alloc, 7, node, NOW, &[]),
        Event::Crash(node) => WorldEvent::Crash(node),
        Event::Restart(node) => WorldEvent::Restart(node),
    }
}

fn expect_events(rt: &impl Abort, alloc: Global, world: &mut World<Counter>)
    requires { IsStaged world.old }
    ensures { IsStaged world.new }
{
    for (place, (event, fault)) in ONE_NUMBER.iter().enumerate() {
        let event = numbered(rt, alloc, *event);
        assert_eq!(rt; world.step(event).err(), *fault, "event {place}");
    }
}

fn last_asked(world: &World<Counter>) -> Option<Token> {
    world.trace().last()?.asked
}

#[test]
fn a_token_is_used_once_a_start(rt: HostRuntime) {
    let mut world = nodes(&rt, rt.alloc(), 3);
    expect_events(&rt, rt.alloc(), &mut world);
    let token = Token {
        number: 7,
        node: 0,
        boot: 2,
    };
    assert_eq!(rt; last_asked(&world), Some(token));
}

/// Node 1 has acknowledged the first session.
fn acknowledgement(epoch: u64) -> Input {
    Input::Packet(Packet::Ack {
        from: 1,
        to: 0,
        key: key(K1),
        epoch,
    })
}

/// Node 1 takes the session with epoch 2 and acknowledges that.
static ACKNOWLEDGED: [Row; 3] = [
    (Act::First(0), "Commit makes 0.1, served, answer 1"),
    (
        Act::Move(0, K1, 1),
        "Sent 2 to 1, passivate, p0 Grant 0 to 1 epoch 2, moved",
    ),
    (
        Act::Deliver(0),
        "Taken 2 from 0, activate, p1 Ack 1 to 0 epoch 2",
    ),
];

/// The node that stops, the epoch of the packet that it stops at, and the fault. A packet at which a node stops is one that was
/// sent. Of several faults that which stands first is answered.
static TORN: [(u8, u64, Option<WorldFault>); 4] = [
    (0, 3, Some(WorldFault::NoPacket)),
    (3, 3, Some(WorldFault::NoNode)),
    (0, 2, None),
    (0, 3, Some(WorldFault::NotRunning)),
];

fn expect_torn(rt: &impl Abort, world: &mut World<Counter>)
    requires { IsStaged world.old }
    ensures { IsStaged world.new }
{
    for (node, epoch, fault) in &TORN {
        let stopped = torn(*node, acknowledgement(*epoch), KEPT);
        assert_eq!(rt;
            world.step(stopped).err(),
            *fault,
            "node {node}, epoch {epoch}"
        );
    }
}

#[test]
fn a_torn_packet_was_sent(rt: HostRuntime) {
    let alloc = rt.alloc();
    let mut world = nodes(&rt, alloc, 3);
    expect_rows(&rt, alloc, &mut world, ("acknowledged", &ACKNOWLEDGED));
    expect_torn(&rt, &mut world);
}
