//! Lists of events.

ghost use Rattle.test_world.specs.Stage.{IsStaged};

use crate::act::{Act, K1, KEPT, NOW, event};
use crate::fixtures::{expect_text, text};
use crate::stage::{Row, line_text, nodes};
use std::alloc::Global;
use std::process::Abort;
use sv_world::{RunFault, World, WorldEvent, WorldFault};
use test_engine::Counter;

/// Each of the ten kinds of event. A session goes from node 0 to node 1, whose next move is cut after its record, so that
/// its Grant is sent when time passes; then from node 2 back to node 0, in whose table it was last sent with epoch 2. There a
/// request is served whose answer never leaves.
pub static EVERY_KIND: [Row; 15] = [
    (Act::First(0), "Commit makes 0.1, served, answer 1"),
    (Act::Again(1, K1), "p0 Want 1 to 0, p1 Want 1 to 2"),
    (
        Act::Deliver(0),
        "Sent 2 to 1, passivate, p2 Grant 0 to 1 epoch 2",
    ),
    (
        Act::Deliver(2),
        "Taken 2 from 0, activate, p3 Ack 1 to 0 epoch 2",
    ),
    (Act::Poke(1), "Commit keeps 0.1, served, answer 2"),
    (Act::TornMove(1, K1, 2, KEPT), "Sent 3 to 2"),
    (Act::TornRestart(1, KEPT), "Boot 2"),
    (Act::Restart(1), "Boot 3"),
    (Act::Tick(1, NOW), "p4 Grant 1 to 2 epoch 3"),
    (
        Act::Deliver(4),
        "Taken 3 from 1, activate, p5 Ack 2 to 1 epoch 3",
    ),
    (
        Act::Move(2, K1, 0),
        "Sent 4 to 0, passivate, p6 Grant 2 to 0 epoch 4, moved",
    ),
    (Act::Crash(2), ""),
    (
        Act::Deliver(6),
        "Taken 4 from 2, activate, p7 Ack 0 to 2 epoch 4",
    ),
    (Act::SilentAgain(0, K1), "Commit keeps 0.1, served"),
    (Act::Again(0, K1), "Commit keeps 0.1, served, answer 4"),
];

/// The events of these rows. A request's token is its place.
pub fn events(rt: &impl Abort, alloc: Global, rows: &[Row]) -> Vec<WorldEvent> {
    let mut events = Vec::new(alloc);
    for (place, (act, _)) in rows.iter().enumerate() {
        let event = event(rt, alloc, place as u64, *act);
        events.push(event).expect(rt, "memory");
    }
    events
}

/// The last lines of a world, each with what it says.
fn expect_lines(rt: &impl Abort, alloc: Global, world: &World<Counter>, rows: &[Row]) {
    let before = world.trace().len().saturating_sub(rows.len());
    for (place, (_, want)) in rows.iter().enumerate() {
        let said = line_text(rt, alloc, world, before.saturating_add(place));
        expect_text(rt, format_args!("event {place}"), &said, want);
    }
}

/// The events of these rows happen.
fn run(rt: &impl Abort, alloc: Global, world: &mut World<Counter>, rows: &[Row])
    requires { IsStaged world.old }
    ensures { IsStaged world.new }
{
    let ran = world.run(&events(rt, alloc, rows));
    ran.expect(rt, "each event happens");
}

/// A run does what its events do one by one.
#[test]
fn a_run_of_every_kind(rt: HostRuntime) {
    let mut world = nodes(&rt, rt.alloc(), 3);
    run(&rt, rt.alloc(), &mut world, &EVERY_KIND);
    expect_lines(&rt, rt.alloc(), &world, &EVERY_KIND);
}

/// The third and the fifth can't happen.
static FAULTY: [Row; 5] = [
    (Act::First(0), "Commit makes 0.1, served, answer 1"),
    (Act::Crash(0), ""),
    (Act::Again(0, K1), "NotRunning"),
    (Act::Restart(0), "Boot 2"),
    (Act::Restart(0), "Running"),
];

/// The event at which these stop is the third.
fn expect_fault(rt: &impl Abort, alloc: Global, fault: RunFault) {
    assert_eq!(rt; (fault.place, fault.fault), (2, WorldFault::NotRunning));
    let said = text(rt, alloc, fault);
    expect_text(
        rt,
        "a fault",
        &said,
        "the event at place 2: the node doesn't run",
    );
}

fn run_to_the_fault(rt: &impl Abort, alloc: Global, world: &mut World<Counter>)
    requires { IsStaged world.old }
    ensures { IsStaged world.new }
{
    let ran = world.run(&events(rt, alloc, &FAULTY));
    expect_fault(rt, alloc, ran.expect_err(rt, "a fault"));
}

/// A run stops at the first event that can't happen, and says which that is; those before it have happened.
#[test]
fn a_run_stops_at_the_first_fault(rt: HostRuntime) {
    let mut world = nodes(&rt, rt.alloc(), 3);
    run_to_the_fault(&rt, rt.alloc(), &mut world);
    assert_eq!(rt; world.trace().len(), 5);
    expect_lines(&rt, rt.alloc(), &world, &FAULTY[..2]);
}
