//! Worlds of nodes whose engines count, and events that happen to them one by one.

ghost use Rattle.std.specs.Prelude.{◌≡◌, ◌<◌, ◌≤◌, length};
ghost use Rattle.test_world.specs.Stage.{IsStaged};

use crate::act::{Act, SECRET, event};
use crate::fixtures::{expect_text, text};
use crate::said::{said, sent};
use std::alloc::Global;
use std::process::Abort;
use sv_world::{World, WorldEvent, WorldFault};
use test_engine::Counter;

/// The seconds for which a request waits for its session.
pub const DEADLINE: u64 = 30;

/// An event, and what it does, or the name of its fault.
pub type Row = (Act, &'static str);

/// What happens to three nodes, and what it is about.
pub type Story = (&'static str, &'static [Row]);

/// So many engines of one meaning.
pub fn engines(rt: &impl Abort, alloc: Global, count: u8) -> Vec<Counter>
    ensures { length result.items ≡ count }
{
    let mut engines = Vec::new(alloc);
    for _count in 0..count {
        let engine = Counter {
            alloc,
            secret: SECRET,
        };
        engines.push(engine).expect(rt, "memory");
    }
    engines
}

/// Nodes in their first start.
pub fn nodes(rt: &impl Abort, alloc: Global, count: u8) -> World<Counter>
    requires some { 0 < count }
    requires few { count ≤ 8 }
    ensures { IsStaged result }
{
    match World::new(alloc, engines(rt, alloc, count), DEADLINE) {
        Ok(world) => world,
        Err(_) => panic!(rt; "no world"),
    }
}

/// What the event of a line has done.
pub fn line_text(rt: &impl Abort, alloc: Global, world: &World<Counter>, place: usize) -> String {
    let trace = world.trace();
    match trace.get(place) {
        Some(line) => said(rt, alloc, sent(&trace[..place]), line),
        None => text(rt, alloc, "no such line"),
    }
}

/// An event happens; its fault, if it can't.
fn happen(world: &mut World<Counter>, event: WorldEvent) -> Option<WorldFault>
    requires { IsStaged world.old }
    ensures { IsStaged world.new }
{
    world.step(event).err()
}

/// An event happens; what it has done, or its fault's name. It adds a line where it has happened, and only there. A
/// request's token is the number of lines before it.
pub fn take(rt: &impl Abort, alloc: Global, world: &mut World<Counter>, act: Act) -> String
    requires { IsStaged world.old }
    ensures { IsStaged world.new }
{
    let before = world.trace().len();
    let fault = happen(world, event(rt, alloc, before as u64, act));
    let lines = world.trace().len().saturating_sub(before);
    assert_eq!(rt; lines, usize::from(fault.is_none()));
    match fault {
        None => line_text(rt, alloc, world, before),
        Some(fault) => text(rt, alloc, format_args!("{fault:?}")),
    }
}

/// The events happen in order, each with what it does.
pub fn expect_rows(rt: &impl Abort, alloc: Global, world: &mut World<Counter>, story: Story)
    requires { IsStaged world.old }
    ensures { IsStaged world.new }
{
    let (name, rows) = story;
    for (place, (act, want)) in rows.iter().enumerate() {
        let said = take(rt, alloc, world, *act);
        expect_text(rt, format_args!("{name}, event {place}"), &said, want);
    }
}
