//! Worlds in which nothing has happened but that each node has started.

ghost use Rattle.test_world.specs.Stage.{IsStaged};

use crate::act::Act;
use crate::fixtures::expect_text;
use crate::stage::{line_text, nodes, take};
use std::alloc::Global;
use std::process::Abort;
use sv_world::World;
use test_engine::Counter;

/// Each node has made the record of its first start, by number, and has sent nothing.
fn expect_starts(rt: &impl Abort, alloc: Global, world: &World<Counter>, count: usize) {
    assert_eq!(rt; world.trace().len(), count);
    for (place, line) in world.trace().iter().enumerate() {
        assert_eq!(rt; usize::from(line.node), place);
        let said = line_text(rt, alloc, world, place);
        expect_text(rt, format_args!("node {place}"), &said, "Boot 1");
    }
}

/// What node 0 does for the first session of node 1, by how many nodes there are: it asks each other one, and alone it
/// knows that there is no such session.
const WORLDS: [(u8, &str); 3] = [
    (1, "Commit makes 0.1, served, answer 1"),
    (2, "p0 Want 0 to 1"),
    (
        8,
        "p0 Want 0 to 1, p1 Want 0 to 2, p2 Want 0 to 3, p3 Want 0 to 4, p4 Want 0 to 5, p5 Want 0 to 6, p6 Want 0 to 7",
    ),
];

fn expect_world(rt: &impl Abort, alloc: Global, world: &mut World<Counter>, count: u8, want: &str)
    requires { IsStaged world.old }
    ensures { IsStaged world.new }
{
    expect_starts(rt, alloc, world, usize::from(count));
    let said = take(rt, alloc, world, Act::Again(0, (1, 1)));
    expect_text(rt, format_args!("of {count} nodes"), &said, want);
}

#[test]
fn one_to_eight_nodes_start(rt: HostRuntime) {
    let alloc = rt.alloc();
    for (count, want) in WORLDS {
        let mut world = nodes(&rt, alloc, count);
        expect_world(&rt, alloc, &mut world, count, want);
    }
}
