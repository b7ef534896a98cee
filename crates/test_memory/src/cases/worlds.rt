//! A world of three nodes, event by event and in one run.

ghost use Rattle.std.specs.Prelude.{◌≡◌, length, IfOk};
ghost use Rattle.test_memory.specs.Staged.{IsStaged};

use crate::again::{Refusals, Unshown, again, done};
use crate::given;
use std::alloc::{AllocError, Global};
use sv_model::{Input, Moment};
use sv_world::{RunFault, World, WorldEvent, WorldFault};
use test_engine::{Counter, output_text, request};

type Shown = Result<String, Unshown>;

const MOMENT: Moment = Moment {
    now: given::NOW,
    steady: given::NOW,
    secret: given::SECRET,
};

const DEADLINE: u64 = 30;

/// A session is made at node 0 and counted at node 1, which stops inside a request, and starts again.
#[derive(Clone, Copy)]
enum Act {
    Make,
    Ask,
    Deliver(usize),
    Poke,
    Torn,
    Restart,
    Again,
}

const ACTS: [Act; 8] = [
    Act::Make,
    Act::Ask,
    Act::Deliver(0),
    Act::Deliver(2),
    Act::Poke,
    Act::Torn,
    Act::Restart,
    Act::Again,
];

fn ask(alloc: Global, node: u8, token: u64, named: &[u8]) -> Result<WorldEvent, AllocError> {
    Ok(WorldEvent::Ask {
        node,
        moment: MOMENT,
        token,
        request: request(alloc, named)?,
    })
}

/// A request at node 1 that a stop cuts after its record.
fn torn(alloc: Global) -> Result<WorldEvent, AllocError> {
    Ok(WorldEvent::Torn {
        node: 1,
        moment: MOMENT,
        input: Input::Ask {
            token: 3,
            request: request(alloc, &[0, 1])?,
        },
        kept: true,
    })
}

fn event(alloc: Global, act: Act) -> Result<WorldEvent, AllocError> {
    match act {
        Act::Make => ask(alloc, 0, 1, &[]),
        Act::Ask => ask(alloc, 1, 2, &[0, 1]),
        Act::Deliver(place) => Ok(WorldEvent::Deliver {
            moment: MOMENT,
            place,
        }),
        Act::Poke => Ok(WorldEvent::Poke {
            node: 1,
            moment: MOMENT,
        }),
        Act::Torn => torn(alloc),
        Act::Restart => Ok(WorldEvent::Restart(1)),
        Act::Again => ask(alloc, 1, 4, &[0, 1]),
    }
}

/// The body of a request whose step was torn.
fn torn_body(alloc: Global, event: &WorldEvent) -> Shown {
    match event {
        WorldEvent::Torn {
            input: Input::Ask { request, .. },
            ..
        } => done(format!(in alloc; "{:?}", request.body.as_slice())),
        _ => Err(Unshown::Other),
    }
}

fn copied_body(alloc: Global, refusals: &mut Refusals, event: &WorldEvent) -> Shown {
    let copy = again!(refusals, event.copy(alloc))?;
    torn_body(alloc, &copy)
}

pub fn event_copy(alloc: Global, refusals: &mut Refusals) -> Shown {
    let event = torn(alloc)?;
    copied_body(alloc, refusals, &event)
}

fn engines(alloc: Global) -> Result<Vec<Counter>, AllocError>
    ensures { IfOk result (λ engines. length engines.items ≡ 3) }
{
    let mut engines = Vec::new(alloc);
    for _count in 0..3u8 {
        engines.push(Counter {
            alloc,
            secret: given::SECRET,
        })?;
    }
    Ok(engines)
}

/// Three nodes, made of the engines that were handed back where memory was refused.
fn world(alloc: Global, refusals: &mut Refusals) -> Result<World<Counter>, Unshown>
    ensures { IfOk result (λ world. IsStaged world) }
{
    let unmade = match World::new(alloc, engines(alloc)?, DEADLINE) {
        Ok(world) => return Ok(world),
        Err(unmade) => unmade,
    };
    refusals.add();
    match World::new(alloc, unmade.engines, DEADLINE) {
        Ok(world) => Ok(world),
        Err(_) => Err(Unshown::Other),
    }
}

/// An event happens, at the second call where memory was refused at the first.
fn step(
    alloc: Global,
    refusals: &mut Refusals,
    world: &mut World<Counter>,
    act: Act,
) -> Result<(), Unshown>
    requires { IsStaged world.old }
    ensures { IsStaged world.new }
{
    let first = event(alloc, act)?;
    match world.step(first) {
        Ok(()) => return Ok(()),
        Err(WorldFault::Memory) => refusals.add(),
        Err(_) => return Err(Unshown::Other),
    }
    let second = event(alloc, act)?;
    match world.step(second) {
        Ok(()) => Ok(()),
        Err(_) => Err(Unshown::Other),
    }
}

/// All that was put out.
fn shown(alloc: Global, world: &World<Counter>) -> Shown {
    let mut line = String::new(alloc);
    for one in world.trace() {
        for output in one.outputs.as_slice() {
            line.push_str(output_text(alloc, output)?.as_str())?;
        }
        line.push(';')?;
    }
    Ok(line)
}

pub fn steps(alloc: Global, refusals: &mut Refusals) -> Shown {
    let mut world = world(alloc, refusals)?;
    for act in ACTS {
        step(alloc, refusals, &mut world, act)?;
    }
    shown(alloc, &world)
}

fn events(alloc: Global) -> Result<Vec<WorldEvent>, AllocError> {
    let mut events = Vec::new(alloc);
    for act in ACTS {
        events.push(event(alloc, act)?)?;
    }
    Ok(events)
}

/// The events happen, from that on for which memory was refused at the first call.
fn run_again(
    refusals: &mut Refusals,
    world: &mut World<Counter>,
    events: &[WorldEvent],
) -> Result<(), RunFault>
    requires { IsStaged world.old }
    ensures { IsStaged world.new }
{
    match world.run(events) {
        Err(
            RunFault {
                place,
                fault: WorldFault::Memory,
            },
        ) => {
            refusals.add();
            world.run(&events[place..])
        }
        answer => answer,
    }
}

pub fn run(alloc: Global, refusals: &mut Refusals) -> Shown {
    let events = events(alloc)?;
    let mut world = world(alloc, refusals)?;
    match run_again(refusals, &mut world, &events) {
        Ok(()) => shown(alloc, &world),
        Err(_) => Err(Unshown::Other),
    }
}
