//! The core of a node: each row of its step that takes memory, its records and its snapshot.

use crate::again::{Refusals, Unshown, again, done};
use crate::given;
use std::alloc::{AllocError, Global};
use sv_core::{ApplyFault, Core};
use sv_model::{Input, KeyState, Moment, Output, Packet, Record, Setting};
use test_engine::{Counter, output_text, request, state_text};

type Shown = Result<String, Unshown>;

const MOMENT: Moment = Moment {
    now: given::NOW,
    steady: given::NOW,
    secret: given::SECRET,
};

const SETTING: Setting = Setting {
    node: 0,
    nodes: 3,
    deadline: 30,
    keys: 65_536,
    forget: false,
};

fn engine(alloc: Global) -> Counter {
    Counter {
        alloc,
        secret: given::SECRET,
    }
}

/// What a core is given, one after the other: a session is made, wanted by node 1, handed to it and acknowledged; it is asked for
/// here, waits, comes back, and is handed on. Another one is made, and expires, by which the core forgets it; and a third.
#[derive(Clone, Copy)]
enum Step {
    Make,
    Want,
    Ack,
    Ask,
    Grant,
    Poke,
    Move,
    Tick,
    Late,
}

static STEPS: [Step; 11] = [
    Step::Make,
    Step::Want,
    Step::Ack,
    Step::Ask,
    Step::Grant,
    Step::Poke,
    Step::Move,
    Step::Tick,
    Step::Make,
    Step::Late,
    Step::Make,
];

/// When a step is taken; by then a session of a step before has expired where it is late.
fn moment_of(step: Step) -> Moment {
    match step {
        Step::Late => Moment {
            now: 1_061,
            steady: 1_061,
            secret: given::SECRET,
        },
        _ => MOMENT,
    }
}

fn asked(alloc: Global, token: u64, named: &[u8]) -> Result<Input, AllocError> {
    Ok(Input::Ask {
        token,
        request: request(alloc, named)?,
    })
}

fn granted(alloc: Global) -> Result<Input, AllocError> {
    Ok(Input::Packet(Packet::Grant {
        from: 1,
        to: 0,
        key: given::KEY,
        epoch: 3,
        session: given::session(alloc)?,
    }))
}

fn input(alloc: Global, step: Step) -> Result<Input, AllocError> {
    let key = given::KEY;
    match step {
        Step::Make => asked(alloc, 1, &[]),
        Step::Want => Ok(Input::Packet(Packet::Want {
            from: 1,
            to: 0,
            key,
            boot: 1,
            want: 1,
        })),
        Step::Ack => Ok(Input::Packet(Packet::Ack {
            from: 1,
            to: 0,
            key,
            epoch: 2,
        })),
        Step::Ask => asked(alloc, 2, &[0, 1]),
        Step::Grant => granted(alloc),
        Step::Poke => Ok(Input::Poke),
        Step::Move => Ok(Input::Move { key, to: 2 }),
        Step::Tick | Step::Late => Ok(Input::Tick),
    }
}

/// A step is decided, and accepted.
fn take_step(
    core: &mut Core<Counter>,
    moment: Moment,
    input: Input,
) -> Result<Vec<Output>, AllocError> {
    match core.decide(moment, input) {
        Ok(decision) => Ok(core.accept(decision)),
        Err(_) => Err(AllocError),
    }
}

fn step_again(
    alloc: Global,
    refusals: &mut Refusals,
    core: &mut Core<Counter>,
    one: Step,
) -> Result<Vec<Output>, AllocError> {
    let first = input(alloc, one)?;
    let moment = moment_of(one);
    match take_step(core, moment, first) {
        Ok(outputs) => Ok(outputs),
        Err(AllocError) => {
            refusals.add();
            take_step(core, moment, input(alloc, one)?)
        }
    }
}

/// Adds what is put out.
fn add_outputs(alloc: Global, line: &mut String, outputs: &[Output]) -> Result<(), AllocError> {
    for output in outputs {
        line.push_str(output_text(alloc, output)?.as_str())?;
        line.push_str(", ")?;
    }
    line.push(';')?;
    Ok(())
}

fn core_of(alloc: Global, records: &[Record]) -> Result<Core<Counter>, Unshown> {
    match Core::recover(alloc, engine(alloc), SETTING, records) {
        Ok(core) => Ok(core),
        Err(_) => Err(Unshown::Memory),
    }
}

/// Takes one step, and adds what it puts out.
fn add_step(
    alloc: Global,
    refusals: &mut Refusals,
    core: &mut Core<Counter>,
    line: &mut String,
    one: Step,
) -> Result<(), AllocError> {
    let outputs = step_again(alloc, refusals, core, one)?;
    add_outputs(alloc, line, &outputs)
}

fn add_steps(
    alloc: Global,
    refusals: &mut Refusals,
    core: &mut Core<Counter>,
    line: &mut String,
) -> Result<(), AllocError> {
    for one in &STEPS {
        add_step(alloc, refusals, core, line, *one)?;
    }
    Ok(())
}

/// What a core puts out, step by step.
fn put_out(alloc: Global, refusals: &mut Refusals, core: &mut Core<Counter>) -> Shown {
    let mut line = String::new(alloc);
    add_steps(alloc, refusals, core, &mut line)?;
    Ok(line)
}

pub fn decide(alloc: Global, refusals: &mut Refusals) -> Shown {
    let mut core = core_of(alloc, &[Record::Forgets { home: 0, boot: 1 }])?;
    put_out(alloc, refusals, &mut core)
}

fn start(core: &mut Core<Counter>) -> Result<(), AllocError> {
    match core.decide_start() {
        Ok(Some(decision)) => {
            core.accept(decision);
            Ok(())
        }
        Ok(None) => Ok(()),
        Err(_) => Err(AllocError),
    }
}

/// The number of a core's start, which is made once more where memory is refused.
fn started(alloc: Global, refusals: &mut Refusals, core: &mut Core<Counter>) -> Shown {
    again!(refusals, start(core))?;
    done(format!(in alloc; "{}", core.boot()))
}

pub fn decide_start(alloc: Global, refusals: &mut Refusals) -> Shown {
    let mut core = core_of(alloc, &[])?;
    started(alloc, refusals, &mut core)
}

fn state_of(alloc: Global, number: u8) -> Result<Record, AllocError> {
    let session = given::session(alloc)?;
    Ok(Record::State {
        key: sv_model::Key {
            home: number,
            serial: 1,
        },
        state: KeyState::Sent {
            epoch: 2,
            session,
            to: 2,
        },
    })
}

/// A snapshot of two keys of other homes.
fn records(alloc: Global) -> Result<Vec<Record>, AllocError> {
    let mut records = Vec::new(alloc);
    records.push(Record::Counters { boot: 1, next: 1 })?;
    records.push(state_of(alloc, 1)?)?;
    records.push(state_of(alloc, 2)?)?;
    Ok(records)
}

/// What a core knows of both keys.
fn known(alloc: Global, core: &Core<Counter>) -> Result<String, AllocError> {
    let one = sv_model::Key { home: 1, serial: 1 };
    let two = sv_model::Key { home: 2, serial: 1 };
    let first = state_text(alloc, core.state(one))?;
    let second = state_text(alloc, core.state(two))?;
    format!(in alloc; "{first} {second}")
}

/// A core of these records, recovered once more by the engine that was handed back where memory is refused.
fn recovered(alloc: Global, refusals: &mut Refusals, records: &[Record]) -> Shown {
    let refused = match Core::recover(alloc, engine(alloc), SETTING, records) {
        Ok(core) => return done(known(alloc, &core)),
        Err(refused) => refused,
    };
    refusals.add();
    match Core::recover(alloc, refused.engine, SETTING, records) {
        Ok(core) => done(known(alloc, &core)),
        Err(_) => Err(Unshown::Other),
    }
}

pub fn recover(alloc: Global, refusals: &mut Refusals) -> Shown {
    let records = records(alloc)?;
    recovered(alloc, refusals, &records)
}

fn apply(alloc: Global, core: &mut Core<Counter>, number: u8) -> Result<(), ApplyFault> {
    core.apply(state_of(alloc, number)?)
}

/// Applies a record, once more where memory is refused.
fn apply_twice(
    alloc: Global,
    refusals: &mut Refusals,
    core: &mut Core<Counter>,
    number: u8,
) -> Result<(), Unshown> {
    match apply(alloc, core, number) {
        Ok(()) => return Ok(()),
        Err(ApplyFault::BadRecord) => return Err(Unshown::Other),
        Err(ApplyFault::Memory) => refusals.add(),
    }
    match apply(alloc, core, number) {
        Ok(()) => Ok(()),
        Err(_) => Err(Unshown::Other),
    }
}

/// What a core knows of both keys, whose records it takes one after the other.
fn applied(alloc: Global, refusals: &mut Refusals, core: &mut Core<Counter>) -> Shown {
    for number in 1..3 {
        apply_twice(alloc, refusals, core, number)?;
    }
    done(known(alloc, core))
}

pub fn apply_again(alloc: Global, refusals: &mut Refusals) -> Shown {
    let mut core = core_of(alloc, &[Record::Counters { boot: 1, next: 1 }])?;
    applied(alloc, refusals, &mut core)
}

/// A snapshot of a core, taken once more where memory is refused.
fn snapshot_of(refusals: &mut Refusals, core: &Core<Counter>) -> Result<Vec<Record>, Unshown> {
    if let Ok(snapshot) = core.snapshot() {
        return Ok(snapshot);
    }
    refusals.add();
    match core.snapshot() {
        Ok(snapshot) => Ok(snapshot),
        Err(_) => Err(Unshown::Other),
    }
}

/// What a core of these records knows of both keys.
fn known_of(alloc: Global, records: &[Record]) -> Shown {
    let core = core_of(alloc, records)?;
    done(known(alloc, &core))
}

/// The snapshot of a core of the records above.
fn snapshot_again(alloc: Global, refusals: &mut Refusals) -> Result<Vec<Record>, Unshown> {
    let records = records(alloc)?;
    match core_of(alloc, &records) {
        Ok(core) => snapshot_of(refusals, &core),
        Err(why) => Err(why),
    }
}

pub fn snapshot(alloc: Global, refusals: &mut Refusals) -> Shown {
    let snapshot = snapshot_again(alloc, refusals)?;
    known_of(alloc, &snapshot)
}
