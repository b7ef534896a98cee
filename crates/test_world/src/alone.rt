//! A core by itself, node 0 of three: what it is recovered from, what it is given, and what it puts out.

use crate::act::{NOW, SECRET, request};
use crate::fixtures::{add, expect_text, text};
use crate::{forgets, limits, room};
use std::alloc::Global;
use std::process::Abort;
use sv_core::{ApplyFault, Census, Core};
use sv_model::{
    Attributes, Change, Input, Key, KeyState, Moment, Output, Packet, Record, Request, Session,
    Setting,
};
use test_engine::{Counter, hello, output_text, state_text};

/// A key, by its home and its serial.
pub type KeyName = (u8, u64);

/// What a core is given, or asked.
#[derive(Clone, Copy)]
pub enum Given {
    /// A request that touches nothing.
    Hello,
    /// One that counts, with no session.
    First,
    /// One that names a session, whose serial is of one byte.
    Again(u8, u8),
    /// What node 1 sends of a key.
    Want(KeyName),
    Grant(KeyName, u64),
    /// One of a session that nothing has named for its time.
    StaleGrant(KeyName, u64),
    Ack(KeyName, u64),
    /// The key is to go to node 1.
    Move(KeyName),
    /// A minute and a second have passed: each session's time is over.
    Later,
    Tick,
    /// Those who wait are looked at.
    Poke,
    /// What is known of a key.
    Known(KeyName),
    /// How many keys are active, sent, gone and ended.
    Census,
}

/// What a core is given, and what it puts out, `+` before it where a record says so; or what is known.
pub type Row = (Given, &'static str);

fn key((home, serial): KeyName) -> Key {
    Key { home, serial }
}

/// Node 0 of three, which knows so many keys at most, and at which requests wait for 30 seconds.
fn setting(keys: u32, forget: bool) -> Setting {
    let mut setting = Setting::of(0, 3, 30);
    setting.keys = keys;
    setting.forget = forget;
    setting
}

fn recover(
    alloc: Global,
    setting: Setting,
    records: &[Record],
) -> Result<Core<Counter>, ApplyFault> {
    let engine = Counter {
        alloc,
        secret: SECRET,
    };
    match Core::recover(alloc, engine, setting, records) {
        Ok(core) => Ok(core),
        Err(unrecovered) => Err(unrecovered.fault),
    }
}

/// A core of these records, which fit.
fn recovered(
    rt: &impl Abort,
    alloc: Global,
    setting: Setting,
    records: &[Record],
) -> Core<Counter> {
    recover(alloc, setting, records).expect(rt, "the records fit")
}

/// The records are refused, since one of them doesn't fit.
fn is_refused(alloc: Global, setting: Setting, records: &[Record]) -> bool {
    match recover(alloc, setting, records) {
        Ok(_) => false,
        Err(fault) => fault == ApplyFault::BadRecord,
    }
}

/// A session that was named last in this second.
fn session_of(alloc: Global, last: u64) -> Session {
    Session {
        context: 0,
        secret: SECRET,
        created: 1,
        last,
        interval: 60,
        fresh: true,
        attributes: Attributes::new(alloc),
    }
}

/// A record that a core is recovered from.
#[derive(Clone, Copy)]
pub enum Entry {
    Boot(u64),
    /// A start of a home that forgets.
    Forgets(u8, u64),
    /// The start's number and the next serial, at the head of a snapshot.
    Counters(u64, u64),
    /// The head of a home that counts what it has forgotten, in its first start, with the next serial.
    Counted(u8, u64),
    /// A session that is here with epoch 1.
    Active(KeyName),
    /// One that goes to node 2 with epoch 2.
    Sent(KeyName),
    /// One that was here and has gone, with its epoch.
    Gone(KeyName, u64),
    Ended(KeyName),
    /// So many of node 1 have gone with epoch 2.
    AllGone(u64),
    /// So many of node 0 have ended.
    AllEnded(u64),
    /// A request has made a session of node 0, with this serial.
    Born(u64),
    /// A request that made the first session has ended it.
    EndedAtBirth,
    Expired(KeyName),
}

fn active(alloc: Global) -> KeyState {
    KeyState::Active {
        epoch: 1,
        session: session_of(alloc, NOW),
    }
}

fn sent(alloc: Global) -> KeyState {
    KeyState::Sent {
        epoch: 2,
        session: session_of(alloc, NOW),
        to: 2,
    }
}

fn state(name: KeyName, state: KeyState) -> Record {
    Record::State {
        key: key(name),
        state,
    }
}

fn commit(born: Change) -> Record {
    Record::Commit {
        named: Change::Absent,
        born,
    }
}

fn alive(alloc: Global, serial: u64) -> Change {
    Change::Alive {
        key: key((0, serial)),
        session: session_of(alloc, NOW),
    }
}

/// A record that says a key's state; of many alike, the one with this serial.
fn state_record(alloc: Global, entry: Entry, serial: u64) -> Record {
    match entry {
        Entry::Active(name) => state(name, active(alloc)),
        Entry::Sent(name) => state(name, sent(alloc)),
        Entry::Gone(name, epoch) => state(name, KeyState::Gone { epoch }),
        Entry::Ended(name) => state(name, KeyState::Ended { epoch: 1 }),
        Entry::AllGone(_) => state((1, serial), KeyState::Gone { epoch: 2 }),
        _ => state((0, serial), KeyState::Ended { epoch: 1 }),
    }
}

fn record(alloc: Global, entry: Entry, serial: u64) -> Record {
    match entry {
        Entry::Boot(boot) => Record::Boot(boot),
        Entry::Forgets(home, boot) => Record::Forgets { home, boot },
        Entry::Counters(boot, next) => Record::Counters { boot, next },
        Entry::Counted(home, next) => Record::Counted {
            home,
            boot: 1,
            next,
        },
        Entry::Born(serial) => commit(alive(alloc, serial)),
        Entry::EndedAtBirth => commit(Change::Ended(key((0, 1)))),
        Entry::Expired(name) => Record::Expired(key(name)),
        _ => state_record(alloc, entry, serial),
    }
}

/// How many records an entry stands for.
fn count(entry: Entry) -> u64 {
    match entry {
        Entry::AllGone(count) => count,
        Entry::AllEnded(count) => count,
        _ => 1,
    }
}

fn push(rt: &impl Abort, records: &mut Vec<Record>, alloc: Global, entry: Entry) {
    for serial in 1..count(entry).saturating_add(1) {
        let record = record(alloc, entry, serial);
        records.push(record).expect(rt, "memory");
    }
}

/// The records of these entries.
fn records_of(rt: &impl Abort, alloc: Global, entries: &[Entry]) -> Vec<Record> {
    let mut records = Vec::new(alloc);
    for entry in entries {
        push(rt, &mut records, alloc, *entry);
    }
    records
}

fn asked(request: Request) -> Input {
    Input::Ask { token: 1, request }
}

/// A session that node 1 hands over.
fn grant(name: KeyName, epoch: u64, session: Session) -> Input {
    Input::Packet(Packet::Grant {
        from: 1,
        to: 0,
        key: key(name),
        epoch,
        session,
    })
}

/// A packet of node 1 about a key, or an order to move it there.
fn carried(alloc: Global, given: Given) -> Input {
    let (from, to) = (1, 0);
    match given {
        Given::Want(name) => Input::Packet(Packet::Want {
            from,
            to,
            key: key(name),
            boot: 1,
            want: 1,
        }),
        Given::Grant(name, epoch) => grant(name, epoch, session_of(alloc, NOW)),
        Given::StaleGrant(name, epoch) => grant(name, epoch, session_of(alloc, NOW - 60)),
        Given::Ack(name, epoch) => Input::Packet(Packet::Ack {
            from,
            to,
            key: key(name),
            epoch,
        }),
        Given::Move(name) => Input::Move {
            key: key(name),
            to: from,
        },
        _ => Input::Tick,
    }
}

fn input(rt: &impl Abort, alloc: Global, given: Given) -> Input {
    match given {
        Given::Hello => asked(hello(alloc).expect(rt, "memory")),
        Given::First => asked(request(rt, alloc, &[])),
        Given::Again(home, serial) => asked(request(rt, alloc, &[home, serial])),
        Given::Poke => Input::Poke,
        _ => carried(alloc, given),
    }
}

/// The second in which something is given.
fn second(given: Given) -> u64 {
    match given {
        Given::Later => NOW + 61,
        _ => NOW,
    }
}

fn add_output(rt: &impl Abort, text: &mut String, alloc: Global, output: &Output) {
    add(rt, text, &output_text(alloc, output).expect(rt, "memory"));
    add(rt, text, ";");
}

fn outputs_text(rt: &impl Abort, alloc: Global, kept: bool, outputs: &[Output]) -> String {
    let mut text = text(rt, alloc, if kept { "+" } else { "" });
    for output in outputs {
        add_output(rt, &mut text, alloc, output);
    }
    text
}

fn taken(rt: &impl Abort, core: &mut Core<Counter>, alloc: Global, given: Given) -> String {
    let moment = Moment {
        now: second(given),
        steady: second(given),
        secret: SECRET,
    };
    let input = input(rt, alloc, given);
    let decision = core.decide(moment, input).expect(rt, "memory");
    let kept = decision.entry().is_some();
    let outputs = core.accept(decision);
    outputs_text(rt, alloc, kept, &outputs)
}

fn census_text(rt: &impl Abort, alloc: Global, census: &Census) -> String {
    let Census {
        active,
        sent,
        gone,
        ended,
        homes,
    } = census;
    text(
        rt,
        alloc,
        format_args!("{active} {sent} {gone} {ended} below {homes}"),
    )
}

fn told(rt: &impl Abort, core: &mut Core<Counter>, alloc: Global, given: Given) -> String {
    match given {
        Given::Known(name) => state_text(alloc, core.state(key(name))).expect(rt, "memory"),
        Given::Census => census_text(rt, alloc, &core.census()),
        _ => taken(rt, core, alloc, given),
    }
}

/// A core is given these in order, each with what it puts out.
fn expect(rt: &impl Abort, core: &mut Core<Counter>, alloc: Global, name: &str, rows: &[Row]) {
    for (place, (given, want)) in rows.iter().enumerate() {
        let told = told(rt, core, alloc, *given);
        expect_text(rt, format_args!("{name}, row {place}"), &told, want);
    }
}

/// What is looked at of a snapshot.
#[derive(Clone, Copy)]
pub enum Left {
    Any,
    /// It has so many records.
    Records(usize),
    /// It has so many, at their head the number of the start and the next serial.
    Headed(usize, u64, u64),
}

/// What a core is given, how often, and what its snapshot is then.
pub struct Part {
    pub times: u32,
    pub rows: &'static [Row],
    pub left: Left,
}

/// A core of these records is given the rows of the first part; one that is recovered from its snapshot those of the next one.
pub struct Story {
    pub name: &'static str,
    pub keys: u32,
    pub forget: bool,
    pub records: &'static [Entry],
    pub parts: &'static [Part],
}

/// A core is given the rows of a part, as often as that says.
fn expect_part(rt: &impl Abort, core: &mut Core<Counter>, alloc: Global, name: &str, part: &Part) {
    for _time in 0..part.times {
        expect(rt, core, alloc, name, part.rows);
    }
}

/// The snapshot of a core after a part.
fn snapshot_behind(
    rt: &impl Abort,
    core: &mut Core<Counter>,
    alloc: Global,
    name: &str,
    part: &Part,
) -> Vec<Record> {
    expect_part(rt, core, alloc, name, part);
    core.snapshot().expect(rt, "memory")
}

/// The snapshot of a core that was recovered from these records, after a part.
fn left_by(
    rt: &impl Abort,
    alloc: Global,
    story: &Story,
    records: &[Record],
    part: &Part,
) -> Vec<Record> {
    let mut core = recovered(rt, alloc, setting(story.keys, story.forget), records);
    snapshot_behind(rt, &mut core, alloc, story.name, part)
}

fn is_head(record: Option<&Record>, its_boot: u64, its_next: u64) -> bool {
    match record {
        Some(Record::Counters { boot, next }) => *boot == its_boot && *next == its_next,
        _ => false,
    }
}

fn is_left(records: &[Record], left: Left) -> bool {
    match left {
        Left::Any => true,
        Left::Records(count) => records.len() == count,
        Left::Headed(count, boot, next) => {
            records.len() == count && is_head(records.first(), boot, next)
        }
    }
}

fn expect_left(rt: &impl Abort, name: &str, records: &[Record], left: Left) {
    let count = records.len();
    assert!(rt; is_left(records, left), "{name}: {count} records are left");
}

fn expect_story(rt: &impl Abort, alloc: Global, story: &Story) {
    let mut records = records_of(rt, alloc, story.records);
    for part in story.parts {
        records = left_by(rt, alloc, story, &records, part);
        expect_left(rt, story.name, &records, part.left);
    }
}

fn expect_stories(rt: &impl Abort, alloc: Global, stories: &[Story]) {
    for story in stories {
        expect_story(rt, alloc, story);
    }
}

#[test]
fn numbers_at_their_ends(rt: HostRuntime) {
    expect_stories(&rt, rt.alloc(), &limits::STORIES);
}

#[test]
fn room_for_keys(rt: HostRuntime) {
    expect_stories(&rt, rt.alloc(), &room::STORIES);
}

#[test]
fn keys_that_are_forgotten(rt: HostRuntime) {
    expect_stories(&rt, rt.alloc(), &forgets::STORIES);
}

/// Records of which the last one doesn't fit after those before it, which do.
pub struct Refused {
    pub why: &'static str,
    pub keys: u32,
    pub forget: bool,
    pub records: &'static [Entry],
}

/// The records are taken without the last one, and refused with it.
fn is_last_refused(rt: &impl Abort, alloc: Global, refused: &Refused) -> bool {
    let records = records_of(rt, alloc, refused.records);
    let (_, before) = records.split_last().expect(rt, "records");
    let set = setting(refused.keys, refused.forget);
    !is_refused(alloc, set, before) && is_refused(alloc, set, &records)
}

fn expect_refused(rt: &impl Abort, alloc: Global, all: &[Refused]) {
    for refused in all {
        assert!(rt; is_last_refused(rt, alloc, refused), "{}", refused.why);
    }
}

#[test]
fn records_that_do_not_fit(rt: HostRuntime) {
    expect_refused(&rt, rt.alloc(), &limits::REFUSED);
    expect_refused(&rt, rt.alloc(), &forgets::REFUSED);
}

#[test]
fn records_of_too_many_keys(rt: HostRuntime) {
    expect_refused(&rt, rt.alloc(), &room::REFUSED);
}

/// How the next start is written, if there is one.
#[derive(Clone, Copy, PartialEq, Eq)]
pub enum Start {
    None,
    Plain(u64),
    /// It says that its home, which is node 0, forgets.
    Forgets(u64),
    Other,
}

fn start_of(entry: Option<&Record>) -> Start {
    match entry {
        Some(Record::Boot(boot)) => Start::Plain(*boot),
        Some(Record::Forgets { home: 0, boot }) => Start::Forgets(*boot),
        _ => Start::Other,
    }
}

fn decided_start(rt: &impl Abort, core: &mut Core<Counter>) -> Start {
    match core.decide_start().expect(rt, "memory") {
        Some(decision) => start_of(decision.entry()),
        None => Start::None,
    }
}

/// The next start of a node that forgets or not, after these records.
fn next_start(rt: &impl Abort, alloc: Global, forget: bool, entries: &[Entry]) -> Start {
    let records = records_of(rt, alloc, entries);
    let mut core = recovered(rt, alloc, setting(10, forget), &records);
    decided_start(rt, &mut core)
}

/// Whether a node forgets, its records, and its next start.
static STARTS: [(&str, bool, &[Entry], Start); 5] = [
    (
        "a start that forgets says so",
        true,
        &[Entry::Boot(1)],
        Start::Forgets(2),
    ),
    ("a plain start", false, &[Entry::Boot(1)], Start::Plain(2)),
    (
        "a plain start behind one that forgot",
        false,
        &[Entry::Forgets(0, 1)],
        Start::Plain(2),
    ),
    (
        "a start that forgets behind one that did",
        true,
        &[Entry::Forgets(0, 1)],
        Start::Forgets(2),
    ),
    (
        "there is no start behind the last one",
        false,
        &[Entry::Counters(u64::MAX, 1)],
        Start::None,
    ),
];

#[test]
fn starts_say_whether_they_forget(rt: HostRuntime) {
    for (name, forget, entries, want) in &STARTS {
        assert!(rt;
            next_start(&rt, rt.alloc(), *forget, entries) == *want,
            "{name}"
        );
    }
}
