//! A line of a world's trace, as a text: its record, its commit, what was told, and what was put out.

use crate::fixtures::{add, text};
use std::alloc::Global;
use std::process::Abort;
use sv_model::{Change, Commit, Event, Key, Output, Packet, Record, Told};
use sv_world::Line;
use test_engine::{numbered, output_text, packet_text};

/// How many packets were put out.
fn sends(outputs: &[Output]) -> usize {
    outputs
        .iter()
        .filter(|output| matches!(output, Output::Send(_)))
        .count()
}

/// How many packets these lines have sent.
pub fn sent(trace: &[Line]) -> usize {
    let mut count = 0usize;
    for line in trace {
        count = count.saturating_add(sends(line.outputs.as_slice()));
    }
    count
}

fn key_text(rt: &impl Abort, alloc: Global, verb: &str, key: &Key) -> String {
    text(
        rt,
        alloc,
        format_args!(" {verb} {}.{}", key.home, key.serial),
    )
}

/// What a commit makes of one key; the verb says it of a session that is there after it.
fn change_text(rt: &impl Abort, alloc: Global, verb: &str, change: &Change) -> String {
    match change {
        Change::Absent => String::new(alloc),
        Change::Alive { key, .. } => key_text(rt, alloc, verb, key),
        Change::Ended(key) => key_text(rt, alloc, "ends", key),
    }
}

/// A Commit, with the session that the request named and the one that was made.
fn changes_text(rt: &impl Abort, alloc: Global, named: &Change, born: &Change) -> String {
    let mut text = text(rt, alloc, "Commit");
    add(rt, &mut text, &change_text(rt, alloc, "keeps", named));
    add(rt, &mut text, &change_text(rt, alloc, "makes", born));
    text
}

/// A record's kind, with its number and the other node where it has them.
fn record_text(rt: &impl Abort, alloc: Global, record: &Record) -> String {
    match record {
        Record::Boot(boot) => text(rt, alloc, format_args!("Boot {boot}")),
        Record::Commit { named, born } => changes_text(rt, alloc, named, born),
        Record::Expired(key) => {
            text(
                rt,
                alloc,
                format_args!("Expired {}.{}", key.home, key.serial),
            )
        }
        Record::Sent { epoch, to, .. } => text(rt, alloc, format_args!("Sent {epoch} to {to}")),
        Record::Taken { epoch, from, .. } => {
            text(rt, alloc, format_args!("Taken {epoch} from {from}"))
        }
        Record::Gone { epoch, .. } => text(rt, alloc, format_args!("Gone {epoch}")),
        Record::State { .. } => text(rt, alloc, "State"),
        Record::Counters { .. } => text(rt, alloc, "Counters"),
        Record::Forgets { boot, .. } => text(rt, alloc, format_args!("Forgets {boot}")),
        Record::Counted { .. } => text(rt, alloc, "Counted"),
    }
}

/// What happened to the one container that all nodes make up.
fn commit_text(commit: &Commit) -> &'static str {
    match commit {
        Commit::Served { .. } => "served",
        Commit::Expired { .. } => "expired",
    }
}

/// What listeners were told of a session.
fn told_text(told: &Told) -> &'static str {
    match told.event {
        Event::Created(_) => "created",
        Event::Destroyed(_) => "destroyed",
        Event::Passivate(_) => "passivate",
        Event::Activate(_) => "activate",
        _ => "?",
    }
}

/// Adds a part after the others.
fn add_part(rt: &impl Abort, text: &mut String, part: &str) {
    if !text.is_empty() {
        add(rt, text, ", ");
    }
    add(rt, text, part);
}

/// Adds what became durable, and the commit.
fn add_done(rt: &impl Abort, text: &mut String, alloc: Global, line: &Line) {
    if let Some(record) = &line.entry {
        add_part(rt, text, &record_text(rt, alloc, record));
    }
    if let Some(commit) = &line.commit {
        add_part(rt, text, commit_text(commit));
    }
}

/// Adds what was told: the events of the commit, then that a session has come or gone.
fn add_told(rt: &impl Abort, text: &mut String, line: &Line) {
    for told in line.events.as_slice() {
        add_part(rt, text, told_text(told));
    }
    if let Some(mark) = &line.mark {
        add_part(rt, text, told_text(mark));
    }
}

fn sent_text(rt: &impl Abort, alloc: Global, number: usize, packet: &Packet) -> String {
    let packet = packet_text(alloc, packet).expect(rt, "memory");
    numbered(alloc, number, &packet).expect(rt, "memory")
}

/// One output; a packet has its number in front.
fn put_out(rt: &impl Abort, alloc: Global, number: usize, output: &Output) -> String {
    match output {
        Output::Send(packet) => sent_text(rt, alloc, number, packet),
        other => output_text(alloc, other).expect(rt, "memory"),
    }
}

/// Adds what was put out, where so many packets were sent before.
fn add_outputs(
    rt: &impl Abort,
    text: &mut String,
    alloc: Global,
    before: usize,
    outputs: &[Output],
) {
    let mut number = before;
    for output in outputs {
        add_part(rt, text, &put_out(rt, alloc, number, output));
        if let Output::Send(_) = output {
            number = number.saturating_add(1);
        }
    }
}

/// What an event has done, where so many packets were sent before.
pub fn said(rt: &impl Abort, alloc: Global, before: usize, line: &Line) -> String {
    let mut text = String::new(alloc);
    add_done(rt, &mut text, alloc, line);
    add_told(rt, &mut text, line);
    add_outputs(rt, &mut text, alloc, before, line.outputs.as_slice());
    text
}
