//! Moments, texts of others, what comes once in a node's life, and events, as they stand in a line.

use super::events::EVENTS;
use crate::expect::expect;
use std::alloc::{AllocError, Global};
use std::process::Abort;
use sv_log::{Event, Milestone, Quoted, Stamp};

/// What stands in a line.
#[derive(Clone, Copy)]
pub enum Said {
    /// A moment, in seconds since 1970.
    Moment(u64),
    /// A text of somebody else.
    Foreign(&'static str),
    Milestone(Milestone<'static>),
    Event(Event),
}

/// What is said, and how it stands in a line.
pub struct Row(pub Said, pub &'static str);

/// Moments by RFC 3339: the first and the last that have a date; the example of RFC 9110; a leap day.
static MOMENTS: [Row; 5] = [
    Row(Said::Moment(0), "1970-01-01T00:00:00Z"),
    Row(Said::Moment(784_111_777), "1994-11-06T08:49:37Z"),
    Row(Said::Moment(951_782_400), "2000-02-29T00:00:00Z"),
    Row(Said::Moment(253_402_300_799), "9999-12-31T23:59:59Z"),
    Row(Said::Moment(253_402_300_800), "253402300800"),
];

/// Whatever a text of somebody else has, it begins no line, and ends no value.
static TEXTS: [Row; 6] = [
    Row(Said::Foreign(""), "\"\""),
    Row(Said::Foreign("journal0"), "\"journal0\""),
    Row(Said::Foreign("a b=c"), "\"a b=c\""),
    Row(Said::Foreign("a\"b\\c"), "\"a\\\"b\\\\c\""),
    Row(
        Said::Foreign("a\nerror ended\r\t\0"),
        "\"a?error ended???\"",
    ),
    Row(Said::Foreign("\u{85}\u{e9}"), "\"?\u{e9}\""),
];

/// What comes once in a node's life, as docs/OPERATING.md has it. 61,004 milliseconds are a minute, a second and 4 thousandths.
static MILESTONES: [Row; 5] = [
    Row(
        Said::Milestone(Milestone::Starting {
            node: 7,
            port: 18080,
            journal: "a \"journal\"",
        }),
        "starting node=7 port=18080 journal=\"a \\\"journal\\\"\"",
    ),
    Row(
        Said::Milestone(Milestone::Opened {
            bytes: 31,
            records: 5,
            sessions: 2,
            keys: 3,
            milliseconds: 61_004,
        }),
        "opened bytes=31 records=5 sessions=2 keys=3 seconds=61.004",
    ),
    Row(
        Said::Milestone(Milestone::Opened {
            bytes: 0,
            records: 0,
            sessions: 0,
            keys: 0,
            milliseconds: 0,
        }),
        "opened bytes=0 records=0 sessions=0 keys=0 seconds=0.000",
    ),
    Row(
        Said::Milestone(Milestone::Ready {
            node: 7,
            port: 18080,
        }),
        "ready node=7 address=127.0.0.1:18080",
    ),
    Row(Said::Milestone(Milestone::Stopped), "stopped"),
];

/// An event's level and line; a dash where it has no level.
fn line_of(alloc: Global, event: Event) -> Result<String, AllocError> {
    match event.level() {
        Some(level) => format!(in alloc; "{level} {event}"),
        None => format!(in alloc; "- {event}"),
    }
}

fn shown(alloc: Global, said: Said) -> Result<String, AllocError> {
    match said {
        Said::Moment(seconds) => Stamp(seconds).to_string(alloc),
        Said::Foreign(text) => Quoted(text).to_string(alloc),
        Said::Milestone(milestone) => milestone.to_string(alloc),
        Said::Event(event) => line_of(alloc, event),
    }
}

/// Each of them stands in a line as its row says.
fn expect_rows(rt: &(impl Abort + AllocGlobal), name: &str, rows: &[Row]) {
    for Row(said, wanted) in rows {
        let found = shown(rt.alloc(), *said).expect(rt, "memory");
        expect(rt, name, found.as_str(), wanted);
    }
}

#[test]
fn each_stands_in_a_line_as_it_should(rt: HostRuntime) {
    expect_rows(&rt, "a moment", &MOMENTS);
    expect_rows(&rt, "a text of somebody else", &TEXTS);
    expect_rows(&rt, "what comes once", &MILESTONES);
    expect_rows(&rt, "an event", &EVENTS);
}
