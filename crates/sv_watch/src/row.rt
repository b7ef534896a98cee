//! The rows of a table.

use sv_log::Family;
use sv_log::names::{
    CONNECTIONS, JOURNAL, KNOWN, LOST, MOVED, REFUSED, REQUESTS, SENT, SESSIONS, TIME, WAITING,
    WRITES,
};

/// What a row shows of its figure.
#[derive(Clone, Copy, Debug, PartialEq, Eq)]
pub enum Measure {
    /// How old the figures are.
    Age,
    /// A number as it is.
    Level,
    /// The keys that are known, and how many there can be. From 80 in a hundred on it is marked.
    Limited,
    /// A number since the start, and how often a second it rises.
    Counter,
    /// What each of those that it counts took, in thousandths of a second: the seconds are a figure of their own.
    Mean,
}

/// A row of a table.
#[derive(Clone, Copy)]
pub struct Row {
    pub title: &'static str,
    pub figure: Family,
    /// Which of the figures of its name; all of them together where it is none.
    pub label: Option<&'static str>,
    pub measure: Measure,
}

/// All rows: with the heading they have room on a screen of 24 lines.
pub static ROWS: [Row; 22] = [
    Row {
        title: "written",
        figure: TIME,
        label: None,
        measure: Measure::Age,
    },
    Row {
        title: "sessions here",
        figure: SESSIONS,
        label: Some("state=\"active\""),
        measure: Measure::Level,
    },
    Row {
        title: "on their way",
        figure: SESSIONS,
        label: Some("state=\"sent\""),
        measure: Measure::Level,
    },
    Row {
        title: "known keys",
        figure: KNOWN,
        label: None,
        measure: Measure::Limited,
    },
    Row {
        title: "answers 2xx",
        figure: REQUESTS,
        label: Some("class=\"2xx\""),
        measure: Measure::Counter,
    },
    Row {
        title: "answers 3xx",
        figure: REQUESTS,
        label: Some("class=\"3xx\""),
        measure: Measure::Counter,
    },
    Row {
        title: "answers 4xx",
        figure: REQUESTS,
        label: Some("class=\"4xx\""),
        measure: Measure::Counter,
    },
    Row {
        title: "answers 5xx",
        figure: REQUESTS,
        label: Some("class=\"5xx\""),
        measure: Measure::Counter,
    },
    Row {
        title: "503 Deadline",
        figure: REFUSED,
        label: Some("cause=\"Deadline\""),
        measure: Measure::Counter,
    },
    Row {
        title: "503 ParkFull",
        figure: REFUSED,
        label: Some("cause=\"ParkFull\""),
        measure: Measure::Counter,
    },
    Row {
        title: "503 TableFull",
        figure: REFUSED,
        label: Some("cause=\"TableFull\""),
        measure: Measure::Counter,
    },
    Row {
        title: "503 JournalFull",
        figure: REFUSED,
        label: Some("cause=\"JournalFull\""),
        measure: Measure::Counter,
    },
    Row {
        title: "503 Memory",
        figure: REFUSED,
        label: Some("cause=\"Memory\""),
        measure: Measure::Counter,
    },
    Row {
        title: "503 SerialsSpent",
        figure: REFUSED,
        label: Some("cause=\"SerialsSpent\""),
        measure: Measure::Counter,
    },
    Row {
        title: "503 WantsSpent",
        figure: REFUSED,
        label: Some("cause=\"WantsSpent\""),
        measure: Measure::Counter,
    },
    Row {
        title: "waiting requests",
        figure: WAITING,
        label: None,
        measure: Measure::Level,
    },
    Row {
        title: "connections",
        figure: CONNECTIONS,
        label: None,
        measure: Measure::Level,
    },
    Row {
        title: "ordered moves",
        figure: MOVED,
        label: None,
        measure: Measure::Counter,
    },
    Row {
        title: "packets sent",
        figure: SENT,
        label: None,
        measure: Measure::Counter,
    },
    Row {
        title: "packets lost",
        figure: LOST,
        label: None,
        measure: Measure::Counter,
    },
    Row {
        title: "journal bytes",
        figure: JOURNAL,
        label: None,
        measure: Measure::Level,
    },
    Row {
        title: "ms a write",
        figure: WRITES,
        label: None,
        measure: Measure::Mean,
    },
];
