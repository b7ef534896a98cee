//! What a node's figures say once it has stopped.

use crate::files::{own_path, taken};
use crate::fixtures::{add, push};
use crate::town::{HALT, Town, host_of, live_anew};
use std::alloc::Global;
use std::net::TcpStream;
use std::process::Abort;
use sv_host::Host;
use sv_log::Report;
use sv_net::Persistence;

/// Two clients make a session each, one more names the first of them, and the last one waits for a session of the other node. A node
/// writes its figures when it starts, and then only every five seconds.
static ASKED: [[u8; 2]; 4] = [[0, 9], [0, 9], [0, 1], [1, 1]];

/// What the figures say of that.
static WANTED: [&str; 5] = [
    "kegbramble_sessions{node=\"0\",state=\"active\"} 2",
    "kegbramble_sessions{node=\"0\",state=\"sent\"} 0",
    "kegbramble_known_keys{node=\"0\"} 2",
    "kegbramble_waiting_requests{node=\"0\"} 1",
    "kegbramble_requests_total{node=\"0\",class=\"2xx\"} 3",
];

/// Figures that are written to a file.
fn figures_in(rt: &impl Abort, machine: &HostRuntime, path: &str) -> Report {
    let mut report = Report::none();
    let counted = report.count_to(machine.alloc(), machine, path, 0);
    counted.expect(rt, "figures");
    report
}

/// All who ask, and one who has the node stop.
fn callers(rt: &impl Abort, machine: &HostRuntime, town: &Town) -> Vec<TcpStream> {
    let mut callers = Vec::new(machine.alloc());
    for named in &ASKED {
        push(rt, &mut callers, town.ask(rt, machine, *named));
    }
    push(rt, &mut callers, town.call(rt, machine, HALT));
    callers
}

/// The length of the journal of a node that has served all who have connected.
fn journal_of(rt: &impl Abort, machine: &HostRuntime, host: Host) -> usize {
    live_anew(rt, machine, host).a.bytes().len()
}

/// The length of the journal of a node that has served them, whose figures are written to a file.
fn served(rt: &impl Abort, machine: &HostRuntime, path: &str) -> usize {
    let town = Town::new(rt, machine);
    let report = figures_in(rt, machine, path);
    let host = host_of(rt, machine, &town, Persistence::Single).reporting(report);
    let _callers = callers(rt, machine, &town);
    journal_of(rt, machine, host)
}

/// The text has this line.
fn has_line(text: &str, wanted: &str) -> bool {
    text.lines().any(|line| line == wanted)
}

/// Adds a line that a text hasn't got.
fn push_if_missing(rt: &impl Abort, missing: &mut String, text: &str, wanted: &str) {
    if !has_line(text, wanted) {
        add(rt, missing, wanted);
    }
}

/// The line of a journal of this length.
fn journal_line(rt: &impl Abort, alloc: Global, bytes: usize) -> String {
    format!(in alloc; "kegbramble_journal_bytes{{node=\"0\"}} {bytes}").expect(rt, "memory")
}

/// Adds the lines that a text hasn't got and should have, that of a journal of this length among them.
fn push_missing(rt: &impl Abort, alloc: Global, missing: &mut String, text: &str, bytes: usize) {
    for wanted in &WANTED {
        push_if_missing(rt, missing, text, wanted);
    }
    push_if_missing(rt, missing, text, &journal_line(rt, alloc, bytes));
}

/// What the figures of the end don't say, and should.
pub fn missing(rt: &impl Abort, machine: &HostRuntime) -> String {
    let path = own_path(rt, machine, "figures");
    let bytes = served(rt, machine, &path);
    let text = taken(rt, machine, &path);
    let mut missing = String::new(machine.alloc());
    push_missing(rt, machine.alloc(), &mut missing, &text, bytes);
    missing
}
