//! When lines and figures are written.

use crate::expect::expect;
use crate::files::{new_path, remove, taken, text_in};
use crate::fixtures::add;
use std::alloc::Global;
use std::fs;
use std::os::unix::fs::PermissionsExt;
use std::process::Abort;
use sv_log::{Event, Level, Loss, Quoted, Refusal, Report};
use sv_model::{Cause, Key};

/// What happens at a node.
#[derive(Clone, Copy)]
enum Step {
    /// The time is this, in seconds since 1970.
    At(u64),
    /// The request of this number is refused.
    Refused(u64),
    Accepted,
    /// A session was handed to another node.
    Moved,
    /// A session is to be handed to each of so many nodes, from node 0 on.
    Ordered(u8),
    /// A packet was sent to node 1.
    Sent,
    /// A packet to node 1 was lost.
    Lost(Loss),
    /// A packet to node 1 was lost, and it isn't asked whether the node is silent.
    LostAlone,
    /// A text of somebody else is put down.
    Said(&'static str),
    /// Its keys are counted if the figures want them: so many sessions are active.
    Counted(u64),
    /// The end of a turn.
    Turn,
    End,
}

/// What is written.
#[derive(Clone, Copy)]
enum Written {
    /// A log, which is opened anew for each part.
    Log,
    /// Figures, of which the number after these words is read after each part.
    Figures(&'static str),
}

/// What the row shows, what is written, what happens in each part, and all that is read.
struct Row(
    &'static str,
    Written,
    &'static [&'static [Step]],
    &'static str,
);

static ROWS: [Row; 7] = [
    Row(
        "equal lines of a second are said once, and how many more there were in the next second, with the numbers of the last; what \
         goes on has a line a second; what happens all the time has none",
        Written::Log,
        &[&[
            Step::At(784_111_777),
            Step::Refused(1),
            Step::Refused(2),
            Step::LostAlone,
            Step::Accepted,
            Step::Refused(3),
            Step::At(784_111_778),
            Step::Refused(4),
            Step::At(784_111_779),
            Step::LostAlone,
            Step::At(784_111_780),
            Step::At(784_111_781),
            Step::Refused(5),
            Step::Turn,
        ]],
        "\
1994-11-06T08:49:37Z warn request_refused cause=Deadline number=1
1994-11-06T08:49:37Z warn packet_lost to=1 why=Broken
1994-11-06T08:49:38Z warn request_refused cause=Deadline number=3 times=2
1994-11-06T08:49:39Z warn request_refused cause=Deadline number=4 times=1
1994-11-06T08:49:41Z warn request_refused cause=Deadline number=5
",
    ),
    Row(
        "of more than 32 kinds in a second the rest are counted",
        Written::Log,
        &[&[
            Step::At(784_111_777),
            Step::Ordered(40),
            Step::At(784_111_778),
            Step::Turn,
        ]],
        "\
1994-11-06T08:49:37Z info move_ordered key=0.1 to=0
1994-11-06T08:49:37Z info move_ordered key=0.1 to=1
1994-11-06T08:49:37Z info move_ordered key=0.1 to=2
1994-11-06T08:49:37Z info move_ordered key=0.1 to=3
1994-11-06T08:49:37Z info move_ordered key=0.1 to=4
1994-11-06T08:49:37Z info move_ordered key=0.1 to=5
1994-11-06T08:49:37Z info move_ordered key=0.1 to=6
1994-11-06T08:49:37Z info move_ordered key=0.1 to=7
1994-11-06T08:49:37Z info move_ordered key=0.1 to=8
1994-11-06T08:49:37Z info move_ordered key=0.1 to=9
1994-11-06T08:49:37Z info move_ordered key=0.1 to=10
1994-11-06T08:49:37Z info move_ordered key=0.1 to=11
1994-11-06T08:49:37Z info move_ordered key=0.1 to=12
1994-11-06T08:49:37Z info move_ordered key=0.1 to=13
1994-11-06T08:49:37Z info move_ordered key=0.1 to=14
1994-11-06T08:49:37Z info move_ordered key=0.1 to=15
1994-11-06T08:49:37Z info move_ordered key=0.1 to=16
1994-11-06T08:49:37Z info move_ordered key=0.1 to=17
1994-11-06T08:49:37Z info move_ordered key=0.1 to=18
1994-11-06T08:49:37Z info move_ordered key=0.1 to=19
1994-11-06T08:49:37Z info move_ordered key=0.1 to=20
1994-11-06T08:49:37Z info move_ordered key=0.1 to=21
1994-11-06T08:49:37Z info move_ordered key=0.1 to=22
1994-11-06T08:49:37Z info move_ordered key=0.1 to=23
1994-11-06T08:49:37Z info move_ordered key=0.1 to=24
1994-11-06T08:49:37Z info move_ordered key=0.1 to=25
1994-11-06T08:49:37Z info move_ordered key=0.1 to=26
1994-11-06T08:49:37Z info move_ordered key=0.1 to=27
1994-11-06T08:49:37Z info move_ordered key=0.1 to=28
1994-11-06T08:49:37Z info move_ordered key=0.1 to=29
1994-11-06T08:49:37Z info move_ordered key=0.1 to=30
1994-11-06T08:49:37Z info move_ordered key=0.1 to=31
1994-11-06T08:49:38Z warn events_skipped events=8
",
    ),
    Row(
        "a log goes on behind what its file has",
        Written::Log,
        &[
            &[Step::At(784_111_777), Step::Said("x\ny"), Step::Turn],
            &[Step::At(784_111_778), Step::Said("x\ny"), Step::Turn],
        ],
        "1994-11-06T08:49:37Z info \"x?y\"\n1994-11-06T08:49:38Z info \"x?y\"\n",
    ),
    Row(
        "of a node that can't be reached a line says so once, and once that it is reached again",
        Written::Log,
        &[&[
            Step::At(784_111_777),
            Step::Sent,
            Step::Lost(Loss::Broken),
            Step::Lost(Loss::Late),
            Step::Sent,
            Step::Sent,
            Step::End,
        ]],
        "\
1994-11-06T08:49:37Z warn packet_lost to=1 why=Broken
1994-11-06T08:49:37Z warn peer_silent node=1
1994-11-06T08:49:37Z warn packet_lost to=1 why=Late
1994-11-06T08:49:37Z info peer_answers node=1
",
    ),
    Row(
        "of a node that stays out of reach a line a minute says how many packets were lost, and one once it is reached again",
        Written::Log,
        &[&[
            Step::At(784_111_777),
            Step::Lost(Loss::Broken),
            Step::At(784_111_778),
            Step::Lost(Loss::Broken),
            Step::At(784_111_779),
            Step::Lost(Loss::Broken),
            Step::At(784_111_836),
            Step::Lost(Loss::Broken),
            Step::At(784_111_837),
            Step::Lost(Loss::Broken),
            Step::At(784_111_840),
            Step::Sent,
            Step::At(784_111_841),
            Step::Lost(Loss::Broken),
            Step::Lost(Loss::Broken),
            Step::Lost(Loss::Broken),
            Step::End,
        ]],
        "\
1994-11-06T08:49:37Z warn packet_lost to=1 why=Broken
1994-11-06T08:49:37Z warn peer_silent node=1
1994-11-06T08:50:37Z warn packet_lost to=1 why=Broken times=3
1994-11-06T08:50:40Z warn packet_lost to=1 why=Broken times=1
1994-11-06T08:50:40Z info peer_answers node=1
1994-11-06T08:50:41Z warn packet_lost to=1 why=Broken
1994-11-06T08:50:41Z warn peer_silent node=1
1994-11-06T08:50:41Z warn packet_lost to=1 why=Broken times=2
",
    ),
    Row(
        "figures are written at the start, where 5 seconds have passed, and at the end",
        Written::Figures("kegbramble_moves_total{node=\"0\"} "),
        &[
            &[Step::At(100), Step::Moved, Step::Turn],
            &[Step::At(104), Step::Moved, Step::Turn],
            &[Step::At(105), Step::Moved, Step::Turn],
            &[Step::Moved, Step::End],
        ],
        "1 1 3 4 ",
    ),
    Row(
        "keys are counted where the figures are due, 5 seconds after they were written",
        Written::Figures("kegbramble_sessions{node=\"0\",state=\"active\"} "),
        &[
            &[Step::At(100), Step::Counted(100), Step::Turn],
            &[Step::At(104), Step::Counted(104), Step::Turn],
            &[Step::At(105), Step::Counted(105), Step::Turn],
        ],
        "100 100 105 ",
    ),
];

fn refused(number: u64) -> Event {
    Event::Refused(Refusal {
        cause: Cause::Deadline,
        number,
        session: None,
    })
}

/// Sessions are to be handed to so many nodes.
fn order(report: &mut Report, nodes: u8) {
    for to in 0..nodes {
        let key = Key { home: 0, serial: 1 };
        report.note(Event::MoveOrdered { key, to });
    }
}

fn count_keys(report: &mut Report, active: u64) {
    if report.wants_census() {
        report.census(active, 0, 0, 0);
    }
}

const LOST: Event = Event::PacketLost {
    to: 1,
    why: Loss::Broken,
};

fn happen(rt: &HostRuntime, report: &mut Report, step: Step) {
    match step {
        Step::At(second) => report.at(second),
        Step::Refused(number) => report.note(refused(number)),
        Step::Accepted => report.note(Event::Accepted),
        Step::Moved => report.note(Event::Moved),
        Step::Ordered(nodes) => order(report, nodes),
        Step::Sent => report.sent(1),
        Step::Lost(why) => report.lost(1, why),
        Step::LostAlone => report.note(LOST),
        Step::Said(text) => report.say(Level::Info, Quoted(text)),
        Step::Counted(active) => count_keys(report, active),
        Step::Turn => report.turn(rt, 0, 0),
        Step::End => report.end(rt, 0, 0),
    }
}

fn happen_all(rt: &HostRuntime, report: &mut Report, steps: &[Step]) {
    for step in steps {
        happen(rt, report, *step);
    }
}

/// A log that is written at a path.
fn log_at(rt: &impl Abort, machine: &HostRuntime, path: &str) -> Report {
    let mut report = Report::none();
    let opened = report.log_to(machine.alloc(), machine, path);
    opened.expect(rt, "a log");
    report
}

/// That happens while a log is written.
fn log_all(rt: &impl Abort, machine: &HostRuntime, path: &str, steps: &[Step]) {
    let mut report = log_at(rt, machine, path);
    happen_all(machine, &mut report, steps);
}

/// A file's owner alone may read it.
fn expect_own(rt: &impl Abort, machine: &HostRuntime, path: &String) {
    let metadata = fs::metadata(machine, path).expect(rt, "a file");
    let mode = metadata.permissions().mode();
    assert!(rt; mode & 0o777 == 0o600, "others may read the log");
}

/// The log of all parts.
fn logged(rt: &impl Abort, machine: &HostRuntime, parts: &[&[Step]]) -> String {
    let path = new_path(rt, machine, "log");
    for steps in parts {
        log_all(rt, machine, path.as_str(), steps);
    }
    expect_own(rt, machine, &path);
    taken(rt, machine, &path)
}

/// The number after these words in a text of figures.
fn number_in<'a>(text: &'a str, words: &str) -> &'a str {
    let mut found = "";
    for line in text.lines() {
        if let Some(number) = line.strip_prefix(words) {
            found = number;
        }
    }
    found
}

fn push_number(rt: &impl Abort, seen: &mut String, text: &str, words: &str) {
    add(rt, seen, number_in(text, words));
    add(rt, seen, " ");
}

/// Adds the number that the figures have after each part.
fn push_numbers(
    rt: &impl Abort,
    machine: &HostRuntime,
    report: &mut Report,
    path: &String,
    words: &str,
    parts: &[&[Step]],
    seen: &mut String,
) {
    for steps in parts {
        happen_all(machine, report, steps);
        push_number(rt, seen, &text_in(rt, machine, path), words);
    }
}

/// The path of the figures while they are written.
fn path_beside(rt: &impl Abort, alloc: Global, path: &str) -> String {
    format!(in alloc; "{path}.new").expect(rt, "memory")
}

/// Takes the figures away, beside which nothing is left.
fn take_figures(rt: &impl Abort, machine: &HostRuntime, path: &String) {
    remove(rt, machine, path);
    let beside = path_beside(rt, machine.alloc(), path);
    let removed = fs::remove_file(machine, &beside);
    assert!(rt; removed.is_err(), "a file is left beside the figures");
}

/// Figures that are written to a file, for which keys are counted.
fn figures_at(rt: &impl Abort, machine: &HostRuntime, path: &str) -> Report {
    let mut report = Report::none();
    let wants_census = report.wants_census();
    assert!(rt; !wants_census, "keys are counted for no figures");
    let counted = report.count_to(machine.alloc(), machine, path, 0);
    counted.expect(rt, "figures");
    report
}

/// The numbers that the figures have after each part.
fn counted(rt: &impl Abort, machine: &HostRuntime, words: &str, parts: &[&[Step]]) -> String {
    let path = new_path(rt, machine, "counted");
    let mut seen = String::new(machine.alloc());
    let mut report = figures_at(rt, machine, path.as_str());
    push_numbers(rt, machine, &mut report, &path, words, parts, &mut seen);
    take_figures(rt, machine, &path);
    seen
}

fn read(rt: &impl Abort, machine: &HostRuntime, written: Written, parts: &[&[Step]]) -> String {
    match written {
        Written::Log => logged(rt, machine, parts),
        Written::Figures(words) => counted(rt, machine, words, parts),
    }
}

#[test]
fn each_is_written_when_it_should_be(rt: HostRuntime) {
    for Row(name, written, parts, wanted) in &ROWS {
        let text = read(&rt, &rt, *written, parts);
        expect(&rt, name, text.as_str(), wanted);
    }
}

/// Why a log at one path and figures at another aren't begun.
fn begun(rt: &impl Abort, machine: &HostRuntime, log: &str, figures: &str) -> String {
    let mut report = Report::none();
    let logged = report.log_to(machine.alloc(), machine, log);
    let counted = report.count_to(machine.alloc(), machine, figures, 0);
    format!(in machine.alloc(); "{logged:?} {counted:?}").expect(rt, "memory")
}

/// A folder is no log, a name is none, and no figures are in a folder that there is not.
#[test]
fn what_cannot_be_opened_is_a_fault(rt: HostRuntime) {
    for log in ["/", ""] {
        let text = begun(&rt, &rt, log, "/no/folder/x");
        expect(&rt, log, text.as_str(), "Err(Log) Err(Metrics)");
    }
}
