//! What isn't told by a table of its own: a case is a function that gives a text.

use crate::expect::expect;
use crate::launch::{descriptors, renewing};
use crate::{faults, figures, lives, rounds, times};
use std::alloc::Global;
use std::process::Abort;

/// What is tried.
#[derive(Clone, Copy)]
enum Case {
    Lives,
    Secrets,
    Deadline,
    Want,
    Figures,
    Rounds,
    Wants,
    Times,
    BuiltIn,
    Changes,
}

/// What each case shows, and the text that it gives.
static CASES: [(&str, Case, &str); 10] = [
    ("a session outlives its node", Case::Lives, "12"),
    ("secrets come to an end", Case::Secrets, "Secrets 1-"),
    (
        "who waits is refused though nobody calls",
        Case::Deadline,
        "Secrets D",
    ),
    // Both were served, by counts of 6 and 7, and then the session was handed on.
    (
        "a want that comes with its session is given to the node later",
        Case::Want,
        "Secrets67****",
    ),
    ("figures are of the end", Case::Figures, ""),
    ("the packets of a tick are sent in turn", Case::Rounds, ""),
    ("most of them are wants where many are due", Case::Wants, ""),
    (
        "the time never goes back and never stands still",
        Case::Times,
        "",
    ),
    ("a descriptor is built in", Case::BuiltIn, "true"),
    (
        "a change of an id is told once",
        Case::Changes,
        renewing::EVENTS,
    ),
];

/// Whether descriptors are built in.
fn built_in(rt: &impl Abort, alloc: Global) -> String {
    format!(in alloc; "{}", descriptors::are_built_in(alloc)).expect(rt, "memory")
}

fn told(rt: &impl Abort, machine: &HostRuntime, case: Case) -> String {
    match case {
        Case::Lives => lives::told(rt, machine),
        Case::Secrets => faults::secrets_told(rt, machine),
        Case::Deadline => faults::deadline_told(rt, machine),
        Case::Want => faults::want_told(rt, machine),
        Case::Figures => figures::missing(rt, machine),
        Case::Rounds => rounds::told(rt, machine.alloc()),
        Case::Wants => rounds::both_told(rt, machine.alloc()),
        Case::Times => times::told(rt, machine.alloc()),
        Case::BuiltIn => built_in(rt, machine.alloc()),
        Case::Changes => renewing::told(rt, machine.alloc()),
    }
}

#[test]
fn each_case_gives_its_text(rt: HostRuntime) {
    for (name, case, wanted) in &CASES {
        let text = told(&rt, &rt, *case);
        expect(&rt, name, text.as_str(), wanted);
    }
}
