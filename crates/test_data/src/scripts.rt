//! Scripts as they are written, line by line.

use std::alloc::Global;
use std::process::Abort;
use sv_client::NodeNumber;
use sv_cluster::{Act, Line, ScriptFault, read_script};

const ZERO: NodeNumber = NodeNumber { value: 0 };

const ONE: NodeNumber = NodeNumber { value: 1 };

const TWO: NodeNumber = NodeNumber { value: 2 };

/// One line of each kind, with an empty one between.
const SCRIPT: &str = "start 0\nask 0 /shop/count\n\nmove 0 2\ntick 1\nhalt 2\nkill 1\n";

const LINES: [Line<'static>; 6] = [
    Line {
        text: "start 0",
        act: Act::Start(ZERO),
    },
    Line {
        text: "ask 0 /shop/count",
        act: Act::Ask {
            node: ZERO,
            path: "/shop/count",
        },
    },
    Line {
        text: "move 0 2",
        act: Act::Move {
            node: ZERO,
            to: TWO,
        },
    },
    Line {
        text: "tick 1",
        act: Act::Tick(ONE),
    },
    Line {
        text: "halt 2",
        act: Act::Halt(TWO),
    },
    Line {
        text: "kill 1",
        act: Act::Kill(ONE),
    },
];

/// Scripts with a line that asks for nothing: an unknown word, words too few or too many, two spaces for one, a space
/// before or after, a number that no node can have, a sign, a line end of two characters.
static FAULTY: [&str; 14] = [
    "stop 0",
    "start",
    "start 0 1",
    "start  0",
    " start 0",
    "start 0 ",
    "start 8",
    "start 00",
    "start +1",
    "start 0\r\n",
    "ask 0",
    "ask 0 ",
    "ask 0 /a b",
    "move 0",
];

fn is_read(alloc: Global) -> bool {
    let lines = read_script(alloc, SCRIPT);
    lines.is_ok_and(|lines| lines.as_slice() == LINES.as_slice())
}

fn is_refused(alloc: Global, text: &str) -> bool {
    read_script(alloc, text) == Err(ScriptFault::BadLine)
}

/// The first script that is read otherwise.
fn other_script(alloc: Global) -> Option<&'static str> {
    if !is_read(alloc) {
        return Some(SCRIPT);
    }
    for text in &FAULTY {
        if !is_refused(alloc, text) {
            return Some(text);
        }
    }
    None
}

/// Lines are read in order, and other lines are refused.
#[test]
fn scripts(rt: HostRuntime) {
    assert_eq!(rt; other_script(rt.alloc()), None);
}
