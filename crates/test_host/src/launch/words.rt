//! The words of the command line.

use super::NOW;
use crate::fixtures::{push, text};
use std::alloc::Global;
use std::process::Abort;
use sv_connection::Naming;
use sv_host::IfLocked;
use sv_journal::IfMissing;
use sv_launch::{Arguments, Greetings, NodeWords, Options, Words, read_words};
use sv_net::Persistence;

/// What words ask for.
#[derive(Clone, Copy)]
enum Meant {
    Nothing,
    Program(Words<'static>),
    /// Node 7 with the config `c` and the journal `j`.
    Node(Options<'static>),
}

/// Words, and what they ask for.
struct Line(&'static [&'static str], Meant);

/// What is asked of the program itself: with a word more it is nothing.
static SINGLE: [Line; 12] = [
    Line(&["--help"], Meant::Program(Words::Help)),
    Line(&["--help", "-"], Meant::Nothing),
    Line(&["-h"], Meant::Program(Words::Help)),
    Line(&["-h", "-"], Meant::Nothing),
    Line(&["--version"], Meant::Program(Words::Version)),
    Line(&["--version", "-"], Meant::Nothing),
    Line(&["-V"], Meant::Program(Words::Version)),
    Line(&["-V", "-"], Meant::Nothing),
    Line(&["-v"], Meant::Nothing),
    Line(&["-v", "-"], Meant::Nothing),
    Line(&["--once"], Meant::Nothing),
    Line(&["--once", "-"], Meant::Nothing),
];

/// Three words, of which two are too few and five too many.
static LINES: [Line; 14] = [
    Line(
        &["--once", "-", "784111777"],
        Meant::Program(Words::Once {
            config: "-",
            now: NOW,
        }),
    ),
    Line(
        &["--once", "a.toml", "18446744073709551615"],
        Meant::Program(Words::Once {
            config: "a.toml",
            now: u64::MAX,
        }),
    ),
    Line(&["--once", "a.toml"], Meant::Nothing),
    Line(&["--once", "-", "18446744073709551616"], Meant::Nothing),
    Line(&["--once", "-", "+1"], Meant::Nothing),
    Line(&["--once", "-", ""], Meant::Nothing),
    Line(&["--once", "-", "1 "], Meant::Nothing),
    Line(&["c", "j"], Meant::Nothing),
    Line(&["c", "j", "7"], Meant::Node(Options::NONE)),
    Line(&["c", "j", "256"], Meant::Nothing),
    Line(&["--keep-alive", "c", "j", "7"], Meant::Node(KEPT)),
    Line(&["--keep-alive", "c", "j", "7", "8"], Meant::Nothing),
    Line(&["--once", "c", "j", "7"], Meant::Nothing),
    Line(&["--once", "c", "j", "7", "8"], Meant::Nothing),
];

const KEPT: Options<'static> = Options {
    persistence: Persistence::Kept,
    ..Options::NONE
};

const EXISTING: Options<'static> = Options {
    if_missing: IfMissing::Refuse,
    ..Options::NONE
};

const WAITING: Options<'static> = Options {
    if_locked: IfLocked::Wait,
    ..Options::NONE
};

const GREETING: Options<'static> = Options {
    greetings: Greetings::On,
    ..Options::NONE
};

const NAMING: Options<'static> = Options {
    naming: Naming::InField,
    ..Options::NONE
};

const LOGGED: Options<'static> = Options {
    log: Some("l"),
    ..Options::NONE
};

const COUNTED: Options<'static> = Options {
    metrics: Some("m"),
    ..Options::NONE
};

const ALL: Options<'static> = Options {
    persistence: Persistence::Kept,
    if_missing: IfMissing::Refuse,
    if_locked: IfLocked::Wait,
    greetings: Greetings::On,
    naming: Naming::InField,
    log: Some("l"),
    metrics: Some("m"),
};

/// Options in any order, seven at most, and of two equal ones the last one counts. What comes after `--log` and `--metrics` is a
/// path, whatever it is.
static OPTIONS: [Line; 13] = [
    Line(&["--existing", "c", "j", "7"], Meant::Node(EXISTING)),
    Line(&["--wait", "c", "j", "7"], Meant::Node(WAITING)),
    Line(&["--wait", "--wait", "c", "j", "7"], Meant::Node(WAITING)),
    Line(&["--greet", "c", "j", "7"], Meant::Node(GREETING)),
    Line(&["--name-causes", "c", "j", "7"], Meant::Node(NAMING)),
    Line(&["--log", "l", "c", "j", "7"], Meant::Node(LOGGED)),
    Line(&["--metrics", "m", "c", "j", "7"], Meant::Node(COUNTED)),
    Line(
        &[
            "--log",
            "l",
            "--metrics",
            "m",
            "--existing",
            "--wait",
            "--greet",
            "--name-causes",
            "--keep-alive",
            "c",
            "j",
            "7",
        ],
        Meant::Node(ALL),
    ),
    Line(
        &[
            "--name-causes",
            "--greet",
            "--keep-alive",
            "--existing",
            "--wait",
            "--metrics",
            "m",
            "--log",
            "l",
            "c",
            "j",
            "7",
        ],
        Meant::Node(ALL),
    ),
    Line(
        &["--log", "--log", "--log", "l", "c", "j", "7"],
        Meant::Node(LOGGED),
    ),
    Line(&["--log", "c", "j", "7"], Meant::Nothing),
    Line(&["l", "--log", "c", "j", "7"], Meant::Nothing),
    Line(
        &[
            "--log", "x", "--log", "x", "--log", "x", "--log", "x", "--log", "x", "--log", "x",
            "--log", "x", "--log", "l", "c", "j", "7",
        ],
        Meant::Nothing,
    ),
];

/// What is read of words that mean this.
fn read_of(meant: Meant) -> Result<Words<'static>, Arguments> {
    match meant {
        Meant::Nothing => Err(Arguments),
        Meant::Program(words) => Ok(words),
        Meant::Node(options) => Ok(Words::Node(NodeWords {
            options,
            config: "c",
            journal: "j",
            number: 7,
        })),
    }
}

fn owned(rt: &impl Abort, alloc: Global, words: &[&str]) -> Vec<String> {
    let mut list = Vec::new(alloc);
    for word in words {
        push(rt, &mut list, text(rt, alloc, word));
    }
    list
}

/// Whether words ask for this.
fn ask_for(rt: &impl Abort, alloc: Global, words: &[&str], meant: Meant) -> bool {
    let list = owned(rt, alloc, words);
    read_words(list.as_slice()) == read_of(meant)
}

fn expect_lines(rt: &(impl Abort + AllocGlobal), lines: &[Line]) {
    for Line(words, meant) in lines {
        assert!(rt; ask_for(rt, rt.alloc(), words, *meant), "{words:?}");
    }
}

#[test]
fn words_ask_for_what_they_should(rt: HostRuntime) {
    expect_lines(&rt, &SINGLE);
    expect_lines(&rt, &LINES);
    expect_lines(&rt, &OPTIONS);
}
