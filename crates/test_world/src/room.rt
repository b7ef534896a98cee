//! A node whose setting says how many keys it knows.

use crate::alone::{Entry, Given, KeyName, Left, Part, Refused, Row, Story};

const FULL: &str = "refuse TableFull;";

const NEW: Row = (Given::First, "+answer 1;");

/// None has become known, and the one that comes back is taken.
const FEWER: [Row; 5] = [
    (Given::First, FULL),
    (Given::Grant((1, 2), 2), ""),
    (Given::Grant((1, 1), 3), "+Ack 0 to 1 epoch 3;"),
    (Given::Known((1, 1)), "Active 3 count 1"),
    (Given::Again(0, 2), "+answer 2;"),
];

const LAST: KeyName = (1, 65_537);

/// A head, and 65,537 keys that have gone.
const MANY: [Entry; 2] = [Entry::Counters(1, 1), Entry::AllGone(65_537)];

pub static STORIES: [Story; 5] = [
    // Nothing is lost, no further one becomes known, and what comes back is taken.
    Story {
        name: "fewer keys than are known",
        keys: 2,
        forget: false,
        records: &[
            Entry::Counted(0, 3),
            Entry::Active((0, 1)),
            Entry::Active((0, 2)),
            Entry::Gone((1, 1), 2),
        ],
        parts: &[Part {
            times: 1,
            rows: &FEWER,
            left: Left::Records(4),
        }],
    },
    Story {
        name: "more keys than is usual: a node that knows all of them is full",
        keys: 65_537,
        forget: false,
        records: &MANY,
        parts: &[Part {
            times: 1,
            rows: &[(Given::Known(LAST), "Gone 2"), (Given::First, FULL)],
            left: Left::Any,
        }],
    },
    Story {
        name: "more keys than is usual: a node that knows one more isn't",
        keys: 65_538,
        forget: false,
        records: &MANY,
        parts: &[Part {
            times: 1,
            rows: &[(Given::Known(LAST), "Gone 2"), NEW],
            left: Left::Any,
        }],
    },
    // At a node that forgets nobody is asked for a session for which there is no room; at another one they are, as ever. Each
    // knows one key, which is its own.
    Story {
        name: "no want for want of room",
        keys: 1,
        forget: true,
        records: &[Entry::Counted(0, 2), Entry::Active((0, 1))],
        parts: &[Part {
            times: 1,
            rows: &[(Given::Again(1, 1), FULL)],
            left: Left::Any,
        }],
    },
    Story {
        name: "a want for want of room, at a node that doesn't forget",
        keys: 1,
        forget: false,
        records: &[Entry::Counters(1, 2), Entry::Active((0, 1))],
        parts: &[Part {
            times: 1,
            rows: &[(Given::Again(1, 1), "Want 0 to 1;Want 0 to 2;")],
            left: Left::Any,
        }],
    },
];

/// 65,537 keys are too many for a node that knows 65,536 or fewer, which has room for 65,536.
pub static REFUSED: [Refused; 2] = [
    Refused {
        why: "a key more than is usual, at a node that knows one",
        keys: 1,
        forget: false,
        records: &MANY,
    },
    Refused {
        why: "a key more than is usual, at a node that knows as many as is usual",
        keys: 65_536,
        forget: false,
        records: &MANY,
    },
];
