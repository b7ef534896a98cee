//! Numbers at their ends: keys, serials and epochs; and records that don't fit.

use crate::alone::{Entry, Given, Left, Part, Refused, Row, Story};

/// Two keys of the node's own, and four of the nodes after it.
const MIXED: [Entry; 7] = [
    Entry::Counters(1, 3),
    Entry::Active((0, 1)),
    Entry::Ended((0, 2)),
    Entry::Gone((1, 1), 3),
    Entry::Sent((1, 2)),
    Entry::Gone((1, 7), 5),
    Entry::Ended((2, 1)),
];

const IS_FULL: [Row; 5] = [
    (Given::Hello, "answer 0;"),
    (Given::First, "refuse TableFull;"),
    (Given::Grant((1, 1), 2), ""),
    (Given::Known((0, 65_536)), "Ended 1"),
    (Given::Known((0, 65_537)), "Nothing"),
];

const NO_SERIAL: [Row; 2] = [
    (Given::Hello, "answer 0;"),
    (Given::First, "refuse SerialsSpent;"),
];

const NO_EPOCH: [Row; 3] = [
    (
        Given::Grant((1, 1), u64::MAX),
        "+Ack 0 to 1 epoch 18446744073709551615;",
    ),
    (Given::Move((1, 1)), "refused EpochsSpent;"),
    (Given::Want((1, 1)), ""),
];

pub static STORIES: [Story; 6] = [
    Story {
        name: "no key is known",
        keys: 65_536,
        forget: false,
        records: &[],
        parts: &[Part {
            times: 1,
            rows: &[(Given::Census, "0 0 0 0 below 0")],
            left: Left::Any,
        }],
    },
    Story {
        name: "what has gone stays gone behind a snapshot, and its Grant is acknowledged once more",
        keys: 65_536,
        forget: false,
        records: &[Entry::Counters(1, 2), Entry::Active((0, 1))],
        parts: &[
            Part {
                times: 1,
                rows: &[
                    (Given::Move((0, 1)), "+Grant 0 to 1 epoch 2;moved;"),
                    (Given::Ack((0, 1), 2), "+"),
                ],
                left: Left::Any,
            },
            Part {
                times: 1,
                rows: &[
                    (Given::Known((0, 1)), "Gone 2"),
                    (Given::Grant((0, 1), 2), "Ack 0 to 1 epoch 2;"),
                ],
                left: Left::Any,
            },
        ],
    },
    Story {
        name: "keys are counted by what is known of them",
        keys: 65_536,
        forget: false,
        records: &MIXED,
        parts: &[Part {
            times: 1,
            rows: &[(Given::Census, "1 1 2 2 below 2")],
            left: Left::Any,
        }],
    },
    // A snapshot of all keys, recovered from, is the same: as full as it was, and it takes nothing more.
    Story {
        name: "a full table",
        keys: 65_536,
        forget: false,
        records: &[Entry::Counters(1, 65_537), Entry::AllEnded(65_536)],
        parts: &[
            Part {
                times: 1,
                rows: &IS_FULL,
                left: Left::Headed(65_537, 1, 65_537),
            },
            Part {
                times: 1,
                rows: &IS_FULL,
                left: Left::Any,
            },
        ],
    },
    Story {
        name: "the last serial",
        keys: 65_536,
        forget: false,
        records: &[Entry::Counters(1, u64::MAX)],
        parts: &[Part {
            times: 1,
            rows: &NO_SERIAL,
            left: Left::Any,
        }],
    },
    Story {
        name: "the last epoch",
        keys: 65_536,
        forget: false,
        records: &[],
        parts: &[Part {
            times: 1,
            rows: &NO_EPOCH,
            left: Left::Any,
        }],
    },
];

/// Heads, boots and states out of place; and then keys.
pub static REFUSED: [Refused; 7] = [
    Refused {
        why: "a boot is skipped",
        keys: 65_536,
        forget: false,
        records: &[Entry::Boot(1), Entry::Boot(3)],
    },
    Refused {
        why: "a second head",
        keys: 65_536,
        forget: false,
        records: &[Entry::Counters(1, 2), Entry::Counters(1, 2)],
    },
    Refused {
        why: "a state behind a commit",
        keys: 65_536,
        forget: false,
        records: &[Entry::Born(1), Entry::Ended((1, 1))],
    },
    Refused {
        why: "a key that is not yet made",
        keys: 65_536,
        forget: false,
        records: &[Entry::Counters(1, 2), Entry::Ended((0, 2))],
    },
    Refused {
        why: "a key twice",
        keys: 65_536,
        forget: false,
        records: &[
            Entry::Counters(1, 2),
            Entry::Ended((0, 1)),
            Entry::Ended((0, 1)),
        ],
    },
    Refused {
        why: "a serial is skipped",
        keys: 65_536,
        forget: false,
        records: &[Entry::Born(1), Entry::Born(3)],
    },
    Refused {
        why: "an unknown key",
        keys: 65_536,
        forget: false,
        records: &[Entry::Born(1), Entry::Expired((0, 2))],
    },
];
