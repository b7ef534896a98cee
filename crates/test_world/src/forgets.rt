//! A node that forgets its own keys that have ended there.

use crate::alone::{Entry, Given, Left, Part, Refused, Row, Story};

/// What is known of a key that was forgotten.
const OVER: &str = "Ended 18446744073709551615";

const FULL: &str = "refuse TableFull;";

const MADE: Row = (Given::First, "+answer 1;");

const ENDED: Row = (Given::Later, "+");

const ALL_ARE_OVER: [Row; 13] = [
    (Given::Hello, "answer 0;"),
    (Given::Known((0, 1)), OVER),
    (Given::Known((0, 65_536)), OVER),
    (Given::Known((0, 65_537)), "Nothing"),
    (Given::Known((0, 0)), "Nothing"),
    (Given::Known((1, 1)), "Nothing"),
    (Given::Want((0, 1)), "No 0 to 1;"),
    (Given::Grant((0, 1), 7), "Ack 0 to 1 epoch 7;"),
    (Given::Move((0, 1)), "refused NotActive;"),
    MADE,
    (Given::Known((0, 65_537)), "Active 1 count 1"),
    // A request that names a key that is over is served without a session, and makes one.
    (Given::Again(0, 1), "+answer 1;"),
    (Given::Known((0, 65_538)), "Active 1 count 1"),
];

/// One of three keys ends, and another one is made.
const ROOM_AGAIN: [Row; 6] = [
    (Given::First, FULL),
    ENDED,
    (Given::Known((0, 1)), OVER),
    MADE,
    (Given::Known((0, 4)), "Active 1 count 1"),
    (Given::First, FULL),
];

/// The same after a snapshot.
const STILL_FULL: [Row; 3] = [
    (Given::First, FULL),
    (Given::Known((0, 1)), OVER),
    (Given::Known((0, 4)), "Active 1 count 1"),
];

/// Three thousand keys are over.
const WORN: [Row; 2] = [
    (Given::Known((0, 3_000)), OVER),
    (Given::Known((0, 3_001)), "Nothing"),
];

/// One of node 1 has ended here, and an own one has gone away.
const THREE_ARE_KEPT: [Row; 7] = [
    (Given::Grant((1, 1), 2), "+Ack 0 to 1 epoch 2;"),
    ENDED,
    (Given::Known((1, 1)), "Ended 2"),
    MADE,
    (Given::Move((0, 1)), "+Grant 0 to 1 epoch 2;moved;"),
    (Given::Ack((0, 1), 2), "+"),
    (Given::Known((0, 1)), "Gone 2"),
];

/// The own one comes back and ends at home; then it is over, and an old Grant of it is acknowledged and no more.
const BACK_AT_HOME: [Row; 4] = [
    (Given::Grant((0, 1), 3), "+Ack 0 to 1 epoch 3;"),
    ENDED,
    (Given::Known((0, 1)), OVER),
    (Given::Grant((0, 1), 3), "Ack 0 to 1 epoch 3;"),
];

/// A request waits at home for a session that is away; the session comes back and ends, and the request is served without it, in
/// a session of its own.
const SERVED_WITHOUT: [Row; 8] = [
    MADE,
    (Given::Move((0, 1)), "+Grant 0 to 1 epoch 2;moved;"),
    (Given::Ack((0, 1), 2), "+"),
    (Given::Again(0, 1), "Want 0 to 1;Want 0 to 2;"),
    (Given::StaleGrant((0, 1), 3), "+Ack 0 to 1 epoch 3;"),
    (Given::Tick, "+"),
    (Given::Known((0, 1)), OVER),
    (Given::Poke, "+answer 1;"),
];

/// Key 1 is over, and the next session has key 2.
const SERIAL_IS_SPENT: [Row; 3] = [
    (Given::Known((0, 1)), OVER),
    MADE,
    (Given::Known((0, 2)), "Active 1 count 1"),
];

/// The first of two keys ends, and two more are made.
const EACH_HAS_A_PLACE: [Row; 10] = [
    MADE,
    MADE,
    ENDED,
    MADE,
    MADE,
    (Given::Known((0, 1)), OVER),
    (Given::Again(0, 3), "+answer 2;"),
    (Given::Known((0, 2)), "Active 1 count 1"),
    (Given::Known((0, 3)), "Active 1 count 2"),
    (Given::Known((0, 4)), "Active 1 count 1"),
];

pub static STORIES: [Story; 7] = [
    Story {
        name: "all keys are over, and none is in the table",
        keys: 65_536,
        forget: true,
        records: &[Entry::Counted(0, 65_537)],
        parts: &[Part {
            times: 1,
            rows: &ALL_ARE_OVER,
            left: Left::Records(3),
        }],
    },
    Story {
        name: "a table that is full has room again when one of its keys has ended",
        keys: 3,
        forget: true,
        records: &[
            Entry::Counted(0, 4),
            Entry::Active((0, 1)),
            Entry::Active((0, 2)),
            Entry::Active((0, 3)),
        ],
        parts: &[
            Part {
                times: 1,
                rows: &ROOM_AGAIN,
                left: Left::Records(4),
            },
            Part {
                times: 1,
                rows: &STILL_FULL,
                left: Left::Any,
            },
        ],
    },
    Story {
        name: "a node of ten keys that makes and ends a session three thousand times is never full for ever",
        keys: 10,
        forget: true,
        records: &[Entry::Counted(0, 1)],
        parts: &[
            Part {
                times: 3_000,
                rows: &[MADE, ENDED],
                left: Left::Records(1),
            },
            Part {
                times: 1,
                rows: &WORN,
                left: Left::Any,
            },
        ],
    },
    Story {
        name: "who waits for a session that is over is served",
        keys: 10,
        forget: true,
        records: &[Entry::Counted(0, 1)],
        parts: &[Part {
            times: 1,
            rows: &SERVED_WITHOUT,
            left: Left::Records(2),
        }],
    },
    // The session of node 1 that has ended here stays in the table, and so does the own one that has gone away.
    Story {
        name: "only own keys that ended here are forgotten",
        keys: 10,
        forget: true,
        records: &[Entry::Counted(0, 1)],
        parts: &[
            Part {
                times: 1,
                rows: &THREE_ARE_KEPT,
                left: Left::Records(3),
            },
            Part {
                times: 1,
                rows: &BACK_AT_HOME,
                left: Left::Records(2),
            },
        ],
    },
    // Nothing is kept of it, and yet no other has its key.
    Story {
        name: "a session that ends at birth takes its serial",
        keys: 10,
        forget: true,
        records: &[Entry::Counted(0, 1), Entry::EndedAtBirth],
        parts: &[Part {
            times: 1,
            rows: &SERIAL_IS_SPENT,
            left: Left::Records(2),
        }],
    },
    // The place in the table that a forgotten key leaves is not given to the next one, too.
    Story {
        name: "a place is given to one key",
        keys: 10,
        forget: true,
        records: &[Entry::Counted(0, 1)],
        parts: &[Part {
            times: 1,
            rows: &EACH_HAS_A_PLACE,
            left: Left::Records(4),
        }],
    },
];

/// The last one shows that two starts fit.
pub static REFUSED: [Refused; 6] = [
    Refused {
        why: "a start of another node",
        keys: 10,
        forget: true,
        records: &[Entry::Forgets(1, 1)],
    },
    Refused {
        why: "a start that is skipped",
        keys: 10,
        forget: true,
        records: &[Entry::Forgets(0, 1), Entry::Forgets(0, 3)],
    },
    Refused {
        why: "the head of another node's snapshot",
        keys: 10,
        forget: true,
        records: &[Entry::Counted(1, 1)],
    },
    Refused {
        why: "a second head of one that forgets",
        keys: 10,
        forget: true,
        records: &[Entry::Counted(0, 1), Entry::Counted(0, 1)],
    },
    Refused {
        why: "a head behind a start",
        keys: 10,
        forget: true,
        records: &[Entry::Forgets(0, 1), Entry::Counted(0, 1)],
    },
    Refused {
        why: "a start that is skipped behind two",
        keys: 10,
        forget: true,
        records: &[
            Entry::Forgets(0, 1),
            Entry::Forgets(0, 2),
            Entry::Forgets(0, 4),
        ],
    },
];
