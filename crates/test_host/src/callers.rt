//! What each caller of a node is told.

use crate::scene::{LONG, Said, Scene};
use crate::town::HALT;
use sv_net::Persistence;

/// What node 1 answers to the first want: it has no such session.
const NO: &[u8] = b"\xE1\0\0\0\x1D\x02\x04\x01\0\x01\0\0\0\0\0\0\0\x01\
    \0\0\0\0\0\0\0\x01\0\0\0\0\0\0\0\x01";

pub static SCENES: [Scene; 5] = [
    // No session has the key of the two bytes of the first and the third.
    Scene {
        name: "one request a connection, answered before it is left: a session's first two, and another client's",
        persistence: Persistence::Single,
        all: &[
            Said::Counts(&[[0, 9]]),
            Said::Counts(&[[0, 1]]),
            Said::Counts(&[[0, 7]]),
            Said::Frame(HALT),
        ],
        connections: 0,
        most: LONG,
        told: "1|2|1|\0|",
    },
    // Node 0 sends for a client that names the first session of node 1 its first want since its first start.
    Scene {
        name: "the other node is asked for the session, and the client waits until it has answered",
        persistence: Persistence::Single,
        all: &[
            Said::Counts(&[[1, 1]]),
            Said::Frame(NO),
            Said::Turns(1),
            Said::Frame(HALT),
        ],
        connections: 1,
        most: LONG,
        told: "1|||\0|\
            \u{E1}\0\0\0\x1D\x02\x01\0\x01\x01\0\0\0\0\0\0\0\x01\0\0\0\0\0\0\0\x01\0\0\0\0\0\0\0\x01|",
    },
    Scene {
        name: "a client that waits when the node stops is not answered",
        persistence: Persistence::Single,
        all: &[Said::Counts(&[[1, 1]]), Said::Frame(HALT)],
        connections: 0,
        most: LONG,
        told: "|\0|",
    },
    // A command is answered by a byte: 0 where it is done, 1 where there is no such session.
    Scene {
        name: "whatever a caller says, or though it says nothing and doesn't go away, those behind it are served",
        persistence: Persistence::Single,
        all: &[
            Said::Nothing,
            // Command 2: whatever is due is to be done.
            Said::Frame(b"\xE2\0\0\0\x01\x02"),
            // Command 1: session 77 of node 0 is to go to node 1.
            Said::Frame(b"\xE2\0\0\0\x0B\x01\0\0\0\0\0\0\0\0\x4D\x01"),
            // A command that there is not, and one that is cut off.
            Said::Frame(b"\xE2\0\0\0\x01\x09"),
            Said::Frame(b"\xE2\0\0\0\x0B\x01"),
            // A packet of no kind, and one that is cut off.
            Said::Frame(b"\xE1\0\0\0\x02\x02\x09"),
            Said::Frame(b"\xE1\0\0\0\x1D\x02"),
            Said::Counts(&[[0, 9]]),
            Said::Frame(HALT),
        ],
        connections: 0,
        most: LONG,
        told: "|\0|\x01|||||1|\0|",
    },
    // A connection that brings nothing is closed after two seconds, so a node that waited for that would answer the next caller
    // after them.
    Scene {
        name: "of somebody who says nothing where nobody else is, what comes first is waited for a moment",
        persistence: Persistence::Single,
        all: &[Said::Nothing, Said::Counts(&[[0, 9]]), Said::Frame(HALT)],
        connections: 0,
        most: 500,
        told: "|1|\0|",
    },
];
