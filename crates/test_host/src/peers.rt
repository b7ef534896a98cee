//! Connections on which nodes send packets.

use crate::scene::{LONG, Said, Scene};
use crate::town::HALT;
use sv_net::Persistence;

/// Node 1 has no second session; its first one comes at epoch 2, with secret 1, a count of 5, and kept for ever.
const NO_AND_GRANT: &[u8] = b"\xE1\0\0\0\x1D\x02\x04\x01\0\x01\0\0\0\0\0\0\0\x02\
    \0\0\0\0\0\0\0\x01\0\0\0\0\0\0\0\x02\
    \xE1\0\0\0\x3D\x02\x02\x01\0\x01\0\0\0\0\0\0\0\x01\0\0\0\0\0\0\0\x02\
    \0\0\0\0\0\0\0\0\0\0\0\0\0\0\0\x01\0\0\0\0\0\0\0\0\x05\0\0\0\0\0\0\0\0\xFF\xFF\xFF\xFF\0\0\0";

/// The same, but that the first is of node 0.
const OF_TWO_NODES: &[u8] = b"\xE1\0\0\0\x1D\x02\x04\0\0\x01\0\0\0\0\0\0\0\x02\
    \0\0\0\0\0\0\0\x01\0\0\0\0\0\0\0\x02\
    \xE1\0\0\0\x3D\x02\x02\x01\0\x01\0\0\0\0\0\0\0\x01\0\0\0\0\0\0\0\x02\
    \0\0\0\0\0\0\0\0\0\0\0\0\0\0\0\x01\0\0\0\0\0\0\0\0\x05\0\0\0\0\0\0\0\0\xFF\xFF\xFF\xFF\0\0\0";

/// Node 1 hands its first session over, and wants it at once.
pub const GRANT_AND_WANT: &[u8] =
    b"\xE1\0\0\0\x3D\x02\x02\x01\0\x01\0\0\0\0\0\0\0\x01\0\0\0\0\0\0\0\x02\
    \0\0\0\0\0\0\0\0\0\0\0\0\0\0\0\x01\0\0\0\0\0\0\0\0\x05\0\0\0\0\0\0\0\0\xFF\xFF\xFF\xFF\0\0\0\
    \xE1\0\0\0\x1D\x02\x01\x01\0\x01\0\0\0\0\0\0\0\x01\0\0\0\0\0\0\0\x01\0\0\0\0\0\0\0\x01";

/// A packet, and a command to stop.
const NO_AND_HALT: &[u8] = b"\xE1\0\0\0\x1D\x02\x04\x01\0\x01\0\0\0\0\0\0\0\x02\
    \0\0\0\0\0\0\0\x01\0\0\0\0\0\0\0\x02\xE2\0\0\0\x01\x03";

pub static SCENES: [Scene; 8] = [
    // What node 0 sends for clients that name the first and the second session of node 1: its first two wants since its first start.
    Scene {
        name: "each packet goes on a connection of its own",
        persistence: Persistence::Single,
        all: &[
            Said::Counts(&[[1, 1]]),
            Said::Counts(&[[1, 2]]),
            Said::Frame(HALT),
        ],
        connections: 2,
        most: LONG,
        told: "||\0|\
            \u{E1}\0\0\0\x1D\x02\x01\0\x01\x01\0\0\0\0\0\0\0\x01\0\0\0\0\0\0\0\x01\0\0\0\0\0\0\0\x01|\
            \u{E1}\0\0\0\x1D\x02\x01\0\x01\x01\0\0\0\0\0\0\0\x02\0\0\0\0\0\0\0\x01\0\0\0\0\0\0\0\x02|",
    },
    Scene {
        name: "packets to a node go on one connection where connections are kept",
        persistence: Persistence::Kept,
        all: &[
            Said::Counts(&[[1, 1]]),
            Said::Counts(&[[1, 2]]),
            Said::Frame(HALT),
        ],
        connections: 1,
        most: LONG,
        told: "||\0|\
            \u{E1}\0\0\0\x1D\x02\x01\0\x01\x01\0\0\0\0\0\0\0\x01\0\0\0\0\0\0\0\x01\0\0\0\0\0\0\0\x01\
            \u{E1}\0\0\0\x1D\x02\x01\0\x01\x01\0\0\0\0\0\0\0\x02\0\0\0\0\0\0\0\x01\0\0\0\0\0\0\0\x02|",
    },
    // Two clients wait for sessions of node 1, which says of the second that there is none, and sends the first.
    Scene {
        name: "packet after packet comes on one connection",
        persistence: Persistence::Single,
        all: &[
            Said::Counts(&[[1, 1]]),
            Said::Counts(&[[1, 2]]),
            Said::Frame(NO_AND_GRANT),
            Said::Turns(1),
            Said::Frame(HALT),
        ],
        connections: 0,
        most: LONG,
        told: "6|1|||\0|",
    },
    // The session has been counted five times.
    Scene {
        name: "who waits is served before the session is given on that the same packets bring and want",
        persistence: Persistence::Single,
        all: &[
            Said::Counts(&[[1, 1]]),
            Said::Turns(1),
            Said::Frame(GRANT_AND_WANT),
            Said::Turns(1),
            Said::Frame(HALT),
        ],
        connections: 0,
        most: LONG,
        told: "6||||\0|",
    },
    Scene {
        name: "so is who has come in the same turn as these packets",
        persistence: Persistence::Single,
        all: &[
            Said::Counts(&[[1, 1]]),
            Said::Frame(GRANT_AND_WANT),
            Said::Turns(1),
            Said::Frame(HALT),
        ],
        connections: 0,
        most: LONG,
        told: "6|||\0|",
    },
    // Who is let in as one node sends no packet of another: the session doesn't come, and its client waits still.
    Scene {
        name: "a connection brings packets of one node",
        persistence: Persistence::Single,
        all: &[
            Said::Counts(&[[1, 1]]),
            Said::Frame(OF_TWO_NODES),
            Said::Turns(1),
            Said::Frame(HALT),
        ],
        connections: 0,
        most: LONG,
        told: "|||\0|",
    },
    // The node goes on, and stops when it is told to by somebody else.
    Scene {
        name: "a connection of packets brings no command",
        persistence: Persistence::Single,
        all: &[
            Said::Frame(NO_AND_HALT),
            Said::Counts(&[[0, 9]]),
            Said::Frame(HALT),
        ],
        connections: 0,
        most: LONG,
        told: "|1|\0|",
    },
    // A turn takes 17 packets of a connection at most; the rest is taken in the two turns after it.
    Scene {
        name: "more packets than a turn takes are all taken",
        persistence: Persistence::Single,
        all: &[
            Said::Counts(&[[1, 1]]),
            Said::Packets(40),
            Said::Turns(4),
            Said::Frame(HALT),
        ],
        connections: 0,
        most: LONG,
        told: "6|||\0|",
    },
];
