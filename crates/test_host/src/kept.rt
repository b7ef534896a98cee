//! Clients whose connections are kept.

use crate::scene::{GRANT, LONG, Said, Scene};
use crate::town::HALT;
use sv_net::Persistence;

/// What node 1 answers to the third want, since each request that waits has its own: it has no second session.
const NO: &[u8] = b"\xE1\0\0\0\x1D\x02\x04\x01\0\x01\0\0\0\0\0\0\0\x02\
    \0\0\0\0\0\0\0\x01\0\0\0\0\0\0\0\x03";

pub static SCENES: [Scene; 2] = [
    // A node reads 16,384 bytes at once, so each large request comes in two pieces or three, the first of them with a part of the
    // next. The first session has the first secret, as the piece after which its request wasn't whole has used none. Each
    // connection has one request a turn, so the node is told to stop eight turns later.
    Scene {
        name: "requests in pieces are answered once and in order",
        persistence: Persistence::Kept,
        all: &[Said::Pieces, Said::Turns(8), Said::Frame(HALT)],
        connections: 0,
        most: LONG,
        told: "121314||\0|",
    },
    // Only a Poke serves those whose session a Grant has brought. The first of them has gone away, and is counted all the same; the
    // second has sent one more request along, which waits after it; and nobody else is held up.
    Scene {
        name: "each who waits is told their own answer",
        persistence: Persistence::Kept,
        all: &[
            Said::Gone([1, 1]),
            Said::Counts(&[[1, 1], [0, 9]]),
            Said::Counts(&[[1, 2]]),
            Said::Counts(&[[0, 9]]),
            Said::Frame(NO),
            Said::Frame(GRANT),
            Said::Turns(2),
            Said::Frame(HALT),
        ],
        connections: 0,
        most: LONG,
        told: "|71|1|1||||\0|",
    },
];
