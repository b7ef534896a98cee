//! When a session expires: once as many seconds as its interval have passed since it was last named.

use std::alloc::Global;
use sv_model::{Attributes, Secret, Session};

fn session(alloc: Global, last: u64, interval: i32) -> Session {
    Session {
        context: 0,
        secret: Secret([0; 16]),
        created: 0,
        last,
        interval,
        fresh: false,
        attributes: Attributes::new(alloc),
    }
}

fn is_expired(alloc: Global, last: u64, interval: i32, now: u64) -> bool {
    session(alloc, last, interval).is_expired(now)
}

/// When a session was last named, its interval, a moment, and whether it has expired by then.
type Moment = (&'static str, u64, i32, u64, bool);

/// An interval of 0 and less never passes, and no interval reaches past the last second that there is.
static MOMENTS: [Moment; 14] = [
    ("before it was named", 1_000, 5, 999, false),
    ("a second before 5", 1_000, 5, 1_004, false),
    ("5 seconds", 1_000, 5, 1_005, true),
    ("a second behind 5", 1_000, 5, 1_006, true),
    ("at once", 1_000, 1, 1_000, false),
    ("1 second", 1_000, 1, 1_001, true),
    ("an interval of 0, at once", 1_000, 0, 1_000, false),
    ("an interval of 0, at last", 1_000, 0, u64::MAX, false),
    ("an interval of -1", 1_000, -1, u64::MAX, false),
    ("the least interval", 0, i32::MIN, u64::MAX, false),
    (
        "a second before the longest",
        0,
        i32::MAX,
        2_147_483_646,
        false,
    ),
    ("the longest interval", 0, i32::MAX, 2_147_483_647, true),
    ("up to the last second", u64::MAX - 5, 5, u64::MAX, true),
    ("past the last second", u64::MAX - 4, 5, u64::MAX, false),
];

pub(super) fn other_moment(alloc: Global) -> Option<&'static str> {
    for (name, last, interval, now, want) in &MOMENTS {
        if is_expired(alloc, *last, *interval, *now) != *want {
            return Some(name);
        }
    }
    None
}
