//! What a node takes for the time.

use std::alloc::Global;
use std::process::Abort;
use sv_host::{ClockSet, Time};

/// What is read next of the machine's clock and of the one that nobody sets, in milliseconds; the seconds that are taken for the time
/// by each; and by how much the machine's clock was set in between.
type Row = (u64, u64, u64, u64, ClockSet);

/// The first reading is the clock at 10,000 seconds, and 5 of the other.
const ROWS: &[Row] = &[
    (10_001_000, 6_000, 10_001, 6, ClockSet::No),
    // The clock is set back by an hour, and the time follows at once.
    (6_401_000, 6_000, 6_401, 6, ClockSet::Back(3_600)),
    (6_402_999, 7_999, 6_402, 7, ClockSet::No),
    // It is set right again: an hour ahead, while two seconds have gone.
    (10_004_999, 9_999, 10_004, 9, ClockSet::Ahead(3_600)),
    // Within two seconds either way nobody has set it: clocks are slewed (adjtime(3)), and a reading takes its time.
    (10_006_999, 9_999, 10_006, 9, ClockSet::No),
    (10_004_999, 9_999, 10_004, 9, ClockSet::No),
    (10_007_000, 9_999, 10_007, 9, ClockSet::Ahead(2)),
    (10_004_999, 9_999, 10_004, 9, ClockSet::Back(2)),
    // The one that nobody sets goes back all the same, and isn't followed.
    (10_004_999, 9_000, 10_004, 9, ClockSet::No),
    (10_006_999, 11_999, 10_006, 11, ClockSet::No),
    // The clock can't be read.
    (0, 11_999, 0, 11, ClockSet::Back(10_006)),
    (10_006_999, 11_999, 10_006, 11, ClockSet::Ahead(10_006)),
    // As far as can be counted.
    (
        u64::MAX,
        12_000,
        18_446_744_073_709_551,
        12,
        ClockSet::Ahead(18_446_744_073_699_544),
    ),
    (
        u64::MAX,
        u64::MAX,
        18_446_744_073_709_551,
        18_446_744_073_709_551,
        ClockSet::No,
    ),
];

/// What is taken for the time, reading by reading, where it isn't what it should be.
pub fn told(rt: &impl Abort, alloc: Global) -> String {
    let mut text = String::new(alloc);
    let mut time = Time {
        clock: 10_000_000,
        steady: 5_000,
    };
    for &(clock, steady, seconds, steady_seconds, set) in ROWS {
        let next = time.next(Time { clock, steady });
        if (next.seconds(), next.steady_seconds()) != (seconds, steady_seconds) {
            let (told, steadily) = (next.seconds(), next.steady_seconds());
            write!(
                text,
                "{told} and {steadily} in the place of {seconds} and {steady_seconds}, "
            )
            .expect(rt, "memory");
        }
        if time.was_set(next) != set {
            write!(text, "at {clock} the clock was set otherwise, ").expect(rt, "memory");
        }
        time = next;
    }
    text
}
