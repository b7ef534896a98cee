//! What a node takes for the time.

ghost use Rattle.std.specs.Prelude.{◌≡◌, ◌≤◌, max};
ghost use Rattle.sv_host.specs.Time.{seconds_of, steady_of};

use std::rt::Clock;
use std::time::Duration;

/// What both clocks of a machine show, in milliseconds.
///
/// Sessions are used, and expire, by the one that is set: it is the same at all nodes of a machine, and however long one of them has
/// run. Requests wait, and whatever else falls due after some time does, by the one that nobody sets.
#[derive(Clone, Copy, Debug, PartialEq, Eq)]
pub struct Time {
    /// The one that tells the time since 1970, as it is set.
    pub clock: u64,
    /// The one that nobody sets, and that never goes back (`CLOCK_MONOTONIC` of clock_gettime(2)).
    pub steady: u64,
}

/// In milliseconds: what a clock gains or loses of another between two readings is more than that where it was set.
const SET: u64 = 2_000;

/// By how much the machine's clock was set.
#[derive(Clone, Copy, Debug, PartialEq, Eq)]
pub enum ClockSet {
    No,
    /// By so many whole seconds.
    Ahead(u64),
    Back(u64),
}

/// The later of two times.
fn later(a: u64, b: u64) -> u64
    ensures { result ≡ max a b }
{
    if a < b { b } else { a }
}

impl Time {
    /// The time by the next reading.
    pub fn next(self, reading: Time) -> Time
        ensures time { result ≡ record { clock = reading.clock; steady = max self.steady reading.steady } }
        ensures never_back { steady_of self ≤ steady_of result }
    {
        Time {
            clock: reading.clock,
            steady: later(self.steady, reading.steady),
        }
    }

    /// Whether the machine's clock was set between this time and the next.
    pub fn was_set(self, next: Time) -> ClockSet {
        let gone = next.steady.saturating_sub(self.steady);
        let wanted = self.clock.saturating_add(gone);
        let ahead = next.clock.saturating_sub(wanted);
        let back = wanted.saturating_sub(next.clock);
        if ahead > SET {
            ClockSet::Ahead(ahead / 1_000)
        } else if back > SET {
            ClockSet::Back(back / 1_000)
        } else {
            ClockSet::No
        }
    }

    /// In whole seconds since 1970, as the machine's clock is set.
    pub fn seconds(self) -> u64
        ensures { result ≡ seconds_of self }
    {
        self.clock / 1_000
    }

    /// In whole seconds by the clock that nobody sets.
    pub fn steady_seconds(self) -> u64
        ensures { result ≡ steady_of self }
    {
        self.steady / 1_000
    }
}

fn milliseconds(time: Duration) -> u64 {
    time.as_secs()
        .saturating_mul(1_000)
        .saturating_add(u64::from(time.subsec_millis()))
}

/// What the clock shows that nobody sets, in milliseconds; 0 where it can't be read.
pub fn steady(machine: &impl Clock) -> u64 {
    match machine.monotonic() {
        Ok(time) => milliseconds(time),
        Err(_) => 0,
    }
}

/// Reads both clocks of a machine; 0 for one that can't be read.
pub fn read(machine: &impl Clock) -> Time {
    Time {
        clock: match machine.since_1970() {
            Ok(time) => milliseconds(time),
            Err(_) => 0,
        },
        steady: steady(machine),
    }
}
