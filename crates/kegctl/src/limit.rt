//! How long a drain takes.

use crate::commands::PATIENCE;
use std::rt::Clock;
use std::time::Duration;

/// When a drain is to end, by the clock that nobody sets.
#[derive(Clone, Copy, Debug, PartialEq, Eq)]
pub struct Limit {
    end: Duration,
}

/// What the clock that nobody sets shows; its end where it can't be read.
pub fn clock(machine: &HostRuntime) -> Duration {
    match machine.monotonic() {
        Ok(now) => now,
        Err(_) => Duration::MAX,
    }
}

impl Limit {
    /// So many seconds from now on.
    pub fn new(machine: &HostRuntime, seconds: u64) -> Limit {
        Limit {
            end: clock(machine).saturating_add(Duration::from_secs(seconds)),
        }
    }

    pub fn is_over(self, machine: &HostRuntime) -> bool {
        clock(machine) >= self.end
    }

    /// How long a node may take for a command, in seconds: a second longer than the drain at most.
    pub fn patience(self, machine: &HostRuntime) -> u64 {
        let left = self.end.saturating_sub(clock(machine)).as_secs();
        if left < PATIENCE { left + 1 } else { PATIENCE }
    }
}
