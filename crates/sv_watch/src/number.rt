//! Numbers of figures.

use std::fmt;

/// Of a second, in billionths.
const SECOND: u64 = 1_000_000_000;

/// A whole number: decimal digits alone.
pub fn whole_of(value: &str) -> Option<u64> {
    if value.bytes().all(|byte| byte.is_ascii_digit()) {
        value.parse::<u64>().ok()
    } else {
        None
    }
}

/// A time in seconds, with nine digits after the point, in billionths of a second.
pub fn nanoseconds_of(value: &str) -> Option<u64> {
    let (seconds, rest) = value.split_once('.')?;
    if rest.len() != 9 {
        return None;
    }
    whole_of(seconds)?
        .checked_mul(SECOND)?
        .checked_add(whole_of(rest)?)
}

/// How many in a hundred, rounded down; of none all.
pub fn percent_of(number: u64, all: u64) -> u64 {
    number.saturating_mul(100).checked_div(all).unwrap_or(100)
}

/// How often a second, in tenths.
#[derive(Clone, Copy, Debug, PartialEq, Eq)]
pub struct Rate {
    pub tenths: u64,
}

/// How often a second a counter has risen within so many seconds. None where it was set back, as by a node that was started anew, or no
/// time has passed.
pub fn rate_of(before: u64, now: u64, seconds: u64) -> Option<Rate> {
    let tenths = now
        .checked_sub(before)?
        .saturating_mul(10)
        .checked_div(seconds)?;
    Some(Rate { tenths })
}

impl fmt::Display for Rate {
    fn fmt<W: fmt::Write>(&self, f: &mut fmt::Formatter<W>) -> fmt::Result {
        let (whole, tenth) = (self.tenths / 10, self.tenths % 10);
        write!(f, "{whole}.{tenth}/s")
    }
}
