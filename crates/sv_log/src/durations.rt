//! How long something took, each time that it was done.

/// How many lengths there are.
const COUNT: usize = 12;

/// A length that a duration is compared with.
#[derive(Clone, Copy)]
pub struct Length {
    pub nanoseconds: u64,
    /// The same in seconds, as figures have it.
    pub word: &'static str,
}

/// From a tenth of a millisecond to 30 seconds, each about three times the one before.
pub const LENGTHS: [Length; COUNT] = [
    Length {
        nanoseconds: 100_000,
        word: "0.0001",
    },
    Length {
        nanoseconds: 300_000,
        word: "0.0003",
    },
    Length {
        nanoseconds: 1_000_000,
        word: "0.001",
    },
    Length {
        nanoseconds: 3_000_000,
        word: "0.003",
    },
    Length {
        nanoseconds: 10_000_000,
        word: "0.01",
    },
    Length {
        nanoseconds: 30_000_000,
        word: "0.03",
    },
    Length {
        nanoseconds: 100_000_000,
        word: "0.1",
    },
    Length {
        nanoseconds: 300_000_000,
        word: "0.3",
    },
    Length {
        nanoseconds: 1_000_000_000,
        word: "1",
    },
    Length {
        nanoseconds: 3_000_000_000,
        word: "3",
    },
    Length {
        nanoseconds: 10_000_000_000,
        word: "10",
    },
    Length {
        nanoseconds: 30_000_000_000,
        word: "30",
    },
];

/// How long something took, each time that it was done.
#[derive(Clone, Copy, Default)]
pub struct Durations {
    /// How many were at most so long, and longer than the length before.
    pub counts: [u64; COUNT],
    /// How many there were.
    pub all: u64,
    /// How long they were together.
    pub nanoseconds: u64,
}

impl Durations {
    /// Counts one more.
    pub fn add(&mut self, nanoseconds: u64) {
        self.all = self.all.saturating_add(1);
        self.nanoseconds = self.nanoseconds.saturating_add(nanoseconds);
        let place = LENGTHS
            .iter()
            .position(|length| nanoseconds <= length.nanoseconds);
        if let Some(place) = place
            && let Some(count) = self.counts.get_mut(place)
        {
            *count = count.saturating_add(1);
        }
    }
}
