//! How fast sessions end that have expired.

/// So many of them end in a second, at most.
const LIMIT: u32 = 1_000;

/// How many more sessions may end in this second. A tick ends one, the least key that has expired; so more ticks are taken for as long
/// as the last one has ended a session.
#[derive(Clone, Copy, Debug, PartialEq, Eq)]
pub struct Expiry {
    left: u32,
}

impl Expiry {
    /// None has expired, as far as is known.
    pub const NONE: Expiry = Expiry { left: 0 };

    /// A second begins, whose tick has ended a session or not.
    pub fn begin(has_ended: bool) -> Expiry {
        Expiry { left: LIMIT }.next(has_ended)
    }

    /// One more tick was taken, which has ended a session or not.
    pub fn next(self, has_ended: bool) -> Expiry {
        Expiry {
            left: if has_ended {
                self.left.saturating_sub(1)
            } else {
                0
            },
        }
    }

    /// One more tick is to be taken in this second.
    pub fn is_due(self) -> bool {
        self.left > 0
    }
}
