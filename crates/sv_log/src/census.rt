//! How many keys a node knows.

/// How many keys a node knows, by what has become of their sessions.
#[derive(Clone, Copy, Default)]
pub struct Census {
    /// The session is here.
    pub active: u64,
    /// It is on its way to another node, which hasn't acknowledged it yet.
    pub sent: u64,
    /// Another node has it.
    pub gone: u64,
    /// It was ended here.
    pub ended: u64,
}

impl Census {
    /// All keys.
    pub fn known(self) -> u64 {
        self.active
            .saturating_add(self.sent)
            .saturating_add(self.gone)
            .saturating_add(self.ended)
    }
}
