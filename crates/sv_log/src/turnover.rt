//! How many sessions come and go.

/// How many sessions a node has made, and how many have ended at it, since its start.
#[derive(Clone, Copy, Default)]
pub struct Turnover {
    pub made: u64,
    /// By a request, or named by one once they had expired.
    pub ended: u64,
    /// Before anything named them again.
    pub expired: u64,
}
