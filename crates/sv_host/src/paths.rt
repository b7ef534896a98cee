//! The files that a node writes.

use sv_journal::IfMissing;

/// What becomes of a node whose journal another process has.
#[derive(Clone, Copy, Debug, PartialEq, Eq)]
pub enum IfLocked {
    /// It ends.
    End,
    /// It waits until it has the journal, and listens only then.
    Wait,
}

/// The paths of the files that a node writes.
#[derive(Clone, Copy)]
pub struct Paths<'a> {
    /// The journal's file; a second one stands beside it, whose name ends in `.b`.
    pub journal: &'a str,
    /// What becomes of the journal's files where they aren't there.
    pub if_missing: IfMissing,
    /// What becomes of the node where another process has them.
    pub if_locked: IfLocked,
    /// The log, to which lines are added; `-` for standard error.
    pub log: Option<&'a str>,
    /// The figures, which are written anew every few seconds.
    pub metrics: Option<&'a str>,
}
