//! How many sessions a node has made, and how many have ended.

ghost use Rattle.std.specs.Prelude.{◌≡◌, option_copied};
ghost use Rattle.sv_node.specs.SessionCounts.{counted, counted_if, up, with_born, with_expired, with_named};

use sv_model::{Change, Record};

/// How many sessions a node has made, and how many have ended at it, since it was opened. A number that can't rise stays.
#[derive(Clone, Copy, Debug, Default, PartialEq, Eq)]
pub struct SessionCounts {
    /// Sessions that were made.
    pub made: u64,
    /// Sessions that a request has ended, or has named once they had expired.
    pub ended: u64,
    /// Sessions that have expired before anything named them again.
    pub expired: u64,
}

/// One more, where the number can rise.
fn up(count: u64) -> u64
    ensures { result ≡ up count }
{
    count.saturating_add(1)
}

impl SessionCounts {
    /// What has become of the session that a request names.
    fn with_named(self, named: &Change) -> SessionCounts
        ensures { result ≡ with_named named.now self }
    {
        let mut counts = self;
        if let Change::Ended(_) = named {
            counts.ended = up(counts.ended);
        }
        counts
    }

    /// What has become of a session that was to be made.
    fn with_born(self, born: &Change) -> SessionCounts
        ensures { result ≡ with_born born.now self }
    {
        let mut counts = self;
        match born {
            Change::Absent => {}
            Change::Alive { .. } => counts.made = up(counts.made),
            Change::Ended(_) => {
                counts.made = up(counts.made);
                counts.ended = up(counts.ended);
            }
        }
        counts
    }

    /// A session has expired.
    fn with_expired(self) -> SessionCounts
        ensures { result ≡ with_expired self }
    {
        let mut counts = self;
        counts.expired = up(counts.expired);
        counts
    }

    /// One record more.
    fn with_record(self, entry: &Record) -> SessionCounts
        ensures { result ≡ counted entry.now self }
    {
        match entry {
            Record::Commit { named, born } => self.with_named(named).with_born(born),
            Record::Expired(_) => self.with_expired(),
            Record::Boot(_)
            | Record::Sent { .. }
            | Record::Taken { .. }
            | Record::Gone { .. }
            | Record::State { .. }
            | Record::Counters { .. }
            | Record::Forgets { .. }
            | Record::Counted { .. } => self,
        }
    }

    /// The record of one step more, where it has one.
    pub(crate) fn count(&mut self, entry: Option<&Record>)
        ensures { self.new ≡ counted_if (option_copied entry.entry) self.old }
    {
        if let Some(entry) = entry {
            *self = self.with_record(entry);
        }
    }
}
