//! What a step of a node makes durable.

ghost use Rattle.std.specs.Prelude.{◌≡◌, IfOk};

use crate::key::Key;
use crate::session::Session;
use crate::state::KeyState;
use std::alloc::{AllocError, Global};

/// What a commit makes of one key.
#[derive(Drop)]
pub enum Change {
    /// There is no such key, or nothing has changed.
    Absent,
    /// The session is active, and this.
    Alive { key: Key, session: Session },
    /// The session has ended, and its key is spent.
    Ended(Key),
}

/// One record of a node's journal. Node numbers are below 8, epochs and serials are from 1.
#[derive(Drop)]
pub enum Record {
    /// Kind 1: the node starts, for the time that the number says.
    Boot(u64),
    /// Kind 2: a request was served. At least one of the two isn't absent.
    Commit {
        /// The session that the request names.
        named: Change,
        /// The session that was made.
        born: Change,
    },
    /// Kind 3: a session that nothing had named for its interval was ended.
    Expired(Key),
    /// Kind 4: a session is handed to another node under a higher epoch.
    Sent {
        key: Key,
        epoch: u64,
        to: u8,
        session: Session,
    },
    /// Kind 5: a session was taken over from another node.
    Taken {
        key: Key,
        epoch: u64,
        from: u8,
        session: Session,
    },
    /// Kind 6: the other node has acknowledged the session.
    Gone {
        key: Key,
        epoch: u64,
    },
    /// Kind 7: what the node keeps of a key, in a snapshot.
    State {
        key: Key,
        state: KeyState,
    },
    /// Kind 8: the head of a snapshot.
    Counters {
        /// The number of the last start.
        boot: u64,
        /// The serial of the next session that is made here.
        next: u64,
    },
    /// Kind 9: the node starts, and forgets its own keys that end here from now on.
    Forgets {
        /// The node's number.
        home: u8,
        /// The time that it starts for.
        boot: u64,
    },
    /// Kind 10: the head of a snapshot of a node that forgets.
    Counted {
        /// The node's number.
        home: u8,
        /// The number of the last start.
        boot: u64,
        /// The serial of the next session that is made here.
        next: u64,
    },
}

impl Change {
    /// An equal change in memory of its own.
    pub fn copy(&self, alloc: Global) -> Result<Change, AllocError>
        ensures { IfOk result (λ copy. copy ≡ self.now) }
    {
        let copy = match *self {
            Change::Absent => Change::Absent,
            Change::Alive { key, ref session } => Change::Alive {
                key,
                session: session.copy(alloc)?,
            },
            Change::Ended(key) => Change::Ended(key),
        };
        Ok(copy)
    }
}

impl Record {
    /// An equal record in memory of its own.
    pub fn copy(&self, alloc: Global) -> Result<Record, AllocError>
        ensures { IfOk result (λ copy. copy ≡ self.now) }
    {
        let copy = match *self {
            Record::Boot(boot) => Record::Boot(boot),
            Record::Commit {
                ref named,
                ref born,
            } => Record::Commit {
                named: named.copy(alloc)?,
                born: born.copy(alloc)?,
            },
            Record::Expired(key) => Record::Expired(key),
            Record::Sent {
                key,
                epoch,
                to,
                ref session,
            } => Record::Sent {
                key,
                epoch,
                to,
                session: session.copy(alloc)?,
            },
            Record::Taken {
                key,
                epoch,
                from,
                ref session,
            } => Record::Taken {
                key,
                epoch,
                from,
                session: session.copy(alloc)?,
            },
            Record::Gone { key, epoch } => Record::Gone { key, epoch },
            Record::State { key, ref state } => Record::State {
                key,
                state: state.copy(alloc)?,
            },
            Record::Counters { boot, next } => Record::Counters { boot, next },
            Record::Forgets { home, boot } => Record::Forgets { home, boot },
            Record::Counted { home, boot, next } => Record::Counted { home, boot, next },
        };
        Ok(copy)
    }
}
