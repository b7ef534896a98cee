//! What a node keeps of a session's key.

ghost use Rattle.std.specs.Prelude.{◌≡◌, IfOk};

use crate::session::Session;
use std::alloc::{AllocError, Global};

/// The keys that a node knows, at most, where its setting says nothing else.
pub const KEY_LIMIT: usize = 65_536;

/// The keys that a node knows, at most, whatever its setting says.
pub const KEY_MOST: usize = 1_048_576;

/// The requests that wait at a node for their sessions, at most.
pub const PARK_LIMIT: usize = 64;

/// What a node knows of a key; of a key that it has never heard of it keeps nothing.
///
/// The epoch counts the nodes that have held the session, from 1. It is never forgotten and never falls.
#[derive(Drop)]
pub enum KeyState {
    /// The session is active here.
    Active {
        epoch: u64,
        session: Session,
    },
    /// The session was handed to a node that has yet to acknowledge it.
    Sent {
        /// The epoch under which the other node holds it.
        epoch: u64,
        session: Session,
        to: u8,
    },
    /// The session was handed to a node that has acknowledged it.
    Gone {
        epoch: u64,
    },
    /// The session was ended here.
    Ended {
        epoch: u64,
    },
}

impl KeyState {
    /// An equal state in memory of its own.
    pub fn copy(&self, alloc: Global) -> Result<KeyState, AllocError>
        ensures { IfOk result (λ copy. copy ≡ self.now) }
    {
        let copy = match *self {
            KeyState::Active { epoch, ref session } => KeyState::Active {
                epoch,
                session: session.copy(alloc)?,
            },
            KeyState::Sent {
                epoch,
                ref session,
                to,
            } => KeyState::Sent {
                epoch,
                session: session.copy(alloc)?,
                to,
            },
            KeyState::Gone { epoch } => KeyState::Gone { epoch },
            KeyState::Ended { epoch } => KeyState::Ended { epoch },
        };
        Ok(copy)
    }
}
