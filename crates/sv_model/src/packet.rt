//! What nodes send each other. Each packet has the numbers of its sender and its addressee, below 8.

ghost use Rattle.std.specs.Prelude.{◌≡◌, IfOk};
ghost use Rattle.sv_model.specs.Migration.{addressee, sender};

use crate::key::Key;
use crate::session::Session;
use std::alloc::{AllocError, Global};

/// A packet from one node to another; it may be lost, repeated and late.
#[derive(Drop)]
pub enum Packet {
    /// The sender has a request for a session that it doesn't hold.
    Want {
        from: u8,
        to: u8,
        key: Key,
        /// The sender's boot number.
        boot: u64,
        /// Which of the sender's wants since that boot it is.
        want: u64,
    },
    /// The session is handed over under a higher epoch.
    Grant {
        from: u8,
        to: u8,
        key: Key,
        epoch: u64,
        session: Session,
    },
    /// The session of this epoch was taken.
    Ack {
        from: u8,
        to: u8,
        key: Key,
        epoch: u64,
    },
    /// The session that was wanted has ended, or never was.
    No {
        from: u8,
        to: u8,
        key: Key,
        boot: u64,
        want: u64,
    },
}

impl Packet {
    /// The node that it comes from.
    pub fn sender(&self) -> u8
        ensures { result ≡ sender self.now }
    {
        match self {
            Packet::Want { from, .. }
            | Packet::Grant { from, .. }
            | Packet::Ack { from, .. }
            | Packet::No { from, .. } => *from,
        }
    }

    /// The node that it goes to.
    pub fn addressee(&self) -> u8
        ensures { result ≡ addressee self.now }
    {
        match self {
            Packet::Want { to, .. }
            | Packet::Grant { to, .. }
            | Packet::Ack { to, .. }
            | Packet::No { to, .. } => *to,
        }
    }

    /// An equal packet in memory of its own.
    pub fn copy(&self, alloc: Global) -> Result<Packet, AllocError>
        ensures { IfOk result (λ copy. copy ≡ self.now) }
    {
        let copy = match *self {
            Packet::Want {
                from,
                to,
                key,
                boot,
                want,
            } => Packet::Want {
                from,
                to,
                key,
                boot,
                want,
            },
            Packet::Grant {
                from,
                to,
                key,
                epoch,
                ref session,
            } => Packet::Grant {
                from,
                to,
                key,
                epoch,
                session: session.copy(alloc)?,
            },
            Packet::Ack {
                from,
                to,
                key,
                epoch,
            } => Packet::Ack {
                from,
                to,
                key,
                epoch,
            },
            Packet::No {
                from,
                to,
                key,
                boot,
                want,
            } => Packet::No {
                from,
                to,
                key,
                boot,
                want,
            },
        };
        Ok(copy)
    }
}
