//! Packets as texts.

use crate::sessions::{push_key, push_session};
use std::alloc::AllocError;
use sv_model::{Key, Packet, Session};

/// Adds a packet's kind, its sender, its addressee and its key.
fn push_front(text: &mut String, kind: &str, nodes: (u8, u8), key: Key) -> Result<(), AllocError> {
    let (from, to) = nodes;
    write!(text, "{kind} {from} to {to} ")?;
    push_key(text, key)
}

/// Adds a packet about a request that waits: with the start of its node and the number of its want.
fn push_wanted(
    text: &mut String,
    kind: &str,
    nodes: (u8, u8),
    key: Key,
    want: (u64, u64),
) -> Result<(), AllocError> {
    let (boot, number) = want;
    push_front(text, kind, nodes, key)?;
    write!(text, " {boot}/{number}")
}

/// Adds a packet of an epoch.
fn push_epoch(
    text: &mut String,
    kind: &str,
    nodes: (u8, u8),
    key: Key,
    epoch: u64,
) -> Result<(), AllocError> {
    push_front(text, kind, nodes, key)?;
    write!(text, " epoch {epoch}")
}

/// Adds a packet that hands a session over.
fn push_grant(
    text: &mut String,
    nodes: (u8, u8),
    key: Key,
    epoch: u64,
    session: &Session,
) -> Result<(), AllocError> {
    push_epoch(text, "Grant", nodes, key, epoch)?;
    push_session(text, session)
}

/// Adds a packet.
pub fn push_packet(text: &mut String, packet: &Packet) -> Result<(), AllocError> {
    match packet {
        Packet::Want {
            from,
            to,
            key,
            boot,
            want,
        } => push_wanted(text, "Want", (*from, *to), *key, (*boot, *want)),
        Packet::Grant {
            from,
            to,
            key,
            epoch,
            session,
        } => push_grant(text, (*from, *to), *key, *epoch, session),
        Packet::Ack {
            from,
            to,
            key,
            epoch,
        } => push_epoch(text, "Ack", (*from, *to), *key, *epoch),
        Packet::No {
            from,
            to,
            key,
            boot,
            want,
        } => push_wanted(text, "No", (*from, *to), *key, (*boot, *want)),
    }
}
