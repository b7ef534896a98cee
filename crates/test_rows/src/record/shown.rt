//! Values as texts, so that a row can say all of them.

use std::alloc::{AllocError, Global};
use sv_model::{Change, Key, KeyState, Packet, Record, Session};
use sv_record::Frame;

/// The secret's first and last byte, context, created, last, interval and fresh.
fn front_text(alloc: Global, session: &Session) -> Result<String, AllocError> {
    format!(in alloc;
        "{}-{}/{}/{}/{}/{}/{}",
        session.secret.0[0],
        session.secret.0[15],
        session.context,
        session.created,
        session.last,
        session.interval,
        session.fresh
    )
}

fn push_attribute(text: &mut String, name: &str, value: &[u8]) -> Result<(), AllocError> {
    text.push_str(" ")?;
    text.push_str(name)?;
    text.push_str("=")?;
    text.push_str(str::from_utf8(value).unwrap_or("?"))?;
    Ok(())
}

/// A session, and each of its attributes.
fn session_text(alloc: Global, session: &Session) -> Result<String, AllocError> {
    let mut text = front_text(alloc, session)?;
    for (name, value) in session.attributes.iter() {
        push_attribute(&mut text, name, value)?;
    }
    Ok(text)
}

fn alive_text(alloc: Global, key: Key, session: &Session) -> Result<String, AllocError> {
    let session = session_text(alloc, session)?;
    format!(in alloc; "{}.{} {session}", key.home, key.serial)
}

fn change_text(alloc: Global, change: &Change) -> Result<String, AllocError> {
    match change {
        Change::Absent => String::from_str(alloc, "none"),
        Change::Alive { key, session } => alive_text(alloc, *key, session),
        Change::Ended(key) => format!(in alloc; "{}.{} ended", key.home, key.serial),
    }
}

fn commit_text(alloc: Global, named: &Change, born: &Change) -> Result<String, AllocError> {
    let named = change_text(alloc, named)?;
    let born = change_text(alloc, born)?;
    format!(in alloc; "commit {named}, {born}")
}

fn active_text(alloc: Global, epoch: u64, session: &Session) -> Result<String, AllocError> {
    let session = session_text(alloc, session)?;
    format!(in alloc; "active {epoch} {session}")
}

fn away_text(alloc: Global, epoch: u64, to: u8, session: &Session) -> Result<String, AllocError> {
    let session = session_text(alloc, session)?;
    format!(in alloc; "sent {epoch} to {to} {session}")
}

fn state_text(alloc: Global, state: &KeyState) -> Result<String, AllocError> {
    match state {
        KeyState::Active { epoch, session } => active_text(alloc, *epoch, session),
        KeyState::Sent { epoch, session, to } => away_text(alloc, *epoch, *to, session),
        KeyState::Gone { epoch } => format!(in alloc; "gone {epoch}"),
        KeyState::Ended { epoch } => format!(in alloc; "ended {epoch}"),
    }
}

fn key_state_text(alloc: Global, key: Key, state: &KeyState) -> Result<String, AllocError> {
    let state = state_text(alloc, state)?;
    format!(in alloc; "state {}.{} {state}", key.home, key.serial)
}

/// A word, a session's key and epoch, the node that it goes to or comes from, and the session.
fn handed_text(
    alloc: Global,
    word: &str,
    key: Key,
    epoch: u64,
    node: (&str, u8),
    session: &Session,
) -> Result<String, AllocError> {
    let session = session_text(alloc, session)?;
    let (way, number) = node;
    format!(in alloc;
        "{word} {}.{} {epoch} {way} {number} {session}",
        key.home, key.serial
    )
}

pub fn record_text(alloc: Global, record: &Record) -> Result<String, AllocError> {
    match record {
        Record::Boot(boot) => format!(in alloc; "boot {boot}"),
        Record::Commit { named, born } => commit_text(alloc, named, born),
        Record::Expired(key) => format!(in alloc; "expired {}.{}", key.home, key.serial),
        Record::Sent {
            key,
            epoch,
            to,
            session,
        } => handed_text(alloc, "sent", *key, *epoch, ("to", *to), session),
        Record::Taken {
            key,
            epoch,
            from,
            session,
        } => handed_text(alloc, "taken", *key, *epoch, ("from", *from), session),
        Record::Gone { key, epoch } => {
            format!(in alloc; "gone {}.{} {epoch}", key.home, key.serial)
        }
        Record::State { key, state } => key_state_text(alloc, *key, state),
        Record::Counters { boot, next } => format!(in alloc; "counters {boot} {next}"),
        Record::Forgets { home, boot } => format!(in alloc; "forgets {home} {boot}"),
        Record::Counted { home, boot, next } => {
            format!(in alloc; "counted {home} {boot} {next}")
        }
    }
}

/// A word, the sender and the addressee, the key, and both numbers of a want.
fn want_text(
    alloc: Global,
    word: &str,
    nodes: (u8, u8),
    key: Key,
    numbers: (u64, u64),
) -> Result<String, AllocError> {
    let (from, to) = nodes;
    let (boot, want) = numbers;
    format!(in alloc;
        "{word} {from} to {to} {}.{} {boot} {want}",
        key.home, key.serial
    )
}

fn grant_text(
    alloc: Global,
    nodes: (u8, u8),
    key: Key,
    epoch: u64,
    session: &Session,
) -> Result<String, AllocError> {
    let session = session_text(alloc, session)?;
    let (from, to) = nodes;
    format!(in alloc;
        "grant {from} to {to} {}.{} {epoch} {session}",
        key.home, key.serial
    )
}

pub fn packet_text(alloc: Global, packet: &Packet) -> Result<String, AllocError> {
    match packet {
        Packet::Want {
            from,
            to,
            key,
            boot,
            want,
        } => want_text(alloc, "want", (*from, *to), *key, (*boot, *want)),
        Packet::Grant {
            from,
            to,
            key,
            epoch,
            session,
        } => grant_text(alloc, (*from, *to), *key, *epoch, session),
        Packet::Ack {
            from,
            to,
            key,
            epoch,
        } => format!(in alloc; "ack {from} to {to} {}.{} {epoch}", key.home, key.serial),
        Packet::No {
            from,
            to,
            key,
            boot,
            want,
        } => want_text(alloc, "no", (*from, *to), *key, (*boot, *want)),
    }
}

pub fn frame_text(alloc: Global, frame: &Frame) -> Result<String, AllocError> {
    match frame {
        Frame::Peer(packet) => packet_text(alloc, packet),
        Frame::Move { key, to } => { format!(in alloc; "move {}.{} to {to}", key.home, key.serial) }
        Frame::Tick => String::from_str(alloc, "tick"),
        Frame::Halt => String::from_str(alloc, "halt"),
    }
}
