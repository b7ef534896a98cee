//! Records as texts.

use crate::sessions::{push_key, push_session};
use std::alloc::AllocError;
use sv_model::{Change, Key, KeyState, Record, Session};

/// Adds what a commit makes of one key, after a verb for a session that is there after it, and one for a session that isn't.
fn push_change(
    text: &mut String,
    alive: &str,
    ended: &str,
    change: &Change,
) -> Result<(), AllocError> {
    match change {
        Change::Absent => Ok(()),
        Change::Alive { key, session } => {
            text.push_str(alive)?;
            push_key(text, *key)?;
            push_session(text, session)
        }
        Change::Ended(key) => {
            text.push_str(ended)?;
            push_key(text, *key)
        }
    }
}

/// Adds a kind and a key.
fn push_kind(text: &mut String, kind: &str, key: Key) -> Result<(), AllocError> {
    text.push_str(kind)?;
    text.push(' ')?;
    push_key(text, key)
}

/// Adds a record of a session that goes from node to node: its kind, the key, the epoch, and the other node.
fn push_handed(
    text: &mut String,
    kind: &str,
    key: Key,
    epoch: u64,
    way: &str,
    node: u8,
    session: &Session,
) -> Result<(), AllocError> {
    push_kind(text, kind, key)?;
    write!(text, " epoch {epoch} {way} {node}")?;
    push_session(text, session)
}

/// Adds that a session has gone to another node.
fn push_gone(text: &mut String, key: Key, epoch: u64) -> Result<(), AllocError> {
    push_kind(text, "Gone", key)?;
    write!(text, " epoch {epoch}")
}

/// Adds a commit: what it makes of the session that was named, and of the one that was made.
fn push_commit(text: &mut String, named: &Change, born: &Change) -> Result<(), AllocError> {
    text.push_str("Commit")?;
    push_change(text, " keeps ", " ends ", named)?;
    push_change(text, " makes ", " makes and ends ", born)
}

/// Adds what a node keeps of a key.
fn push_state(text: &mut String, state: &KeyState) -> Result<(), AllocError> {
    match state {
        KeyState::Active { epoch, session } => {
            write!(text, " Active {epoch}")?;
            push_session(text, session)
        }
        KeyState::Sent { epoch, to, session } => {
            write!(text, " Sent {epoch} to {to}")?;
            push_session(text, session)
        }
        KeyState::Gone { epoch } => write!(text, " Gone {epoch}"),
        KeyState::Ended { epoch } => write!(text, " Ended {epoch}"),
    }
}

/// Adds what a snapshot says of a key.
fn push_kept(text: &mut String, key: Key, state: &KeyState) -> Result<(), AllocError> {
    push_kind(text, "State", key)?;
    push_state(text, state)
}

/// Adds a record of numbers alone.
fn push_numbers(text: &mut String, kind: &str, numbers: &[u64]) -> Result<(), AllocError> {
    text.push_str(kind)?;
    for number in numbers {
        write!(text, " {number}")?;
    }
    Ok(())
}

/// Adds a record: its kind, and its fields.
pub fn push_record(text: &mut String, record: &Record) -> Result<(), AllocError> {
    match record {
        Record::Boot(boot) => push_numbers(text, "Boot", &[*boot]),
        Record::Commit { named, born } => push_commit(text, named, born),
        Record::Expired(key) => push_kind(text, "Expired", *key),
        Record::Sent {
            key,
            epoch,
            to,
            session,
        } => push_handed(text, "Sent", *key, *epoch, "to", *to, session),
        Record::Taken {
            key,
            epoch,
            from,
            session,
        } => push_handed(text, "Taken", *key, *epoch, "from", *from, session),
        Record::Gone { key, epoch } => push_gone(text, *key, *epoch),
        Record::State { key, state } => push_kept(text, *key, state),
        Record::Counters { boot, next } => push_numbers(text, "Counters", &[*boot, *next]),
        Record::Forgets { home, boot } => push_numbers(text, "Forgets", &[u64::from(*home), *boot]),
        Record::Counted { home, boot, next } => {
            push_numbers(text, "Counted", &[u64::from(*home), *boot, *next])
        }
    }
}
