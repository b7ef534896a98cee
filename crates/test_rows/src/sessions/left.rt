//! What an edit leaves.

use super::told::events_text;
use crate::escape::shown_briefly;
use std::alloc::{AllocError, Global};
use sv_model::{Birth, Fate, Secret, Session};
use sv_session::{Edited, SessionEdit};

/// The byte that stands in each place of a secret; 0 where they differ.
pub fn secret_byte(secret: &Secret) -> u8 {
    let first = secret.0[0];
    if *secret == Secret([first; 16]) {
        first
    } else {
        0
    }
}

/// The secret's byte, context, created, last, interval and fresh.
fn front_text(alloc: Global, session: &Session) -> Result<String, AllocError> {
    format!(in alloc;
        "{}/{}/{}/{}/{}/{}",
        secret_byte(&session.secret),
        session.context,
        session.created,
        session.last,
        session.interval,
        session.fresh
    )
}

fn push_attribute(
    alloc: Global,
    text: &mut String,
    name: &str,
    value: &[u8],
) -> Result<(), AllocError> {
    let value = shown_briefly(alloc, value)?;
    text.push_str(&format!(in alloc; " {name}={value}")?)?;
    Ok(())
}

/// A word, the session, and each of its attributes.
fn session_text(alloc: Global, word: &str, session: &Session) -> Result<String, AllocError> {
    let front = front_text(alloc, session)?;
    let mut text = format!(in alloc; "{word} {front}")?;
    for (name, value) in session.attributes.iter() {
        push_attribute(alloc, &mut text, name, value)?;
    }
    Ok(text)
}

fn fate_text(alloc: Global, fate: &Fate) -> Result<String, AllocError> {
    match fate {
        Fate::Untouched => String::from_str(alloc, "untouched"),
        Fate::Kept(session) => session_text(alloc, "kept", session),
        Fate::Ended => String::from_str(alloc, "ended"),
    }
}

fn birth_text(alloc: Global, birth: &Birth) -> Result<String, AllocError> {
    match birth {
        Birth::Absent => String::from_str(alloc, "absent"),
        Birth::Alive(session) => session_text(alloc, "alive", session),
        Birth::Ended => String::from_str(alloc, "ended"),
    }
}

/// Whether an id was changed.
fn changed_text(is_changed: bool) -> &'static str {
    if is_changed { "id changed" } else { "same id" }
}

fn edited_text(alloc: Global, edited: &Edited) -> Result<String, AllocError> {
    let fate = fate_text(alloc, &edited.fate)?;
    let birth = birth_text(alloc, &edited.birth)?;
    let events = events_text(alloc, edited.events.as_slice())?;
    let changed = changed_text(edited.id_changed);
    format!(in alloc; "{fate}; {birth}; {changed}; {events}")
}

/// What became of the session that was handed in and of the one that was made, whether an id was changed, and the events.
pub fn left_text(alloc: Global, edit: SessionEdit) -> Result<String, AllocError> {
    edited_text(alloc, &edit.finish())
}
