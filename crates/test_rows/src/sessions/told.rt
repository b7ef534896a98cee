//! What an edit tells.

use super::left::secret_byte;
use crate::escape::shown_briefly;
use crate::listed::push_listed;
use std::alloc::{AllocError, Global};
use sv_model::{Event, Key, Told};

/// A word, the context and the key.
fn of_key(alloc: Global, word: &str, context: u8, key: Key) -> Result<String, AllocError> {
    format!(in alloc; "{word} {context}/{}.{}", key.home, key.serial)
}

/// The same, and a name with its value.
fn of_value(alloc: Global, front: &str, name: &str, value: &[u8]) -> Result<String, AllocError> {
    let value = shown_briefly(alloc, value)?;
    format!(in alloc; "{front} {name}={value}")
}

/// An event that has the key of a session.
fn key_of(event: &Event) -> Option<(&'static str, Key)> {
    match event {
        Event::Created(key) => Some(("created", *key)),
        Event::Destroyed(key) => Some(("destroyed", *key)),
        Event::Added { key, .. } => Some(("added", *key)),
        Event::Removed { key, .. } => Some(("removed", *key)),
        Event::Replaced { key, .. } => Some(("replaced", *key)),
        Event::IdChanged { key, .. } => Some(("changed", *key)),
        _ => None,
    }
}

fn front_text(alloc: Global, told: &Told) -> Result<String, AllocError> {
    match key_of(&told.event) {
        Some((word, key)) => of_key(alloc, word, told.context, key),
        None => String::from_str(alloc, "an event of no session"),
    }
}

/// An event with the value that is new, or that was there; or with the byte of the secret that was there.
fn event_text(alloc: Global, told: &Told) -> Result<String, AllocError> {
    let front = front_text(alloc, told)?;
    match &told.event {
        Event::Added { name, value, .. } => {
            of_value(alloc, &front, name.as_str(), value.as_slice())
        }
        Event::Removed { name, old, .. } => of_value(alloc, &front, name.as_str(), old.as_slice()),
        Event::Replaced { name, old, .. } => of_value(alloc, &front, name.as_str(), old.as_slice()),
        Event::IdChanged { old, .. } => format!(in alloc; "{front} {}", secret_byte(old)),
        _ => Ok(front),
    }
}

/// The events in order, between square brackets.
pub fn events_text(alloc: Global, events: &[Told]) -> Result<String, AllocError> {
    let mut list = String::new(alloc);
    for told in events {
        push_listed(&mut list, &event_text(alloc, told)?)?;
    }
    format!(in alloc; "[{list}]")
}
