//! Events as texts.

use crate::sessions::{push_key, push_pair, push_secret};
use std::alloc::AllocError;
use sv_model::{Event, Key};

/// Adds an event of a session.
fn push_event(text: &mut String, kind: &str, key: Key) -> Result<(), AllocError> {
    text.push_str(kind)?;
    text.push(' ')?;
    push_key(text, key)
}

/// Adds an event of an attribute, with the value that it tells.
fn push_change(
    text: &mut String,
    kind: &str,
    key: Key,
    name: &str,
    value: &[u8],
) -> Result<(), AllocError> {
    push_event(text, kind, key)?;
    push_pair(text, name, value)
}

/// Adds what listeners are told.
pub fn push_told(text: &mut String, event: &Event) -> Result<(), AllocError> {
    match event {
        Event::ContextUp => text.push_str("ContextUp"),
        Event::ContextDown => text.push_str("ContextDown"),
        Event::RequestIn => text.push_str("RequestIn"),
        Event::RequestOut => text.push_str("RequestOut"),
        Event::Created(key) => push_event(text, "Created", *key),
        Event::Destroyed(key) => push_event(text, "Destroyed", *key),
        Event::Added { key, name, value } => {
            push_change(text, "Added", *key, name.as_str(), value.as_slice())
        }
        Event::Removed { key, name, old } => {
            push_change(text, "Removed", *key, name.as_str(), old.as_slice())
        }
        Event::Replaced { key, name, old } => {
            push_change(text, "Replaced", *key, name.as_str(), old.as_slice())
        }
        Event::Passivate(key) => push_event(text, "Passivate", *key),
        Event::Activate(key) => push_event(text, "Activate", *key),
        Event::IdChanged { key, old } => {
            push_event(text, "IdChanged", *key)?;
            text.push(' ')?;
            push_secret(text, *old)
        }
    }
}
