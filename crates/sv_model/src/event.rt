//! What listeners are told (Jakarta Servlet 6.0, chapter "Application Lifecycle Events").

ghost use Rattle.std.specs.Prelude.{◌≡◌, IfOk};

use crate::copied::Copied;
use crate::key::{Key, Secret};
use crate::sequence::Sequence;
use crate::text::Text;
use std::alloc::{AllocError, Global};

/// An event of one context.
#[derive(Drop)]
pub enum Event {
    /// Event 1: the context has started.
    ContextUp,
    /// Event 2: the context ends.
    ContextDown,
    /// Event 3: a request comes in.
    RequestIn,
    /// Event 4: a request was served.
    RequestOut,
    /// Event 5: a session was made.
    Created(Key),
    /// Event 6: a session was invalidated or has expired.
    Destroyed(Key),
    /// Event 7: an attribute was added.
    Added {
        key: Key,
        name: Text,
        value: Sequence<u8>,
    },
    /// Event 8: an attribute was removed, with the value that it had.
    Removed {
        key: Key,
        name: Text,
        old: Sequence<u8>,
    },
    /// Event 9: an attribute was given another value, with the value that it had.
    Replaced {
        key: Key,
        name: Text,
        old: Sequence<u8>,
    },
    /// Event 10: a session leaves this node.
    Passivate(Key),
    /// Event 11: a session has come to this node.
    Activate(Key),
    /// Event 12: a session was given another secret, with the secret that it had.
    IdChanged {
        key: Key,
        old: Secret,
    },
}

/// An event and the number of the context whose listeners are told it.
#[derive(Drop)]
pub struct Told {
    pub context: u8,
    pub event: Event,
}

impl Event {
    /// An equal event in memory of its own.
    pub fn copy(&self, alloc: Global) -> Result<Event, AllocError>
        ensures { IfOk result (λ copy. copy ≡ self.now) }
    {
        let copy = match *self {
            Event::ContextUp => Event::ContextUp,
            Event::ContextDown => Event::ContextDown,
            Event::RequestIn => Event::RequestIn,
            Event::RequestOut => Event::RequestOut,
            Event::Created(key) => Event::Created(key),
            Event::Destroyed(key) => Event::Destroyed(key),
            Event::Added {
                key,
                ref name,
                ref value,
            } => Event::Added {
                key,
                name: name.copy(alloc)?,
                value: value.copy(alloc)?,
            },
            Event::Removed {
                key,
                ref name,
                ref old,
            } => Event::Removed {
                key,
                name: name.copy(alloc)?,
                old: old.copy(alloc)?,
            },
            Event::Replaced {
                key,
                ref name,
                ref old,
            } => Event::Replaced {
                key,
                name: name.copy(alloc)?,
                old: old.copy(alloc)?,
            },
            Event::Passivate(key) => Event::Passivate(key),
            Event::Activate(key) => Event::Activate(key),
            Event::IdChanged { key, old } => Event::IdChanged { key, old },
        };
        Ok(copy)
    }
}

impl Copied for Told {
    fn copy(&self, alloc: Global) -> Result<Told, AllocError> {
        Ok(Told {
            context: self.context,
            event: self.event.copy(alloc)?,
        })
    }
}
