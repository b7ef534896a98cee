//! A session with its attributes (Jakarta Servlet 6.0, chapter "Sessions").

ghost use Rattle.std.specs.Prelude.{◌≡◌, IfOk};
ghost use Rattle.std.specs.Bool.{Decides};
ghost use Rattle.sv_model.specs.Session.{is_expired};

use crate::attributes::Attributes;
use crate::key::Secret;
use std::alloc::{AllocError, Global};

/// The contexts of a deployment, at most.
pub const CONTEXT_LIMIT: u8 = 16;

/// The attributes of a session, at most.
pub const ATTRIBUTE_LIMIT: usize = 64;

/// The bytes of an attribute's name, at most.
pub const NAME_LIMIT: usize = 128;

/// The bytes of an attribute's value, at most.
pub const VALUE_LIMIT: usize = 65_536;

/// The bytes of a session's names and values together, at most.
pub const SESSION_LIMIT: usize = 131_072;

/// An HTTP session.
#[derive(Drop)]
pub struct Session {
    /// The number of its context, below 16.
    pub context: u8,
    pub secret: Secret,
    /// When it was made, in whole seconds.
    pub created: u64,
    /// When it was last named by a request, in whole seconds.
    pub last: u64,
    /// The seconds without a request after which it expires; 0 and less never.
    pub interval: i32,
    /// No request has named it yet.
    pub fresh: bool,
    pub attributes: Attributes,
}

impl Session {
    /// Nothing has named it for its interval, at `now` in whole seconds. An interval of 0 and less never passes.
    pub fn is_expired(&self, now: u64) -> bool
        ensures { result ≡ is_expired self.now now }
    {
        let Ok(interval) = u64::try_from(self.interval) else {
            return false;
        };
        interval > 0
            && match self.last.checked_add(interval) {
                Some(end) => end <= now,
                None => false,
            }
    }

    /// The two are equal.
    pub fn is_same(&self, other: &Session) -> bool
        ensures { Decides result (self.now ≡ other.now) }
    {
        self.context == other.context
            && self.secret == other.secret
            && self.created == other.created
            && self.last == other.last
            && self.interval == other.interval
            && self.fresh == other.fresh
            && self.attributes.is_same(&other.attributes)
    }

    /// An equal session in memory of its own.
    pub fn copy(&self, alloc: Global) -> Result<Session, AllocError>
        ensures { IfOk result (λ copy. copy ≡ self.now) }
    {
        Ok(Session {
            context: self.context,
            secret: self.secret,
            created: self.created,
            last: self.last,
            interval: self.interval,
            fresh: self.fresh,
            attributes: self.attributes.copy(alloc)?,
        })
    }
}
