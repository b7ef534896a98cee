//! What a step of a node does to the one container that all nodes make up.

ghost use Rattle.std.specs.Prelude.{◌≡◌, IfOk};

use crate::key::{Key, Secret, Token};
use crate::request::Request;
use std::alloc::{AllocError, Global};

/// A step of the container.
#[derive(Drop)]
pub enum Commit {
    /// A request was served.
    Served {
        token: Token,
        request: Request,
        now: u64,
        /// It was served with the session that it names.
        handed: bool,
        /// The key and secret of a session that is made; the secret is also that of a session whose id is changed.
        fresh: (Key, Secret),
    },
    /// A session was ended because nothing had named it for its interval.
    Expired {
        key: Key,
        now: u64,
    },
}

impl Commit {
    /// An equal commit; the values of a request's fields share their bytes with it.
    pub fn copy(&self, alloc: Global) -> Result<Commit, AllocError>
        ensures { IfOk result (λ copy. copy ≡ self.now) }
    {
        let copy = match *self {
            Commit::Served {
                token,
                ref request,
                now,
                handed,
                fresh,
            } => Commit::Served {
                token,
                request: request.copy(alloc)?,
                now,
                handed,
                fresh,
            },
            Commit::Expired { key, now } => Commit::Expired { key, now },
        };
        Ok(copy)
    }
}
