//! What an engine answers to a request.

ghost use Rattle.std.specs.Prelude.{◌≡◌};

use crate::event::Told;
use crate::response::Response;
use crate::sequence::Sequence;
use crate::session::Session;

/// What became of the session that was handed in.
#[derive(Drop)]
pub enum Fate {
    /// None was handed in, or it was turned away.
    Untouched,
    Kept(Session),
    /// It was invalidated, or had expired.
    Ended,
}

/// What became of a session that was made while serving.
#[derive(Drop)]
pub enum Birth {
    /// None was made.
    Absent,
    Alive(Session),
    /// One was made and ended in the same request; its key is spent.
    Ended,
}

/// A response, what happened to sessions, and what listeners are to be told in order.
pub struct Outcome {
    pub response: Response,
    pub fate: Fate,
    pub birth: Birth,
    pub events: Sequence<Told>,
}

impl Outcome {
    /// The response, the fate, the birth and the events.
    pub fn into_parts(self) -> (Response, Fate, Birth, Sequence<Told>)
        ensures response { result.0 ≡ self.response }
        ensures fate { result.1 ≡ self.fate }
        ensures birth { result.2 ≡ self.birth }
        ensures events { result.3 ≡ self.events }
    {
        let Outcome {
            response,
            fate,
            birth,
            events,
        } = self;
        (response, fate, birth, events)
    }
}

/// By hand, so that the proof of a caller has one step for it and not one for each variant of its parts.
impl Drop for Outcome {
    fn drop(self) {
        let Outcome {
            response: _,
            fate: _,
            birth: _,
            events: _,
        } = self;
    }
}
