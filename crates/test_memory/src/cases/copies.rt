//! Copies of the plain data.

use crate::again::{Refusals, Unshown, again, done};
use crate::{given, shown};
use std::alloc::{AllocError, Global};
use sv_model::{
    Attributes, Change, Commit, Copied, Event, Field, Input, KeyState, Output, Packet, Record,
    Request, Response, Sequence, Session, Text, Token, Told,
};

type Shown = Result<String, Unshown>;

/// A value that is copied, and shown: enough to tell it from any that a copy could be by mistake.
pub trait Copying: Drop {
    /// The value.
    fn made(alloc: Global) -> Result<Self, AllocError>;

    fn copied(&self, alloc: Global) -> Result<Self, AllocError>;

    fn shown(&self, alloc: Global) -> Shown;
}

/// A copy of a value, made once more where memory is refused to it.
fn copied_of<T: Copying>(alloc: Global, refusals: &mut Refusals, value: &T) -> Shown {
    match again!(refusals, value.copied(alloc)) {
        Ok(copy) => copy.shown(alloc),
        Err(why) => Err(why),
    }
}

/// A copy of the value of this type.
pub fn copied<T: Copying>(alloc: Global, refusals: &mut Refusals) -> Shown {
    copied_of(alloc, refusals, &T::made(alloc)?)
}

impl Copying for Text {
    fn made(alloc: Global) -> Result<Self, AllocError> {
        given::text(alloc, "a text")
    }

    fn copied(&self, alloc: Global) -> Result<Self, AllocError> {
        self.copy(alloc)
    }

    fn shown(&self, alloc: Global) -> Shown {
        done(String::from_str(alloc, self.as_str()))
    }
}

impl Copying for Sequence<u8> {
    fn made(alloc: Global) -> Result<Self, AllocError> {
        given::bytes(alloc, b"bytes")
    }

    fn copied(&self, alloc: Global) -> Result<Self, AllocError> {
        self.copy(alloc)
    }

    fn shown(&self, alloc: Global) -> Shown {
        done(format!(in alloc; "{:?}", self.as_slice()))
    }
}

impl Copying for Field {
    fn made(alloc: Global) -> Result<Self, AllocError> {
        given::field(alloc)
    }

    fn copied(&self, alloc: Global) -> Result<Self, AllocError> {
        self.copy(alloc)
    }

    fn shown(&self, alloc: Global) -> Shown {
        let value = self.value.to_str().unwrap_or("?");
        done(format!(in alloc; "{} {value}", self.name.as_str()))
    }
}

impl Copying for Request {
    fn made(alloc: Global) -> Result<Self, AllocError> {
        given::request(alloc, "/a")
    }

    fn copied(&self, alloc: Global) -> Result<Self, AllocError> {
        self.copy(alloc)
    }

    fn shown(&self, alloc: Global) -> Shown {
        done(shown::request(alloc, self))
    }
}

impl Copying for Response {
    fn made(alloc: Global) -> Result<Self, AllocError> {
        given::response(alloc)
    }

    fn copied(&self, alloc: Global) -> Result<Self, AllocError> {
        self.copy(alloc)
    }

    fn shown(&self, alloc: Global) -> Shown {
        done(shown::response(alloc, self))
    }
}

impl Copying for Attributes {
    fn made(alloc: Global) -> Result<Self, AllocError> {
        given::attributes(alloc)
    }

    fn copied(&self, alloc: Global) -> Result<Self, AllocError> {
        self.copy(alloc)
    }

    fn shown(&self, alloc: Global) -> Shown {
        done(shown::attributes(alloc, self))
    }
}

impl Copying for Session {
    fn made(alloc: Global) -> Result<Self, AllocError> {
        given::session(alloc)
    }

    fn copied(&self, alloc: Global) -> Result<Self, AllocError> {
        self.copy(alloc)
    }

    fn shown(&self, alloc: Global) -> Shown {
        done(shown::session(alloc, self))
    }
}

/// What is handed on in a value of one of several kinds.
fn session_in(alloc: Global, session: Option<&Session>) -> Shown {
    match session {
        Some(session) => done(shown::session(alloc, session)),
        None => Err(Unshown::Other),
    }
}

impl Copying for KeyState {
    fn made(alloc: Global) -> Result<Self, AllocError> {
        sent_state(alloc)
    }

    fn copied(&self, alloc: Global) -> Result<Self, AllocError> {
        self.copy(alloc)
    }

    fn shown(&self, alloc: Global) -> Shown {
        let session = match self {
            KeyState::Sent { session, .. } => Some(session),
            _ => None,
        };
        session_in(alloc, session)
    }
}

fn sent_state(alloc: Global) -> Result<KeyState, AllocError> {
    Ok(KeyState::Sent {
        epoch: 2,
        session: given::session(alloc)?,
        to: 1,
    })
}

impl Copying for Change {
    fn made(alloc: Global) -> Result<Self, AllocError> {
        alive(alloc)
    }

    fn copied(&self, alloc: Global) -> Result<Self, AllocError> {
        self.copy(alloc)
    }

    fn shown(&self, alloc: Global) -> Shown {
        let session = match self {
            Change::Alive { session, .. } => Some(session),
            _ => None,
        };
        session_in(alloc, session)
    }
}

fn alive(alloc: Global) -> Result<Change, AllocError> {
    Ok(Change::Alive {
        key: given::KEY,
        session: given::session(alloc)?,
    })
}

impl Copying for Record {
    fn made(alloc: Global) -> Result<Self, AllocError> {
        sent(alloc)
    }

    fn copied(&self, alloc: Global) -> Result<Self, AllocError> {
        self.copy(alloc)
    }

    fn shown(&self, alloc: Global) -> Shown {
        let session = match self {
            Record::Sent { session, .. } => Some(session),
            _ => None,
        };
        session_in(alloc, session)
    }
}

fn sent(alloc: Global) -> Result<Record, AllocError> {
    Ok(Record::Sent {
        key: given::KEY,
        epoch: 2,
        to: 1,
        session: given::session(alloc)?,
    })
}

impl Copying for Packet {
    fn made(alloc: Global) -> Result<Self, AllocError> {
        grant(alloc)
    }

    fn copied(&self, alloc: Global) -> Result<Self, AllocError> {
        self.copy(alloc)
    }

    fn shown(&self, alloc: Global) -> Shown {
        let session = match self {
            Packet::Grant { session, .. } => Some(session),
            _ => None,
        };
        session_in(alloc, session)
    }
}

fn grant(alloc: Global) -> Result<Packet, AllocError> {
    Ok(Packet::Grant {
        from: 0,
        to: 1,
        key: given::KEY,
        epoch: 2,
        session: given::session(alloc)?,
    })
}

/// An attribute was given another value.
fn replaced(alloc: Global) -> Result<Event, AllocError> {
    let name = given::text(alloc, "user")?;
    let old = given::bytes(alloc, b"ann")?;
    Ok(Event::Replaced {
        key: given::KEY,
        name,
        old,
    })
}

impl Copying for Event {
    fn made(alloc: Global) -> Result<Self, AllocError> {
        replaced(alloc)
    }

    fn copied(&self, alloc: Global) -> Result<Self, AllocError> {
        self.copy(alloc)
    }

    fn shown(&self, alloc: Global) -> Shown {
        match self {
            Event::Replaced { name, .. } => done(String::from_str(alloc, name.as_str())),
            _ => Err(Unshown::Other),
        }
    }
}

impl Copying for Told {
    fn made(alloc: Global) -> Result<Self, AllocError> {
        replaced_in(alloc, 3)
    }

    fn copied(&self, alloc: Global) -> Result<Self, AllocError> {
        self.copy(alloc)
    }

    fn shown(&self, alloc: Global) -> Shown {
        self.event.shown(alloc)
    }
}

fn replaced_in(alloc: Global, context: u8) -> Result<Told, AllocError> {
    let event = replaced(alloc)?;
    Ok(Told { context, event })
}

/// The number of a request that was served.
const TOKEN: Token = Token {
    number: 1,
    node: 0,
    boot: 1,
};

fn served(alloc: Global) -> Result<Commit, AllocError> {
    Ok(Commit::Served {
        token: TOKEN,
        request: given::request(alloc, "/a")?,
        now: given::NOW,
        handed: true,
        fresh: (given::KEY, given::SECRET),
    })
}

impl Copying for Commit {
    fn made(alloc: Global) -> Result<Self, AllocError> {
        served(alloc)
    }

    fn copied(&self, alloc: Global) -> Result<Self, AllocError> {
        self.copy(alloc)
    }

    fn shown(&self, alloc: Global) -> Shown {
        match self {
            Commit::Served { request, .. } => done(shown::request(alloc, request)),
            _ => Err(Unshown::Other),
        }
    }
}

fn asked(alloc: Global) -> Result<Input, AllocError> {
    Ok(Input::Ask {
        token: 1,
        request: given::request(alloc, "/a")?,
    })
}

fn come(alloc: Global) -> Result<Input, AllocError> {
    Ok(Input::Packet(grant(alloc)?))
}

impl Copying for Input {
    fn made(alloc: Global) -> Result<Self, AllocError> {
        asked(alloc)
    }

    fn copied(&self, alloc: Global) -> Result<Self, AllocError> {
        self.copy(alloc)
    }

    fn shown(&self, alloc: Global) -> Shown {
        match self {
            Input::Ask { request, .. } => done(shown::request(alloc, request)),
            Input::Packet(packet) => packet.shown(alloc),
            _ => Err(Unshown::Other),
        }
    }
}

fn answered(alloc: Global) -> Result<Output, AllocError> {
    Ok(Output::Answer {
        token: 1,
        response: given::response(alloc)?,
    })
}

impl Copying for Output {
    fn made(alloc: Global) -> Result<Self, AllocError> {
        answered(alloc)
    }

    fn copied(&self, alloc: Global) -> Result<Self, AllocError> {
        self.copy(alloc)
    }

    fn shown(&self, alloc: Global) -> Shown {
        match self {
            Output::Answer { response, .. } => done(shown::response(alloc, response)),
            _ => Err(Unshown::Other),
        }
    }
}

/// A copy of a packet that has come.
pub fn packet_in(alloc: Global, refusals: &mut Refusals) -> Shown {
    copied_of(alloc, refusals, &come(alloc)?)
}
