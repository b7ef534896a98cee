//! What becomes of the session that is handed in with a request, before a servlet is asked (Jakarta Servlet 6.0, chapter
//! "Sessions").

ghost use Rattle.std.specs.Prelude.{◌≡◌, IfOk, option_copied, option_map, true};
ghost use Rattle.sv_session.specs.Expiry.{joined};
ghost use Rattle.sv_container.specs.Admission.{admission, arrival_of, expired_of, held_of, is_away, is_turned_away, joined_of, renamed_of, secret_of, turned_away};
ghost use Rattle.sv_container.specs.Serving.{bared, memory_if};

use crate::recall::is_returning;
use std::alloc::{AllocError, Global};
use sv_model::{Key, Request, Secret, Sequence, Session};
use sv_once::{Choice, take_memory};
use sv_session::{expired, join_request};

/// What becomes of the session that is handed in with a request.
#[derive(Drop)]
pub enum Admission {
    /// None was handed in.
    Without,
    /// It isn't the one that the request names, and is turned away.
    TurnedAway,
    /// It has expired.
    Expired(Key),
    /// It is joined to the request.
    Joined(Key, Session),
    /// It is joined to the request that gave it another secret, which comes again and names the one from before.
    Returned(Key, Session),
}

/// What is known of the session that was handed in, once a request is served.
#[derive(Clone, Copy)]
pub struct Arrival {
    /// The key of one that is joined.
    pub joined: Option<Key>,
    /// The secret by which the request names it.
    pub secret: Option<Secret>,
    /// One was turned away.
    pub is_away: bool,
}

impl Admission {
    /// What is to be known of the session once the request is served.
    pub fn arrival(&self) -> Arrival
        ensures { result ≡ arrival_of self.now }
    {
        Arrival {
            joined: self.joined(),
            secret: self.secret(),
            is_away: self.is_away(),
        }
    }

    /// The key of a session that is joined.
    pub fn joined(&self) -> Option<Key>
        ensures { result ≡ joined_of self.now }
    {
        match *self {
            Admission::Without | Admission::TurnedAway | Admission::Expired(_) => None,
            Admission::Joined(key, _) | Admission::Returned(key, _) => Some(key),
        }
    }

    /// The session that is held.
    pub fn held(&self) -> Option<(Key, &Session)>
        ensures { option_map (λ h. (h.0, h.1.now)) result ≡ held_of self.now }
    {
        match self {
            Admission::Without | Admission::TurnedAway | Admission::Expired(_) => None,
            Admission::Joined(key, session) | Admission::Returned(key, session) => {
                Some((*key, session))
            }
        }
    }

    /// The same without what the session that is held remembers, and that.
    pub fn into_bare(self, alloc: Global) -> (Admission, Sequence<u8>)
        ensures memory { result.1 ≡ memory_if true (held_of self) }
        ensures held { held_of result.0 ≡ bared true (held_of self) }
        ensures expired { expired_of result.0 ≡ expired_of self }
    {
        match self {
            Admission::Joined(key, session) => {
                let mut session = session;
                let memory = take_memory(alloc, &mut session);
                (Admission::Joined(key, session), memory)
            }
            Admission::Returned(key, session) => {
                let mut session = session;
                let memory = take_memory(alloc, &mut session);
                (Admission::Returned(key, session), memory)
            }
            other => (other, Sequence::new(alloc)),
        }
    }

    /// The secret by which a request names the session that is joined to it.
    fn secret(&self) -> Option<Secret>
        ensures { result ≡ secret_of self.now }
    {
        match self {
            Admission::Joined(_, session) => Some(session.secret),
            _ => None,
        }
    }

    /// The session of which the client has to be told by what secret it is named now.
    pub fn renamed(&self) -> Option<(Key, Secret)>
        ensures { result ≡ renamed_of self.now }
    {
        match self {
            Admission::Returned(key, session) => Some((*key, session.secret)),
            _ => None,
        }
    }

    /// One was handed in and turned away.
    fn is_away(&self) -> bool
        ensures { result ≡ is_away self.now }
    {
        matches!(self, Admission::TurnedAway)
    }

    /// The key of a session that has expired, and the session with which the edit begins.
    pub fn into_parts(self) -> (Option<Key>, Option<(Key, Session)>)
        ensures expired { result.0 ≡ expired_of self }
        ensures held { result.1 ≡ held_of self }
    {
        match self {
            Admission::Without | Admission::TurnedAway => (None, None),
            Admission::Expired(key) => (Some(key), None),
            Admission::Joined(key, session) | Admission::Returned(key, session) => {
                (None, Some((key, session)))
            }
        }
    }
}

/// The session isn't the one that the request names: it is of another context, or its secret is another.
fn is_turned_away(context: u8, named: Option<(Key, Secret)>, session: &Session) -> bool
    ensures { result ≡ is_turned_away context named session.now }
{
    match named {
        Some((_, secret)) => {
            session.context != context || session.secret.0.as_slice() != secret.0.as_slice()
        }
        None => true,
    }
}

/// A copy of the session, joined to the request.
fn join(alloc: Global, session: &Session, now: u64) -> Result<Session, AllocError>
    ensures { IfOk result (λ s. s ≡ joined session.now now) }
{
    let mut copy = session.copy(alloc)?;
    join_request(&mut copy, now);
    Ok(copy)
}

/// One that the request does not name, which is turned away unless the request comes again that gave it another secret.
fn turn_away(
    alloc: Global,
    choice: Option<&Choice>,
    context: u8,
    request: &Request,
    named: Option<(Key, Secret)>,
    key: Key,
    session: &Session,
    now: u64,
) -> Result<Admission, AllocError>
    ensures { IfOk result (λ a. a ≡ turned_away (option_copied choice.entry) context request.now named key session.now now) }
{
    let Some(choice) = choice else {
        return Ok(Admission::TurnedAway);
    };
    if is_returning(alloc, choice, context, request, named, session, now)? {
        Ok(Admission::Returned(key, join(alloc, session, now)?))
    } else {
        Ok(Admission::TurnedAway)
    }
}

/// What becomes of the session that is handed in with a request to a context that names `named`, at `now` in whole
/// seconds.
#[inline(always)]
pub fn admit(
    alloc: Global,
    choice: Option<&Choice>,
    context: u8,
    request: &Request,
    named: Option<(Key, Secret)>,
    handed: Option<(Key, &Session)>,
    now: u64,
) -> Result<Admission, AllocError>
    ensures { IfOk result (λ a. a ≡ admission (option_copied choice.entry) context request.now named (option_map (λ s. (s.0, s.1.now)) handed.entry) now) }
{
    match handed {
        None => Ok(Admission::Without),
        Some((key, session)) if is_turned_away(context, named, session) => {
            turn_away(alloc, choice, context, request, named, key, session, now)
        }
        Some((key, session)) if expired(session, now) => Ok(Admission::Expired(key)),
        Some((key, session)) => Ok(Admission::Joined(key, join(alloc, session, now)?)),
    }
}
