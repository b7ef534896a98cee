//! An engine that counts the requests of a session.

ghost use Rattle.std.specs.Prelude.{◌≡◌, ◌∷◌, ⊤, [], Option, IfOk};
ghost use Rattle.sv_model.specs.declared.event.Event.TheVariants.{Destroyed};
ghost use Rattle.test_engine.specs.Counting.{named_by, first_at, counted, again_at, digit, begun, kept, untouched};

use http::StatusCode;
use std::alloc::{AllocError, Global};
use sv_model::{
    Attributes, Birth, Engine, EngineFault, Event, Fate, Key, Outcome, Request, Response, Secret,
    Sequence, Session, Told, is_head,
};

/// It makes a session where none is handed in, or an expired one, which it ends; and answers the last digit of the count.
#[derive(Drop)]
pub struct Counter {
    pub alloc: Global,
    pub secret: Secret,
}

/// The key that a body of two bytes names.
fn named_by(secret: Secret, body: &[u8]) -> Option<(Key, Secret)>
    ensures { result ≡ named_by secret body.now }
{
    match body {
        [home, serial] if *home < 8 && *serial > 0 => {
            let key = Key {
                home: *home,
                serial: *serial as u64,
            };
            Some((key, secret))
        }
        _ => None,
    }
}

/// A session that has served one request.
fn first_at(alloc: Global, now: u64, fresh: (Key, Secret)) -> Session
    ensures { result ≡ first_at now fresh }
{
    Session {
        context: 0,
        secret: fresh.1,
        created: 1,
        last: now,
        interval: 60,
        fresh: true,
        attributes: Attributes::new(alloc),
    }
}

/// One more, where a number is left.
fn counted(count: u64) -> u64
    ensures { result ≡ counted count }
{
    if count == u64::MAX { count } else { count + 1 }
}

/// The session after one more request.
fn again_at(alloc: Global, now: u64, session: &Session) -> Result<Session, AllocError>
    ensures { IfOk result (λ s. s ≡ again_at now session.now) }
{
    let mut kept = session.copy(alloc)?;
    kept.created = counted(kept.created);
    kept.last = kept.last.max(now);
    Ok(kept)
}

/// The last digit of a count.
fn digit(alloc: Global, count: u64) -> Result<Response, AllocError>
    ensures { IfOk result (λ response. response ≡ digit count) }
{
    let mut body = Sequence::new(alloc);
    body.push((count % 10) as u8 + 48)?;
    Ok(Response {
        status: StatusCode::OK,
        fields: Sequence::new(alloc),
        body,
        head_only: false,
        close: false,
    })
}

/// The first request of a session, which ends the one that was handed in and has expired.
fn begun(
    alloc: Global,
    fate: Fate,
    now: u64,
    fresh: (Key, Secret),
    events: Sequence<Told>,
) -> Result<Outcome, AllocError>
    ensures { IfOk result (λ outcome. outcome ≡ begun fate now fresh events) }
{
    Ok(Outcome {
        response: digit(alloc, 1)?,
        fate,
        birth: Birth::Alive(first_at(alloc, now, fresh)),
        events,
    })
}

/// One more request of a session.
fn kept(alloc: Global, now: u64, session: &Session) -> Result<Outcome, AllocError>
    ensures { IfOk result (λ outcome. outcome ≡ kept now session.now) }
{
    Ok(Outcome {
        response: digit(alloc, counted(session.created))?,
        fate: Fate::Kept(again_at(alloc, now, session)?),
        birth: Birth::Absent,
        events: Sequence::new(alloc),
    })
}

/// A HEAD, which touches no session.
fn untouched(alloc: Global) -> Result<Outcome, AllocError>
    ensures { IfOk result (λ outcome. outcome ≡ untouched) }
{
    let mut response = digit(alloc, 0)?;
    response.head_only = true;
    Ok(Outcome {
        response,
        fate: Fate::Untouched,
        birth: Birth::Absent,
        events: Sequence::new(alloc),
    })
}

/// That a session has ended.
fn ended(alloc: Global, key: Key) -> Result<Sequence<Told>, AllocError>
    ensures { IfOk result (λ events. events ≡ record { context = 0; event = Destroyed key } ∷ []) }
{
    let mut events = Sequence::new(alloc);
    events.push(Told {
        context: 0,
        event: Event::Destroyed(key),
    })?;
    Ok(events)
}

impl Engine for Counter {
    ghost use Rattle.test_engine.specs.Counting.{counts};
    ghost use Rattle.test_engine.specs.CountingLaws.{keeps_limits, touches_only_handed, names_keys};

    ghost meaning = { λ e. counts e.secret };

    ghost heard = { λ e. [] };

    ghost valid = { λ e. ⊤ };

    fn names(&self, request: &Request) -> Option<(Key, Secret)> {
        named_by(self.secret, request.body.as_slice())
    }

    fn serve(
        &mut self,
        request: &Request,
        session: Option<(Key, &Session)>,
        now: u64,
        fresh: (Key, Secret),
    ) -> Result<Outcome, EngineFault> {
        if is_head(&request.method) {
            return Ok(untouched(self.alloc)?);
        }
        match session {
            Some((key, session)) if session.is_expired(now) => {
                let events = ended(self.alloc, key)?;
                Ok(begun(self.alloc, Fate::Ended, now, fresh, events)?)
            }
            Some((_, session)) => Ok(kept(self.alloc, now, session)?),
            None => {
                let events = Sequence::new(self.alloc);
                Ok(begun(self.alloc, Fate::Untouched, now, fresh, events)?)
            }
        }
    }

    fn tell(&mut self, _told: &[Told]) {}

    ghost untouched = { λ e v. touches_only_handed e.secret };

    ghost within_limits = { λ e v. keeps_limits e.secret };

    ghost names_keys = { λ e v. names_keys e.secret };
}
