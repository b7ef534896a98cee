//! Engines of the tests' own.

ghost use Rattle.std.specs.Prelude.{◌≡◌, ⊤, refl, [], false, None, IfOk};
ghost use Rattle.sv_model.specs.declared.outcome.Fate.TheVariants.{Untouched};
ghost use Rattle.sv_model.specs.declared.outcome.Birth.TheVariants.{Absent};
ghost use Rattle.test_requests.specs.Turns.{made_at};

use http::StatusCode;
use std::alloc::{AllocError, Global};
use sv_model::{
    Attributes, Birth, Engine, EngineFault, Fate, Key, Outcome, Request, Response, Secret,
    Sequence, Session, Told,
};

/// The target as it was sent, with status 200 and no fields.
fn said(alloc: Global, request: &Request) -> Result<Response, AllocError>
    ensures { IfOk result (λ response. response ≡ record {
      status = 200;
      fields =
          [];
      body = request.now.raw_path;
      head_only = false;
      close = request.now.close;
    }) }
{
    let mut body = Sequence::new(alloc);
    body.extend_from_slice(request.raw_path.as_str().as_bytes())?;
    Ok(Response {
        status: StatusCode::OK,
        fields: Sequence::new(alloc),
        body,
        head_only: false,
        close: request.close,
    })
}

/// Makes no sessions.
#[derive(Drop)]
pub(super) struct Greeter {
    pub(super) alloc: Global,
}

impl Engine for Greeter {
    ghost meaning = { λ e. record {
      names = λ r. None;
      serve = λ r held now fresh. record {
        response = record { status = 200; fields = []; body = r.raw_path; head_only = false; close = r.close };
        fate = Untouched;
        birth = Absent;
        events = [];
      };
      hear = λ heard told. heard;
    } };

    ghost heard = { λ e. [] };

    ghost valid = { λ e. ⊤ };

    fn names(&self, _request: &Request) -> Option<(Key, Secret)> {
        None
    }

    fn serve(
        &mut self,
        request: &Request,
        _session: Option<(Key, &Session)>,
        _now: u64,
        _fresh: (Key, Secret),
    ) -> Result<Outcome, EngineFault> {
        Ok(Outcome {
            response: said(self.alloc, request)?,
            fate: Fate::Untouched,
            birth: Birth::Absent,
            events: Sequence::new(self.alloc),
        })
    }

    fn tell(&mut self, _told: &[Told]) {}

    ghost untouched = { λ e v r now fresh. refl };

    ghost within_limits = { λ e v r held now fresh within. (tt, tt) };

    ghost names_keys = { λ e v r. tt };
}

/// Ends the session that is handed in, and makes one where none is; counts what its listeners are told.
#[derive(Drop)]
pub(super) struct Turner {
    pub(super) alloc: Global,
    pub(super) named: Option<(Key, Secret)>,
    pub(super) told: usize,
}

/// A session that expires after 60 seconds.
fn made_at(alloc: Global, now: u64, fresh: (Key, Secret)) -> Session
    ensures { result ≡ made_at now fresh }
{
    Session {
        context: 0,
        secret: fresh.1,
        created: now,
        last: now,
        interval: 60,
        fresh: true,
        attributes: Attributes::new(alloc),
    }
}

impl Engine for Turner {
    ghost use Rattle.std.specs.Prelude.{refl, IfSome, [], ◌<◌};
    ghost use Rattle.test_requests.specs.Turns.{turns};
    ghost use Rattle.test_requests.specs.TurnLaws.{turns_within};

    ghost meaning = { λ e. turns e.named };

    ghost heard = { λ e. [] };

    ghost valid = { λ e. IfSome e.named (λ n. (n.0.home < 8) × (0 < n.0.serial)) };

    fn names(&self, _request: &Request) -> Option<(Key, Secret)> {
        self.named
    }

    fn serve(
        &mut self,
        request: &Request,
        session: Option<(Key, &Session)>,
        now: u64,
        fresh: (Key, Secret),
    ) -> Result<Outcome, EngineFault> {
        let response = said(self.alloc, request)?;
        let events = Sequence::new(self.alloc);
        match session {
            Some(_) => Ok(Outcome {
                response,
                fate: Fate::Ended,
                birth: Birth::Absent,
                events,
            }),
            None => Ok(Outcome {
                response,
                fate: Fate::Untouched,
                birth: Birth::Alive(made_at(self.alloc, now, fresh)),
                events,
            }),
        }
    }

    fn tell(&mut self, told: &[Told]) {
        self.told = self.told.saturating_add(told.len());
    }

    ghost untouched = { λ e v r now fresh. refl };

    ghost within_limits = { λ e v. turns_within e.named };

    ghost names_keys = { λ e v r. v };
}
