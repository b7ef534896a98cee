//! What serves requests: servlets with their listeners, behind one trait.

ghost use Rattle.std.specs.Prelude.{◌≡◌, ℕ, List, IfOk};
ghost use Rattle.std.specs.Option.{option_map};
ghost use Rattle.sv_model.specs.Engine.{EngineMeaning, TouchesOnlyHanded, heard_all};
ghost use Rattle.sv_model.specs.Limits.{KeepsLimits, NamesKeys};
ghost use Rattle.sv_model.specs.declared.engine.EngineFault.TheVariants.{Memory};

use crate::event::Told;
use crate::key::{Key, Secret};
use crate::outcome::Outcome;
use crate::request::Request;
use crate::session::Session;
use std::alloc::AllocError;
use thiserror::Error;

/// Why a request was not served.
#[derive(Clone, Copy, Debug, PartialEq, Eq, Error)]
pub enum EngineFault {
    #[error("memory was refused while a request was served")]
    Memory,
}

impl From<AllocError> for EngineFault {
    ghost from_gives = { λ _ fault. fault ≡ Memory };

    fn from(_: AllocError) -> Self {
        EngineFault::Memory
    }
}

/// What answers requests, and tells listeners what became durable.
pub trait Engine {
    /// What it answers and what its listeners do at an event. No call changes it.
    ghost meaning: { Self → EngineMeaning };

    /// What each of its listeners has noted, a list of numbers each.
    ghost heard: { Self → List (List ℕ) };

    /// It may be called: its objects are ready.
    ghost valid: { Self → Type 0 };

    /// The session that a request names, by its key and secret.
    fn names(&self, request: &Request) -> Option<(Key, Secret)>
        ensures { result ≡ (meaning self.now).names request.now };

    /// Serves a request, with the session that it names where that is at hand, at `now` in whole seconds.
    ///
    /// `fresh` is the key and the secret of a session that is made; its secret is also that of the session where its
    /// id is changed. After want of memory the engine answers as before, and its listeners have been told nothing.
    fn serve(
        &mut self,
        request: &Request,
        session: Option<(Key, &Session)>,
        now: u64,
        fresh: (Key, Secret),
    ) -> Result<Outcome, EngineFault>
        requires { valid self.old }
        ensures valid { valid self.new }
        ensures outcome { IfOk result (λ o. o ≡ (meaning self.old).serve request.now (option_map (λ s. (s.0, s.1.now)) session.entry) now fresh) }
        ensures meaning { meaning self.new ≡ meaning self.old }
        ensures heard { heard self.new ≡ heard self.old };

    /// Tells the listeners of each event's context, in order.
    fn tell(&mut self, told: &[Told])
        requires { valid self.old }
        ensures valid { valid self.new }
        ensures meaning { meaning self.new ≡ meaning self.old }
        ensures heard { heard self.new ≡ heard_all (meaning self.old) (heard self.old) told.now };

    /// With no session handed in none is touched.
    ghost untouched: { (e : Self) → valid e → TouchesOnlyHanded (meaning e) };

    /// Handed a session within the limits, or none, it answers such sessions.
    ghost within_limits: { (e : Self) → valid e → KeepsLimits (meaning e) };

    /// A key that it names could have been made by a node.
    ghost names_keys: { (e : Self) → valid e → NamesKeys (meaning e) };
}
