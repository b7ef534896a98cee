//! A site with one node and no disk.

ghost use Rattle.std.specs.Prelude.{◌≡◌, ◌+◌, ◌≤◌, ◌∷◌, [], length, vec_items, Ok};
ghost use Rattle.sv_model.specs.Site.{with_list};
ghost use Rattle.sv_model.specs.Serving.{no_birth};
ghost use Rattle.sv_model.specs.declared.input.Input.TheVariants.{Ask, Tick};
ghost use Rattle.sv_model.specs.declared.state.TheConstants.{KEY_LIMIT};
ghost use Rattle.sv_model.specs.NodeState.{known};
ghost use Rattle.sv_solo.specs.Table.{own_key, alone, node_of, refusal_for};

use crate::table::{expire, is_birth, keep, make_room, named_place, session_at, state_at};
use std::alloc::Global;
use sv_model::{
    Birth, Cause, Engine, Input, KEY_LIMIT, Key, Moment, MoveRefusal, Output, Request, Secret,
    Session, Site, StepFault,
};

/// One node that stands alone and keeps its sessions in memory.
///
/// Each session that it makes has the next serial, from 1; no key is ever forgotten, and after 65,536 of them a session
/// that would be made is refused with [`Cause::TableFull`].
#[derive(Drop)]
pub struct Solo<E> {
    pub engine: E,
    /// The sessions by their serials from 1; of one that has ended there is none.
    sessions: Vec<Option<Session>>,
    alloc: Global,
    ghost few: { length sessions.items ≤ KEY_LIMIT },
}

/// The key and the secret of a session that is made after these.
fn fresh_of(sessions: &[Option<Session>], moment: Moment) -> (Key, Secret)
    requires { length sessions.now ≤ KEY_LIMIT }
    ensures { result ≡ (own_key (length sessions.now + 1), moment.secret) }
{
    let key = Key {
        home: 0,
        serial: sessions.len() as u64 + 1,
    };
    (key, moment.secret)
}

/// Why a session can't be made beside these.
fn no_birth(sessions: &[Option<Session>], birth: &Birth) -> Option<Cause>
    requires { length sessions.now ≤ KEY_LIMIT }
    ensures { result ≡ no_birth alone (node_of sessions.now).durable birth.now }
{
    if !is_birth(birth) {
        return None;
    }
    if sessions.len() >= KEY_LIMIT {
        return Some(Cause::TableFull);
    }
    None
}

/// Why the session of a key isn't handed to another node, of which there is none.
#[tactic(auto, using(crate::proofs::TableLemmas::known_is))]
fn move_refusal(sessions: &[Option<Session>], key: Key) -> MoveRefusal
    ensures { result ≡ refusal_for (known (node_of sessions.now).durable key) }
{
    match state_at(sessions, key) {
        None => MoveRefusal::UnknownKey,
        Some(None) => MoveRefusal::NotActive,
        Some(Some(_)) => MoveRefusal::BadPeer,
    }
}

impl<E> Solo<E> {
    ghost use Rattle.sv_solo.specs.Solo.{IsNew};

    /// A node over an engine.
    pub fn new(alloc: Global, engine: E) -> Self
        ensures { IsNew result engine }
    {
        Solo {
            engine,
            sessions: Vec::new(alloc),
            alloc,
        }
    }
}

impl<E: Engine> Solo<E> {
    ghost use Rattle.sv_solo.specs.Solo.{solo_steps};

    /// Serves one request: what is put out for it, the answer or why there is none.
    fn serve(&mut self, moment: Moment, token: u64, request: &Request) -> Result<Output, StepFault>
        requires { E.valid self.old.engine }
        ensures valid { E.valid self.new.engine }
        ensures step { solo_steps E.meaning E.heard self.old moment (Ask token request.now) (with_list (λ o. o ∷ []) result) self.new }
    {
        let named = self.engine.names(request);
        let place = named_place(self.sessions.as_slice(), named);
        let fresh = fresh_of(self.sessions.as_slice(), moment);
        let held = session_at(self.sessions.as_slice(), named, place);
        let outcome = self.engine.serve(request, held, moment.now, fresh)?;
        if let Some(cause) = no_birth(self.sessions.as_slice(), &outcome.birth) {
            return Ok(Output::Refuse { token, cause });
        }
        make_room(&mut self.sessions, &outcome.birth)?;
        let (response, events) = keep(&mut self.sessions, place, outcome);
        self.engine.tell(events.as_slice());
        Ok(Output::Answer { token, response })
    }

    /// Serves one request.
    fn ask(
        &mut self,
        moment: Moment,
        token: u64,
        request: &Request,
    ) -> Result<Vec<Output>, StepFault>
        requires { E.valid self.old.engine }
        ensures valid { E.valid self.new.engine }
        ensures step { solo_steps E.meaning E.heard self.old moment (Ask token request.now) (with_list vec_items result) self.new }
    {
        let mut outputs = Vec::with_capacity(self.alloc, 1)?;
        outputs.push_reserved(self.serve(moment, token, request)?);
        Ok(outputs)
    }

    /// Ends the session of the least key that has expired.
    fn tick(&mut self, moment: Moment) -> Vec<Output>
        requires { E.valid self.old.engine }
        ensures valid { E.valid self.new.engine }
        ensures step { solo_steps E.meaning E.heard self.old moment Tick (Ok result.items) self.new }
    {
        let Some(told) = expire(&mut self.sessions, moment.now) else {
            return Vec::new(self.alloc);
        };
        self.engine.tell(&[told]);
        Vec::new(self.alloc)
    }
}

impl<E: Engine> Site for Solo<E> {
    ghost use Rattle.sv_solo.specs.Solo.{solo_steps};

    ghost steps = { solo_steps E.meaning E.heard };

    ghost site_valid = { λ s. E.valid s.engine };

    fn step(&mut self, moment: Moment, input: Input) -> Result<Vec<Output>, StepFault> {
        match input {
            Input::Ask { token, request } => self.ask(moment, token, &request),
            Input::Tick => Ok(self.tick(moment)),
            Input::Packet(_) | Input::Poke => Ok(Vec::new(self.alloc)),
            Input::Move { key, to: _ } => {
                let mut outputs = Vec::with_capacity(self.alloc, 1)?;
                let why = move_refusal(self.sessions.as_slice(), key);
                outputs.push_reserved(Output::MoveRefused(why));
                Ok(outputs)
            }
        }
    }
}
