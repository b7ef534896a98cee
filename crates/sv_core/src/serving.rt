//! A request that is served: by the session that it names where that is active here, or without it.

ghost use Rattle.std.specs.Prelude.{◌≡◌, IfOk, option_copied, is_some};
ghost use Rattle.std.specs.Option.{option_map};
ghost use Rattle.std.specs.FinMap.{get};
ghost use Rattle.sv_model.specs.NodeState.{session_in};
ghost use Rattle.sv_model.specs.Serving.{fresh_of, held_in, is_birth, no_birth, token_of, named_change, born_change, entry_of, refused, answered, served};
ghost use Rattle.sv_model.specs.Engine.{EngineMeaning};
ghost use Rattle.sv_core.specs.Kept.{node_of};
ghost use Rattle.sv_core.specs.Table.{keys_of};
ghost use Rattle.sv_core.specs.Decision.{decision_of};
ghost use Rattle.sv_core.specs.Waiting.{parked_without, waiting_without};

use crate::decision::{Decision, Waiting, one_output};
use crate::fault::Memory;
use crate::kept::Kept;
use sv_model::{
    Birth, Cause, Change, Commit, Engine, Fate, Key, KeyState, Moment, Outcome, Output, Record,
    Request, Secret, Sequence, Session, Token,
};

/// A session was made.
fn is_birth(birth: &Birth) -> bool
    ensures { result ≡ is_birth birth.now }
{
    match birth {
        Birth::Absent => false,
        Birth::Alive(_) | Birth::Ended => true,
    }
}

/// What a record says of the session that is named.
fn named_change(named: Option<(Key, Secret)>, fate: Fate) -> Change
    ensures { result ≡ named_change named fate }
{
    let Some((key, _)) = named else {
        return Change::Absent;
    };
    match fate {
        Fate::Untouched => Change::Absent,
        Fate::Kept(session) => Change::Alive { key, session },
        Fate::Ended => Change::Ended(key),
    }
}

/// What a record says of the session that was made.
fn born_change(key: Key, birth: Birth) -> Change
    ensures { result ≡ born_change key birth }
{
    match birth {
        Birth::Absent => Change::Absent,
        Birth::Alive(session) => Change::Alive { key, session },
        Birth::Ended => Change::Ended(key),
    }
}

/// A record, where something has changed.
fn entry_of(named: Change, born: Change) -> Option<Record>
    ensures { result ≡ entry_of named born }
{
    match (&named, &born) {
        (Change::Absent, Change::Absent) => None,
        _ => Some(Record::Commit { named, born }),
    }
}

/// The session of a state.
fn session_in(state: Option<&KeyState>) -> Option<&Session>
    ensures { option_copied result ≡ session_in (option_copied state.entry) }
{
    match state {
        Some(KeyState::Active { session, .. }) => Some(session),
        _ => None,
    }
}

/// The one that leaves, if one does.
fn leaves(place: Option<usize>) -> Waiting
    ensures { result ≡ waiting_without place }
{
    match place {
        Some(place) => Waiting::Leaves(place),
        None => Waiting::Stays,
    }
}

impl Kept {
    /// The key and the secret of a session that is made; the serial is 0 where none is left.
    fn fresh(&self, moment: Moment) -> (Key, Secret)
        ensures { result ≡ fresh_of self.now.setting (node_of self.now).durable moment }
    {
        let serial = if self.next == u64::MAX { 0 } else { self.next };
        let key = Key {
            home: self.setting.node,
            serial,
        };
        (key, moment.secret)
    }

    fn token(&self, number: u64) -> Token
        ensures { result ≡ token_of self.now.setting (node_of self.now).durable number }
    {
        Token {
            number,
            node: self.setting.node,
            boot: self.boot,
        }
    }

    /// The session that a request names, where it is active here.
    fn held(&self, named: Option<(Key, Secret)>) -> Option<(Key, &Session)>
        ensures { option_map (λ s. (s.0, s.1.now)) result ≡ held_in (keys_of self.now.keys) named }
    {
        let (key, _) = named?;
        let session = session_in(self.keys.get(key))?;
        Some((key, session))
    }

    /// Why a session can't be made here.
    fn no_birth(&self, birth: &Birth) -> Option<Cause>
        ensures { result ≡ no_birth self.now.setting (node_of self.now).durable birth.now }
    {
        if !is_birth(birth) {
            return None;
        }
        if self.next == u64::MAX {
            return Some(Cause::SerialsSpent);
        }
        if self.is_full() {
            return Some(Cause::TableFull);
        }
        None
    }

    /// The request is refused; the one at this place leaves those that wait.
    // Out of line, so that the step of a request doesn't clear the values of this one.
    #[inline(never)]
    pub fn refuse(
        &self,
        token: u64,
        cause: Cause,
        leaving: Option<usize>,
    ) -> Result<Decision, Memory>
        ensures { IfOk result (λ d. decision_of self.now.setting (node_of self.now) d
            ≡ refused (node_of self.now) token cause (parked_without leaving self.now.parked.items)) }
    {
        let outputs = one_output(self.alloc, Output::Refuse { token, cause })?;
        Ok(Decision {
            entry: None,
            commit: None,
            told: Sequence::new(self.alloc),
            outputs: Sequence::from_vec(outputs),
            waiting: leaves(leaving),
        })
    }

    /// The request is answered; the one at this place leaves those that wait.
    fn answer(
        &self,
        moment: Moment,
        token: u64,
        request: Request,
        named: Option<(Key, Secret)>,
        handed: bool,
        outcome: Outcome,
        leaving: Option<usize>,
    ) -> Result<Decision, Memory>
        ensures { (m : EngineMeaning) → named ≡ m.names request → handed ≡ is_some (held_in (keys_of self.now.keys) named)
            → IfOk result (λ d. decision_of self.now.setting (node_of self.now) d
            ≡ answered m self.now.setting (node_of self.now) moment token request outcome (parked_without leaving self.now.parked.items)) }
    {
        let fresh = self.fresh(moment);
        let commit = Commit::Served {
            token: self.token(token),
            request,
            now: moment.now,
            handed,
            fresh,
        };
        let (response, fate, birth, events) = outcome.into_parts();
        let outputs = one_output(self.alloc, Output::Answer { token, response })?;
        Ok(Decision {
            entry: entry_of(named_change(named, fate), born_change(fresh.0, birth)),
            commit: Some(commit),
            told: events,
            outputs: Sequence::from_vec(outputs),
            waiting: leaves(leaving),
        })
    }
}

/// The request is served, with the session that it names where that is active here; the one at this place leaves those
/// that wait.
pub fn serve<E: Engine>(
    engine: &mut E,
    kept: &Kept,
    moment: Moment,
    token: u64,
    request: Request,
    named: Option<(Key, Secret)>,
    leaving: Option<usize>,
) -> Result<Decision, Memory>
    requires valid { E.valid engine.old }
    requires named { named ≡ (E.meaning engine.old).names request }
    ensures valid { E.valid engine.new }
    ensures meaning { E.meaning engine.new ≡ E.meaning engine.old }
    ensures heard { E.heard engine.new ≡ E.heard engine.old }
    ensures decision { IfOk result (λ d. decision_of kept.now.setting (node_of kept.now) d
        ≡ served (E.meaning engine.old) kept.now.setting (node_of kept.now) moment token request (parked_without leaving kept.now.parked.items)) }
{
    let held = kept.held(named);
    let handed = held.is_some();
    let outcome = engine.serve(&request, held, moment.now, kept.fresh(moment))?;
    if let Some(cause) = kept.no_birth(&outcome.birth) {
        return kept.refuse(token, cause, leaving);
    }
    kept.answer(moment, token, request, named, handed, outcome, leaving)
}
