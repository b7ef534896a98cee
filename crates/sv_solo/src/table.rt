//! The sessions that a node alone has made.

ghost use Rattle.std.specs.Prelude.{◌≡◌, ◌+◌, ◌<◌, length, true, Some, IfSome, IfOk, position, slice_get, option_copied, vec_len, vec_capacity};
ghost use Rattle.std.specs.Option.{option_to_list, option_map};
ghost use Rattle.std.specs.FinMap.{get};
ghost use Rattle.sv_model.specs.Serving.{held_in, is_birth};
ghost use Rattle.sv_solo.specs.Table.{IsPlace, IsMade, keys_of, state_of, active_in, if_active, fated_at, born_behind, is_past, without_at, end_at};

use std::alloc::AllocError;
use sv_model::{Birth, Event, Fate, Key, Outcome, Response, Secret, Sequence, Session, Told};

/// The place of a key among so many that were made here.
fn place_of(key: Key, made: usize) -> Option<usize>
    ensures { IsMade key made result }
{
    if key.home != 0 || key.serial == 0 || key.serial > made as u64 {
        return None;
    }
    Some((key.serial - 1) as usize)
}

/// What stands at a place; its clause is `get`'s in the words of the table.
fn slot_at(sessions: &[Option<Session>], place: usize) -> Option<&Option<Session>>
    ensures { option_copied result ≡ slice_get sessions.now place }
{
    sessions.get(place)
}

/// What was made under a key: nothing, a session that has ended, or one that is active.
pub fn state_at(sessions: &[Option<Session>], key: Key) -> Option<&Option<Session>>
    ensures { option_map state_of (option_copied result) ≡ get (keys_of sessions.now) key }
{
    match place_of(key, sessions.len()) {
        Some(place) => slot_at(sessions, place),
        None => None,
    }
}

/// The session at a place, if it is active.
fn active_session(sessions: &[Option<Session>], place: usize) -> Option<&Session>
    ensures { option_copied result ≡ active_in (slice_get sessions.now place) }
{
    match sessions.get(place) {
        Some(session) => session.as_ref(),
        None => None,
    }
}

/// The place, if its session is active.
fn if_active(sessions: &[Option<Session>], place: usize) -> Option<usize>
    ensures { result ≡ if_active (slice_get sessions.now place) place }
{
    match active_session(sessions, place) {
        Some(_) => Some(place),
        None => None,
    }
}

/// The place of a key's session, if it is active.
fn active_place(sessions: &[Option<Session>], key: Key, secret: Secret) -> Option<usize>
    ensures { IsPlace sessions.now (Some (key, secret)) result }
{
    match place_of(key, sessions.len()) {
        Some(place) => if_active(sessions, place),
        None => None,
    }
}

/// The place of the session that is named, if it is active.
pub fn named_place(sessions: &[Option<Session>], named: Option<(Key, Secret)>) -> Option<usize>
    ensures { IsPlace sessions.now named result }
{
    match named {
        Some((key, secret)) => active_place(sessions, key, secret),
        None => None,
    }
}

/// The session that is named, with its key.
pub fn session_at(
    sessions: &[Option<Session>],
    named: Option<(Key, Secret)>,
    place: Option<usize>,
) -> Option<(Key, &Session)>
    requires { IsPlace sessions.now named place }
    ensures { option_map (λ s. (s.0, s.1.now)) result ≡ held_in (keys_of sessions.now) named }
{
    let Some(place) = place else {
        return None;
    };
    let Some((key, _)) = named else {
        return None;
    };
    match active_session(sessions, place) {
        Some(session) => Some((key, session)),
        None => None,
    }
}

/// What becomes of the session that was named.
fn settle(sessions: &mut Vec<Option<Session>>, place: Option<usize>, fate: Fate)
    requires { IfSome place (λ at. at < length sessions.old.items) }
    ensures items { sessions.new.items ≡ fated_at place fate sessions.old.items }
    ensures len { vec_len sessions.new ≡ vec_len sessions.old }
    ensures capacity { vec_capacity sessions.new ≡ vec_capacity sessions.old }
{
    let Some(place) = place else {
        return;
    };
    match fate {
        Fate::Untouched => {}
        Fate::Kept(session) => sessions[place] = Some(session),
        Fate::Ended => sessions[place] = None,
    }
}

/// A session was made.
pub fn is_birth(birth: &Birth) -> bool
    ensures { result ≡ is_birth birth.now }
{
    match birth {
        Birth::Absent => false,
        Birth::Alive(_) | Birth::Ended => true,
    }
}

/// Makes room for a session, if one was made.
pub fn make_room(sessions: &mut Vec<Option<Session>>, birth: &Birth) -> Result<(), AllocError>
    ensures items { sessions.new.items ≡ sessions.old.items }
    ensures room { IfOk result (λ _. is_birth birth.now ≡ true → vec_len sessions.new < vec_capacity sessions.new) }
{
    if is_birth(birth) {
        sessions.try_reserve(1)?;
    }
    Ok(())
}

/// Adds the session that was made.
fn add_born(sessions: &mut Vec<Option<Session>>, birth: Birth)
    requires { is_birth birth ≡ true → vec_len sessions.old < vec_capacity sessions.old }
    ensures { sessions.new.items ≡ born_behind birth sessions.old.items }
{
    match birth {
        Birth::Absent => {}
        Birth::Alive(session) => sessions.push_reserved(Some(session)),
        Birth::Ended => sessions.push_reserved(None),
    }
}

/// What becomes of the session that was named, and the one that was made; the response and the events are handed on.
pub fn keep(
    sessions: &mut Vec<Option<Session>>,
    place: Option<usize>,
    outcome: Outcome,
) -> (Response, Sequence<Told>)
    requires place { IfSome place (λ at. at < length sessions.old.items) }
    requires room { is_birth outcome.birth ≡ true → vec_len sessions.old < vec_capacity sessions.old }
    ensures items { sessions.new.items ≡ born_behind outcome.birth (fated_at place outcome.fate sessions.old.items) }
    ensures response { result.0 ≡ outcome.response }
    ensures events { result.1 ≡ outcome.events }
{
    let (response, fate, birth, events) = outcome.into_parts();
    settle(sessions, place, fate);
    add_born(sessions, birth);
    (response, events)
}

/// The place of the least key whose session has expired.
fn expired_place(sessions: &[Option<Session>], now: u64) -> Option<usize>
    ensures { result ≡ position (is_past now) sessions.now }
{
    sessions.iter().position(|session| is_past(session, now))
}

/// The session is active, and has expired.
fn is_past(session: &Option<Session>, now: u64) -> bool
    ensures { result ≡ is_past now session.now }
{
    match session {
        Some(session) => session.is_expired(now),
        None => false,
    }
}

/// Ends the session at a place, and says what listeners are told of that.
fn end_session(sessions: &mut Vec<Option<Session>>, place: usize) -> Option<Told>
    requires { place < length sessions.old.items }
    ensures sessions { sessions.new.items ≡ without_at (Some place) sessions.old.items }
    ensures told { option_to_list result ≡ end_at (Some place) sessions.old.items }
{
    let context = sessions[place].as_ref()?.context;
    sessions[place] = None;
    let key = Key {
        home: 0,
        serial: place as u64 + 1,
    };
    Some(Told {
        context,
        event: Event::Destroyed(key),
    })
}

/// Ends the session of the least key that has expired, and says what listeners are told of that.
pub fn expire(sessions: &mut Vec<Option<Session>>, now: u64) -> Option<Told>
    ensures sessions { sessions.new.items ≡ without_at (position (is_past now) sessions.old.items) sessions.old.items }
    ensures told { option_to_list result ≡ end_at (position (is_past now) sessions.old.items) sessions.old.items }
{
    let place = expired_place(sessions.as_slice(), now)?;
    end_session(sessions, place)
}
