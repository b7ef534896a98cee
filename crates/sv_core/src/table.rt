//! The keys that a node knows.

ghost use Rattle.std.specs.Prelude.{◌≡◌, ◌<◌, ◌≤◌, ◌+◌, OnOk, [], length, option_copied, vec_len, vec_capacity};
ghost use Rattle.std.specs.FinMap.{get, insert, remove, len};
ghost use Rattle.sv_core.specs.Places.{AreWithin, AreApart, AreSpare, AreBelow, IsPutDown, state_at, sent_among, is_handed_over};
ghost use Rattle.sv_core.specs.Directory.{places_in};
ghost use Rattle.sv_model.specs.NodeState.{is_own};
ghost use Rattle.sv_model.specs.Serving.{kept_at, over_at, ended_at};
ghost use Rattle.sv_model.specs.Keys.{same_key};

use crate::directory::Directory;
use crate::places::{mark, remove};
use std::alloc::{AllocError, Global};
use sv_model::{Key, KeyState, Session};

/// What a node knows of each key.
#[derive(Drop)]
pub struct Table {
    /// The keys in their order, each with the place of its state.
    places: Directory,
    /// What is known of the keys, as they came. Each keeps its place; that of a key that is forgotten is taken by the next that
    /// comes.
    states: Vec<KeyState>,
    /// The places of keys that were forgotten.
    free: Vec<usize>,
    /// Of the places those whose session was handed over, and not yet acknowledged.
    sent: Vec<(Key, usize)>,
    ghost within: { AreWithin (length states.items) (places_in places) },
    ghost apart: { AreApart (places_in places) },
    ghost spare: { AreSpare (length states.items) (places_in places) free.items },
    ghost walked: { sent.items ≡ sent_among states.items (places_in places) },
}

/// The two are one key.
pub fn is_same(key: Key, other: Key) -> bool
    ensures { result ≡ same_key key other }
{
    key.home == other.home && key.serial == other.serial
}

/// The session was handed over, and not yet acknowledged.
fn is_handed_over(state: &KeyState) -> bool
    ensures { result ≡ is_handed_over state.now }
{
    matches!(state, KeyState::Sent { .. })
}

/// The key is of the home whose keys are forgotten.
pub fn is_own(home: Option<u8>, key: Key) -> bool
    ensures { result ≡ is_own home key }
{
    match home {
        Some(home) => key.home == home,
        None => false,
    }
}

/// Puts a state down at a free place, and after all others where there is none. Its place comes back.
fn put_down(states: &mut Vec<KeyState>, free: &mut Vec<usize>, state: KeyState) -> usize
    requires room { vec_len states.old < vec_capacity states.old }
    requires below { AreBelow (length states.old.items) free.old.items }
    ensures down { IsPutDown states.old.items free.old.items states.new.items free.new.items result state }
    ensures len { vec_len states.new ≤ vec_len states.old + 1 }
    ensures capacity { vec_capacity states.old ≤ vec_capacity states.new }
    ensures free_len { vec_len free.new ≤ vec_len free.old }
    ensures free_capacity { vec_capacity free.old ≤ vec_capacity free.new }
{
    match free.pop() {
        Some(place) => {
            states[place] = state;
            place
        }
        None => {
            let place = states.len();
            states.push_reserved(state);
            place
        }
    }
}

impl Table {
    ghost use Rattle.sv_core.specs.Table.{keys_of, HasRoom, HasPlace};

    /// No keys, for a node of this number.
    pub fn new(alloc: Global, node: u8) -> Self
        ensures { places_in result.places ≡ [] }
    {
        Table {
            places: Directory::new(alloc, node),
            states: Vec::new(alloc),
            free: Vec::new(alloc),
            sent: Vec::new(alloc),
        }
    }

    /// How many keys are known.
    pub fn len(&self) -> usize
        ensures { result ≡ len (keys_of self.now) }
    {
        self.places.len()
    }

    /// What is known of a key.
    pub fn get(&self, key: Key) -> Option<&KeyState>
        ensures { option_copied result ≡ get (keys_of self.now) key }
    {
        let place = self.places.place_of(key)?;
        Some(&self.states[place])
    }

    /// The keys in their order, each with the place of its state.
    pub fn places(&self) -> &Directory
        ensures { result.now ≡ self.now.places }
    {
        &self.places
    }

    /// The keys whose session was handed over, and not yet acknowledged, in their order.
    pub fn handed_over(&self) -> &[(Key, usize)]
        ensures { result.now ≡ self.now.sent.items }
    {
        self.sent.as_slice()
    }

    /// What is known of the keys, as they came; nothing of interest stands at the places that are free.
    pub fn states(&self) -> &[KeyState]
        ensures { result.now ≡ self.now.states.items }
    {
        self.states.as_slice()
    }

    /// The state at a place.
    pub fn state(&self, place: usize) -> &KeyState
        requires { place < length self.now.states.items }
        ensures { result.now ≡ state_at self.now.states.items place }
    {
        &self.states[place]
    }

    /// Makes room for what one record says of keys.
    pub fn reserve(&mut self) -> Result<(), AllocError>
        ensures keys { keys_of self.new ≡ keys_of self.old }
        ensures room { OnOk result (HasRoom self.new) }
    {
        // a record names two keys at most: the one of a request, and the one of a session that was made
        self.places.reserve()?;
        self.sent.try_reserve(2)?;
        self.free.try_reserve(2)?;
        self.states.try_reserve(2)
    }

    /// Puts down what is known of a key from now on.
    pub fn put(&mut self, key: Key, state: KeyState)
        requires { HasPlace self.old }
        ensures keys { keys_of self.new ≡ insert (keys_of self.old) key state }
        ensures room { HasRoom self.old → HasPlace self.new }
    {
        let is_sent = is_handed_over(&state);
        match self.places.place_of(key) {
            Some(place) => {
                mark(&mut self.sent, key, place, is_sent);
                self.states[place] = state;
            }
            None => {
                let place = put_down(&mut self.states, &mut self.free, state);
                self.places.add(key, place);
                mark(&mut self.sent, key, place, is_sent);
            }
        }
    }

    /// The key is known no more.
    fn forget(&mut self, key: Key)
        requires { HasPlace self.old }
        ensures keys { keys_of self.new ≡ remove (keys_of self.old) key }
        ensures room { HasRoom self.old → HasPlace self.new }
    {
        if let Some(place) = self.places.place_of(key) {
            self.places.remove(key);
            remove(&mut self.sent, key);
            // its session takes memory no longer
            self.states[place] = KeyState::Gone { epoch: 0 };
            self.free.push_reserved(place);
        }
    }

    /// The session has ended at this epoch. The key is forgotten where it is of this home.
    pub fn close(&mut self, home: Option<u8>, key: Key, epoch: u64)
        requires { HasPlace self.old }
        ensures keys { keys_of self.new ≡ over_at home key epoch (keys_of self.old) }
        ensures room { HasRoom self.old → HasPlace self.new }
    {
        if is_own(home, key) {
            self.forget(key);
        } else {
            self.put(key, KeyState::Ended { epoch });
        }
    }

    /// The session stays active, and is this from now on.
    pub fn keep(&mut self, key: Key, session: Session)
        requires { HasRoom self.old }
        ensures keys { keys_of self.new ≡ kept_at key session (get (keys_of self.old) key) (keys_of self.old) }
        ensures place { HasPlace self.new }
    {
        if let Some(&KeyState::Active { epoch, .. }) = self.get(key) {
            self.put(key, KeyState::Active { epoch, session });
        }
    }

    /// The session has ended, where it is active. The key is forgotten where it is of this home.
    pub fn end(&mut self, home: Option<u8>, key: Key)
        requires { HasRoom self.old }
        ensures keys { keys_of self.new ≡ ended_at home key (get (keys_of self.old) key) (keys_of self.old) }
        ensures place { HasPlace self.new }
    {
        if let Some(&KeyState::Active { epoch, .. }) = self.get(key) {
            self.close(home, key, epoch);
        }
    }
}
