//! What a node knows of its keys, in order of the keys.

ghost use Rattle.std.specs.Prelude.{◌≡◌, length};
ghost use Rattle.std.specs.Option.{option_map};
ghost use Rattle.std.specs.List.{list_any};
ghost use Rattle.std.specs.FinMap.{entries};
ghost use Rattle.sv_model.specs.Time.{is_over, first_over};
ghost use Rattle.sv_core.specs.Places.{AreWithin, seen};
ghost use Rattle.sv_core.specs.Table.{keys_of};

use crate::table::Table;
use sv_model::{Key, KeyState};

/// The session is active, and has expired.
fn is_over(state: &KeyState, now: u64) -> bool
    ensures { result ≡ is_over now state.now }
{
    match state {
        KeyState::Active { session, .. } => session.is_expired(now),
        KeyState::Sent { .. } | KeyState::Gone { .. } | KeyState::Ended { .. } => false,
    }
}

impl Table {
    /// The first of these keys whose session has expired.
    fn first_among(&self, places: &[(Key, usize)], now: u64) -> Option<(Key, &KeyState)>
        requires { AreWithin (length self.now.states.items) places.now }
        ensures { option_map (λ e. (e.0, e.1.now)) result ≡ first_over now (seen self.now.states.items places.now) }
    {
        for &(key, place) in places {
            let state = self.state(place);
            if is_over(state, now) {
                return Some((key, state));
            }
        }
        None
    }

    /// A session has expired. The states are read as they stand in memory, which is faster than in order of their keys.
    fn is_any_over(&self, now: u64) -> bool
        ensures { result ≡ list_any (is_over now) self.now.states.items }
    {
        self.states().iter().any(|state| is_over(state, now))
    }

    /// The least key whose session has expired.
    pub fn first_over(&self, now: u64) -> Option<(Key, &KeyState)>
        ensures { option_map (λ e. (e.0, e.1.now)) result ≡ first_over now (entries (keys_of self.now)) }
    {
        if !self.is_any_over(now) {
            return None;
        }
        match self.first_among(self.places().low(), now) {
            Some(found) => Some(found),
            None => self.first_among(self.places().high(), now),
        }
    }
}
