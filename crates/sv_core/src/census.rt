//! How many keys a node knows, by what it knows of them.

ghost use Rattle.std.specs.Prelude.{◌≡◌, ◌+◌, ◌<◌, ◌≤◌, length, max};
ghost use Rattle.sv_core.specs.Census.{nobody, with_one, with_all, total, census_of};
ghost use Rattle.sv_core.specs.Kept.{node_of};
ghost use Rattle.sv_core.specs.Places.{AreWithin, seen};
ghost use Rattle.sv_model.specs.NodeState.{last_number};

use crate::kept::Kept;
use sv_model::{Key, KeyState};

/// How many keys a node knows, by what it knows of them.
#[derive(Clone, Copy, Debug, PartialEq, Eq)]
pub struct Census {
    /// Sessions that live here.
    pub active: usize,
    /// Sessions that were handed over, and not yet acknowledged.
    pub sent: usize,
    /// Sessions that were here and live elsewhere, or have ended there.
    pub gone: usize,
    /// Sessions that have ended here.
    pub ended: usize,
    /// The sessions that live here, or were handed over and not yet acknowledged, were made at nodes below this number.
    pub homes: u16,
}

/// The greater of two numbers.
fn greater(a: u16, b: u16) -> u16
    ensures { result ≡ max a b }
{
    if a < b { b } else { a }
}

impl Census {
    /// No keys.
    fn nobody() -> Census
        ensures { result ≡ nobody }
    {
        Census {
            active: 0,
            sent: 0,
            gone: 0,
            ended: 0,
            homes: 0,
        }
    }

    /// One more key.
    fn with_one(self, key: Key, state: &KeyState) -> Census
        requires { total self < last_number }
        ensures { result ≡ with_one (key, state.now) self }
    {
        let homes = greater(self.homes, u16::from(key.home) + 1);
        let mut census = self;
        match state {
            KeyState::Active { .. } => {
                census.active += 1;
                census.homes = homes;
            }
            KeyState::Sent { .. } => {
                census.sent += 1;
                census.homes = homes;
            }
            KeyState::Gone { .. } => census.gone += 1,
            KeyState::Ended { .. } => census.ended += 1,
        }
        census
    }
}

impl Kept {
    /// These keys too.
    fn with_all(&self, census: Census, places: &[(Key, usize)]) -> Census
        requires within { AreWithin (length self.now.keys.states.items) places.now }
        requires room { total census + length places.now ≤ last_number }
        ensures { result ≡ with_all (seen self.now.keys.states.items places.now) census }
    {
        let mut census = census;
        for &(key, place) in places {
            census = census.with_one(key, self.keys.state(place));
        }
        census
    }

    /// How many keys are known, by what is known of them.
    pub fn census(&self) -> Census
        ensures { result ≡ census_of (node_of self.now).durable }
    {
        let low = self.with_all(Census::nobody(), self.keys.places().low());
        self.with_all(low, self.keys.places().high())
    }
}
