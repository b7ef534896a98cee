//! Where the state of each key stands.

ghost use Rattle.std.specs.Prelude.{◌≡◌, ◌++◌, OnOk, [], length};
ghost use Rattle.std.specs.FinMap.{find, put};
ghost use Rattle.sv_model.specs.Keys.{key_cmp};
ghost use Rattle.sv_core.specs.Places.{Rises, AreLow, AreHigh, erase};

use crate::places::{add, place_of, remove};
use std::alloc::{AllocError, Global};
use sv_model::Key;

/// The keys in their order, each with the place of its state, in two parts: so a session that its node makes is put at the
/// end of the first, and moves no other key.
#[derive(Drop)]
pub struct Directory {
    /// The home of the node's own keys.
    home: u8,
    /// The keys of the homes up to the node's own.
    low: Vec<(Key, usize)>,
    /// The keys of the homes above.
    high: Vec<(Key, usize)>,
    ghost rises: { Rises (low.items ++ high.items) },
    ghost up_to_home: { AreLow home low.items },
    ghost above_home: { AreHigh home high.items },
}

impl Directory {
    ghost use Rattle.sv_core.specs.Directory.{places_in, HasSpaceFor};

    /// No keys, for a node of this number.
    pub fn new(alloc: Global, home: u8) -> Self
        ensures { places_in result ≡ [] }
    {
        Directory {
            home,
            low: Vec::new(alloc),
            high: Vec::new(alloc),
        }
    }

    /// How many keys there are.
    pub fn len(&self) -> usize
        ensures { result ≡ length (places_in self.now) }
    {
        self.low.len() + self.high.len()
    }

    /// The first keys, in order.
    pub fn low(&self) -> &[(Key, usize)]
        ensures { result.now ≡ self.now.low.items }
    {
        self.low.as_slice()
    }

    /// The keys after them, in order.
    pub fn high(&self) -> &[(Key, usize)]
        ensures { result.now ≡ self.now.high.items }
    {
        self.high.as_slice()
    }

    /// The place of the key's state, if the key is there.
    pub fn place_of(&self, key: Key) -> Option<usize>
        ensures { result ≡ find key_cmp key (places_in self.now) }
    {
        if key.home <= self.home {
            place_of(&self.low, key)
        } else {
            place_of(&self.high, key)
        }
    }

    /// Makes room for two keys.
    pub fn reserve(&mut self) -> Result<(), AllocError>
        ensures places { places_in self.new ≡ places_in self.old }
        ensures room { OnOk result (HasSpaceFor 2 self.new) }
    {
        self.low.try_reserve(2)?;
        self.high.try_reserve(2)
    }

    /// The key is there, with the place of its state. There is room for it.
    pub fn add(&mut self, key: Key, place: usize)
        requires { HasSpaceFor 1 self.old }
        ensures places { places_in self.new ≡ put key_cmp key place (places_in self.old) }
        ensures room { HasSpaceFor 2 self.old → HasSpaceFor 1 self.new }
    {
        if key.home <= self.home {
            add(&mut self.low, key, place);
        } else {
            add(&mut self.high, key, place);
        }
    }

    /// The key is not there.
    pub fn remove(&mut self, key: Key)
        ensures places { places_in self.new ≡ erase key (places_in self.old) }
        ensures one { HasSpaceFor 1 self.old → HasSpaceFor 1 self.new }
        ensures two { HasSpaceFor 2 self.old → HasSpaceFor 2 self.new }
    {
        if key.home <= self.home {
            remove(&mut self.low, key);
        } else {
            remove(&mut self.high, key);
        }
    }
}
