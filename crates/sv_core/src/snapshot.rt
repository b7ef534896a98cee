//! All that a node keeps durably, as records that give it again.

ghost use Rattle.std.specs.Prelude.{◌≡◌, ◌++◌, ◌∷◌, [], IfOk, OnOk, length, map};
ghost use Rattle.sv_core.specs.Kept.{node_of};
ghost use Rattle.sv_core.specs.Places.{AreWithin, seen};
ghost use Rattle.sv_core.specs.Snapshot.{state_record, head_of, snapshot_of};

use crate::kept::Kept;
use std::alloc::AllocError;
use sv_model::{Key, KeyState, Record};

impl Kept {
    /// A record of what is known of the key.
    fn add_state(
        &self,
        records: &mut Vec<Record>,
        key: Key,
        state: &KeyState,
    ) -> Result<(), AllocError>
        ensures { OnOk result (records.new.items ≡ records.old.items ++ state_record (key, state.now) ∷ []) }
    {
        let state = state.copy(self.alloc)?;
        records.push(Record::State { key, state })?;
        Ok(())
    }

    /// A record of what is known of each of these keys.
    fn add_states(
        &self,
        records: &mut Vec<Record>,
        places: &[(Key, usize)],
    ) -> Result<(), AllocError>
        requires { AreWithin (length self.now.keys.states.items) places.now }
        ensures { OnOk result (records.new.items ≡ records.old.items ++ map state_record (seen self.now.keys.states.items places.now)) }
    {
        for &(key, place) in places {
            self.add_state(records, key, self.keys.state(place))?;
        }
        Ok(())
    }

    /// The counters, by which it is plain whether the node forgets.
    fn head(&self) -> Record
        ensures { result ≡ head_of (node_of self.now).durable }
    {
        match self.home {
            Some(home) => Record::Counted {
                home,
                boot: self.boot,
                next: self.next,
            },
            None => Record::Counters {
                boot: self.boot,
                next: self.next,
            },
        }
    }

    /// The counters, then what is known of each key.
    pub fn snapshot(&self) -> Result<Vec<Record>, AllocError>
        ensures { IfOk result (λ records. records.items ≡ snapshot_of (node_of self.now).durable) }
    {
        let mut records = Vec::new(self.alloc);
        records.push(self.head())?;
        self.add_states(&mut records, self.keys.places().low())?;
        self.add_states(&mut records, self.keys.places().high())?;
        Ok(records)
    }
}
