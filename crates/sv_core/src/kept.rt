//! What a core keeps beside its engine.

ghost use Rattle.std.specs.Prelude.{◌≡◌, ◌==◌, ◌+◌, ◌<◌, ◌≤◌, [], None, is_none, IfSome, OnOk, IfOk, length, option_copied, vec_capacity};
ghost use Rattle.std.specs.FinMap.{empty};
ghost use Rattle.sv_core.specs.Wants.{IsLine, keys_in, wants_here};
ghost use Rattle.sv_core.specs.Plain.{recorded};
ghost use Rattle.sv_core.specs.Table.{keys_of, durable_by};
ghost use Rattle.sv_model.specs.declared.state.KeyState.TheVariants.{Ended};
ghost use Rattle.sv_model.specs.NodeState.{known, was_given, is_unmade, is_dead, last_number};
ghost use Rattle.sv_model.specs.Replay.{boot_record};

use crate::decision::Decision;
use crate::table::{Table, is_own};
use std::alloc::{AllocError, Global};
use sv_model::{Key, KeyState, Parked, Record, Setting, Stage};

/// What a node keeps: what its records give, and what it forgets when it stops.
#[derive(Drop)]
pub struct Kept {
    pub setting: Setting,
    pub keys: Table,
    /// The number of its last start.
    pub boot: u64,
    /// The serial of the next session that is made here.
    pub next: u64,
    /// The home whose keys it forgets when they end here; none where it forgets none.
    pub home: Option<u8>,
    /// What is known of a key that was forgotten.
    pub over: KeyState,
    /// How far its records have come.
    pub stage: Stage,
    /// The requests that wait, in order of arrival. So their wants rise.
    pub parked: Vec<Parked>,
    /// The number of the next want.
    pub next_want: u64,
    /// The keys of the sessions that they wait for, one for each. They stand close together, so that a look whether somebody
    /// waits for a key is short.
    pub waited: Vec<Key>,
    /// The wants of those whose session is active or has ended here, in order.
    pub settled: Vec<u64>,
    pub alloc: Global,
    ghost keyed: { waited.items ≡ keys_in parked.items },
    ghost line: { IsLine next_want parked.items },
    ghost walked: { settled.items ≡ wants_here (durable_by (keys_of keys) boot next home) parked.items },
    ghost ended: { over ≡ Ended last_number },
}

/// The key was given here, by a node that forgets the keys of this home and whose next serial is this.
pub fn was_given(home: Option<u8>, next: u64, key: Key) -> bool
    ensures { result ≡ was_given (durable_by empty 0 next home) key }
{
    is_own(home, key) && 0 < key.serial && key.serial < next
}

/// A number is at most the last one.
fn number(value: u64) -> u64
    ensures value { result ≡ value }
    ensures bound { value ≤ last_number }
{
    value
}

impl Kept {
    ghost use Rattle.sv_core.specs.Kept.{node_of, TakesRecord, IsReady};

    /// What is known of a key: that of one that was given here and is forgotten is that it has ended.
    pub fn known(&self, key: Key) -> Option<&KeyState>
        ensures { option_copied result ≡ known (node_of self.now).durable key }
    {
        match self.keys.get(key) {
            Some(state) => Some(state),
            None => {
                if was_given(self.home, self.next, key) {
                    Some(&self.over)
                } else {
                    None
                }
            }
        }
    }

    /// The key is of this node, and the node has not yet handed it out.
    pub fn is_unmade(&self, key: Key) -> bool
        ensures { result ≡ is_unmade self.now.setting (node_of self.now).durable key }
    {
        key.home == self.setting.node && key.serial >= self.next
    }

    /// No session will ever come under the key.
    pub fn is_dead(&self, key: Key) -> bool
        ensures { result ≡ is_dead self.now.setting (node_of self.now).durable key }
    {
        key.home >= self.setting.nodes || self.is_unmade(key)
    }

    /// The numbers of the next want and of the next session.
    pub fn numbers(&self) -> (u64, u64)
        ensures value { result ≡ (self.now.next_want, self.now.next) }
        ensures want { self.now.next_want ≤ last_number }
        ensures next { self.now.next ≤ last_number }
    {
        (number(self.next_want), number(self.next))
    }

    /// The node starts once more, where a number is left for it.
    pub fn start(&self) -> Option<Decision>
        ensures none { is_none result ≡ (self.now.boot == last_number) }
        ensures start { IfSome result (λ d. d ≡ recorded (boot_record self.now.setting (node_of self.now).durable) None []) }
    {
        let boot = self.boot.checked_add(1)?;
        let entry = if self.setting.forget {
            Record::Forgets {
                home: self.setting.node,
                boot,
            }
        } else {
            Record::Boot(boot)
        };
        Some(Decision::noted(self.alloc, entry))
    }

    /// Makes room for what a record says.
    pub fn reserve_record(&mut self) -> Result<(), AllocError>
        ensures node { node_of self.new ≡ node_of self.old }
        ensures setting { self.new.setting ≡ self.old.setting }
        ensures stage { self.new.stage ≡ self.old.stage }
        ensures parked { self.new.parked ≡ self.old.parked }
        ensures room { OnOk result (TakesRecord self.new) }
        ensures settled { OnOk result (length self.new.parked.items < vec_capacity self.new.settled) }
    {
        self.keys.reserve()?;
        self.settled.try_reserve(self.parked.len() + 1)
    }

    /// Makes room for what a decision adds.
    pub fn reserve(&mut self) -> Result<(), AllocError>
        ensures node { node_of self.new ≡ node_of self.old }
        ensures setting { self.new.setting ≡ self.old.setting }
        ensures stage { self.new.stage ≡ self.old.stage }
        ensures room { OnOk result (IsReady self.new) }
    {
        self.reserve_record()?;
        self.waited.try_reserve(1)?;
        self.parked.try_reserve(1)
    }
}
