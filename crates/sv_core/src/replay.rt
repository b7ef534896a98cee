//! Which record may stand after others, and a core that is made from its records.

ghost use Rattle.std.specs.Prelude.{◌≡◌, List, IfErr, OnOk, OnErr, IfOk, option_copied, drop};
ghost use Rattle.std.specs.Bool.{Decides};
ghost use Rattle.std.specs.FinMap.{get};
ghost use Rattle.sv_model.specs.Fitting.{is_active, fits_named, is_next, fits_born, FitsSent, fits_taken, fits_gone, fits_state, fits_counters, Fits, AllFit, stage_behind};
ghost use Rattle.sv_model.specs.Replay.{applied, replayed};
ghost use Rattle.sv_core.specs.Snapshot.{staged};
ghost use Rattle.sv_core.specs.Kept.{node_of};
ghost use Rattle.sv_core.specs.Table.{keys_of};
ghost use Rattle.sv_core.specs.declared.fault.ApplyFault.TheVariants.{BadRecord};

use crate::fault::ApplyFault;
use crate::kept::Kept;
use crate::migration::epoch_in;
use sv_model::{Change, Key, KeyState, Record, Session, Stage};

/// The session is active here.
fn is_active(state: Option<&KeyState>) -> bool
    ensures { result ≡ is_active (option_copied state.entry) }
{
    matches!(state, Some(KeyState::Active { .. }))
}

/// The session that is handed over is the one that is active, at the next epoch.
fn fits_sent(state: Option<&KeyState>, epoch: u64, session: &Session) -> bool
    ensures { Decides result (FitsSent epoch session.now (option_copied state.entry)) }
{
    match state {
        Some(
            KeyState::Active {
                epoch: old,
                session: held,
            },
        ) => old.checked_add(1) == Some(epoch) && session.is_same(held),
        _ => false,
    }
}

/// The session was handed over at this epoch.
fn fits_gone(state: Option<&KeyState>, epoch: u64) -> bool
    ensures { result ≡ fits_gone epoch (option_copied state.entry) }
{
    match state {
        Some(KeyState::Sent { epoch: sent, .. }) => *sent == epoch,
        _ => false,
    }
}

impl Kept {
    /// The session that a request names is active.
    fn fits_named(&self, named: &Change) -> bool
        ensures { result ≡ fits_named (keys_of self.now.keys) named.now }
    {
        match named {
            Change::Absent => true,
            Change::Alive { key, .. } => is_active(self.keys.get(*key)),
            Change::Ended(key) => is_active(self.keys.get(*key)),
        }
    }

    /// The key is that of the next session that is made here, and there is space for it.
    fn is_next(&self, key: Key) -> bool
        ensures { result ≡ is_next self.now.setting (node_of self.now).durable key }
    {
        key.home == self.setting.node
            && key.serial == self.next
            && self.next != u64::MAX
            && self.has_space()
    }

    fn fits_born(&self, born: &Change) -> bool
        ensures { result ≡ fits_born self.now.setting (node_of self.now).durable born.now }
    {
        match born {
            Change::Absent => true,
            Change::Alive { key, .. } => self.is_next(*key),
            Change::Ended(key) => self.is_next(*key),
        }
    }

    fn fits_taken(&self, key: Key, epoch: u64, state: Option<&KeyState>) -> bool
        ensures { result ≡ fits_taken self.now.setting (node_of self.now).durable key epoch (option_copied state.entry) }
    {
        epoch_in(state) < epoch
            && !self.is_unmade(key)
            && (self.keys.get(key).is_some() || self.has_space())
    }

    fn fits_state(&self, key: Key) -> bool
        ensures { result ≡ fits_state self.now.setting (node_of self.now).durable key self.now.stage }
    {
        self.stage == Stage::Snapshot
            && self.keys.get(key).is_none()
            && !self.is_unmade(key)
            && self.has_space()
    }

    /// The record may stand after those before it.
    pub fn fits(&self, entry: &Record) -> bool
        ensures { Decides result (Fits self.now.setting self.now.stage (node_of self.now).durable entry.now) }
    {
        match entry {
            Record::Boot(boot) => self.boot.checked_add(1) == Some(*boot),
            Record::Commit { named, born } => self.fits_named(named) && self.fits_born(born),
            Record::Expired(key) => is_active(self.keys.get(*key)),
            Record::Sent {
                key,
                epoch,
                session,
                ..
            } => fits_sent(self.keys.get(*key), *epoch, session),
            Record::Taken { key, epoch, .. } => { self.fits_taken(*key, *epoch, self.known(*key)) }
            Record::Gone { key, epoch } => fits_gone(self.keys.get(*key), *epoch),
            Record::State { key, .. } => self.fits_state(*key),
            Record::Counters { .. } => self.stage == Stage::Blank,
            Record::Forgets { home, boot } => {
                *home == self.setting.node && self.boot.checked_add(1) == Some(*boot)
            }
            Record::Counted { home, .. } => {
                *home == self.setting.node && self.stage == Stage::Blank
            }
        }
    }

    /// Adds a record, where it may stand after those before it.
    pub fn apply(&mut self, entry: Record) -> Result<(), ApplyFault>
        ensures fits { OnOk result (Fits self.old.setting self.old.stage (node_of self.old).durable entry) }
        ensures durable { OnOk result ((node_of self.new).durable ≡ applied entry (node_of self.old).durable) }
        ensures stage { OnOk result (self.new.stage ≡ stage_behind entry self.old.stage) }
        ensures err { OnErr result (node_of self.new ≡ node_of self.old) }
        ensures err_stage { OnErr result (self.new.stage ≡ self.old.stage) }
        ensures bad { IfErr result (λ e. e ≡ BadRecord → ¬ (Fits self.old.setting self.old.stage (node_of self.old).durable entry)) }
        ensures setting { self.new.setting ≡ self.old.setting }
        ensures parked { self.new.parked ≡ self.old.parked }
        ensures want { self.new.next_want ≡ self.old.next_want }
    {
        if !self.fits(&entry) {
            return Err(ApplyFault::BadRecord);
        }
        self.reserve_record()?;
        self.take(entry);
        Ok(())
    }

    /// Adds records in order, where each may stand after those before it.
    pub fn replay(&mut self, records: &[Record]) -> Result<(), ApplyFault>
        ensures fit { OnOk result (AllFit self.old.setting self.old.stage (node_of self.old).durable records.now) }
        ensures durable { OnOk result ((node_of self.new).durable ≡ replayed (node_of self.old).durable records.now) }
        ensures stage { OnOk result (self.new.stage ≡ staged self.old.stage records.now) }
        ensures bad { IfErr result (λ e. e ≡ BadRecord → ¬ (AllFit self.old.setting self.old.stage (node_of self.old).durable records.now)) }
        ensures setting { self.new.setting ≡ self.old.setting }
        ensures parked { self.new.parked ≡ self.old.parked }
        ensures want { self.new.next_want ≡ self.old.next_want }
    {
        for entry in records {
            self.apply(entry.copy(self.alloc)?)?;
        }
        Ok(())
    }
}
