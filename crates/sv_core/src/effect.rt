//! What a decision does to what is kept.

ghost use Rattle.std.specs.Prelude.{◌≡◌, ◌≤◌, None, vec_capacity};
ghost use Rattle.sv_model.specs.NodeState.{last_number};
ghost use Rattle.sv_model.specs.Replay.{with_named, with_born, keys_behind, boot_behind, next_behind};
ghost use Rattle.sv_model.specs.Replay.{home_behind, applied, applied_if};
ghost use Rattle.sv_model.specs.Fitting.{stage_behind, stage_behind_if};
ghost use Rattle.sv_core.specs.Decision.{want_by, behind};
ghost use Rattle.sv_core.specs.Table.{keys_of, HasRoom, HasPlace};
ghost use Rattle.sv_core.specs.Effect.{HasSerial};

use crate::decision::Waiting;
use crate::kept::Kept;
use crate::table::Table;
use crate::wants::{settle_anew, settle_behind};
use sv_model::{Change, KeyState, Record, Stage};

impl Table {
    /// What became of the session that a request names.
    fn take_named(&mut self, home: Option<u8>, named: Change)
        requires { HasRoom self.old }
        ensures keys { keys_of self.new ≡ with_named home named (keys_of self.old) }
        ensures place { HasPlace self.new }
    {
        match named {
            Change::Absent => {}
            Change::Alive { key, session } => self.keep(key, session),
            Change::Ended(key) => self.end(home, key),
        }
    }

    /// What became of a session that was made.
    fn take_born(&mut self, home: Option<u8>, born: Change)
        requires { HasPlace self.old }
        ensures { keys_of self.new ≡ with_born home born (keys_of self.old) }
    {
        match born {
            Change::Absent => {}
            Change::Alive { key, session } => {
                self.put(key, KeyState::Active { epoch: 1, session });
            }
            Change::Ended(key) => self.close(home, key, 1),
        }
    }

    /// What a record says of one key, at a node that forgets those of this home.
    #[inline(always)]
    fn take_record(&mut self, home: Option<u8>, entry: Record)
        requires { HasRoom self.old }
        ensures { keys_of self.new ≡ keys_behind home entry (keys_of self.old) }
    {
        match entry {
            Record::Boot(_)
            | Record::Counters { .. }
            | Record::Forgets { .. }
            | Record::Counted { .. } => {}
            Record::Commit { named, born } => {
                self.take_named(home, named);
                self.take_born(home, born);
            }
            Record::Expired(key) => self.end(home, key),
            Record::Sent {
                key,
                epoch,
                to,
                session,
            } => self.put(key, KeyState::Sent { epoch, session, to }),
            Record::Taken {
                key,
                epoch,
                from: _,
                session,
            } => self.put(key, KeyState::Active { epoch, session }),
            Record::Gone { key, epoch } => self.put(key, KeyState::Gone { epoch }),
            Record::State { key, state } => self.put(key, state),
        }
    }
}

/// How far the records have come, after this one.
fn stage_behind(entry: &Record, stage: Stage) -> Stage
    ensures { result ≡ stage_behind entry.now stage }
{
    match entry {
        Record::State { .. } => stage,
        Record::Counters { .. } | Record::Counted { .. } => Stage::Snapshot,
        Record::Boot(_)
        | Record::Forgets { .. }
        | Record::Commit { .. }
        | Record::Expired(_)
        | Record::Sent { .. }
        | Record::Taken { .. }
        | Record::Gone { .. } => Stage::Past,
    }
}

/// The home whose keys are forgotten, after this record.
fn home_behind(entry: &Record, home: Option<u8>) -> Option<u8>
    ensures { result ≡ home_behind entry.now home }
{
    match entry {
        Record::Forgets { home, .. } | Record::Counted { home, .. } => Some(*home),
        _ => home,
    }
}

/// The number of the last start, and the next serial, after this record.
fn counts_behind(entry: &Record, boot: u64, next: u64) -> (u64, u64)
    requires { HasSerial entry.now next }
    ensures { result ≡ (boot_behind entry.now boot, next_behind entry.now next) }
{
    match entry {
        Record::Boot(boot) | Record::Forgets { boot, .. } => (*boot, next),
        Record::Counters { boot, next } | Record::Counted { boot, next, .. } => (*boot, *next),
        Record::Commit {
            named: _,
            born: Change::Alive { .. } | Change::Ended(_),
        } => (boot, next + 1),
        _ => (boot, next),
    }
}

impl Kept {
    ghost use Rattle.sv_core.specs.Kept.{node_of, TakesRecord, IsReady};

    /// What the records give, after one more that leaves the node forgetting none.
    fn take_plainly(&mut self, entry: Record)
        requires room { TakesRecord self.old }
        requires serial { HasSerial entry self.old.next }
        requires plain { self.old.home ≡ None }
        requires stays { home_behind entry self.old.home ≡ None }
        ensures durable { (node_of self.new).durable ≡ applied entry (node_of self.old).durable }
        ensures stage { self.new.stage ≡ stage_behind entry self.old.stage }
        ensures setting { self.new.setting ≡ self.old.setting }
        ensures parked { self.new.parked ≡ self.old.parked }
        ensures waited { self.new.waited ≡ self.old.waited }
        ensures want { self.new.next_want ≡ self.old.next_want }
        ensures capacity { vec_capacity self.old.settled ≤ vec_capacity self.new.settled }
    {
        let (boot, next) = counts_behind(&entry, self.boot, self.next);
        self.boot = boot;
        self.next = next;
        self.stage = stage_behind(&entry, self.stage);
        settle_behind(&mut self.settled, &self.parked, &self.waited, &entry);
        self.keys.take_record(self.home, entry);
    }

    /// What the records give, after one more. Who can be served is seen anew: what is known of a key may change by a number
    /// alone.
    fn take_anew(&mut self, entry: Record)
        requires room { TakesRecord self.old }
        requires serial { HasSerial entry self.old.next }
        ensures durable { (node_of self.new).durable ≡ applied entry (node_of self.old).durable }
        ensures stage { self.new.stage ≡ stage_behind entry self.old.stage }
        ensures setting { self.new.setting ≡ self.old.setting }
        ensures parked { self.new.parked ≡ self.old.parked }
        ensures waited { self.new.waited ≡ self.old.waited }
        ensures want { self.new.next_want ≡ self.old.next_want }
        ensures capacity { vec_capacity self.old.settled ≤ vec_capacity self.new.settled }
    {
        let (boot, next) = counts_behind(&entry, self.boot, self.next);
        let home = home_behind(&entry, self.home);
        self.boot = boot;
        self.next = next;
        self.stage = stage_behind(&entry, self.stage);
        self.keys.take_record(self.home, entry);
        self.home = home;
        settle_anew(&mut self.settled, &self.parked, &self.keys, home, next);
    }

    /// What the records give, after one more.
    pub fn take(&mut self, entry: Record)
        requires room { TakesRecord self.old }
        requires serial { HasSerial entry self.old.next }
        ensures durable { (node_of self.new).durable ≡ applied entry (node_of self.old).durable }
        ensures stage { self.new.stage ≡ stage_behind entry self.old.stage }
        ensures setting { self.new.setting ≡ self.old.setting }
        ensures parked { self.new.parked ≡ self.old.parked }
        ensures waited { self.new.waited ≡ self.old.waited }
        ensures want { self.new.next_want ≡ self.old.next_want }
        ensures capacity { vec_capacity self.old.settled ≤ vec_capacity self.new.settled }
    {
        if self.home.is_none() && home_behind(&entry, self.home).is_none() {
            self.take_plainly(entry);
        } else {
            self.take_anew(entry);
        }
    }

    /// What the records give, after the one of a decision, where it has one.
    #[tactic(auto, using(crate::proofs::EffectLemmas::within_left))]
    fn take_if(&mut self, entry: Option<Record>)
        requires room { TakesRecord self.old }
        requires next { (applied_if entry (node_of self.old).durable).next ≤ last_number }
        ensures durable { (node_of self.new).durable ≡ applied_if entry (node_of self.old).durable }
        ensures stage { self.new.stage ≡ stage_behind_if entry self.old.stage }
        ensures setting { self.new.setting ≡ self.old.setting }
        ensures parked { self.new.parked ≡ self.old.parked }
        ensures waited { self.new.waited ≡ self.old.waited }
        ensures want { self.new.next_want ≡ self.old.next_want }
        ensures capacity { vec_capacity self.old.settled ≤ vec_capacity self.new.settled }
    {
        if let Some(entry) = entry {
            self.take(entry);
        }
    }

    /// What is kept after a decision.
    pub fn follow(&mut self, entry: Option<Record>, waiting: Waiting)
        requires ready { IsReady self.old }
        requires next { (applied_if entry (node_of self.old).durable).next ≤ last_number }
        requires want { want_by waiting self.old.next_want ≤ last_number }
        ensures node { node_of self.new ≡ behind self.old.setting entry waiting (node_of self.old) }
        ensures stage { self.new.stage ≡ stage_behind_if entry self.old.stage }
        ensures setting { self.new.setting ≡ self.old.setting }
    {
        self.take_if(entry);
        self.rearrange(waiting);
    }
}
