//! How long a session stays that other nodes want.
//!
//! Who has a session gives it to whoever asks. Were it given on as soon as it has come, two nodes could hand it to and fro and serve
//! nobody; and a want that comes while its session is on its way would be lost. So a session that has come serves who waits for it, and
//! where other nodes want it too it stays for a moment more; their wants are held meanwhile. A want that is held is a packet that comes
//! later.

ghost use Rattle.std.specs.Prelude.{◌≡◌, ◌⊎◌, ◌+◌, ◌-◌, ◌^◌, [], min, cond, not, true, false};
ghost use Rattle.sv_host.specs.Held.{due_in, first_due, has, held_until, next_of, others_than, wants_of, without};
ghost use Rattle.sv_host.specs.Asking.{later};
ghost use Rattle.sv_host.specs.Holding.{is_held, lease_for, stay_of, waiting_in, HasCome};
ghost use Rattle.sv_host.specs.Lease.{end_of, knows, leases_of, left};
ghost use Rattle.std.specs.Option.{option_map};

use crate::held::{HeldWant, HeldWants};
use crate::lease::{Lease, Leases, is_key};
use crate::want::Want;
use std::alloc::Global;
use sv_model::{Key, Parked};

/// In milliseconds: so long a session stays where it has come: until the turn is over, in which those are served who wait for it.
const TURN: u64 = 1;

/// In milliseconds: so long it stays while others want it.
const LEASE: u64 = 10;

/// In milliseconds: so long a want is held whose session may be on its way here.
const HELD: u64 = 900;

/// A session that has come in a packet.
#[derive(Clone, Copy, Debug, PartialEq, Eq)]
pub struct Granted {
    pub key: Key,
    pub from: u8,
    pub epoch: u64,
}

/// Sessions that have come of late, and wants of other nodes that are held.
#[derive(Drop)]
pub struct Holding {
    leases: Leases,
    wants: HeldWants,
}

/// How many of the requests that wait are for a session.
pub fn waiting(parked: &[Parked], key: Key) -> usize
    ensures { result ≡ min (waiting_in key parked.now) (2 ^ 64 - 1) }
{
    let mut count: usize = 0;
    for one in parked {
        if is_key(key, one.key) {
            count = count.saturating_add(1);
        }
    }
    count
}

/// How long a session stays for which so many requests wait, and that another node wants or not.
fn stay_of(count: usize, wanted: bool) -> u64
    ensures { result ≡ stay_of count wanted }
{
    if count > 1 || (count > 0 && wanted) {
        LEASE
    } else {
        TURN
    }
}

impl Holding {
    pub fn new(alloc: Global) -> Holding
        ensures leases { leases_of result.leases ≡ [] }
        ensures wants { wants_of result.wants ≡ [] }
    {
        Holding {
            leases: Leases::new(alloc),
            wants: HeldWants::new(alloc),
        }
    }

    /// No want is held.
    pub fn is_empty(&self) -> bool {
        self.wants.is_empty()
    }

    /// A grant has come, for whose session so many requests wait: whether the session hasn't come by it before. Whoever gave it has had
    /// what it wanted of it.
    pub fn come(&mut self, granted: Granted, count: usize, now: u64) -> bool
        ensures result { result ≡ not (knows granted.key granted.epoch (leases_of self.old.leases)) }
        ensures wants { wants_of self.new.wants ≡ without granted.key granted.from (wants_of self.old.wants) }
        ensures again { result ≡ false → leases_of self.new.leases ≡ leases_of self.old.leases }
        ensures come { result ≡ true
            → HasCome (lease_for granted count (has granted.key (wants_of self.new.wants)) now) (leases_of self.old.leases) (leases_of self.new.leases) }
    {
        let Granted { key, from, epoch } = granted;
        self.wants.forget(key, from);
        if self.leases.knows(key, epoch) {
            return false;
        }
        let stay = stay_of(count, self.wants.has(key));
        self.leases.begin(Lease {
            key,
            epoch,
            end: Some(now.saturating_add(stay)),
        });
        true
    }

    /// Whether a want for a session is to be held: the session has come and stays, or others want it longer; or it may be on its way
    /// here, as requests wait for it.
    fn is_held(&self, key: Key, waits: bool, now: u64) -> bool
        ensures { result ≡ is_held (end_of key (leases_of self.now.leases)) (has key (wants_of self.now.wants)) waits now }
    {
        match self.leases.end(key) {
            Some(end) => now < end || self.wants.has(key),
            None => waits,
        }
    }

    /// The same; a want that isn't held takes the session away.
    pub fn holds(&mut self, key: Key, waits: bool, now: u64) -> bool
        ensures result { result ≡ is_held (end_of key (leases_of self.old.leases)) (has key (wants_of self.old.wants)) waits now }
        ensures leases { leases_of self.new.leases ≡ cond result (leases_of self.old.leases) (left key (leases_of self.old.leases)) }
        ensures wants { wants_of self.new.wants ≡ wants_of self.old.wants }
    {
        let is_held = self.is_held(key, waits, now);
        if !is_held {
            self.leases.leave(key);
        }
        is_held
    }

    /// Holds a want. Where there is no room for it, it is lost.
    pub fn hold(&mut self, want: Want, now: u64)
        ensures wants { (wants_of self.new.wants ≡ held_until want (later now HELD) (wants_of self.old.wants)) ⊎ (wants_of self.new.wants ≡ wants_of self.old.wants) }
        ensures leases { leases_of self.new.leases ≡ leases_of self.old.leases }
    {
        let until = now.saturating_add(HELD);
        let _held = self.wants.hold(HeldWant { want, until });
    }

    /// The first want that is due by now, which is held no longer: it takes its session away.
    pub fn take_due(&mut self, now: u64) -> Option<Want>
        ensures want { result ≡ option_map (λ h. h.want) (due_in (leases_of self.old.leases) now (wants_of self.old.wants)) }
        ensures wants { wants_of self.new.wants ≡ others_than (first_due (leases_of self.old.leases) now (wants_of self.old.wants)) (wants_of self.old.wants) }
    {
        let want = self.wants.take_due(&self.leases, now)?;
        self.leases.leave(want.key);
        Some(want)
    }

    /// When the next want is due, in milliseconds by the clock that nobody sets; none where none is held.
    pub fn next(&self) -> Option<u64>
        ensures { result ≡ next_of (leases_of self.now.leases) (wants_of self.now.wants) }
    {
        self.wants.next(&self.leases)
    }
}
