//! Wants of other nodes that are held back for a moment.

ghost use Rattle.std.specs.Option.{option_map};
ghost use Rattle.std.specs.Prelude.{◌≡◌, ◌<◌, ◌==◌, [], IfSome, IsFalse, IsTrue, length, position};
ghost use Rattle.sv_host.specs.Held.{due_in, due_of, first_due, has, held_with, is_due, is_for, is_like, next_of, others_than, sooner_of, wants_of, without};
ghost use Rattle.sv_host.specs.Lease.{leases_of};

use crate::lease::{Leases, is_key};
use crate::want::Want;
use std::alloc::{AllocFailed, Global};
use sv_model::Key;

/// So many wants are held, at most. One for which there is no place is a packet that is lost: it is put out again soon.
pub const HELD_LIMIT: usize = 64;

/// A want of another node that is held, and until when it is where its session doesn't come here before, in milliseconds by the clock
/// that nobody sets.
#[derive(Clone, Copy, Debug, PartialEq, Eq)]
pub struct HeldWant {
    pub want: Want,
    pub until: u64,
}

/// Wants of other nodes that are held, in the order in which they came: of each node and session one.
#[derive(Drop)]
pub struct HeldWants {
    wants: Vec<HeldWant>,
}

/// It is for the session of this key.
fn is_for(key: Key, held: &HeldWant) -> bool
    ensures { result ≡ is_for key held.now }
{
    is_key(key, held.want.key)
}

/// It is for the session of this key, and of this node.
fn is_like(key: Key, from: u8, held: &HeldWant) -> bool
    ensures { result ≡ is_like key from held.now }
{
    is_for(key, held) && held.want.from == from
}

/// Where that of a node for a session stands.
fn position(wants: &[HeldWant], key: Key, from: u8) -> Option<usize>
    ensures position { result ≡ position (is_like key from) wants.now }
    ensures within { IfSome result (λ at. at < length wants.now) }
{
    wants.iter().position(|held| is_like(key, from, held))
}

/// Where the first one for a session stands.
fn first_for(wants: &[HeldWant], key: Key) -> Option<usize>
    ensures { result ≡ position (is_for key) wants.now }
{
    wants.iter().position(|held| is_for(key, held))
}

/// When it is to be given to the node: when its session may leave that has come here, or else at its own end.
fn due_of(leases: &Leases, held: &HeldWant) -> u64
    ensures { result ≡ due_of (leases_of leases.now) held.now }
{
    match leases.end(held.want.key) {
        Some(end) => end,
        None => held.until,
    }
}

/// It is to be given to the node by now.
fn is_due(leases: &Leases, now: u64, held: &HeldWant) -> bool
    ensures { result ≡ is_due (leases_of leases.now) now held.now }
{
    due_of(leases, held) <= now
}

/// Where the first one stands that is due.
fn first_due(wants: &[HeldWant], leases: &Leases, now: u64) -> Option<usize>
    ensures position { result ≡ first_due (leases_of leases.now) now wants.now }
    ensures within { IfSome result (λ at. at < length wants.now) }
{
    wants.iter().position(|held| is_due(leases, now, held))
}

impl HeldWants {
    pub fn new(alloc: Global) -> HeldWants
        ensures { wants_of result ≡ [] }
    {
        HeldWants {
            wants: Vec::new(alloc),
        }
    }

    pub fn is_empty(&self) -> bool
        ensures { result ≡ (length (wants_of self.now) == 0) }
    {
        self.wants.is_empty()
    }

    /// Another node wants this session.
    pub fn has(&self, key: Key) -> bool
        ensures { result ≡ has key (wants_of self.now) }
    {
        first_for(self.wants.as_slice(), key).is_some()
    }

    /// Holds a want, in the place of one of the same node for the same session; whether there was room for it.
    pub fn hold(&mut self, held: HeldWant) -> bool
        ensures held { IsTrue result → wants_of self.new ≡ held_with held (wants_of self.old) }
        ensures refused { IsFalse result → wants_of self.new ≡ wants_of self.old }
    {
        if let Some(at) = position(self.wants.as_slice(), held.want.key, held.want.from) {
            self.wants[at] = held;
            return true;
        }
        if self.wants.len() >= HELD_LIMIT {
            return false;
        }
        let kept: Result<(), AllocFailed<HeldWant>> = self.wants.push(held);
        kept.is_ok()
    }

    /// A node has given a session away: what it wanted before it has had.
    pub fn forget(&mut self, key: Key, from: u8)
        ensures { wants_of self.new ≡ without key from (wants_of self.old) }
    {
        if let Some(at) = position(self.wants.as_slice(), key, from) {
            self.wants.remove(at);
        }
    }

    /// The first one that is due by now, which is held no longer.
    pub fn take_due(&mut self, leases: &Leases, now: u64) -> Option<Want>
        ensures want { result ≡ option_map (λ h. h.want) (due_in (leases_of leases.now) now (wants_of self.old)) }
        ensures others { wants_of self.new ≡ others_than (first_due (leases_of leases.now) now (wants_of self.old)) (wants_of self.old) }
    {
        let at = first_due(self.wants.as_slice(), leases, now)?;
        Some(self.wants.remove(at).want)
    }

    /// When the next one is due; none where none is held.
    pub fn next(&self, leases: &Leases) -> Option<u64>
        ensures { result ≡ next_of (leases_of leases.now) (wants_of self.now) }
    {
        let mut next: Option<u64> = None;
        for held in &self.wants {
            next = sooner_of(next, due_of(leases, held));
        }
        next
    }
}

/// The sooner of two times, of which the first may be none.
pub fn sooner_of(one: Option<u64>, other: u64) -> Option<u64>
    ensures { result ≡ sooner_of one other }
{
    match one {
        Some(one) if one < other => Some(one),
        _ => Some(other),
    }
}
