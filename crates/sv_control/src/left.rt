//! What is left of a drain, by a snapshot of what the node keeps.

ghost use Rattle.std.specs.Prelude.{◌≡◌, ◌↔◌, ◌++◌, IfOk, OnOk, IsTrue};
ghost use Rattle.sv_control.specs.Left.{active_at, active_in, sent_at, sent_in, left_of};

use std::alloc::{AllocError, Global};
use sv_model::{Key, KeyState, Record};

/// Adds the key of a record of a snapshot, if its session is active.
fn add_active(keys: &mut Vec<Key>, entry: &Record) -> Result<(), AllocError>
    ensures { OnOk result (keys.new.items ≡ keys.old.items ++ active_at entry.now) }
{
    match entry {
        Record::State {
            key,
            state: KeyState::Active { .. },
        } => Ok(keys.push(*key)?),
        _ => Ok(()),
    }
}

/// The keys of the sessions that are active by a snapshot, in its order: a drain that leaves any of them isn't done.
fn active_keys(alloc: Global, kept: &[Record]) -> Result<Vec<Key>, AllocError>
    ensures { IfOk result (λ keys. keys.items ≡ active_in kept.now) }
{
    let mut keys = Vec::new(alloc);
    for entry in kept {
        add_active(&mut keys, entry)?;
    }
    Ok(keys)
}

/// Adds the key of a record of a snapshot, if its session was handed over and not yet acknowledged.
fn add_sent(keys: &mut Vec<Key>, entry: &Record) -> Result<(), AllocError>
    ensures { OnOk result (keys.new.items ≡ keys.old.items ++ sent_at entry.now) }
{
    match entry {
        Record::State {
            key,
            state: KeyState::Sent { .. },
        } => Ok(keys.push(*key)?),
        _ => Ok(()),
    }
}

/// The keys of the sessions that are on their way by this snapshot, in its order.
fn on_their_way(alloc: Global, kept: &[Record]) -> Result<Vec<Key>, AllocError>
    ensures { IfOk result (λ keys. keys.items ≡ sent_in kept.now) }
{
    let mut keys = Vec::new(alloc);
    for entry in kept {
        add_sent(&mut keys, entry)?;
    }
    Ok(keys)
}

/// What is left at a node that is drained.
#[derive(Clone, Copy, Debug, PartialEq, Eq)]
pub struct Left {
    /// Sessions that are active there.
    pub active: usize,
    /// Sessions that were handed over and not yet acknowledged.
    pub sent: usize,
}

impl Left {
    /// Nothing is left.
    pub fn is_nothing(self) -> bool
        ensures { IsTrue result ↔ (self ≡ record { active = 0; sent = 0 }) }
    {
        self.active == 0 && self.sent == 0
    }
}

/// What is left at a node by a snapshot of what it keeps.
pub fn left_in(alloc: Global, kept: &[Record]) -> Result<Left, AllocError>
    ensures { IfOk result (λ left. (left.active, left.sent) ≡ left_of kept.now) }
{
    let active = active_keys(alloc, kept)?;
    let sent = on_their_way(alloc, kept)?;
    Ok(Left {
        active: active.len(),
        sent: sent.len(),
    })
}
