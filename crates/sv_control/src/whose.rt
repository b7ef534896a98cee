//! Whose journal it is, by what its records say of nodes. The format has no number of the node's own.

ghost use Rattle.std.specs.Prelude.{◌≡◌, ◌==◌, not};
ghost use Rattle.sv_control.specs.Whose as spec;

use sv_model::{Change, KeyState, Record};

/// A session was made by a node.
fn is_made_by(node: u8, born: &Change) -> bool
    ensures { result ≡ spec.is_made (λ home. home == node) born.now }
{
    match born {
        Change::Absent => false,
        Change::Alive { key, .. } | Change::Ended(key) => key.home == node,
    }
}

/// A session was made, and not by this node.
fn is_made_elsewhere(node: u8, born: &Change) -> bool
    ensures { result ≡ spec.is_made (λ home. not (home == node)) born.now }
{
    match born {
        Change::Absent => false,
        Change::Alive { key, .. } | Change::Ended(key) => key.home != node,
    }
}

/// A snapshot has a session on its way to a node.
fn is_sent_to(node: u8, state: &KeyState) -> bool
    ensures { result ≡ spec.is_sent_to node state.now }
{
    match state {
        KeyState::Sent { to, .. } => *to == node,
        _ => false,
    }
}

/// No journal of this node has such a record: another node makes a session by it or forgets by it, it sends one to this node, or takes one from it.
pub fn is_anothers(node: u8, entry: &Record) -> bool
    ensures { result ≡ spec.is_anothers node entry.now }
{
    match entry {
        Record::Commit { born, .. } => is_made_elsewhere(node, born),
        Record::Sent { to, .. } => *to == node,
        Record::Taken { from, .. } => *from == node,
        Record::State { state, .. } => is_sent_to(node, state),
        Record::Forgets { home, .. } | Record::Counted { home, .. } => *home != node,
        _ => false,
    }
}

/// Only this node's journal has such a record: it makes a session by it, or forgets by it.
pub fn is_own(node: u8, entry: &Record) -> bool
    ensures { result ≡ spec.is_own node entry.now }
{
    match entry {
        Record::Commit { born, .. } => is_made_by(node, born),
        Record::Forgets { home, .. } | Record::Counted { home, .. } => *home == node,
        _ => false,
    }
}
