//! How full a node's table of keys is, and of what.

ghost use Rattle.std.specs.Prelude.{◌≡◌, ◌↔◌, IsTrue};
ghost use Rattle.sv_control.specs.Room as spec;
ghost use Rattle.sv_control.specs.Room.{IsFull, IsScarce};

use crate::kept::Replayed;
use serde::Serialize;
use std::fmt;
use sv_model::Record;

/// How many keys a node knows by a snapshot of what it keeps: a record each, after the first.
pub fn known_in(kept: &[Record]) -> usize
    ensures { result ≡ spec.known_in kept.now }
{
    kept.len().saturating_sub(1)
}

/// How many keys a node knows, and how many it may: `keys` of its descriptor. It prints so.
#[derive(Clone, Copy, Debug, PartialEq, Eq)]
pub struct KeyRoom {
    pub known: usize,
    pub limit: usize,
}

impl KeyRoom {
    /// Four fifths of the keys are known, or more.
    pub fn is_scarce(self) -> bool
        ensures { IsTrue result ↔ IsScarce self }
    {
        self.known >= self.limit - self.limit / 5
    }

    /// All keys are known: the node makes no session, and takes over none that is new to it.
    pub fn is_full(self) -> bool
        ensures { IsTrue result ↔ IsFull self }
    {
        self.known >= self.limit
    }
}

impl fmt::Display for KeyRoom {
    ghost use Rattle.std.specs.Prelude.{Some};
    ghost use Rattle.sv_control.specs.Room.{room_text};

    ghost output = { λ room. Some (room_text room) };

    fn fmt<W: fmt::Write>(&self, f: &mut fmt::Formatter<W>) -> fmt::Result {
        write!(f, "{} of {} keys are known", self.known, self.limit)
    }
}

/// What is shown of the keys that a node knows: how many, of how many, and by what it knows of them.
#[derive(Clone, Copy, Debug, PartialEq, Eq, Serialize)]
pub struct KeysLine {
    pub known: usize,
    /// How many it may know: `keys` of its descriptor.
    pub limit: usize,
    /// How many more it may come to know.
    pub left: usize,
    /// Sessions that live at the node.
    pub active: usize,
    /// Sessions that were handed over, and not yet acknowledged.
    pub sent: usize,
    /// Sessions that were here and live elsewhere, or have ended there.
    pub gone: usize,
    /// Sessions that have ended here.
    pub ended: usize,
}

impl KeysLine {
    ghost use Rattle.sv_control.specs.Room.{keys_to_see, room_of};

    /// Of a node that keeps this, and may know so many.
    pub fn of(found: &Replayed, limit: usize) -> KeysLine
        ensures { result ≡ keys_to_see found.now.kept.items found.now.census limit }
    {
        let known = known_in(&found.kept);
        KeysLine {
            known,
            limit,
            left: limit.saturating_sub(known),
            active: found.census.active,
            sent: found.census.sent,
            gone: found.census.gone,
            ended: found.census.ended,
        }
    }

    /// How full the node's table is then.
    fn room(self) -> KeyRoom
        ensures { result ≡ room_of self }
    {
        KeyRoom {
            known: self.known,
            limit: self.limit,
        }
    }
}

impl fmt::Display for KeysLine {
    ghost use Rattle.std.specs.Prelude.{Some};
    ghost use Rattle.sv_control.specs.Room.{keys_text};

    ghost output = { λ line. Some (keys_text line) };

    fn fmt<W: fmt::Write>(&self, f: &mut fmt::Formatter<W>) -> fmt::Result {
        let room = self.room();
        write!(f, "{room}: {} active, {} sent, ", self.active, self.sent)?;
        write!(
            f,
            "{} gone, {} ended; {} are left",
            self.gone, self.ended, self.left
        )
    }
}
