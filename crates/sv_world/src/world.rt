//! Nodes, the packets that they have sent, and what has happened to them.

ghost use Rattle.std.specs.Prelude.{◌≡◌};

use crate::line::Line;
use crate::slot::Slot;
use std::alloc::Global;
use sv_model::Packet;

/// Up to 8 nodes, from 0, and all that has happened to them. What a node is started with may be another from start to start.
#[derive(Drop)]
pub struct World<E> {
    pub(crate) alloc: Global,
    pub(crate) slots: Vec<Slot<E>>,
    /// All packets that were ever sent, the first at 0.
    pub(crate) packets: Vec<Packet>,
    pub(crate) trace: Vec<Line>,
}

impl<E> World<E> {
    ghost use Rattle.sv_world.specs.Worlds.{world_of};

    /// A line for each event, the oldest first.
    pub fn trace(&self) -> &[Line]
        ensures { result.now ≡ (world_of self.now).trace }
    {
        self.trace.as_slice()
    }
}
