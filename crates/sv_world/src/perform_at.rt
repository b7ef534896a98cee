//! What one of the nodes does.

ghost use Rattle.std.specs.Prelude.{◌≡◌, ◌<◌, ◌++◌, Some, length, IfOk, OnErr};
ghost use Rattle.std.specs.List.{All};
ghost use Rattle.sv_model.specs.Engine.{EngineMeaning};
ghost use Rattle.sv_model.specs.Outputs.{sends_in};
ghost use Rattle.sv_world.specs.Deed.{wants_up};
ghost use Rattle.sv_world.specs.Slot.{IsSlot};
ghost use Rattle.sv_world.specs.Worlds.{members_by, settings_by, meanings_by};
ghost use Rattle.sv_world.specs.Happened.{HaveDone, AreUndone};

use crate::action::Action;
use crate::line::Effect;
use crate::slot::Slot;
use std::alloc::Global;
use sv_core::Memory;
use sv_model::{Engine, Packet};

/// A node does what is asked of it, and adds the packets that it sends. After want of memory nothing was done.
pub fn perform_at<E: Engine + Drop>(
    slots: &mut Vec<Slot<E>>,
    alloc: Global,
    packets: &mut Vec<Packet>,
    action: Action,
) -> Result<Effect, Memory>
    requires slots { All (λ s. IsSlot E.valid s) slots.old.items }
    requires there { action.node < length slots.old.items }
    requires up { (members_by slots.old.items action.node).up ≡ wants_up action.task }
    ensures slots { All (λ s. IsSlot E.valid s) slots.new.items }
    ensures number { length slots.new.items ≡ length slots.old.items }
    ensures settings { settings_by slots.new.items ≡ settings_by slots.old.items }
    ensures meanings { meanings_by E.meaning slots.new.items ≡ meanings_by E.meaning slots.old.items }
    ensures done { IfOk result (λ f. (m : EngineMeaning) → meanings_by E.meaning slots.old.items action.node ≡ Some m
        → HaveDone E.heard m slots.old.items slots.new.items action f) }
    ensures sent { IfOk result (λ f. packets.new.items ≡ packets.old.items ++ sends_in f.outputs) }
    ensures undone { OnErr result (AreUndone E.heard slots.old.items slots.new.items) }
    ensures unsent { OnErr result (packets.new.items ≡ packets.old.items) }
{
    let Action { node, task } = action;
    slots[usize::from(node)].perform(alloc, packets, task)
}
