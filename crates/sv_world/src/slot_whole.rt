//! A whole step of a node.

ghost use Rattle.std.specs.Prelude.{◌≡◌, ◌++◌, IsTrue, Some, IfOk, OnErr};
ghost use Rattle.sv_model.specs.Engine.{EngineMeaning};
ghost use Rattle.sv_model.specs.Outputs.{sends_in};
ghost use Rattle.sv_world.specs.Slot.{IsSlot, HasDone, IsUndone, member_of, meaning_in};
ghost use Rattle.sv_world.specs.declared.task.Task.TheVariants.{Step};

use crate::call::Call;
use crate::core_whole::whole_step;
use crate::line::Effect;
use crate::slot::Slot;
use std::alloc::Global;
use sv_core::Memory;
use sv_model::{Engine, Input, Moment, Packet};

impl<E: Engine + Drop> Slot<E> {
    /// A whole step: its record is durable, listeners are told, and its packets are sent. After want of memory nothing was
    /// done.
    pub fn whole_step(
        &mut self,
        alloc: Global,
        packets: &mut Vec<Packet>,
        moment: Moment,
        input: Input,
    ) -> Result<Effect, Memory>
        requires slot { IsSlot E.valid self.old }
        requires up { IsTrue (member_of self.old).up }
        ensures slot { IsSlot E.valid self.new }
        ensures setting { self.new.setting ≡ self.old.setting }
        ensures meaning { meaning_in E.meaning self.new ≡ meaning_in E.meaning self.old }
        ensures done { IfOk result (λ f. (m : EngineMeaning) → meaning_in E.meaning self.old ≡ Some m
            → HasDone E.heard m self.old self.new (Step moment input) f) }
        ensures sent { IfOk result (λ f. packets.new.items ≡ packets.old.items ++ sends_in f.outputs) }
        ensures undone { OnErr result (IsUndone E.heard self.old self.new) }
        ensures unsent { OnErr result (packets.new.items ≡ packets.old.items) }
    {
        let heading = self.heading_by(&input);
        let call = Call {
            node: heading.node,
            moment,
            input,
        };
        let Some(core) = &mut self.core else {
            unreachable!()
        };
        whole_step(alloc, core, &mut self.journal, packets, call, heading)
    }
}
