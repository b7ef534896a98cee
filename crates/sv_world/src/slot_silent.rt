//! A silent step of a node: nothing of it leaves the node.

ghost use Rattle.std.specs.Prelude.{◌≡◌, IsTrue, [], Some, IfOk, OnErr};
ghost use Rattle.sv_model.specs.Engine.{EngineMeaning};
ghost use Rattle.sv_world.specs.Slot.{IsSlot, HasDone, IsUndone, member_of, meaning_in};
ghost use Rattle.sv_world.specs.declared.task.Task.TheVariants.{Silent};

use crate::call::Call;
use crate::core_silent::silent_step;
use crate::line::Effect;
use crate::slot::Slot;
use std::alloc::Global;
use sv_core::Memory;
use sv_model::{Engine, Input, Moment};

impl<E: Engine + Drop> Slot<E> {
    /// A step whose record is durable: listeners are told nothing, and nothing is put out. After want of memory nothing was
    /// done.
    pub fn silent_step(
        &mut self,
        alloc: Global,
        moment: Moment,
        input: Input,
    ) -> Result<Effect, Memory>
        requires slot { IsSlot E.valid self.old }
        requires up { IsTrue (member_of self.old).up }
        ensures slot { IsSlot E.valid self.new }
        ensures setting { self.new.setting ≡ self.old.setting }
        ensures meaning { meaning_in E.meaning self.new ≡ meaning_in E.meaning self.old }
        ensures done { IfOk result (λ f. (m : EngineMeaning) → meaning_in E.meaning self.old ≡ Some m
            → HasDone E.heard m self.old self.new (Silent moment input) f) }
        ensures silent { IfOk result (λ f. f.outputs ≡ []) }
        ensures undone { OnErr result (IsUndone E.heard self.old self.new) }
    {
        let heading = self.heading_by(&input);
        let call = Call {
            node: heading.node,
            moment,
            input,
        };
        let Some(core) = &mut self.core else {
            unreachable!()
        };
        silent_step(alloc, core, &mut self.journal, call, heading)
    }
}
