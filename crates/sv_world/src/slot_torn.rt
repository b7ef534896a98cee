//! A torn step of a node: a stop cuts it.

ghost use Rattle.std.specs.Prelude.{◌≡◌, ◌<◌, IsTrue, [], false, Some, IfOk, OnOk, OnErr, vec_len, vec_capacity};
ghost use Rattle.sv_model.specs.Engine.{EngineMeaning};
ghost use Rattle.sv_model.specs.Replay.{applied_if};
ghost use Rattle.sv_world.specs.CoreStep.{MayFollow, halted_with};
ghost use Rattle.sv_world.specs.Deed.{deed, heading_by, quiet_at};
ghost use Rattle.sv_world.specs.Slot.{IsSlot, HasDone, IsUndone, member_of, engine_in, meaning_in, heard_in};
ghost use Rattle.sv_world.specs.World.{stopped};
ghost use Rattle.sv_world.specs.declared.task.Task.TheVariants.{Torn};

use crate::call::Call;
use crate::core_torn::{Rest, torn_rest};
use crate::line::{Effect, Heading};
use crate::plan::keep;
use crate::slot::Slot;
use std::alloc::Global;
use sv_core::Memory;
use sv_model::{Engine, Input, Moment};

impl<E: Engine + Drop> Slot<E> {
    /// What a stop leaves of a step, with room for its record. The node is as it was.
    fn torn_rest(
        &mut self,
        alloc: Global,
        moment: Moment,
        input: Input,
        kept: bool,
    ) -> Result<Rest, Memory>
        requires slot { IsSlot E.valid self.old }
        requires up { IsTrue (member_of self.old).up }
        ensures slot { IsSlot E.valid self.new }
        ensures setting { self.new.setting ≡ self.old.setting }
        ensures meaning { meaning_in E.meaning self.new ≡ meaning_in E.meaning self.old }
        ensures heard { heard_in E.heard self.new ≡ heard_in E.heard self.old }
        ensures member { member_of self.new ≡ member_of self.old }
        ensures room { OnOk result (vec_len self.new.journal < vec_capacity self.new.journal) }
        ensures follows { IfOk result (λ r. MayFollow self.old.setting (member_of self.old).node.durable r.kept) }
        ensures rest { IfOk result (λ r. (m : EngineMeaning) → meaning_in E.meaning self.old ≡ Some m
            → deed m self.old.setting (member_of self.old) (Torn moment input kept)
            ≡ halted_with (heading_by self.old.setting (member_of self.old).node.durable input) (member_of self.old).node.durable r) }
    {
        let call = Call {
            node: self.setting.node,
            moment,
            input,
        };
        let Some(core) = &mut self.core else {
            unreachable!()
        };
        torn_rest(alloc, core, &mut self.journal, call, kept)
    }

    /// Keeps what a stop has left of a step, at a node that has stopped.
    fn leave(&mut self, alloc: Global, heading: Heading, rest: Rest) -> Effect
        requires slot { IsSlot E.valid self.old }
        requires down { (member_of self.old).up ≡ false }
        requires room { vec_len self.old.journal < vec_capacity self.old.journal }
        requires follows { MayFollow self.old.setting (member_of self.old).node.durable rest.kept }
        ensures slot { IsSlot E.valid self.new }
        ensures setting { self.new.setting ≡ self.old.setting }
        ensures engine { engine_in self.new ≡ engine_in self.old }
        ensures member { member_of self.new ≡ stopped (applied_if rest.kept (member_of self.old).node.durable) }
        ensures effect { result ≡ quiet_at heading rest.entry rest.commit }
    {
        let Rest {
            kept,
            entry,
            commit,
        } = rest;
        keep(&mut self.journal, kept);
        Effect::quiet(alloc, heading, entry, commit)
    }

    /// A torn step, after its record where that is `kept`, else before it: listeners are told nothing, and nothing is put out.
    /// After want of memory nothing was done.
    pub fn torn_step(
        &mut self,
        alloc: Global,
        moment: Moment,
        input: Input,
        kept: bool,
    ) -> Result<Effect, Memory>
        requires slot { IsSlot E.valid self.old }
        requires up { IsTrue (member_of self.old).up }
        ensures slot { IsSlot E.valid self.new }
        ensures setting { self.new.setting ≡ self.old.setting }
        ensures meaning { meaning_in E.meaning self.new ≡ meaning_in E.meaning self.old }
        ensures done { IfOk result (λ f. (m : EngineMeaning) → meaning_in E.meaning self.old ≡ Some m
            → HasDone E.heard m self.old self.new (Torn moment input kept) f) }
        ensures silent { IfOk result (λ f. f.outputs ≡ []) }
        ensures undone { OnErr result (IsUndone E.heard self.old self.new) }
    {
        let heading = self.heading_by(&input);
        let rest = self.torn_rest(alloc, moment, input, kept)?;
        self.stop();
        Ok(self.leave(alloc, heading, rest))
    }
}
