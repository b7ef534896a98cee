//! What a node does of what an event asks of it.

ghost use Rattle.std.specs.Prelude.{◌≡◌, ◌++◌, IsTrue, [], None, Some, IfOk, OnErr};
ghost use Rattle.sv_model.specs.Engine.{EngineMeaning};
ghost use Rattle.sv_model.specs.Outputs.{sends_in};
ghost use Rattle.sv_world.specs.Deed.{wants_up, heading_at, quiet_at};
ghost use Rattle.sv_world.specs.Slot.{IsSlot, HasDone, IsUndone, member_of, engine_in, meaning_in};
ghost use Rattle.sv_world.specs.World.{stopped};

use crate::line::Effect;
use crate::slot::Slot;
use crate::task::Task;
use std::alloc::Global;
use sv_core::Memory;
use sv_model::{Engine, Packet};

impl<E: Engine + Drop> Slot<E> {
    /// Stops, and what isn't durable is gone.
    fn halt(&mut self, alloc: Global) -> Effect
        requires slot { IsSlot E.valid self.old }
        requires up { IsTrue (member_of self.old).up }
        ensures slot { IsSlot E.valid self.new }
        ensures setting { self.new.setting ≡ self.old.setting }
        ensures engine { engine_in self.new ≡ engine_in self.old }
        ensures member { member_of self.new ≡ stopped (member_of self.old).node.durable }
        ensures effect { result ≡ quiet_at (heading_at self.old.setting (member_of self.old).node.durable None) None None }
    {
        let heading = self.heading();
        self.stop();
        Effect::quiet(alloc, heading, None, None)
    }

    /// Does a task, and adds the packets that it sends. After want of memory nothing was done.
    pub fn perform(
        &mut self,
        alloc: Global,
        packets: &mut Vec<Packet>,
        task: Task,
    ) -> Result<Effect, Memory>
        requires slot { IsSlot E.valid self.old }
        requires up { (member_of self.old).up ≡ wants_up task }
        ensures slot { IsSlot E.valid self.new }
        ensures setting { self.new.setting ≡ self.old.setting }
        ensures meaning { meaning_in E.meaning self.new ≡ meaning_in E.meaning self.old }
        ensures done { IfOk result (λ f. (m : EngineMeaning) → meaning_in E.meaning self.old ≡ Some m → HasDone E.heard m self.old self.new task f) }
        ensures sent { IfOk result (λ f. packets.new.items ≡ packets.old.items ++ sends_in f.outputs) }
        ensures undone { OnErr result (IsUndone E.heard self.old self.new) }
        ensures unsent { OnErr result (packets.new.items ≡ packets.old.items) }
    {
        match task {
            Task::Step { moment, input } => self.whole_step(alloc, packets, moment, input),
            Task::Torn {
                moment,
                input,
                kept,
            } => self.torn_step(alloc, moment, input, kept),
            Task::Silent { moment, input } => self.silent_step(alloc, moment, input),
            Task::Stop => Ok(self.halt(alloc)),
            Task::Start => self.start(alloc, true, true),
            Task::TornStart { kept } => self.start(alloc, kept, false),
        }
    }
}
