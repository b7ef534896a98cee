//! A node that starts.

ghost use Rattle.std.specs.Prelude.{◌≡◌, ◌&&◌, IsTrue, cond, is_some, false, None, IfOk, OnErr};
ghost use Rattle.sv_world.specs.CoreStep.{start_entry, start_entry_if, begun, start_of};
ghost use Rattle.sv_world.specs.Deed.{quiet_at};
ghost use Rattle.sv_world.specs.Slot.{IsSlot, member_of, engine_in, meaning_in, heard_in};
ghost use Rattle.sv_world.specs.World.{stopped};

use crate::core_start::begin;
use crate::line::{Effect, Heading};
use crate::slot::Slot;
use std::alloc::Global;
use sv_core::Memory;
use sv_model::{Engine, Record};

impl<E: Engine + Drop> Slot<E> {
    /// Makes a start of its core durable, and gives the record; none where its boot numbers are used up. After want of memory
    /// nothing was done.
    fn begin(&mut self, alloc: Global) -> Result<Option<Record>, Memory>
        requires slot { IsSlot E.valid self.old }
        requires up { IsTrue (member_of self.old).up }
        ensures slot { IsSlot E.valid self.new }
        ensures setting { self.new.setting ≡ self.old.setting }
        ensures meaning { meaning_in E.meaning self.new ≡ meaning_in E.meaning self.old }
        ensures heard { heard_in E.heard self.new ≡ heard_in E.heard self.old }
        ensures up { IsTrue (member_of self.new).up }
        ensures entry { IfOk result (λ entry. entry ≡ start_entry self.old.setting (member_of self.old).node.durable) }
        ensures node { IfOk result (λ entry. (member_of self.new).node ≡ begun entry (member_of self.old).node) }
        ensures still { OnErr result ((member_of self.new).node ≡ (member_of self.old).node) }
    {
        let Some(core) = &mut self.core else {
            unreachable!()
        };
        begin(alloc, core, &mut self.journal)
    }

    /// The same where the start comes so far, and else nothing.
    fn begin_if(&mut self, alloc: Global, kept: bool) -> Result<Option<Record>, Memory>
        requires slot { IsSlot E.valid self.old }
        requires up { IsTrue (member_of self.old).up }
        ensures slot { IsSlot E.valid self.new }
        ensures setting { self.new.setting ≡ self.old.setting }
        ensures meaning { meaning_in E.meaning self.new ≡ meaning_in E.meaning self.old }
        ensures heard { heard_in E.heard self.new ≡ heard_in E.heard self.old }
        ensures up { IsTrue (member_of self.new).up }
        ensures entry { IfOk result (λ entry. entry ≡ start_entry_if self.old.setting kept (member_of self.old).node.durable) }
        ensures node { IfOk result (λ entry. (member_of self.new).node ≡ begun entry (member_of self.old).node) }
        ensures still { OnErr result ((member_of self.new).node ≡ (member_of self.old).node) }
    {
        if kept {
            return self.begin(alloc);
        }
        Ok(None)
    }

    /// Runs on where it has started and stays, and else stops.
    fn settle(
        &mut self,
        alloc: Global,
        heading: Heading,
        entry: Option<Record>,
        stays: bool,
    ) -> Effect
        requires slot { IsSlot E.valid self.old }
        requires up { IsTrue (member_of self.old).up }
        ensures slot { IsSlot E.valid self.new }
        ensures setting { self.new.setting ≡ self.old.setting }
        ensures engine { engine_in self.new ≡ engine_in self.old }
        ensures member { member_of self.new ≡ cond (is_some entry && stays) (member_of self.old) (stopped (member_of self.old).node.durable) }
        ensures effect { result ≡ quiet_at heading entry None }
    {
        if !(entry.is_some() && stays) {
            self.stop();
        }
        Effect::quiet(alloc, heading, entry, None)
    }

    /// A start, that comes as far as its record where that is `kept`, and leaves the node running where it `stays`. A node
    /// whose boot numbers are used up stays stopped. After want of memory nothing was done.
    pub fn start(&mut self, alloc: Global, kept: bool, stays: bool) -> Result<Effect, Memory>
        requires slot { IsSlot E.valid self.old }
        requires down { (member_of self.old).up ≡ false }
        ensures slot { IsSlot E.valid self.new }
        ensures setting { self.new.setting ≡ self.old.setting }
        ensures meaning { meaning_in E.meaning self.new ≡ meaning_in E.meaning self.old }
        ensures heard { heard_in E.heard self.new ≡ heard_in E.heard self.old }
        ensures member { IfOk result (λ _. member_of self.new ≡ (start_of self.old.setting (member_of self.old).node.durable kept stays).member) }
        ensures effect { IfOk result (λ f. f ≡ (start_of self.old.setting (member_of self.old).node.durable kept stays).effect) }
        ensures still { OnErr result (member_of self.new ≡ member_of self.old) }
    {
        self.recover(alloc)?;
        let heading = self.heading();
        match self.begin_if(alloc, kept) {
            Ok(entry) => Ok(self.settle(alloc, heading, entry, stays)),
            Err(fault) => {
                self.stop();
                Err(fault)
            }
        }
    }
}
