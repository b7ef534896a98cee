//! A core over what is durable.

ghost use Rattle.std.specs.Prelude.{◌≡◌, false, OnOk, OnErr};
ghost use Rattle.sv_world.specs.Slot.{IsSlot, member_of, engine_in};
ghost use Rattle.sv_world.specs.World.{started};

use crate::slot::Slot;
use std::alloc::Global;
use sv_core::{Core, Memory};
use sv_model::Engine;

impl<E: Engine + Drop> Slot<E> {
    /// Puts its engine over what is durable; its boot number is still that of its last start. After want of memory it is as
    /// it was.
    pub fn recover(&mut self, alloc: Global) -> Result<(), Memory>
        requires slot { IsSlot E.valid self.old }
        requires down { (member_of self.old).up ≡ false }
        ensures slot { IsSlot E.valid self.new }
        ensures setting { self.new.setting ≡ self.old.setting }
        ensures engine { engine_in self.new ≡ engine_in self.old }
        ensures member { OnOk result (member_of self.new ≡ started (member_of self.old).node.durable) }
        ensures still { OnErr result (member_of self.new ≡ member_of self.old) }
    {
        let Some(engine) = self.idle.take() else {
            unreachable!()
        };
        match Core::recover(alloc, engine, self.setting, &self.journal) {
            Ok(core) => {
                self.core = Some(core);
                Ok(())
            }
            Err(refused) => {
                // the records of a slot fit, so what was refused is memory
                self.idle = Some(refused.engine);
                Err(Memory)
            }
        }
    }
}
