//! The slot of a node of a world, running or stopped.

ghost use Rattle.std.specs.Prelude.{◌≡◌, IsTrue, None};
ghost use Rattle.sv_world.specs.Deed.{heading_at, heading_by};
ghost use Rattle.sv_world.specs.Slot.{IsSlot, member_of, engine_in, boot_if_up};
ghost use Rattle.sv_world.specs.World.{stopped};

use crate::line::Heading;
use crate::used::asked_by;
use sv_core::Core;
use sv_model::{Engine, Input, Record, Setting};

/// What a world keeps of a node: its journal, and the core that runs over it, or the engine of the next start.
#[derive(Drop)]
pub struct Slot<E> {
    pub setting: Setting,
    /// What it has made durable, the oldest first.
    pub journal: Vec<Record>,
    /// What runs; none while the node is stopped.
    pub core: Option<Core<E>>,
    /// The engine while the node is stopped.
    pub idle: Option<E>,
}

impl<E> Slot<E> {
    /// The number of its last start, where it runs.
    pub fn boot(&self) -> Option<u64>
        ensures { result ≡ boot_if_up (member_of self.now) }
    {
        match &self.core {
            Some(core) => Some(core.boot()),
            None => None,
        }
    }

    /// The heading of what happens at it with no request, while it runs.
    pub fn heading(&self) -> Heading
        requires up { IsTrue (member_of self.now).up }
        ensures { result ≡ heading_at self.now.setting (member_of self.now).node.durable None }
    {
        let Some(core) = &self.core else {
            unreachable!()
        };
        Heading {
            node: self.setting.node,
            boot: core.boot(),
            asked: None,
        }
    }

    /// The heading of a step, while it runs.
    pub fn heading_by(&self, input: &Input) -> Heading
        requires up { IsTrue (member_of self.now).up }
        ensures { result ≡ heading_by self.now.setting (member_of self.now).node.durable input.now }
    {
        let Heading { node, boot, .. } = self.heading();
        Heading {
            node,
            boot,
            asked: asked_by(node, boot, input),
        }
    }
}

impl<E: Engine + Drop> Slot<E> {
    /// Stops; what is not durable is gone.
    pub fn stop(&mut self)
        requires slot { IsSlot E.valid self.old }
        requires up { IsTrue (member_of self.old).up }
        ensures slot { IsSlot E.valid self.new }
        ensures setting { self.new.setting ≡ self.old.setting }
        ensures journal { self.new.journal ≡ self.old.journal }
        ensures engine { engine_in self.new ≡ engine_in self.old }
        ensures member { member_of self.new ≡ stopped (member_of self.old).node.durable }
    {
        let Some(core) = self.core.take() else {
            unreachable!()
        };
        self.idle = Some(core.into_engine());
    }
}
