//! One event.

ghost use Rattle.std.specs.Prelude.{◌≡◌, ℕ, ◌<◌, [], ◌∷◌, None, true, IfOk, IfErr, OnOk, vec_len, vec_capacity};
ghost use Rattle.sv_model.specs.Container.{Meanings, always};
ghost use Rattle.sv_model.specs.Engine.{EngineMeaning};
ghost use Rattle.sv_world.specs.Faults.{fault_of};
ghost use Rattle.sv_world.specs.Headline.{IsHeadline};
ghost use Rattle.sv_world.specs.Journals.{AreWithin, HaveFitted};
ghost use Rattle.sv_world.specs.Progress.{IsProgress};
ghost use Rattle.sv_world.specs.World.{Cluster, steady, nothing_happened, AlwaysKnows};
ghost use Rattle.sv_world.specs.declared.rules.Rules.{Rules};

use crate::action::action_for;
use crate::event::WorldEvent;
use crate::fault::WorldFault;
use crate::finding::fault_of;
use crate::line::{Effect, Line};
use crate::perform_at::perform_at;
use crate::world::World;
use sv_model::Engine;

impl<E: Engine + Drop> World<E> {
    ghost use Rattle.sv_world.specs.Worlds.{world_of, cluster_of, heard_of, IsWorld};
    ghost use Rattle.sv_world.specs.Happened.{HaveHappened, HasActed, IsRefused, events_in, is_start};
    ghost use Rattle.sv_world.specs.Planned.{Ran};

    /// A node does what an event asks of it, where the event can happen. The trace then has room for its line.
    fn act(&mut self, event: &WorldEvent) -> Result<Effect, WorldFault>
        requires { IsWorld E.valid self.old }
        ensures world { IsWorld E.valid self.new }
        ensures acted { IfOk result (λ f. HasActed E.meaning E.heard self.old self.new event.now f) }
        ensures room { OnOk result (vec_len self.new.trace < vec_capacity self.new.trace) }
        ensures refused { IfErr result (λ f. IsRefused E.meaning E.heard self.old self.new event.now f) }
    {
        if let Some(fault) = fault_of(&self.slots, &self.packets, &self.trace, event) {
            return Err(fault);
        }
        self.trace.try_reserve(1)?;
        let action = action_for(self.alloc, &self.packets, event)?;
        Ok(perform_at(&mut self.slots, self.alloc, &mut self.packets, action)?)
    }

    /// An event, where it can happen.
    pub(crate) fn happen(&mut self, event: WorldEvent) -> Result<(), WorldFault>
        requires { IsWorld E.valid self.old }
        ensures world { IsWorld E.valid self.new }
        ensures possible { OnOk result (fault_of (cluster_of self.old) (world_of self.old) event ≡ None) }
        ensures happened { OnOk result (HaveHappened E.meaning E.heard self.old self.new (event ∷ [])) }
        ensures silent { is_start event ≡ true → OnOk result (heard_of E.heard self.new ≡ heard_of E.heard self.old) }
        ensures refused { IfErr result (λ f. IsRefused E.meaning E.heard self.old self.new event f) }
    {
        let effect = self.act(&event)?;
        self.trace.push_reserved(Line::new(event, effect));
        Ok(())
    }

    /// What an event does, or the first reason why it can't happen; then all is as it was.
    ///
    /// Where the world is what its events make, by a plan of what each start is started with, of one in which nothing had
    /// happened, it is so after this event too, and the theorem of `Headline.antt` and what `Progress.antt` promises hold of
    /// it: the theorem as long as each node that ran was told of each node whose sessions lived, as it is where all starts have
    /// the same.
    pub fn step(&mut self, event: WorldEvent) -> Result<(), WorldFault>
        requires { IsWorld E.valid self.old }
        ensures world { IsWorld E.valid self.new }
        ensures possible { OnOk result (fault_of (cluster_of self.old) (world_of self.old) event ≡ None) }
        ensures happened { OnOk result (HaveHappened E.meaning E.heard self.old self.new (event ∷ [])) }
        ensures refused { IfErr result (λ f. IsRefused E.meaning E.heard self.old self.new event f) }
        ensures ran { (m : Meanings) (c : Cluster) → Ran E.meaning m c self.old → Ran E.meaning m c self.new }
        ensures headline { (m : Meanings) (c : Cluster) → Ran E.meaning m c self.old → AlwaysKnows m c nothing_happened (events_in (world_of self.new))
            → IsHeadline m (world_of self.new) }
        ensures steady { (m : EngineMeaning) (nodes : ℕ) (rules : Rules) → Ran E.meaning (always m) (steady nodes rules) self.old
            → IsHeadline (always m) (world_of self.new) }
        ensures fit { (m : Meanings) (c : Cluster) (wide : Rules) → Ran E.meaning m c self.old → AreWithin wide c → HaveFitted wide (world_of self.new) }
        ensures progress { (m : Meanings) (c : Cluster) → Ran E.meaning m c self.old → IsProgress m c (world_of self.new) }
    {
        self.happen(event)
    }
}
