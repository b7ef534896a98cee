//! Events, one after the other.

ghost use Rattle.std.specs.Prelude.{◌≡◌, ℕ, [], ◌∷◌, None, IfErr, OnOk};
ghost use Rattle.sv_model.specs.Container.{Meanings, always};
ghost use Rattle.sv_model.specs.Engine.{EngineMeaning};
ghost use Rattle.sv_world.specs.Faults.{fault_of};
ghost use Rattle.sv_world.specs.Headline.{IsHeadline};
ghost use Rattle.sv_world.specs.Journals.{AreWithin, HaveFitted};
ghost use Rattle.sv_world.specs.Progress.{IsProgress};
ghost use Rattle.sv_world.specs.World.{Cluster, steady, nothing_happened, AlwaysKnows};
ghost use Rattle.sv_world.specs.declared.rules.Rules.{Rules};

use crate::event::WorldEvent;
use crate::fault::WorldFault;
use crate::finding::fault_of;
use crate::world::World;
use sv_model::Engine;
use thiserror::Error;

/// Which of the events did not happen, from 0, and why. Those before it did, and no other.
#[derive(Clone, Copy, Debug, PartialEq, Eq, Error)]
#[error("the event at place {place}: {fault}")]
pub struct RunFault {
    pub place: usize,
    pub fault: WorldFault,
}

impl<E: Engine + Drop> World<E> {
    ghost use Rattle.sv_world.specs.Worlds.{world_of, cluster_of, IsWorld};
    ghost use Rattle.sv_world.specs.Happened.{HaveHappened, HaveStopped, IsRefused, events_in, refusal};
    ghost use Rattle.sv_world.specs.Planned.{Ran};

    /// Why an event does not happen for which there was no memory.
    fn refusal(&self, event: &WorldEvent) -> WorldFault
        requires { IsWorld E.valid self.now }
        ensures { result ≡ refusal (fault_of (cluster_of self.now) (world_of self.now) event.now) }
    {
        match fault_of(&self.slots, &self.packets, &self.trace, event) {
            Some(fault) => fault,
            None => WorldFault::Memory,
        }
    }

    /// An event that others have too.
    fn happen_once(&mut self, event: &WorldEvent) -> Result<(), WorldFault>
        requires { IsWorld E.valid self.old }
        ensures world { IsWorld E.valid self.new }
        ensures happened { OnOk result (HaveHappened E.meaning E.heard self.old self.new (event.now ∷ [])) }
        ensures refused { IfErr result (λ f. IsRefused E.meaning E.heard self.old self.new event.now f) }
    {
        match event.copy(self.alloc) {
            Ok(copy) => self.happen(copy),
            Err(_) => Err(self.refusal(event)),
        }
    }

    /// Events, up to the first that can't happen.
    fn happen_all(&mut self, events: &[WorldEvent]) -> Result<(), RunFault>
        requires { IsWorld E.valid self.old }
        ensures world { IsWorld E.valid self.new }
        ensures happened { OnOk result (HaveHappened E.meaning E.heard self.old self.new events.now) }
        ensures stopped { IfErr result (λ f. HaveStopped E.meaning E.heard self.old self.new events.now f) }
    {
        for place in 0..events.len() {
            if let Err(fault) = self.happen_once(&events[place]) {
                return Err(RunFault { place, fault });
            }
        }
        Ok(())
    }

    /// What these events do, one after the other, up to the first that can't happen.
    ///
    /// Where the world is what its events make, by a plan of what each start is started with, of one in which nothing had
    /// happened, it is so after these events too, and the theorem of `Headline.antt` and what `Progress.antt` promises hold of
    /// it: the theorem as long as each node that ran was told of each node whose sessions lived, as it is where all starts have
    /// the same.
    pub fn run(&mut self, events: &[WorldEvent]) -> Result<(), RunFault>
        requires { IsWorld E.valid self.old }
        ensures world { IsWorld E.valid self.new }
        ensures happened { OnOk result (HaveHappened E.meaning E.heard self.old self.new events.now) }
        ensures stopped { IfErr result (λ f. HaveStopped E.meaning E.heard self.old self.new events.now f) }
        ensures ran { (m : Meanings) (c : Cluster) → Ran E.meaning m c self.old → Ran E.meaning m c self.new }
        ensures headline { (m : Meanings) (c : Cluster) → Ran E.meaning m c self.old → AlwaysKnows m c nothing_happened (events_in (world_of self.new))
            → IsHeadline m (world_of self.new) }
        ensures steady { (m : EngineMeaning) (nodes : ℕ) (rules : Rules) → Ran E.meaning (always m) (steady nodes rules) self.old
            → IsHeadline (always m) (world_of self.new) }
        ensures fit { (m : Meanings) (c : Cluster) (wide : Rules) → Ran E.meaning m c self.old → AreWithin wide c → HaveFitted wide (world_of self.new) }
        ensures progress { (m : Meanings) (c : Cluster) → Ran E.meaning m c self.old → IsProgress m c (world_of self.new) }
    {
        self.happen_all(events)
    }
}
