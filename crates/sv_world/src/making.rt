//! A world whose nodes have just started.

ghost use Rattle.std.specs.Prelude.{◌≡◌, ◌<◌, ◌≤◌, [], length, IfOk, IfErr, OnOk, OnErr, vec_len, vec_capacity};
ghost use Rattle.std.specs.List.{All};
ghost use Rattle.sv_model.specs.Container.{always};
ghost use Rattle.sv_model.specs.Engine.{EngineMeaning};
ghost use Rattle.sv_world.specs.Rules.{rules_for};
ghost use Rattle.sv_world.specs.Headline.{IsHeadline};
ghost use Rattle.sv_world.specs.Journals.{HaveFitted};
ghost use Rattle.sv_world.specs.World.{steady};

use crate::event::WorldEvent;
use crate::fault::WorldFault;
use crate::filling::{fill_slots, take_engines};
use crate::rules::Rules;
use crate::slot::Slot;
use crate::world::World;
use std::alloc::Global;
use sv_model::Engine;

/// The engines of a world that was not made, as memory was refused, in order; none of them has served or told anything.
#[derive(Drop)]
pub struct Unmade<E> {
    pub engines: Vec<E>,
}

impl<E: Engine + Drop> World<E> {
    ghost use Rattle.sv_world.specs.Worlds.{world_of, size_of, meanings_of, heard_of, IsWorld};
    ghost use Rattle.sv_world.specs.Happened.{HaveHappened, AreMade, AreBack, AllAlike, restarts};
    ghost use Rattle.sv_world.specs.Planned.{Ran};
    ghost use Rattle.sv_world.specs.Making.{HaveBegun, IsUntouched, AreEnginesOf, AreFilled};

    /// Starts each node, by number, up to the first for which memory is refused.
    fn start_all(&mut self, nodes: u8) -> Result<(), WorldFault>
        requires { IsWorld E.valid self.old }
        ensures world { IsWorld E.valid self.new }
        ensures happened { OnOk result (HaveHappened E.meaning E.heard self.old self.new (restarts nodes)) }
        ensures size { size_of self.new ≡ size_of self.old }
        ensures meanings { meanings_of E.meaning self.new ≡ meanings_of E.meaning self.old }
        ensures heard { heard_of E.heard self.new ≡ heard_of E.heard self.old }
    {
        for node in 0..nodes {
            self.happen(WorldEvent::Restart(node))?;
        }
        Ok(())
    }

    /// Starts all nodes. After want of memory their engines are moved into the vector, which has room for them.
    fn begin(&mut self, nodes: u8, engines: &mut Vec<E>) -> Result<(), WorldFault>
        requires world { IsWorld E.valid self.old }
        requires nodes { nodes ≡ size_of self.old }
        requires empty { engines.old.items ≡ [] }
        requires room { nodes ≤ vec_capacity engines.old }
        ensures world { OnOk result (IsWorld E.valid self.new) }
        ensures begun { OnOk result (HaveBegun E.meaning E.heard self.old self.new) }
        ensures back { OnErr result (AreEnginesOf E.meaning E.heard E.valid self.old engines.new.items) }
    {
        if let Err(fault) = self.start_all(nodes) {
            take_engines(&mut self.slots, engines);
            return Err(fault);
        }
        Ok(())
    }

    /// Nodes to which nothing has happened.
    fn of(alloc: Global, slots: Vec<Slot<E>>) -> World<E>
        ensures slots { result.slots ≡ slots }
        ensures untouched { IsUntouched result }
    {
        World {
            alloc,
            slots,
            packets: Vec::new(alloc),
            trace: Vec::new(alloc),
        }
    }

    /// Puts the engines into slots, and starts no node.
    fn filled_at_rest(
        alloc: Global,
        mut engines: Vec<E>,
        mut slots: Vec<Slot<E>>,
        rules: Rules,
    ) -> World<E>
        requires some { 0 < length engines.items }
        requires few { length engines.items ≤ 8 }
        requires valid { All (λ e. E.valid e) engines.items }
        requires empty { slots.items ≡ [] }
        requires room { vec_len engines ≤ vec_capacity slots }
        ensures world { IsWorld E.valid result }
        ensures made { AreMade E.meaning E.heard engines.items rules [] result }
    {
        fill_slots(alloc, &mut engines, rules, &mut slots);
        World::of(alloc, slots)
    }

    /// Puts the engines into slots, and starts all nodes.
    fn filled(
        alloc: Global,
        mut engines: Vec<E>,
        mut slots: Vec<Slot<E>>,
        rules: Rules,
    ) -> Result<World<E>, Unmade<E>>
        requires some { 0 < length engines.items }
        requires few { length engines.items ≤ 8 }
        requires valid { All (λ e. E.valid e) engines.items }
        requires empty { slots.items ≡ [] }
        requires room { vec_len engines ≤ vec_capacity slots }
        ensures world { IfOk result (λ w. IsWorld E.valid w) }
        ensures started { IfOk result (λ w. AreMade E.meaning E.heard engines.items rules (restarts (length engines.items)) w) }
        ensures back { IfErr result (λ u. AreBack E.meaning E.heard E.valid engines.items u.engines.items) }
    {
        let nodes = engines.len() as u8;
        fill_slots(alloc, &mut engines, rules, &mut slots);
        let mut world = World::of(alloc, slots);
        match world.begin(nodes, &mut engines) {
            Ok(()) => Ok(world),
            Err(_) => Err(Unmade { engines }),
        }
    }

    /// A world of as many nodes as there are engines, 1 to 8, in which nothing has happened, and no node runs.
    pub fn at_rest(alloc: Global, engines: Vec<E>, rules: Rules) -> Result<World<E>, Unmade<E>>
        requires some { 0 < length engines.items }
        requires few { length engines.items ≤ 8 }
        requires valid { All (λ e. E.valid e) engines.items }
        ensures world { IfOk result (λ w. IsWorld E.valid w) }
        ensures made { IfOk result (λ w. AreMade E.meaning E.heard engines.items rules [] w) }
        ensures ran { IfOk result (λ w. (m : EngineMeaning) → AllAlike E.meaning m engines.items
            → Ran E.meaning (always m) (steady (length engines.items) rules) w) }
        ensures back { IfErr result (λ u. AreBack E.meaning E.heard E.valid engines.items u.engines.items) }
    {
        match Vec::with_capacity(alloc, engines.len()) {
            Ok(slots) => Ok(World::filled_at_rest(alloc, engines, slots, rules)),
            Err(_) => Err(Unmade { engines }),
        }
    }

    /// A world of as many nodes as there are engines, 1 to 8, in which nothing has happened but that each has started, by
    /// number.
    pub fn with(alloc: Global, engines: Vec<E>, rules: Rules) -> Result<World<E>, Unmade<E>>
        requires some { 0 < length engines.items }
        requires few { length engines.items ≤ 8 }
        requires valid { All (λ e. E.valid e) engines.items }
        ensures world { IfOk result (λ w. IsWorld E.valid w) }
        ensures started { IfOk result (λ w. AreMade E.meaning E.heard engines.items rules (restarts (length engines.items)) w) }
        ensures ran { IfOk result (λ w. (m : EngineMeaning) → AllAlike E.meaning m engines.items
            → Ran E.meaning (always m) (steady (length engines.items) rules) w) }
        ensures headline { IfOk result (λ w. (m : EngineMeaning) → AllAlike E.meaning m engines.items → IsHeadline (always m) (world_of w)) }
        ensures fit { IfOk result (λ w. (m : EngineMeaning) → AllAlike E.meaning m engines.items → HaveFitted rules (world_of w)) }
        ensures back { IfErr result (λ u. AreBack E.meaning E.heard E.valid engines.items u.engines.items) }
    {
        match Vec::with_capacity(alloc, engines.len()) {
            Ok(slots) => World::filled(alloc, engines, slots, rules),
            Err(_) => Err(Unmade { engines }),
        }
    }

    /// The same, of nodes that know 65,536 keys at most and forget none. Requests wait `deadline` seconds for their session.
    pub fn new(alloc: Global, engines: Vec<E>, deadline: u64) -> Result<World<E>, Unmade<E>>
        requires some { 0 < length engines.items }
        requires few { length engines.items ≤ 8 }
        requires valid { All (λ e. E.valid e) engines.items }
        ensures world { IfOk result (λ w. IsWorld E.valid w) }
        ensures started { IfOk result (λ w. AreMade E.meaning E.heard engines.items (rules_for deadline) (restarts (length engines.items)) w) }
        ensures ran { IfOk result (λ w. (m : EngineMeaning) → AllAlike E.meaning m engines.items
            → Ran E.meaning (always m) (steady (length engines.items) (rules_for deadline)) w) }
        ensures headline { IfOk result (λ w. (m : EngineMeaning) → AllAlike E.meaning m engines.items → IsHeadline (always m) (world_of w)) }
        ensures fit { IfOk result (λ w. (m : EngineMeaning) → AllAlike E.meaning m engines.items → HaveFitted (rules_for deadline) (world_of w)) }
        ensures back { IfErr result (λ u. AreBack E.meaning E.heard E.valid engines.items u.engines.items) }
    {
        World::with(alloc, engines, Rules::of(deadline))
    }
}
