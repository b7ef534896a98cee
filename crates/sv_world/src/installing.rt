//! A node that is stopped gets another application, other rules, or is told of another number of nodes.

ghost use Rattle.std.specs.Prelude.{◌≡◌, ℕ, ◌==◌, ◌<◌, cond, false, Some, None, length, slice_get, IfOk, IfErr, OnOk, OnErr};
ghost use Rattle.std.specs.List.{All};
ghost use Rattle.sv_model.specs.Container.{Meanings};
ghost use Rattle.sv_world.specs.Happened.{AreUndone};
ghost use Rattle.sv_world.specs.Planned.{AreInstalled, fault_by, meanings_behind, cluster_behind};
ghost use Rattle.sv_world.specs.Slot.{IsSlot, member_of, engine_in};
ghost use Rattle.sv_world.specs.World.{Cluster};
ghost use Rattle.sv_world.specs.Worlds.{members_by, settings_by, meanings_by};

use crate::rules::Rules;
use crate::slot::Slot;
use crate::world::World;
use std::alloc::Global;
use sv_core::{ApplyFault, Core, Unrecovered};
use sv_model::{Engine, Setting};
use thiserror::Error;

/// Why a node goes on with what it has; nothing has changed.
#[derive(Clone, Copy, Debug, PartialEq, Eq, Error)]
pub enum InstallFault {
    /// Fault 1.
    #[error("there is no such node")]
    NoNode,
    /// Fault 2.
    #[error("the node would not be told of itself")]
    NotTold,
    /// Fault 3.
    #[error("the node runs")]
    Running,
    /// Fault 4.
    #[error("the node's records don't fit these rules")]
    Unfit,
    /// Fault 5.
    #[error("memory was refused")]
    Memory,
}

/// An engine that was not installed, and why.
#[derive(Drop)]
pub struct Uninstalled<E> {
    pub engine: E,
    pub fault: InstallFault,
}

impl<E> Uninstalled<E> {
    /// The node has not opened its records with it.
    fn of(unrecovered: Unrecovered<E>) -> Uninstalled<E>
        ensures { result.engine ≡ unrecovered.engine }
    {
        let Unrecovered { engine, fault } = unrecovered;
        let fault = match fault {
            ApplyFault::BadRecord => InstallFault::Unfit,
            ApplyFault::Memory => InstallFault::Memory,
        };
        Uninstalled { engine, fault }
    }
}

impl<E: Engine + Drop> Slot<E> {
    /// Gets another engine and another setting for its next start, with which it could open its records, and gives the engine
    /// back that it had. After a fault it is as it was.
    fn install(&mut self, alloc: Global, setting: Setting, engine: E) -> Result<E, Unrecovered<E>>
        requires slot { IsSlot E.valid self.old }
        requires down { (member_of self.old).up ≡ false }
        requires valid { E.valid engine }
        ensures slot { IsSlot E.valid self.new }
        ensures member { member_of self.new ≡ member_of self.old }
        ensures setting { OnOk result (self.new.setting ≡ setting) }
        ensures engine { OnOk result (engine_in self.new ≡ Some engine) }
        ensures had { IfOk result (λ e. engine_in self.old ≡ Some e) }
        ensures same { OnErr result (self.new.setting ≡ self.old.setting) }
        ensures kept { OnErr result (engine_in self.new ≡ engine_in self.old) }
        ensures back { IfErr result (λ u. u.engine ≡ engine) }
    {
        let core = Core::recover(alloc, engine, setting, &self.journal)?;
        let Some(before) = self.idle.take() else {
            unreachable!()
        };
        self.setting = setting;
        self.idle = Some(core.into_engine());
        Ok(before)
    }
}

/// Why a node can't get something else.
fn fault_of<E>(slots: &[Slot<E>], node: u8, nodes: u8) -> Option<InstallFault>
    ensures { result ≡ fault_by node nodes (slice_get slots.now node) }
{
    let Some(slot) = slots.get(usize::from(node)) else {
        return Some(InstallFault::NoNode);
    };
    if nodes <= node {
        return Some(InstallFault::NotTold);
    }
    match slot.boot() {
        Some(_) => Some(InstallFault::Running),
        None => None,
    }
}

/// One of the nodes, which is stopped, gets another engine and another setting. After a fault all are as they were.
fn install_at<E: Engine + Drop>(
    slots: &mut Vec<Slot<E>>,
    alloc: Global,
    setting: Setting,
    engine: E,
) -> Result<E, Uninstalled<E>>
    requires slots { All (λ s. IsSlot E.valid s) slots.old.items }
    requires there { setting.node < length slots.old.items }
    requires down { (members_by slots.old.items setting.node).up ≡ false }
    requires valid { E.valid engine }
    ensures slots { All (λ s. IsSlot E.valid s) slots.new.items }
    ensures number { length slots.new.items ≡ length slots.old.items }
    ensures members { members_by slots.new.items ≡ members_by slots.old.items }
    ensures installed { OnOk result (AreInstalled E.meaning E.heard setting engine slots.old.items slots.new.items) }
    ensures had { IfOk result (λ e. meanings_by E.meaning slots.old.items setting.node ≡ Some (E.meaning e)) }
    ensures undone { OnErr result (AreUndone E.heard slots.old.items slots.new.items) }
    ensures settings { OnErr result (settings_by slots.new.items ≡ settings_by slots.old.items) }
    ensures meanings { OnErr result (meanings_by E.meaning slots.new.items ≡ meanings_by E.meaning slots.old.items) }
    ensures back { IfErr result (λ u. u.engine ≡ engine) }
{
    match slots[usize::from(setting.node)].install(alloc, setting, engine) {
        Ok(had) => Ok(had),
        Err(unrecovered) => Err(Uninstalled::of(unrecovered)),
    }
}

impl<E: Engine + Drop> World<E> {
    ghost use Rattle.sv_world.specs.Worlds.{world_of, meanings_of, heard_of, IsWorld};
    ghost use Rattle.sv_world.specs.Happened.{IsStill};
    ghost use Rattle.sv_world.specs.Planned.{Ran, IsCause, last_of};

    /// What a node that is stopped is started with from its next start on: another engine, these rules, and so many nodes that
    /// it is told of. Gives the engine back that it had. Nothing happens by it, and the node runs again only by a start.
    ///
    /// Where the world is what its events make by a plan, it is that too by the plan that says this of all starts that this node
    /// has yet to make.
    pub fn install(
        &mut self,
        node: u8,
        engine: E,
        rules: Rules,
        nodes: u8,
    ) -> Result<E, Uninstalled<E>>
        requires world { IsWorld E.valid self.old }
        requires valid { E.valid engine }
        ensures world { IsWorld E.valid self.new }
        ensures nothing { world_of self.new ≡ world_of self.old }
        ensures possible { OnOk result (fault_by node nodes (slice_get self.old.slots.items node) ≡ None) }
        ensures cause { IfErr result (λ u. IsCause (fault_by node nodes (slice_get self.old.slots.items node)) u.fault) }
        ensures ran { OnOk result ((m : Meanings) (c : Cluster) → Ran E.meaning m c self.old
            → Ran E.meaning (meanings_behind node (last_of self.old node) (E.meaning engine) m) (cluster_behind node (last_of self.old node) nodes rules c) self.new) }
        ensures heard { OnOk result ((x : ℕ) → heard_of E.heard self.new x ≡ cond (x == node) (Some (E.heard engine)) (heard_of E.heard self.old x)) }
        ensures had { IfOk result (λ e. meanings_of E.meaning self.old node ≡ Some (E.meaning e)) }
        ensures still { OnErr result (IsStill E.meaning E.heard self.old self.new) }
        ensures unchanged { OnErr result ((m : Meanings) (c : Cluster) → Ran E.meaning m c self.old → Ran E.meaning m c self.new) }
        ensures back { IfErr result (λ u. u.engine ≡ engine) }
    {
        if let Some(fault) = fault_of(&self.slots, node, nodes) {
            return Err(Uninstalled { engine, fault });
        }
        install_at(
            &mut self.slots,
            self.alloc,
            rules.setting(node, nodes),
            engine,
        )
    }
}
