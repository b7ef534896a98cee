//! Engines, moved into the slots of a world and out of them again. It takes no memory.

ghost use Rattle.std.specs.Prelude.{◌≡◌, ◌≤◌, [], Some, None, true, is_some, length, map, vec_len, vec_capacity};
ghost use Rattle.std.specs.List.{All};
ghost use Rattle.sv_world.specs.Making.{AreFilled};
ghost use Rattle.sv_world.specs.Slot.{engine_in};

use crate::rules::Rules;
use crate::slot::Slot;
use std::alloc::Global;
use sv_model::{Engine, Setting};

/// The slot of a node that has yet to start.
fn new_slot<E>(alloc: Global, setting: Setting, engine: E) -> Slot<E>
    ensures setting { result.setting ≡ setting }
    ensures journal { result.journal.items ≡ [] }
    ensures core { result.core ≡ None }
    ensures idle { result.idle ≡ Some engine }
{
    Slot {
        setting,
        journal: Vec::new(alloc),
        core: None,
        idle: Some(engine),
    }
}

/// Moves each engine into the slot of a node of its number.
pub fn fill_slots<E>(alloc: Global, engines: &mut Vec<E>, rules: Rules, slots: &mut Vec<Slot<E>>)
    requires few { length engines.old.items ≤ 8 }
    requires empty { slots.old.items ≡ [] }
    requires room { vec_len engines.old ≤ vec_capacity slots.old }
    ensures filled { AreFilled (length engines.old.items) rules engines.old.items slots.new.items }
    ensures taken { engines.new.items ≡ [] }
    ensures capacity { vec_capacity engines.new ≡ vec_capacity engines.old }
{
    let nodes = engines.len() as u8;
    for node in 0..nodes {
        let setting = rules.setting(node, nodes);
        let engine = engines.remove(0);
        slots.push_reserved(new_slot(alloc, setting, engine));
    }
}

/// The engine of a node.
fn engine_of<E: Engine + Drop>(slot: Slot<E>) -> Option<E>
    ensures { result ≡ engine_in slot }
{
    let Slot { core, idle, .. } = slot;
    match core {
        Some(core) => Some(core.into_engine()),
        None => idle,
    }
}

/// Moves the engine of each node after the others.
pub fn take_engines<E: Engine + Drop>(slots: &mut Vec<Slot<E>>, engines: &mut Vec<E>)
    requires all { All (λ s. is_some (engine_in s) ≡ true) slots.old.items }
    requires empty { engines.old.items ≡ [] }
    requires room { vec_len slots.old ≤ vec_capacity engines.old }
    ensures { map Some engines.new.items ≡ map engine_in slots.old.items }
{
    for _count in 0..slots.len() {
        if let Some(engine) = engine_of(slots.remove(0)) {
            engines.push_reserved(engine);
        }
    }
}
