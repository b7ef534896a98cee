//! Worlds of three nodes, and of four.

ghost use Rattle.std.specs.Prelude.{◌≡◌, ◌+◌, length, IfOk};
ghost use Rattle.std.specs.List.{All};
ghost use Rattle.sv_world.specs.Worlds.{IsWorld};

use crate::fault::RowFault;
use crate::shop::{Shop, shop};
use std::alloc::Global;
use sv_model::Engine;
use sv_world::{Rules, World};

/// One more engine after those that are there.
#[tactic(auto, using(crate::proofs::EngineLemmas::all_pushed))]
fn with_one<E: Engine + Drop>(engines: Vec<E>, engine: E) -> Result<Vec<E>, RowFault>
    requires all { All (λ e. E.valid e) engines.items }
    requires valid { E.valid engine }
    ensures all { IfOk result (λ v. All (λ e. E.valid e) v.items) }
    ensures count { IfOk result (λ v. length v.items ≡ length engines.items + 1) }
{
    let mut engines = engines;
    engines.push(engine)?;
    Ok(engines)
}

/// No engine.
#[tactic(auto, using(crate::proofs::EngineLemmas::all_of_none))]
fn no_engines<E: Engine>(alloc: Global) -> Vec<E>
    ensures all { All (λ e. E.valid e) result.items }
    ensures count { length result.items ≡ 0 }
{
    Vec::new(alloc)
}

/// Three engines of the same applications.
fn three(alloc: Global, name: &str) -> Result<Vec<Shop>, RowFault>
    ensures all { IfOk result (λ v. All (λ e. ⟦<Shop as Engine>⟧.valid e) v.items) }
    ensures count { IfOk result (λ v. length v.items ≡ 3) }
{
    let engines = no_engines(alloc);
    let engines = with_one(engines, shop(alloc, name)?)?;
    let engines = with_one(engines, shop(alloc, name)?)?;
    Ok(with_one(engines, shop(alloc, name)?)?)
}

/// Three nodes in their first start, which serve by the same applications.
pub fn three_nodes(alloc: Global, name: &str, rules: Rules) -> Result<World<Shop>, RowFault>
    ensures { IfOk result (λ world. IsWorld ⟦<Shop as Engine>⟧.valid world) }
{
    match World::with(alloc, three(alloc, name)?, rules) {
        Ok(world) => Ok(world),
        Err(_) => Err(RowFault::Start),
    }
}

/// Four nodes of the same applications, none of which was ever started.
pub fn four_nodes(alloc: Global, name: &str, rules: Rules) -> Result<World<Shop>, RowFault>
    ensures { IfOk result (λ world. IsWorld ⟦<Shop as Engine>⟧.valid world) }
{
    let engines = with_one(three(alloc, name)?, shop(alloc, name)?)?;
    match World::at_rest(alloc, engines, rules) {
        Ok(world) => Ok(world),
        Err(_) => Err(RowFault::Start),
    }
}
