//! A silent step of a core: nothing of it leaves the node.

ghost use Rattle.std.specs.Prelude.{◌≡◌, ◌<◌, ◌++◌, IfOk, OnErr, vec_len, vec_capacity};
ghost use Rattle.std.specs.Option.{option_to_list};
ghost use Rattle.sv_core.specs.Core.{node_at, setting_of, engine_of, decision_at, WasDecided};
ghost use Rattle.sv_model.specs.Decision.{left};
ghost use Rattle.sv_world.specs.CoreStep.{row_at, IsOver, IsSilenced};
ghost use Rattle.sv_world.specs.Deed.{quiet_at};
ghost use Rattle.sv_world.specs.World.{commit_with};

use crate::call::Call;
use crate::line::{Effect, Heading};
use crate::plan::{Plan, decide, keep};
use crate::traced::Traced;
use std::alloc::Global;
use sv_core::{Core, Held, Memory};
use sv_model::{Commit, Engine, Record};

/// Lets go what a step would have told and put out.
fn let_go_held(_held: Held) {}

fn let_go_commit(_commit: Option<Commit>) {}

/// A commit that is kept with its record alone.
fn commit_with(entry: &Option<Record>, commit: Option<Commit>) -> Option<Commit>
    ensures { result ≡ commit_with entry.now commit }
{
    match entry {
        Some(_) => commit,
        None => {
            let_go_commit(commit);
            None
        }
    }
}

/// What the trace keeps of a silent step.
fn quiet_of(alloc: Global, heading: Heading, traced: Traced) -> Effect
    ensures { result ≡ quiet_at heading traced.entry (commit_with traced.entry traced.commit) }
{
    let Traced {
        entry,
        commit,
        events: _,
        mark: _,
    } = traced;
    let commit = commit_with(&entry, commit);
    Effect::quiet(alloc, heading, entry, commit)
}

/// Does what was planned, and nothing of it leaves the node. There is room for its record.
fn settle<E: Engine>(
    alloc: Global,
    core: &mut Core<E>,
    journal: &mut Vec<Record>,
    plan: Plan,
    heading: Heading,
) -> Effect
    requires decided { WasDecided E.meaning core.old plan.decision }
    requires room { vec_len journal.old < vec_capacity journal.old }
    ensures engine { engine_of core.new ≡ engine_of core.old }
    ensures setting { setting_of core.new ≡ setting_of core.old }
    ensures node { node_at core.new ≡ left (decision_at core.old plan.decision) }
    ensures journal { journal.new.items ≡ journal.old.items ++ option_to_list plan.entry }
    ensures effect { result ≡ quiet_at heading plan.traced.entry (commit_with plan.traced.entry plan.traced.commit) }
{
    let Plan {
        decision,
        entry,
        traced,
    } = plan;
    keep(journal, entry);
    let_go_held(core.take(decision));
    quiet_of(alloc, heading, traced)
}

/// A silent step of a core over its records. After want of memory nothing was done.
pub fn silent_step<E: Engine>(
    alloc: Global,
    core: &mut Core<E>,
    journal: &mut Vec<Record>,
    call: Call,
    heading: Heading,
) -> Result<Effect, Memory>
    requires valid { E.valid (engine_of core.old) }
    requires over { IsOver journal.old.items core.old }
    ensures valid { E.valid (engine_of core.new) }
    ensures over { IsOver journal.new.items core.new }
    ensures meaning { E.meaning (engine_of core.new) ≡ E.meaning (engine_of core.old) }
    ensures setting { setting_of core.new ≡ setting_of core.old }
    ensures heard { E.heard (engine_of core.new) ≡ E.heard (engine_of core.old) }
    ensures done { IfOk result (λ f. IsSilenced (row_at (E.meaning (engine_of core.old)) (setting_of core.old)
        (node_at core.old) call.moment call.input) heading (node_at core.new) f) }
    ensures node { OnErr result (node_at core.new ≡ node_at core.old) }
{
    journal.try_reserve(1)?;
    let plan = decide(alloc, core, call)?;
    Ok(settle(alloc, core, journal, plan, heading))
}
