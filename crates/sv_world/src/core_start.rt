//! The record of a core's start.

ghost use Rattle.std.specs.Prelude.{◌≡◌, ◌<◌, ◌++◌, IfOk, IfSome, OnOk, OnErr, vec_len, vec_capacity};
ghost use Rattle.std.specs.Option.{option_to_list};
ghost use Rattle.sv_core.specs.Core.{node_at, setting_of, engine_of, durable_at, decision_at, starts, WasDecided};
ghost use Rattle.sv_core.specs.Decision.{entry_in};
ghost use Rattle.sv_model.specs.Engine.{heard_all};
ghost use Rattle.sv_world.specs.CoreStep.{IsOver, start_entry, begun, boot_plan_of};

use crate::plan::{keep, let_go};
use crate::traced::copied_record;
use std::alloc::{AllocError, Global};
use sv_core::{Core, Decision, Memory};
use sv_model::{Engine, Record};

/// The decision of a start, and its record for the journal and for the trace.
#[derive(Drop)]
pub struct BootPlan {
    pub decision: Decision,
    pub kept: Option<Record>,
    pub entry: Option<Record>,
}

/// The record of a decision twice.
fn entries_of(
    alloc: Global,
    decision: &Decision,
) -> Result<(Option<Record>, Option<Record>), AllocError>
    ensures kept { IfOk result (λ p. p.0 ≡ entry_in decision.now) }
    ensures entry { IfOk result (λ p. p.1 ≡ entry_in decision.now) }
{
    let kept = copied_record(alloc, decision.entry())?;
    let entry = copied_record(alloc, decision.entry())?;
    Ok((kept, entry))
}

/// The plan of a start's decision.
fn boot_plan_of(alloc: Global, decision: Decision) -> Result<BootPlan, AllocError>
    ensures { IfOk result (λ p. p ≡ boot_plan_of decision) }
{
    match entries_of(alloc, &decision) {
        Ok((kept, entry)) => Ok(BootPlan {
            decision,
            kept,
            entry,
        }),
        Err(error) => {
            let_go(decision);
            Err(error)
        }
    }
}

/// Does what was planned of a start, and gives its record.
fn enter<E: Engine>(core: &mut Core<E>, journal: &mut Vec<Record>, plan: BootPlan) -> Option<Record>
    requires valid { E.valid (engine_of core.old) }
    requires decided { WasDecided E.meaning core.old plan.decision }
    requires starts { decision_at core.old plan.decision ≡ starts (setting_of core.old) (node_at core.old) }
    requires room { vec_len journal.old < vec_capacity journal.old }
    ensures valid { E.valid (engine_of core.new) }
    ensures meaning { E.meaning (engine_of core.new) ≡ E.meaning (engine_of core.old) }
    ensures heard { E.heard (engine_of core.new) ≡ E.heard (engine_of core.old) }
    ensures setting { setting_of core.new ≡ setting_of core.old }
    ensures node { node_at core.new ≡ begun (entry_in plan.decision) (node_at core.old) }
    ensures journal { journal.new.items ≡ journal.old.items ++ option_to_list plan.kept }
    ensures entry { result ≡ plan.entry }
{
    let BootPlan {
        decision,
        kept,
        entry,
    } = plan;
    keep(journal, kept);
    let _nothing = core.accept(decision);
    entry
}

/// Starts a core, and gives the record of its start; none where its boot numbers are used up, and then, as after want of
/// memory, nothing was done.
pub fn begin<E: Engine>(
    alloc: Global,
    core: &mut Core<E>,
    journal: &mut Vec<Record>,
) -> Result<Option<Record>, Memory>
    requires valid { E.valid (engine_of core.old) }
    requires over { IsOver journal.old.items core.old }
    ensures valid { E.valid (engine_of core.new) }
    ensures over { IsOver journal.new.items core.new }
    ensures meaning { E.meaning (engine_of core.new) ≡ E.meaning (engine_of core.old) }
    ensures heard { E.heard (engine_of core.new) ≡ E.heard (engine_of core.old) }
    ensures setting { setting_of core.new ≡ setting_of core.old }
    ensures entry { IfOk result (λ entry. entry ≡ start_entry (setting_of core.old) (durable_at core.old)) }
    ensures node { IfOk result (λ entry. node_at core.new ≡ begun entry (node_at core.old)) }
    ensures still { OnErr result (node_at core.new ≡ node_at core.old) }
{
    journal.try_reserve(1)?;
    let Some(decision) = core.decide_start()? else {
        return Ok(None);
    };
    let plan = boot_plan_of(alloc, decision)?;
    Ok(enter(core, journal, plan))
}
