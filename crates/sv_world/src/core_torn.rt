//! A torn step of a core: a stop cuts it.

ghost use Rattle.std.specs.Prelude.{◌≡◌, ◌<◌, IfOk, None, OnOk, vec_len, vec_capacity};
ghost use Rattle.sv_core.specs.Core.{view_of, node_at, setting_of, engine_of};
ghost use Rattle.sv_model.specs.Journaled.{IsJournaled};
ghost use Rattle.sv_world.specs.CoreStep.{row_at, rest_in, rest_of};

use crate::call::Call;
use crate::plan::{Plan, decide, let_go, let_go_record, let_go_traced};
use crate::traced::Traced;
use std::alloc::Global;
use sv_core::{Core, Memory};
use sv_model::{Commit, Engine, Record};

/// What a stop leaves of a step.
#[derive(Drop)]
pub struct Rest {
    /// For the journal.
    pub kept: Option<Record>,
    /// The same, for the trace.
    pub entry: Option<Record>,
    pub commit: Option<Commit>,
}

/// A commit stays only with its record, and that only where the step came so far.
fn rest_of(plan: Plan, kept: bool) -> Rest
    ensures { result ≡ rest_in kept plan }
{
    let Plan {
        decision,
        entry,
        traced,
    } = plan;
    let_go(decision);
    if kept && entry.is_some() {
        left_of(entry, traced)
    } else {
        let_go_record(entry);
        let_go_traced(traced);
        nothing_left()
    }
}

/// What a step leaves that came as far as its record.
fn left_of(kept: Option<Record>, traced: Traced) -> Rest
    ensures { result ≡ record { kept = kept; entry = traced.entry; commit = traced.commit } }
{
    let Traced {
        entry,
        commit,
        events: _,
        mark: _,
    } = traced;
    Rest {
        kept,
        entry,
        commit,
    }
}

fn nothing_left() -> Rest
    ensures { result ≡ record { kept = None; entry = None; commit = None } }
{
    Rest {
        kept: None,
        entry: None,
        commit: None,
    }
}

/// What a stop leaves of a step of the core, with room for its record. The core is as it was.
pub fn torn_rest<E: Engine>(
    alloc: Global,
    core: &mut Core<E>,
    journal: &mut Vec<Record>,
    call: Call,
    kept: bool,
) -> Result<Rest, Memory>
    requires valid { E.valid (engine_of core.old) }
    ensures valid { E.valid (engine_of core.new) }
    ensures view { view_of E.meaning E.heard core.new ≡ view_of E.meaning E.heard core.old }
    ensures setting { setting_of core.new ≡ setting_of core.old }
    ensures journal { journal.new.items ≡ journal.old.items }
    ensures room { OnOk result (vec_len journal.new < vec_capacity journal.new) }
    ensures rest { IfOk result (λ r. r ≡ rest_of kept (row_at (E.meaning (engine_of core.old)) (setting_of core.old)
        (node_at core.old) call.moment call.input)) }
    ensures journaled { OnOk result (IsJournaled (setting_of core.old) (node_at core.old)
        (row_at (E.meaning (engine_of core.old)) (setting_of core.old) (node_at core.old) call.moment call.input)) }
{
    journal.try_reserve(1)?;
    let plan = decide(alloc, core, call)?;
    Ok(rest_of(plan, kept))
}
