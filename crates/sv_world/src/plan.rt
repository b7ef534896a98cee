//! A step of a node, decided, before anything of it is done.

ghost use Rattle.std.specs.Prelude.{◌≡◌, ◌<◌, ◌++◌, IfOk, vec_len, vec_capacity};
ghost use Rattle.std.specs.Option.{option_to_list};
ghost use Rattle.sv_core.specs.Core.{view_of, node_at, setting_of, engine_of};
ghost use Rattle.sv_world.specs.CoreStep.{row_at, plan_of, IsPlan};

use crate::call::Call;
use crate::traced::{Traced, copied_record, trace_of};
use std::alloc::{AllocError, Global};
use sv_core::{Core, Decision, Memory};
use sv_model::{Engine, Record};

/// A decision, and what the journal and the trace are to keep of it.
#[derive(Drop)]
pub struct Plan {
    pub decision: Decision,
    pub entry: Option<Record>,
    pub traced: Traced,
}

/// Lets a decision go. A caller that drops it by itself is proved far more slowly.
pub fn let_go(_decision: Decision) {}

pub fn let_go_record(_record: Option<Record>) {}

pub fn let_go_traced(_traced: Traced) {}

/// Lets a plan go.
pub fn let_go_plan(plan: Plan) {
    let Plan {
        decision,
        entry,
        traced,
    } = plan;
    let_go(decision);
    let_go_record(entry);
    let_go_traced(traced);
}

/// What the journal and the trace are to keep of a decision.
fn kept_of(alloc: Global, decision: &Decision) -> Result<(Option<Record>, Traced), AllocError>
    ensures entry { IfOk result (λ p. p.0 ≡ (plan_of decision.now).entry) }
    ensures traced { IfOk result (λ p. p.1 ≡ (plan_of decision.now).traced) }
{
    let entry = copied_record(alloc, decision.entry())?;
    let traced = trace_of(alloc, decision)?;
    Ok((entry, traced))
}

/// The plan of a decision.
fn plan_of(alloc: Global, decision: Decision) -> Result<Plan, AllocError>
    ensures { IfOk result (λ p. p ≡ plan_of decision) }
{
    match kept_of(alloc, &decision) {
        Ok((entry, traced)) => Ok(Plan {
            decision,
            entry,
            traced,
        }),
        Err(error) => {
            let_go(decision);
            Err(error)
        }
    }
}

/// Decides a step. The core is as it was.
pub fn decide<E: Engine>(alloc: Global, core: &mut Core<E>, call: Call) -> Result<Plan, Memory>
    requires valid { E.valid (engine_of core.old) }
    ensures valid { E.valid (engine_of core.new) }
    ensures view { view_of E.meaning E.heard core.new ≡ view_of E.meaning E.heard core.old }
    ensures setting { setting_of core.new ≡ setting_of core.old }
    ensures plan { IfOk result (λ p. IsPlan E.meaning core.new
        (row_at (E.meaning (engine_of core.old)) (setting_of core.old) (node_at core.old) call.moment call.input) p) }
{
    let decision = core.decide(call.moment, call.input)?;
    Ok(plan_of(alloc, decision)?)
}

/// Adds a record, where there is one.
pub fn keep(journal: &mut Vec<Record>, entry: Option<Record>)
    requires { vec_len journal.old < vec_capacity journal.old }
    ensures { journal.new.items ≡ journal.old.items ++ option_to_list entry }
{
    if let Some(entry) = entry {
        journal.push_reserved(entry);
    }
}
