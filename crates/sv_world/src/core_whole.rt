//! A whole step of a core, with its record and its packets.

ghost use Rattle.std.specs.Prelude.{◌≡◌, ◌<◌, ◌≤◌, ◌+◌, ◌++◌, IfOk, OnOk, OnErr, vec_len, vec_capacity};
ghost use Rattle.std.specs.Option.{option_to_list};
ghost use Rattle.sv_core.specs.Core.{node_at, setting_of, engine_of, decision_at, WasDecided};
ghost use Rattle.sv_core.specs.Decision.{outputs_in};
ghost use Rattle.sv_model.specs.Engine.{heard_all};
ghost use Rattle.sv_model.specs.Outputs.{sends_in};
ghost use Rattle.sv_model.specs.Decision.{left};
ghost use Rattle.sv_model.specs.Step.{told};
ghost use Rattle.sv_world.specs.CoreStep.{row_at, IsOver, IsCarriedOut};
ghost use Rattle.sv_world.specs.Deed.{whole_by};

use crate::call::Call;
use crate::line::{Effect, Heading};
use crate::outputs::sends_in;
use crate::plan::{Plan, decide, keep, let_go_plan};
use std::alloc::{AllocError, Global};
use sv_core::{Core, Decision, Memory};
use sv_model::{Engine, Packet, Record};

/// Makes room for a record and for packets.
fn make_room(
    journal: &mut Vec<Record>,
    packets: &mut Vec<Packet>,
    sends: usize,
) -> Result<(), AllocError>
    ensures journal { journal.new.items ≡ journal.old.items }
    ensures packets { packets.new.items ≡ packets.old.items }
    ensures journal_room { OnOk result (vec_len journal.new < vec_capacity journal.new) }
    ensures packets_room { OnOk result (vec_len packets.new + sends ≤ vec_capacity packets.new) }
{
    journal.try_reserve(1)?;
    packets.try_reserve(sends)
}

/// The packets that a decision sends, with room for them and for its record.
fn prepare(
    alloc: Global,
    journal: &mut Vec<Record>,
    packets: &mut Vec<Packet>,
    decision: &Decision,
) -> Result<Vec<Packet>, AllocError>
    ensures journal { journal.new.items ≡ journal.old.items }
    ensures packets { packets.new.items ≡ packets.old.items }
    ensures journal_room { OnOk result (vec_len journal.new < vec_capacity journal.new) }
    ensures packets_room { IfOk result (λ sends. vec_len packets.new + vec_len sends ≤ vec_capacity packets.new) }
    ensures sends { IfOk result (λ sends. sends.items ≡ sends_in (outputs_in decision.now)) }
{
    let sends = sends_in(alloc, decision.outputs())?;
    make_room(journal, packets, sends.len())?;
    Ok(sends)
}

/// Hands packets out. There is room for them.
fn send(packets: &mut Vec<Packet>, mut sends: Vec<Packet>)
    requires { vec_len packets.old + vec_len sends ≤ vec_capacity packets.old }
    ensures { packets.new.items ≡ packets.old.items ++ sends.items }
{
    if packets.append(&mut sends).is_err() {
        unreachable!()
    }
}

/// Does what was planned. There is room for all of it.
fn follow<E: Engine>(
    core: &mut Core<E>,
    journal: &mut Vec<Record>,
    plan: Plan,
    heading: Heading,
) -> Effect
    requires valid { E.valid (engine_of core.old) }
    requires decided { WasDecided E.meaning core.old plan.decision }
    requires room { vec_len journal.old < vec_capacity journal.old }
    ensures valid { E.valid (engine_of core.new) }
    ensures meaning { E.meaning (engine_of core.new) ≡ E.meaning (engine_of core.old) }
    ensures setting { setting_of core.new ≡ setting_of core.old }
    ensures node { node_at core.new ≡ left (decision_at core.old plan.decision) }
    ensures heard { E.heard (engine_of core.new) ≡ heard_all (E.meaning (engine_of core.old)) (E.heard (engine_of core.old))
        (told (decision_at core.old plan.decision)) }
    ensures journal { journal.new.items ≡ journal.old.items ++ option_to_list plan.entry }
    ensures effect { result ≡ whole_by heading plan.traced (outputs_in plan.decision) }
{
    let Plan {
        decision,
        entry,
        traced,
    } = plan;
    keep(journal, entry);
    let outputs = core.accept(decision);
    Effect::whole(heading, traced, outputs)
}

/// Makes room for what was planned, and does it. After want of memory nothing was done.
fn carry_out<E: Engine>(
    alloc: Global,
    core: &mut Core<E>,
    journal: &mut Vec<Record>,
    packets: &mut Vec<Packet>,
    plan: Plan,
    heading: Heading,
) -> Result<Effect, Memory>
    requires valid { E.valid (engine_of core.old) }
    requires decided { WasDecided E.meaning core.old plan.decision }
    ensures valid { E.valid (engine_of core.new) }
    ensures meaning { E.meaning (engine_of core.new) ≡ E.meaning (engine_of core.old) }
    ensures setting { setting_of core.new ≡ setting_of core.old }
    ensures node { OnOk result (node_at core.new ≡ left (decision_at core.old plan.decision)) }
    ensures heard { OnOk result (E.heard (engine_of core.new)
        ≡ heard_all (E.meaning (engine_of core.old)) (E.heard (engine_of core.old)) (told (decision_at core.old plan.decision))) }
    ensures journal { OnOk result (journal.new.items ≡ journal.old.items ++ option_to_list plan.entry) }
    ensures packets { OnOk result (packets.new.items ≡ packets.old.items ++ sends_in (outputs_in plan.decision)) }
    ensures effect { IfOk result (λ f. f ≡ whole_by heading plan.traced (outputs_in plan.decision)) }
    ensures still { OnErr result (core.new ≡ core.old) }
    ensures unkept { OnErr result (journal.new.items ≡ journal.old.items) }
    ensures unsent { OnErr result (packets.new.items ≡ packets.old.items) }
{
    match prepare(alloc, journal, packets, &plan.decision) {
        Ok(sends) => {
            let effect = follow(core, journal, plan, heading);
            send(packets, sends);
            Ok(effect)
        }
        Err(error) => {
            let_go_plan(plan);
            Err(error.into())
        }
    }
}

/// A whole step of a core over its records. After want of memory nothing was done.
pub fn whole_step<E: Engine>(
    alloc: Global,
    core: &mut Core<E>,
    journal: &mut Vec<Record>,
    packets: &mut Vec<Packet>,
    call: Call,
    heading: Heading,
) -> Result<Effect, Memory>
    requires valid { E.valid (engine_of core.old) }
    requires over { IsOver journal.old.items core.old }
    ensures valid { E.valid (engine_of core.new) }
    ensures over { IsOver journal.new.items core.new }
    ensures meaning { E.meaning (engine_of core.new) ≡ E.meaning (engine_of core.old) }
    ensures setting { setting_of core.new ≡ setting_of core.old }
    ensures done { IfOk result (λ f. IsCarriedOut (E.meaning (engine_of core.old))
        (row_at (E.meaning (engine_of core.old)) (setting_of core.old) (node_at core.old) call.moment call.input) heading (E.heard (engine_of core.old))
        (E.heard (engine_of core.new)) (node_at core.new) f) }
    ensures sent { IfOk result (λ f. packets.new.items ≡ packets.old.items ++ sends_in f.outputs) }
    ensures node { OnErr result (node_at core.new ≡ node_at core.old) }
    ensures heard { OnErr result (E.heard (engine_of core.new) ≡ E.heard (engine_of core.old)) }
    ensures unsent { OnErr result (packets.new.items ≡ packets.old.items) }
{
    let plan = decide(alloc, core, call)?;
    carry_out(alloc, core, journal, packets, plan, heading)
}
