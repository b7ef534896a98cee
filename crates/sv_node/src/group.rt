//! Steps that are made durable together.

ghost use Rattle.std.specs.Prelude.{◌≡◌, ◌⊎◌, ◌≤◌, [], List, ℕ, length, map, vec_items, vec_capacity, IfOk, IfErr, OnOk, OnErr, IfSome, IsErrOf, option_copied};
ghost use Rattle.std.specs.List.{flat_map, AllByRecursion};
ghost use Rattle.std.specs.Option.{option_to_list};
ghost use Rattle.sv_core.specs.Core.{engine_of, node_at, setting_of};
ghost use Rattle.sv_core.specs.Decision.{outputs_held};
ghost use Rattle.sv_journal.specs.Batch.{IsBatch, Stages, size_of, bytes_in};
ghost use Rattle.sv_model.specs.Engine.{heard_all};
ghost use Rattle.sv_model.specs.Ranges.{IsInput, IsRanged, IsRecord, IsSetting};
ghost use Rattle.sv_model.specs.Site.{with_list};
ghost use Rattle.sv_model.specs.declared.site.StepFault.TheVariants.{Full, Memory};
ghost use Rattle.sv_record.specs.Record.{HasSpelling};
ghost use Rattle.sv_node.specs.Group.{FitsIn, LacksRoom, StagesMore, TakesOne, TakesAll, events_held, outcomes};

use crate::fault::step_fault;
use crate::ledger::payload_of;
use crate::node::Node;
use crate::session_counts::SessionCounts;
use std::alloc::{AllocError, Global};
use sv_core::{Core, Held};
use sv_journal::{Batch, Disk, Journal};
use sv_model::{Engine, Input, Moment, Output, Record, StepFault};

// The bytes of an entry before its payload.
const ENTRY_HEAD: usize = 5;

/// Puts the record of a decision, where it has one, after those of a batch. Refused it changes nothing.
fn stage<D: Disk>(
    alloc: Global,
    journal: &Journal<D>,
    batch: &mut Batch,
    entry: Option<&Record>,
) -> Result<(), StepFault>
    requires batch { IsBatch batch.old }
    requires room { FitsIn journal.now batch.old }
    requires ranges { IfSome (option_copied entry) (λ r. IsRecord r) }
    ensures staged { OnOk result (StagesMore batch.old batch.new (option_to_list (option_copied entry.entry))) }
    ensures spelled { OnOk result (IfSome (option_copied entry.entry) (λ r. HasSpelling r)) }
    ensures room { FitsIn journal.now batch.new }
    ensures unchanged { OnErr result (bytes_in batch.new ≡ bytes_in batch.old) }
    ensures fault { IfErr result (λ fault. (fault ≡ Full) ⊎ (fault ≡ Memory)) }
    ensures full { IfErr result (λ fault. fault ≡ Full → LacksRoom journal.now batch.old (option_copied entry.entry)) }
{
    let Some(entry) = entry else {
        return Ok(());
    };
    let Ok(payload) = payload_of(alloc, entry) else {
        return Err(StepFault::Memory);
    };
    if !journal.has_room(batch.size() + ENTRY_HEAD + payload.len()) {
        return Err(StepFault::Full);
    }
    if batch.add(&payload).is_err() {
        return Err(StepFault::Memory);
    }
    Ok(())
}

/// Decides a step on the state after those before it, and keeps what was decided, in memory alone. Refused it changes
/// nothing.
fn take<E: Engine, D: Disk>(
    alloc: Global,
    core: &mut Core<E>,
    journal: &Journal<D>,
    batch: &mut Batch,
    counts: &mut SessionCounts,
    moment: Moment,
    input: Input,
) -> Result<Held, StepFault>
    requires valid { E.valid (engine_of core.old) }
    requires setting { IsSetting (setting_of core.old) }
    requires ranged { IsRanged (node_at core.old) }
    requires input { IsInput input }
    requires batch { IsBatch batch.old }
    requires room { FitsIn journal.now batch.old }
    ensures valid { E.valid (engine_of core.new) }
    ensures meaning { E.meaning (engine_of core.new) ≡ E.meaning (engine_of core.old) }
    ensures heard { E.heard (engine_of core.new) ≡ E.heard (engine_of core.old) }
    ensures setting { setting_of core.new ≡ setting_of core.old }
    ensures ranged { IsRanged (node_at core.new) }
    ensures room { FitsIn journal.now batch.new }
    ensures taken { TakesOne journal.now (E.meaning (engine_of core.old)) (setting_of core.old) (node_at core.old) moment input result batch.old batch.new
        (node_at core.new) }
{
    let Ok(decision) = core.decide(moment, input) else {
        return Err(StepFault::Memory);
    };
    if let Err(fault) = stage(alloc, journal, batch, decision.entry()) {
        return Err(fault);
    }
    counts.count(decision.entry());
    Ok(core.take(decision))
}

/// Room for what steps are to give: their records, what is held of them, and their answers.
struct GroupRoom {
    batch: Batch,
    held: Vec<Result<Held, StepFault>>,
    answers: Vec<Result<Vec<Output>, StepFault>>,
}

/// Room for so many steps.
fn room_for(alloc: Global, many: usize) -> Result<GroupRoom, AllocError>
    ensures batch { IfOk result (λ room. Stages room.batch []) }
    ensures held { IfOk result (λ room. (room.held.items ≡ []) × (many ≤ vec_capacity room.held)) }
    ensures answers { IfOk result (λ room. (room.answers.items ≡ []) × (many ≤ vec_capacity room.answers)) }
{
    let batch = Batch::with_capacity(alloc, 1)?;
    let held = Vec::with_capacity(alloc, many)?;
    let answers = Vec::with_capacity(alloc, many)?;
    Ok(GroupRoom {
        batch,
        held,
        answers,
    })
}

/// Decides steps one after the other, and keeps what was decided, in memory alone.
fn take_all<E: Engine, D: Disk>(
    alloc: Global,
    core: &mut Core<E>,
    journal: &Journal<D>,
    batch: &mut Batch,
    inputs: Vec<(Moment, Input)>,
    held: &mut Vec<Result<Held, StepFault>>,
    counts: &mut SessionCounts,
)
    requires valid { E.valid (engine_of core.old) }
    requires setting { IsSetting (setting_of core.old) }
    requires ranged { IsRanged (node_at core.old) }
    requires inputs { AllByRecursion (λ i. IsInput i.1) inputs.items }
    requires batch { Stages batch.old [] }
    requires empty { held.old.items ≡ [] }
    requires memory { length inputs.items ≤ vec_capacity held.old }
    ensures valid { E.valid (engine_of core.new) }
    ensures meaning { E.meaning (engine_of core.new) ≡ E.meaning (engine_of core.old) }
    ensures heard { E.heard (engine_of core.new) ≡ E.heard (engine_of core.old) }
    ensures setting { setting_of core.new ≡ setting_of core.old }
    ensures ranged { IsRanged (node_at core.new) }
    ensures room { FitsIn journal.now batch.new }
    ensures long { length held.new.items ≡ length inputs.items }
    ensures taken { TakesAll journal.now (E.meaning (engine_of core.old)) (setting_of core.old) (node_at core.old) inputs.items held.new.items batch.new
        (node_at core.new) }
{
    for next in inputs {
        let (moment, input) = next;
        held.push_reserved(take(alloc, core, journal, batch, counts, moment, input));
    }
}

/// Does what is held of a step, once its record is durable.
fn tell<E: Engine>(
    core: &mut Core<E>,
    held: Result<Held, StepFault>,
) -> Result<Vec<Output>, StepFault>
    requires { E.valid (engine_of core.old) }
    ensures valid { E.valid (engine_of core.new) }
    ensures meaning { E.meaning (engine_of core.new) ≡ E.meaning (engine_of core.old) }
    ensures heard { E.heard (engine_of core.new) ≡ heard_all (E.meaning (engine_of core.old)) (E.heard (engine_of core.old)) (events_held held) }
    ensures answer { with_list vec_items result ≡ with_list outputs_held held }
    ensures node { node_at core.new ≡ node_at core.old }
    ensures setting { setting_of core.new ≡ setting_of core.old }
{
    match held {
        Ok(held) => Ok(core.tell(held)),
        Err(fault) => Err(fault),
    }
}

/// Does what is held of steps, in order, once their records are durable.
fn tell_all<E: Engine>(
    core: &mut Core<E>,
    held: Vec<Result<Held, StepFault>>,
    answers: &mut Vec<Result<Vec<Output>, StepFault>>,
)
    requires valid { E.valid (engine_of core.old) }
    requires empty { answers.old.items ≡ [] }
    requires memory { length held.items ≤ vec_capacity answers.old }
    ensures valid { E.valid (engine_of core.new) }
    ensures meaning { E.meaning (engine_of core.new) ≡ E.meaning (engine_of core.old) }
    ensures heard { E.heard (engine_of core.new) ≡ heard_all (E.meaning (engine_of core.old)) (E.heard (engine_of core.old)) (flat_map events_held held.items) }
    ensures answers { map (with_list vec_items) answers.new.items ≡ outcomes held.items }
    ensures node { node_at core.new ≡ node_at core.old }
    ensures setting { setting_of core.new ≡ setting_of core.old }
{
    for one in held {
        answers.push_reserved(tell(core, one));
    }
}

impl<E: Engine, D: Disk> Node<E, D> {
    ghost use Rattle.sv_node.specs.Node.{IsNode, restored_of};
    ghost use Rattle.sv_node.specs.Group.{IsGroup};

    /// Takes inputs one after the other, each by a step on the state after the one before, and makes all of their records
    /// durable together: two writes and two syncs however many they are. Only then listeners are told, and what is put out
    /// is handed out, in the order of the inputs. A step that is refused by want of memory or of room changes nothing, and
    /// the others go on. After Device none of them has been told or put out, a stop leaves all of them or none, and `step`,
    /// `step_all` and `compact` answer Failed from then on; the calls that only look at the node go on answering, and show what
    /// it keeps after all of them. After the other faults the node is as it was.
    pub fn step_all(
        &mut self,
        inputs: Vec<(Moment, Input)>,
    ) -> Result<Vec<Result<Vec<Output>, StepFault>>, StepFault>
        requires valid { IsNode E.valid D.tells D.seen D.may_leave self.old }
        requires inputs { AllByRecursion (λ i. IsInput i.1) inputs.items }
        ensures valid { IsNode E.valid D.tells D.seen D.may_leave self.new }
        ensures group { IsGroup E.meaning E.heard D.tells D.seen D.may_leave D.moment D.left_since D.failed self.old inputs.items (with_list (λ answers.
            map (with_list vec_items) answers.items) result) self.new }
        ensures restored { restored_of self.new ≡ restored_of self.old }
    {
        if !self.journal.is_live() {
            return Err(StepFault::Failed);
        }
        let Ok(room) = room_for(self.alloc, inputs.len()) else {
            return Err(StepFault::Memory);
        };
        let GroupRoom {
            mut batch,
            mut held,
            mut answers,
        } = room;
        let mut counts = self.counts;
        take_all(
            self.alloc,
            &mut self.core,
            &self.journal,
            &mut batch,
            inputs,
            &mut held,
            &mut counts,
        );
        if let Err(fault) = self.journal.append_all(&batch) {
            return Err(step_fault(fault));
        }
        self.counts = counts;
        tell_all(&mut self.core, held, &mut answers);
        Ok(answers)
    }
}
