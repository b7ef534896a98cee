//! What the records of a journal give.

ghost use Rattle.std.specs.Prelude.{◌≡◌, ◌≢◌, ◌∷◌, [], ◌++◌, IfErr, IfOk, OnOk, Ok, map};
ghost use Rattle.sv_core.specs.Census.{census_of};
ghost use Rattle.sv_core.specs.Core.{durable_at};
ghost use Rattle.sv_core.specs.Snapshot.{snapshot_of};
ghost use Rattle.sv_core.specs.declared.fault.ApplyFault.TheVariants.{BadRecord};
ghost use Rattle.sv_journal.specs.Format.{payloads};
ghost use Rattle.sv_model.specs.Replay.{blank, replayed};
ghost use Rattle.sv_model.specs.declared.key.TheConstants.{NODE_LIMIT as NODES};
ghost use Rattle.sv_record.specs.Record as spec;
ghost use Rattle.sv_control.specs.Kept.{Fit, FitNowhere};
ghost use Rattle.sv_control.specs.declared.images.FoundFault.TheVariants.{Memory, Unfit};

use crate::images::FoundFault;
use std::alloc::{AllocError, Global};
use sv_core::{ApplyFault, Census, Core};
use sv_model::{KEY_MOST, NODE_LIMIT, Record, Setting};
use sv_record::{RecordFault, read_record};

/// The record that a payload is, the one at this place.
fn record_of(alloc: Global, place: usize, payload: &[u8]) -> Result<Record, FoundFault>
    ensures { IfOk result (λ found. spec.record_of payload.now ≡ Ok found) }
{
    match read_record(alloc, payload) {
        Ok(record) => Ok(record),
        Err(RecordFault::Memory) => Err(FoundFault::Memory),
        Err(_) => Err(FoundFault::NoRecord(place)),
    }
}

/// One record more.
fn add(records: &mut Vec<Record>, next: Record) -> Result<(), AllocError>
    ensures { OnOk result (records.new.items ≡ records.old.items ++ next ∷ []) }
{
    records.push(next)?;
    Ok(())
}

/// The records that payloads are, the oldest first.
pub fn records_of(alloc: Global, entries: &[Vec<u8>]) -> Result<Vec<Record>, FoundFault>
    ensures { IfOk result (λ records. map spec.record_of (payloads entries.now) ≡ map Ok records.items) }
{
    let mut records = Vec::new(alloc);
    for (place, payload) in entries.iter().enumerate() {
        let record = record_of(alloc, place, payload)?;
        add(&mut records, record)?;
    }
    Ok(records)
}

/// What a node keeps, as its journal has it.
pub struct Replayed {
    /// The least number of a node at which the records fit: that of the node, where it has ever made a session.
    pub node: u8,
    /// The counters, and then what is known of each key, in order of the keys.
    pub kept: Vec<Record>,
    /// How many keys are known, by what is known of them.
    pub census: Census,
}

/// By hand, so that letting one go is one step for a caller.
impl Drop for Replayed {
    fn drop(self) {
        let Replayed {
            node: _,
            kept: _,
            census: _,
        } = self;
    }
}

/// A node of this number, with what the records give.
fn node_with(alloc: Global, node: u8, records: &[Record]) -> Result<Core<()>, ApplyFault>
    ensures durable { IfOk result (λ core. durable_at core ≡ replayed blank records.now) }
    ensures fit { IfOk result (λ _. Fit node records.now) }
    ensures bad { IfErr result (λ fault. fault ≡ BadRecord → ¬ (Fit node records.now)) }
{
    let setting = Setting {
        node,
        nodes: NODE_LIMIT,
        deadline: 1,
        keys: KEY_MOST as u32,
        forget: false,
    };
    match Core::recover(alloc, (), setting, records) {
        Ok(core) => Ok(core),
        Err(refused) => Err(refused.fault),
    }
}

/// The same for a caller that knows the number.
pub fn recovered(alloc: Global, node: u8, records: &[Record]) -> Result<Core<()>, FoundFault>
    ensures durable { IfOk result (λ core. durable_at core ≡ replayed blank records.now) }
    ensures fit { IfOk result (λ _. Fit node records.now) }
    ensures unfit { IfErr result (λ fault. fault ≢ Memory → (fault ≡ Unfit) × (¬ (Fit node records.now))) }
{
    match node_with(alloc, node, records) {
        Ok(core) => Ok(core),
        Err(ApplyFault::Memory) => Err(FoundFault::Memory),
        Err(ApplyFault::BadRecord) => Err(FoundFault::Unfit),
    }
}

/// What the records give at a node of this number.
fn replayed_at(alloc: Global, node: u8, records: &[Record]) -> Result<Replayed, ApplyFault>
    ensures node { IfOk result (λ found. found.node ≡ node) }
    ensures kept { IfOk result (λ found. found.kept.items ≡ snapshot_of (replayed blank records.now)) }
    ensures census { IfOk result (λ found. found.census ≡ census_of (replayed blank records.now)) }
    ensures fit { IfOk result (λ _. Fit node records.now) }
    ensures bad { IfErr result (λ fault. fault ≡ BadRecord → ¬ (Fit node records.now)) }
{
    let core = node_with(alloc, node, records)?;
    let census = core.census();
    match core.snapshot() {
        Ok(kept) => Ok(Replayed { node, kept, census }),
        Err(_) => Err(ApplyFault::Memory),
    }
}

/// What the records give, one after the other.
pub fn replay(alloc: Global, records: &[Record]) -> Result<Replayed, FoundFault>
    ensures kept { IfOk result (λ found. found.kept.items ≡ snapshot_of (replayed blank records.now)) }
    ensures census { IfOk result (λ found. found.census ≡ census_of (replayed blank records.now)) }
    ensures fit { IfOk result (λ found. Fit found.node records.now) }
    ensures least { IfOk result (λ found. FitNowhere found.node records.now) }
    // They don't fit at any node, unless memory is refused.
    ensures unfit { IfErr result (λ fault. fault ≢ Memory → (fault ≡ Unfit) × FitNowhere NODES records.now) }
{
    for node in 0..NODE_LIMIT {
        match replayed_at(alloc, node, records) {
            Ok(found) => return Ok(found),
            Err(ApplyFault::Memory) => return Err(FoundFault::Memory),
            Err(ApplyFault::BadRecord) => {}
        }
    }
    Err(FoundFault::Unfit)
}
