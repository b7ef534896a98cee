//! The records of a node in its journal.

ghost use Rattle.std.specs.Prelude.{◌≡◌, ◌≤◌, ◌++◌, ◌∷◌, [], ℕ, List, map, length, false};
ghost use Rattle.std.specs.Prelude.{IfOk, IfErr, OnOk, IsErr, IsErrOf, IsTrue, IfSome, Some, option_copied};
ghost use Rattle.std.specs.List.{AllByRecursion};
ghost use Rattle.std.specs.Option.{option_to_list};
ghost use Rattle.sv_journal.specs.Disk.{LeavesOnly, TellsOn, HasRisen, IsQuiet};
ghost use Rattle.sv_journal.specs.Format.{payloads};
ghost use Rattle.sv_journal.specs.Journal.{Holds};
ghost use Rattle.sv_journal.specs.declared.limits.TheConstants.{PAYLOAD_LIMIT};
ghost use Rattle.sv_model.specs.declared.node.Setting.{Setting};
ghost use Rattle.sv_model.specs.declared.record.Record.{Record};
ghost use Rattle.sv_model.specs.NodeState.{Durable};
ghost use Rattle.sv_model.specs.Ranges.{IsRecord};
ghost use Rattle.sv_model.specs.Replay.{applied, applied_if};
ghost use Rattle.sv_record.specs.Record.{spelling, HasSpelling, IsSpelling};
ghost use Rattle.sv_node.specs.Node.{IsTooLong, HasAdded};
ghost use Rattle.sv_node.specs.Records.{Spell, CanFollow};
ghost use Rattle.sv_node.specs.Stops.{Stores, RestoresEither, LeavesAdded};
ghost use Rattle.sv_node.specs.declared.fault.OpenFault.TheVariants.{Damaged as OpenDamaged, Device as OpenDevice, Full as OpenFull, Memory as OpenMemory};

use crate::fault::{OpenFault, open_fault, read_fault};
use std::alloc::{AllocError, Global};
use sv_journal::{Disk, Journal, JournalFault};
use sv_record::{Record, read_record, write_record};

/// A record as the payload of an entry.
pub fn payload_of(alloc: Global, entry: &Record) -> Result<Vec<u8>, AllocError>
    requires { IsRecord entry.now }
    ensures bytes { IfOk result (λ bytes. bytes.items ≡ spelling entry.now) }
    ensures fits { OnOk result (HasSpelling entry.now) }
    ensures size { IfOk result (λ bytes. length bytes.items ≤ PAYLOAD_LIMIT) }
{
    let mut bytes = Vec::new(alloc);
    write_record(entry, &mut bytes)?;
    Ok(bytes)
}

/// Adds a record after those of a journal.
fn add<D: Disk>(alloc: Global, journal: &mut Journal<D>, entry: &Record) -> Result<(), JournalFault>
    requires ranges { IsRecord entry.now }
    ensures stored { OnOk result ((set : Setting) (d : Durable) → D.tells journal.old.current → CanFollow set d (Some entry.now)
        → Stores D.seen D.may_leave journal.old set d
        → Stores D.seen D.may_leave journal.new set (applied entry.now d)) }
    ensures any_moment { (set : Setting) (d : Durable) → D.tells journal.old.current → CanFollow set d (Some entry.now)
        → Stores D.seen D.may_leave journal.old set d
        → LeavesOnly D.moment D.left_since journal.old.current journal.new.current (RestoresEither set (D.seen journal.old.other) d (applied entry.now d)) }
    ensures tells { TellsOn D.tells journal.old.current journal.new.current }
    ensures other { journal.new.other ≡ journal.old.other }
    ensures on_a { journal.new.on_a ≡ journal.old.on_a }
    ensures writes { D.tells journal.old.current → LeavesAdded D.seen D.may_leave D.moment D.left_since journal.old journal.new (entry.now ∷ []) }
    ensures holds { OnOk result ((entries : List (List ℕ)) → D.tells journal.old.current → Holds D.seen D.may_leave journal.old entries
        → Holds D.seen D.may_leave journal.new (entries ++ map spelling (entry.now ∷ []))) }
    ensures generation { journal.new.generation ≡ journal.old.generation }
    ensures added { OnOk result (HasAdded journal.old journal.new (Some entry.now)) }
    ensures live { OnOk result (IsTrue journal.new.live) }
    ensures failed { IsErrOf result JournalFault.Failed → journal.old.live ≡ false }
    ensures full { IsErrOf result JournalFault.Full → IsTooLong journal.old (Some entry.now) }
    ensures device { IsErrOf result JournalFault.Device → (journal.new.live ≡ false) × HasRisen (D.failed journal.old.current) (D.failed journal.new.current) }
    ensures unchanged { IsErr result → ¬ IsErrOf result JournalFault.Device → journal.new ≡ journal.old }
    ensures damaged { ¬ IsErrOf result JournalFault.Damaged }
{
    let bytes = payload_of(alloc, entry)?;
    journal.append(&bytes)
}

/// Makes a decision's record durable, where it has one.
pub fn keep<D: Disk>(
    alloc: Global,
    journal: &mut Journal<D>,
    entry: Option<&Record>,
) -> Result<(), JournalFault>
    requires live { IsTrue journal.old.live }
    requires ranges { IfSome (option_copied entry) (λ r. IsRecord r) }
    ensures stored { OnOk result ((set : Setting) (d : Durable) → D.tells journal.old.current → CanFollow set d (option_copied entry.entry)
        → Stores D.seen D.may_leave journal.old set d
        → Stores D.seen D.may_leave journal.new set (applied_if (option_copied entry.entry) d)) }
    ensures any_moment { (set : Setting) (d : Durable) → D.tells journal.old.current → CanFollow set d (option_copied entry.entry)
        → Stores D.seen D.may_leave journal.old set d
        → LeavesOnly D.moment D.left_since journal.old.current journal.new.current
        (RestoresEither set (D.seen journal.old.other) d (applied_if (option_copied entry.entry) d)) }
    ensures tells { TellsOn D.tells journal.old.current journal.new.current }
    ensures other { journal.new.other ≡ journal.old.other }
    ensures on_a { journal.new.on_a ≡ journal.old.on_a }
    ensures writes { D.tells journal.old.current → LeavesAdded D.seen D.may_leave D.moment D.left_since journal.old journal.new
        (option_to_list (option_copied entry.entry)) }
    ensures holds { OnOk result ((entries : List (List ℕ)) → D.tells journal.old.current → Holds D.seen D.may_leave journal.old entries
        → Holds D.seen D.may_leave journal.new (entries ++ map spelling (option_to_list (option_copied entry.entry)))) }
    ensures generation { journal.new.generation ≡ journal.old.generation }
    ensures added { OnOk result (HasAdded journal.old journal.new (option_copied entry.entry)) }
    ensures live { OnOk result (IsTrue journal.new.live) }
    ensures failed { ¬ IsErrOf result JournalFault.Failed }
    ensures full { IsErrOf result JournalFault.Full → IsTooLong journal.old (option_copied entry.entry) }
    ensures device { IsErrOf result JournalFault.Device → (journal.new.live ≡ false) × HasRisen (D.failed journal.old.current) (D.failed journal.new.current) }
    ensures unchanged { IsErr result → ¬ IsErrOf result JournalFault.Device → journal.new ≡ journal.old }
    ensures damaged { ¬ IsErrOf result JournalFault.Damaged }
{
    match entry {
        None => Ok(()),
        Some(entry) => add(alloc, journal, entry),
    }
}

/// The record that a payload is.
fn record_of(alloc: Global, payload: &[u8]) -> Result<Record, OpenFault>
    ensures found { IfOk result (λ r. IsSpelling payload.now r) }
    ensures within { IfOk result (λ r. IsRecord r) }
    ensures bad { IfErr result (λ e. e ≡ OpenDamaged → (r : Record) → IsSpelling payload.now r → ⊥) }
    ensures device { IfErr result (λ e. ¬ (e ≡ OpenDevice)) }
    ensures full { IfErr result (λ e. ¬ (e ≡ OpenFull)) }
{
    match read_record(alloc, payload) {
        Ok(entry) => Ok(entry),
        Err(fault) => Err(read_fault(fault)),
    }
}

/// Adds a record after the others.
fn add_record(records: &mut Vec<Record>, entry: Record) -> Result<(), OpenFault>
    ensures added { OnOk result (records.new.items ≡ records.old.items ++ entry ∷ []) }
    ensures memory { IfErr result (λ e. e ≡ OpenMemory) }
{
    match records.push(entry) {
        Ok(()) => Ok(()),
        Err(_) => Err(OpenFault::Memory),
    }
}

/// The records that payloads are, in order.
fn records_of(alloc: Global, all: &[Vec<u8>]) -> Result<Vec<Record>, OpenFault>
    ensures spelled { IfOk result (λ records. Spell (payloads all.now) records.items) }
    ensures within { IfOk result (λ records. AllByRecursion IsRecord records.items) }
    ensures bad { IfErr result (λ e. e ≡ OpenDamaged → (records : List Record) → Spell (payloads all.now) records → ⊥) }
    ensures device { IfErr result (λ e. ¬ (e ≡ OpenDevice)) }
    ensures full { IfErr result (λ e. ¬ (e ≡ OpenFull)) }
{
    let mut records = Vec::new(alloc);
    for payload in all {
        let record = match record_of(alloc, payload) {
            Ok(record) => record,
            Err(fault) => return Err(fault),
        };
        add_record(&mut records, record)?;
    }
    Ok(records)
}

/// The records of a journal, the oldest first.
pub fn read<D: Disk>(alloc: Global, journal: &mut Journal<D>) -> Result<Vec<Record>, OpenFault>
    requires live { IsTrue journal.old.live }
    ensures spelled { IfOk result (λ records. (entries : List (List ℕ)) → D.tells journal.old.current → Holds D.seen D.may_leave journal.old entries
        → Spell entries records.items) }
    ensures within { IfOk result (λ records. AllByRecursion IsRecord records.items) }
    ensures kept { (entries : List (List ℕ)) → D.tells journal.old.current → Holds D.seen D.may_leave journal.old entries
        → Holds D.seen D.may_leave journal.new entries }
    ensures quiet { IsQuiet D.tells D.seen D.may_leave D.moment D.left_since journal.old.current journal.new.current }
    ensures same { journal.new ≡ record journal.old { current = journal.new.current } }
    ensures count { OnOk result (D.failed journal.new.current ≡ D.failed journal.old.current) }
    ensures damaged { IfErr result (λ e. e ≡ OpenDamaged → D.tells journal.old.current → (entries : List (List ℕ))
        → Holds D.seen D.may_leave journal.old entries
        → (records : List Record) → Spell entries records → ⊥) }
    ensures device { IfErr result (λ e. e ≡ OpenDevice → HasRisen (D.failed journal.old.current) (D.failed journal.new.current)) }
    ensures full { IfErr result (λ e. ¬ (e ≡ OpenFull)) }
{
    let found = match journal.records() {
        Ok(found) => found,
        Err(fault) => return Err(open_fault(fault)),
    };
    records_of(alloc, &found)
}
