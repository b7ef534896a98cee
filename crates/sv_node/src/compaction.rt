//! Records in the place of those that a journal has.

ghost use Rattle.std.specs.Prelude.{◌≡◌, ◌≤◌, length, map, IfOk, OnOk, IsErr, IsErrOf, IsTrue, false};
ghost use Rattle.std.specs.List.{All};
ghost use Rattle.sv_journal.specs.Disk.{LeavesOnly, TellsOn, HasRisen};
ghost use Rattle.sv_journal.specs.Format.{payloads};
ghost use Rattle.sv_journal.specs.declared.limits.TheConstants.{PAYLOAD_LIMIT};
ghost use Rattle.sv_model.specs.declared.node.Setting.{Setting};
ghost use Rattle.sv_model.specs.NodeState.{Durable};
ghost use Rattle.sv_model.specs.Ranges.{IsRecord};
ghost use Rattle.sv_record.specs.Record.{spelling};
ghost use Rattle.sv_node.specs.Compaction.{HasTurned, written, spared, len_with, HasNoRoom, RestoresBeside, LeavesReplaced};
ghost use Rattle.sv_node.specs.Records.{Spell, Give};
ghost use Rattle.sv_node.specs.Stops.{Stores};

use crate::ledger::payload_of;
use std::alloc::{AllocError, Global};
use sv_journal::{Disk, Journal, JournalFault};
use sv_record::Record;

/// The payloads of records, in order.
fn payloads_of(alloc: Global, records: &[Record]) -> Result<Vec<Vec<u8>>, AllocError>
    requires { All IsRecord records.now }
    ensures bytes { IfOk result (λ found. payloads found.items ≡ map spelling records.now) }
    ensures spelled { IfOk result (λ found. Spell (payloads found.items) records.now) }
    ensures size { IfOk result (λ found. All (λ payload. length payload.items ≤ PAYLOAD_LIMIT) found.items) }
{
    let mut found = Vec::with_capacity(alloc, records.len())?;
    for entry in records {
        found.push(payload_of(alloc, entry)?)?;
    }
    Ok(found)
}

/// Puts these records in the place of all others.
pub fn replace<D: Disk>(
    alloc: Global,
    journal: &mut Journal<D>,
    records: &[Record],
) -> Result<(), JournalFault>
    requires live { IsTrue journal.old.live }
    requires ranges { All IsRecord records.now }
    ensures stored { OnOk result ((set : Setting) (d : Durable) → D.tells journal.old.other → Give set records.now d
        → Stores D.seen D.may_leave journal.old set d
        → Stores D.seen D.may_leave journal.new set d) }
    ensures any_moment { (set : Setting) (d : Durable) → D.tells journal.old.other → Give set records.now d → Stores D.seen D.may_leave journal.old set d
        → LeavesOnly D.moment D.left_since journal.old.other (written journal.old journal.new) (RestoresBeside set (D.seen journal.old.current) d) }
    ensures writes { D.tells journal.old.other → LeavesReplaced D.seen D.may_leave D.moment D.left_since journal.old journal.new records.now }
    ensures tells { TellsOn D.tells journal.old.other (written journal.old journal.new) }
    ensures kept { spared journal.old journal.new ≡ journal.old.current }
    ensures other { OnOk result (journal.new.other ≡ journal.old.current) }
    ensures current { OnOk result (TellsOn D.tells journal.old.other journal.new.current) }
    ensures live { OnOk result (IsTrue journal.new.live) }
    ensures len { OnOk result (journal.new.len ≡ len_with records.now) }
    ensures turned { OnOk result (HasTurned journal.old journal.new) }
    ensures failed { ¬ IsErrOf result JournalFault.Failed }
    ensures full { IsErrOf result JournalFault.Full → HasNoRoom journal.old records.now }
    ensures device { IsErrOf result JournalFault.Device → (journal.new.live ≡ false) × HasRisen (D.failed journal.old.other) (D.failed journal.new.other) }
    ensures unchanged { IsErr result → ¬ IsErrOf result JournalFault.Device → journal.new ≡ journal.old }
    ensures damaged { ¬ IsErrOf result JournalFault.Damaged }
{
    let found = payloads_of(alloc, records)?;
    journal.compact(&found)
}
