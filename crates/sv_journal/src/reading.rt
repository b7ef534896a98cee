//! The payloads of the entries, read from a disk piece by piece.
ghost use Rattle.std.specs.Prelude.{◌≡◌, ◌≤◌, ◌+◌, ◌++◌, List, ℕ, length, take, drop, min, IfOk, OnOk, IfErr, IsErrOf, ◌⊎◌};
ghost use Rattle.sv_journal.specs.Disk.{IsQuiet, Counts, HasRisen};
ghost use Rattle.sv_journal.specs.Format.{Begins, HasEntries, HasNoEntries, payloads};
ghost use Rattle.sv_journal.specs.Reading.{Gathers};
ghost use Rattle.sv_journal.specs.declared.limits.TheConstants.{PAYLOAD_LIMIT};

use crate::entries::{ENTRY_HEAD, payload_len};
use crate::walk::HEADER;
use crate::{Device, Disk, JournalFault};
use std::alloc::Global;

// So many bytes are read at once: the longest entry fits in eight times.
const PIECE: u64 = 1_048_576;

// Puts the payloads of the whole entries at the beginning of a piece after the others, where so many bytes are left of
// the disk from the piece on. Answers how many bytes they take, or none where the gate that ends the entries stands
// after them.
fn gather(
    alloc: Global,
    piece: &[u8],
    left: u64,
    entries: &mut Vec<Vec<u8>>,
) -> Result<Option<usize>, JournalFault>
    requires enough { min (5 + PAYLOAD_LIMIT) left ≤ length piece.now }
    requires within { length piece.now ≤ left }
    ensures gathers { IfOk result (λ taken. Gathers piece.now (payloads entries.old.items) (payloads entries.new.items) taken) }
    ensures damaged { IsErrOf result JournalFault.Damaged → (bytes more : List ℕ) → length (piece.now ++ more) ≡ left
        → Begins bytes (payloads entries.old.items) (piece.now ++ more) → HasNoEntries bytes }
    ensures fault { IfErr result (λ e. (e ≡ JournalFault.Damaged) ⊎ (e ≡ JournalFault.Memory)) }
{
    let head = ENTRY_HEAD as usize;
    let mut rest = piece;
    let mut remaining = left;
    while rest.len() >= head || rest.len() as u64 == remaining {
        let Some(count) = payload_len(rest, remaining)? else {
            return Ok(None);
        };
        let size = head + count as usize;
        if size > rest.len() {
            break;
        }
        let (payload, next) = rest[head..].split_at(count as usize);
        entries.push(Vec::from_slice(alloc, payload)?)?;
        rest = next;
        remaining -= size as u64;
    }
    Ok(Some(piece.len() - rest.len()))
}

// Reads so many bytes from a place of the disk on, in the place of what the buffer held.
fn refill<D: Disk>(disk: &mut D, at: u64, count: usize, buffer: &mut Vec<u8>) -> Result<(), Device>
    requires room { count ≤ length buffer.old.items }
    requires within { D.tells disk.old → at + count ≤ length (D.seen disk.old) }
    ensures bytes { OnOk result (D.tells disk.old → buffer.new.items ≡ take count (drop at (D.seen disk.old))) }
    ensures len { length buffer.new.items ≡ count }
    ensures quiet { IsQuiet D.tells D.seen D.may_leave D.moment D.left_since disk.old disk.new }
    ensures count { Counts result (D.failed disk.old) (D.failed disk.new) }
{
    buffer.truncate(count);
    disk.read(at, buffer)
}

/// The payloads of the entries of a disk of this length, the oldest first.
pub fn read_entries<D: Disk>(
    alloc: Global,
    disk: &mut D,
    len: u64,
) -> Result<Vec<Vec<u8>>, JournalFault>
    requires sized { D.tells disk.old → len ≡ length (D.seen disk.old) }
    requires long { 17 ≤ len }
    ensures entries { IfOk result (λ found. D.tells disk.old → HasEntries (drop 16 (D.seen disk.old)) (payloads found.items)) }
    ensures damaged { IsErrOf result JournalFault.Damaged → D.tells disk.old → HasNoEntries (drop 16 (D.seen disk.old)) }
    ensures quiet { IsQuiet D.tells D.seen D.may_leave D.moment D.left_since disk.old disk.new }
    ensures count { OnOk result (D.failed disk.new ≡ D.failed disk.old) }
    ensures device { IsErrOf result JournalFault.Device → HasRisen (D.failed disk.old) (D.failed disk.new) }
    ensures fault { IfErr result (λ e. (e ≡ JournalFault.Damaged) ⊎ ((e ≡ JournalFault.Device) ⊎ (e ≡ JournalFault.Memory))) }
{
    let mut buffer = Vec::from_elem(alloc, 0u8, (len - HEADER).min(PIECE) as usize)?;
    let mut entries = Vec::new(alloc);
    let mut at = HEADER;
    loop {
        let count = (len - at).min(PIECE) as usize;
        refill(disk, at, count, &mut buffer)?;
        match gather(alloc, &buffer, len - at, &mut entries)? {
            Some(taken) => at += taken as u64,
            None => return Ok(entries),
        }
    }
}
