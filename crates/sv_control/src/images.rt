//! A journal as the images of its two files have it.

ghost use Rattle.std.specs.Prelude.{◌≡◌, ◌⊎◌, ℕ, List, IfErr, IfOk};
ghost use Rattle.sv_journal.specs.Format.{Opens, payloads};
ghost use Rattle.sv_journal.specs.MemoryDisk.{disk_bytes};
ghost use Rattle.sv_journal.specs.declared.journal_fault.JournalFault.TheVariants.{Damaged};
ghost use Rattle.sv_control.specs.declared.images.FoundFault.TheVariants.{Memory, NoJournal};

use std::alloc::{AllocError, Global};
use sv_journal::{Journal, JournalFault, MemoryDisk};
use thiserror::Error;

/// Why a journal isn't shown.
#[derive(Clone, Copy, Debug, PartialEq, Eq, Error)]
pub enum FoundFault {
    /// The two files hold no journal.
    #[error("the files hold no journal that can be read")]
    NoJournal,
    /// An entry is no record. Entries are counted from 0, the oldest first.
    #[error("entry {0} is no record")]
    NoRecord(usize),
    /// A record doesn't fit after those before it.
    #[error("the records don't fit behind one another")]
    Unfit,
    #[error("memory was refused")]
    Memory,
}

impl From<AllocError> for FoundFault {
    fn from(_: AllocError) -> Self {
        FoundFault::Memory
    }
}

/// A fault of a journal over disks in memory, which fail only where memory is refused.
fn found_fault(fault: JournalFault) -> FoundFault
    ensures either { (result ≡ NoJournal) ⊎ (result ≡ Memory) }
    ensures damaged { result ≡ NoJournal → fault ≡ Damaged }
{
    match fault {
        JournalFault::Damaged => FoundFault::NoJournal,
        _ => FoundFault::Memory,
    }
}

/// A disk that has these bytes.
fn disk_of(alloc: Global, bytes: &[u8]) -> Result<MemoryDisk, FoundFault>
    ensures bytes { IfOk result (λ disk. disk_bytes disk ≡ bytes.now) }
    ensures memory { IfErr result (λ fault. fault ≡ Memory) }
{
    match MemoryDisk::with(alloc, bytes) {
        Ok(disk) => Ok(disk),
        Err(_) => Err(FoundFault::Memory),
    }
}

/// The payloads of the entries with which a journal opens from the images `a` and `b` of its two files, the oldest first.
///
/// They are read in memory, so that nothing is written, and images of the files of a node that runs do as well.
pub fn entries_of(alloc: Global, a: &[u8], b: &[u8]) -> Result<Vec<Vec<u8>>, FoundFault>
    ensures opens { IfOk result (λ found. Opens a.now b.now (payloads found.items)) }
    ensures entries { IfOk result (λ found. (entries : List (List ℕ)) → Opens a.now b.now entries → payloads found.items ≡ entries) }
    // They hold none, unless memory is refused.
    ensures none { IfErr result (λ fault. fault ≡ NoJournal → (entries : List (List ℕ)) → Opens a.now b.now entries → ⊥) }
    ensures fault { IfErr result (λ fault. (fault ≡ NoJournal) ⊎ (fault ≡ Memory)) }
{
    let a = disk_of(alloc, a)?;
    let b = disk_of(alloc, b)?;
    let mut journal = match Journal::open(alloc, a, b) {
        Ok(journal) => journal,
        Err(refused) => return Err(found_fault(refused.fault)),
    };
    match journal.records() {
        Ok(entries) => Ok(entries),
        Err(fault) => Err(found_fault(fault)),
    }
}
