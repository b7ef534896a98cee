//! Why a node was not opened, or a step not taken.

ghost use Rattle.std.specs.Prelude.{◌≡◌};
ghost use Rattle.sv_node.specs.Fault.{step_fault, open_fault, read_fault, apply_fault};

use sv_core::ApplyFault;
use sv_journal::JournalFault;
use sv_model::StepFault;
use sv_record::RecordFault;
use thiserror::Error;

/// Why a node was not opened.
#[derive(Clone, Copy, Debug, PartialEq, Eq, Error)]
pub enum OpenFault {
    /// Fault 1.
    #[error("a call of a disk failed while the node was opened")]
    Device,
    /// Fault 2: what the disks hold is no journal, an entry is no record or doesn't fit after those before it, or the
    /// numbers of starts are spent.
    #[error("the disks hold no journal of this node, or its starts are spent")]
    Damaged,
    /// Fault 3.
    #[error("the journal has no room for the start")]
    Full,
    /// Fault 4.
    #[error("memory was refused while the node was opened")]
    Memory,
}

/// A journal's fault as that of a step.
pub fn step_fault(fault: JournalFault) -> StepFault
    ensures { result ≡ step_fault fault }
{
    match fault {
        JournalFault::Failed | JournalFault::Damaged => StepFault::Failed,
        JournalFault::Full => StepFault::Full,
        JournalFault::Device => StepFault::Device,
        JournalFault::Memory => StepFault::Memory,
    }
}

/// A journal's fault as that of an opening.
pub fn open_fault(fault: JournalFault) -> OpenFault
    ensures { result ≡ open_fault fault }
{
    match fault {
        JournalFault::Failed | JournalFault::Device => OpenFault::Device,
        JournalFault::Damaged => OpenFault::Damaged,
        JournalFault::Full => OpenFault::Full,
        JournalFault::Memory => OpenFault::Memory,
    }
}

/// A record's fault as that of an opening.
pub fn read_fault(fault: RecordFault) -> OpenFault
    ensures { result ≡ read_fault fault }
{
    match fault {
        RecordFault::Memory => OpenFault::Memory,
        _ => OpenFault::Damaged,
    }
}

/// A core's fault as that of an opening.
pub fn apply_fault(fault: ApplyFault) -> OpenFault
    ensures { result ≡ apply_fault fault }
{
    match fault {
        ApplyFault::BadRecord => OpenFault::Damaged,
        ApplyFault::Memory => OpenFault::Memory,
    }
}
