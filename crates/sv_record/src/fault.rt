//! Why bytes are no record, packet or frame.

ghost use Rattle.std.specs.Prelude.{◌≡◌};
ghost use Rattle.sv_record.specs.declared.fault.RecordFault.TheVariants.{Memory};

use std::alloc::AllocError;
use thiserror::Error;

/// The first trouble in the order of the bytes, or want of memory.
#[derive(Clone, Copy, Debug, PartialEq, Eq, Error)]
pub enum RecordFault {
    /// There is no byte where one is needed.
    #[error("the bytes end within a field")]
    Truncated,
    /// The first byte of a record or packet is no version that is known.
    #[error("the version is none that is known")]
    BadVersion,
    /// The kind of a record, a packet or a command, or the first byte of a frame, is none that is known.
    #[error("the kind is none that is known")]
    Foreign,
    /// A field is out of its range, or bytes are left behind.
    #[error("a field is out of its range, or bytes are left behind")]
    BadField,
    /// Memory was refused.
    #[error("memory was refused while bytes were read")]
    Memory,
}

impl From<AllocError> for RecordFault {
    ghost from_gives = { λ _ fault. fault ≡ Memory };

    fn from(_refused: AllocError) -> RecordFault {
        RecordFault::Memory
    }
}
