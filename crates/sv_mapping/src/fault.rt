//! What mapping refuses.

ghost use Rattle.std.specs.Prelude.{◌≡◌};
ghost use Rattle.sv_mapping.specs.declared.fault.MappingFault.TheVariants.{Memory};

use std::alloc::{AllocError, AllocFailed};
use thiserror::Error;

/// Why a pattern was not read, or not mapped. The numbers are those of the container's list of faults.
#[derive(Clone, Copy, Debug, PartialEq, Eq, Error)]
pub enum MappingFault {
    /// Fault 1: the pattern has more than 256 bytes, or a control character.
    #[error("a pattern has at most 256 bytes and no control character")]
    BadPattern,
    /// Fault 2: the pattern is mapped to a servlet of the context already.
    #[error("the pattern is mapped to a servlet of this context already")]
    DuplicatePattern,
    /// Fault 3: the context has 256 patterns already.
    #[error("a context has at most 256 servlet patterns")]
    TooMany,
    /// Fault 4: memory was refused.
    #[error("memory was refused while patterns were read or mapped")]
    Memory,
}

impl From<AllocError> for MappingFault {
    ghost from_gives = { λ _ fault. fault ≡ Memory };

    fn from(_refused: AllocError) -> MappingFault {
        MappingFault::Memory
    }
}

impl<T: Drop> From<AllocFailed<T>> for MappingFault {
    ghost from_gives = { λ _ fault. fault ≡ Memory };

    fn from(_refused: AllocFailed<T>) -> MappingFault {
        MappingFault::Memory
    }
}
