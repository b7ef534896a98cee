//! Why a call of a core has failed.

ghost use Rattle.std.specs.Prelude.{◌≡◌};
ghost use Rattle.sv_core.specs.declared.fault.ApplyFault.TheVariants.{Memory as OutOfMemory};

use std::alloc::{AllocError, AllocFailed};
use sv_model::EngineFault;
use thiserror::Error;

/// Memory was refused; nothing has changed.
#[derive(Clone, Copy, Debug, PartialEq, Eq, Error)]
#[error("memory was refused in a step")]
pub struct Memory;

impl From<AllocError> for Memory {
    fn from(_: AllocError) -> Self {
        Memory
    }
}

impl<T: Drop> From<AllocFailed<T>> for Memory {
    fn from(_: AllocFailed<T>) -> Self {
        Memory
    }
}

impl From<EngineFault> for Memory {
    fn from(_: EngineFault) -> Self {
        Memory
    }
}

/// Why a record was not applied; nothing has changed.
#[derive(Clone, Copy, Debug, PartialEq, Eq, Error)]
pub enum ApplyFault {
    #[error("the record doesn't fit what the node keeps")]
    BadRecord,
    #[error("memory was refused in applying a record")]
    Memory,
}

impl From<AllocError> for ApplyFault {
    ghost from_gives = { λ _ fault. fault ≡ OutOfMemory };

    fn from(_: AllocError) -> Self {
        ApplyFault::Memory
    }
}
