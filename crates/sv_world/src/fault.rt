//! Why an event did not happen.

ghost use Rattle.std.specs.Prelude.{◌≡◌};
ghost use Rattle.sv_world.specs.declared.fault.WorldFault.TheVariants.{Memory as OutOfMemory};

use std::alloc::{AllocError, AllocFailed};
use sv_core::Memory;
use thiserror::Error;

/// Why an event did not happen; nothing has changed.
#[derive(Clone, Copy, Debug, PartialEq, Eq, Error)]
pub enum WorldFault {
    /// Fault 1.
    #[error("there is no such node")]
    NoNode,
    /// Fault 2.
    #[error("the node runs already")]
    Running,
    /// Fault 3.
    #[error("the node doesn't run")]
    NotRunning,
    /// Fault 4.
    #[error("no such packet was sent")]
    NoPacket,
    /// Fault 5.
    #[error("a request has had this number since the node's start")]
    TokenUsed,
    /// Fault 6.
    #[error("memory was refused in a world's step")]
    Memory,
}

impl From<AllocError> for WorldFault {
    ghost from_gives = { λ _ fault. fault ≡ OutOfMemory };

    fn from(_: AllocError) -> Self {
        WorldFault::Memory
    }
}

impl<T: Drop> From<AllocFailed<T>> for WorldFault {
    ghost from_gives = { λ _ fault. fault ≡ OutOfMemory };

    fn from(_: AllocFailed<T>) -> Self {
        WorldFault::Memory
    }
}

impl From<Memory> for WorldFault {
    ghost from_gives = { λ _ fault. fault ≡ OutOfMemory };

    fn from(_: Memory) -> Self {
        WorldFault::Memory
    }
}
