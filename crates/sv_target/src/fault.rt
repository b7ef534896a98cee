//! Why a target isn't served.

ghost use Rattle.std.specs.Prelude.{◌≡◌};
ghost use Rattle.sv_target.specs.declared.fault.TargetFault.TheVariants.{Memory};

use std::alloc::{AllocError, AllocFailed};
use thiserror::Error;

/// Why a request's target isn't served, or a path within a context isn't read.
#[derive(Clone, Copy, Debug, PartialEq, Eq, Error)]
pub enum TargetFault {
    /// Fault 1, status 501: the method is CONNECT, which asks for a tunnel (RFC 9110, section 9.3.6).
    #[error("the method CONNECT is not served")]
    Connect,
    /// Fault 2, status 400: the target has a form that isn't served, or names no path below the root.
    #[error("the target is no path that is served")]
    BadTarget,
    /// Fault 3.
    #[error("memory was refused while the target was read")]
    Memory,
}

impl From<AllocError> for TargetFault {
    ghost from_gives = { λ _ fault. fault ≡ Memory };

    fn from(_: AllocError) -> Self {
        TargetFault::Memory
    }
}

impl<T: Drop> From<AllocFailed<T>> for TargetFault {
    ghost from_gives = { λ _ fault. fault ≡ Memory };

    fn from(_: AllocFailed<T>) -> Self {
        TargetFault::Memory
    }
}
