//! Why a call of an edit is refused.

ghost use Rattle.std.specs.Prelude.{◌≡◌};
ghost use Rattle.sv_session.specs.Fault.{fault_name};
ghost use Rattle.sv_session.specs.declared.fault.SessionFault.TheVariants.{Memory};

use std::alloc::{AllocError, AllocFailed};
use thiserror::Error;

/// Why a call of an edit was refused; the edit is then as it was. Of several the first one is told.
#[derive(Clone, Copy, Debug, PartialEq, Eq, Error)]
pub enum SessionFault {
    /// Fault 1.
    #[error("the request has no session")]
    NoSession,
    /// Fault 2.
    #[error("an attribute's name has 1 to 128 bytes")]
    BadName,
    /// Fault 3.
    #[error("an attribute's value has at most 65536 bytes")]
    ValueTooLong,
    /// Fault 4.
    #[error("a session has at most 64 attributes, of 131072 bytes in all")]
    SessionTooLarge,
    /// Fault 5.
    #[error("the request has already made a session")]
    SecondCreation,
    /// Fault 6.
    #[error("memory was refused for the session")]
    Memory,
    /// Fault 7.
    #[error("the request has already made a session or changed a session's id")]
    SecretUsed,
}

impl SessionFault {
    /// The fault's name, as an error page may show it.
    pub fn name(self) -> &'static str
        ensures { result.now ≡ fault_name self }
    {
        match self {
            SessionFault::NoSession => "NoSession",
            SessionFault::BadName => "BadName",
            SessionFault::ValueTooLong => "ValueTooLong",
            SessionFault::SessionTooLarge => "SessionTooLarge",
            SessionFault::SecondCreation => "SecondCreation",
            SessionFault::Memory => "Memory",
            SessionFault::SecretUsed => "SecretUsed",
        }
    }
}

impl From<AllocError> for SessionFault {
    ghost from_gives = { λ _ fault. fault ≡ Memory };

    fn from(_: AllocError) -> Self {
        SessionFault::Memory
    }
}

impl<T: Drop> From<AllocFailed<T>> for SessionFault {
    ghost from_gives = { λ _ fault. fault ≡ Memory };

    fn from(_: AllocFailed<T>) -> Self {
        SessionFault::Memory
    }
}
