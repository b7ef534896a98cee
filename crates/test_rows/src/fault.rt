//! Why nothing came of a row.

use std::alloc::{AllocError, AllocFailed};
use sv_control::FoundFault;
use sv_mapping::MappingFault;
use sv_servlet::{InitFault, ReplyFault};
use sv_session::SessionFault;
use thiserror::Error;

/// Why nothing came of a row: it is printed in the row's line, which then differs from what is expected, unless the row is to show how
/// a journal, an edit or a reply refuses something.
#[derive(Clone, Copy, Debug, PartialEq, Eq, Error)]
pub enum RowFault {
    #[error("there is no such kind of row")]
    Kind,
    #[error("a part isn't what this kind of row has")]
    Part,
    #[error("what is read has another spelling")]
    Spelling,
    #[error("memory was refused")]
    Memory,
    #[error("a call was refused that has to succeed")]
    Call,
    /// The journal isn't read.
    #[error("{0}")]
    Journal(FoundFault),
    /// The edit refused a call.
    #[error("{0:?}")]
    Session(SessionFault),
    /// The reply refused a call.
    #[error("{0:?}")]
    Reply(ReplyFault),
}

impl From<AllocError> for RowFault {
    fn from(_: AllocError) -> Self {
        RowFault::Memory
    }
}

impl<T: Drop> From<AllocFailed<T>> for RowFault {
    fn from(_: AllocFailed<T>) -> Self {
        RowFault::Memory
    }
}

impl From<FoundFault> for RowFault {
    fn from(fault: FoundFault) -> Self {
        RowFault::Journal(fault)
    }
}

impl From<MappingFault> for RowFault {
    fn from(_: MappingFault) -> Self {
        RowFault::Call
    }
}

impl From<InitFault> for RowFault {
    fn from(_: InitFault) -> Self {
        RowFault::Call
    }
}

impl From<SessionFault> for RowFault {
    fn from(fault: SessionFault) -> Self {
        RowFault::Session(fault)
    }
}

impl From<ReplyFault> for RowFault {
    fn from(fault: ReplyFault) -> Self {
        RowFault::Reply(fault)
    }
}
