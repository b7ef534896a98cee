//! Why a line isn't tried.

use std::alloc::{AllocError, AllocFailed};
use sv_config::ConfigFault;
use sv_target::TargetFault;
use thiserror::Error;

/// Why nothing came of a line: it is printed at the story's end, which then differs from what is expected.
#[derive(Clone, Copy, Debug, PartialEq, Eq, Error)]
pub enum RowFault {
    #[error("there is no such event")]
    Kind,
    #[error("a word isn't what this event has")]
    Word,
    #[error("the applications or the nodes have not started")]
    Start,
    #[error("memory was refused")]
    Memory,
}

impl From<AllocError> for RowFault {
    fn from(_: AllocError) -> Self {
        RowFault::Memory
    }
}

impl<T: Drop> From<AllocFailed<T>> for RowFault {
    fn from(_: AllocFailed<T>) -> Self {
        RowFault::Memory
    }
}

impl From<TargetFault> for RowFault {
    fn from(_: TargetFault) -> Self {
        RowFault::Word
    }
}

impl From<ConfigFault> for RowFault {
    fn from(_: ConfigFault) -> Self {
        RowFault::Start
    }
}
