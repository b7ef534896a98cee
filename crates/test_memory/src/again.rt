//! A call that is made once more where memory was refused to it.

use std::alloc::AllocError;
use sv_config::{ConfigFault, NotRead};
use sv_mapping::MappingFault;
use sv_message::fault::ReadFault;
use sv_model::EngineFault;
use sv_record::RecordFault;
use sv_servlet::ReplyFault;
use sv_session::SessionFault;
use sv_target::TargetFault;

/// A fault of a call.
pub trait Fault: Drop {
    /// It says that memory was refused.
    fn is_memory(&self) -> bool;
}

impl Fault for AllocError {
    fn is_memory(&self) -> bool {
        true
    }
}

impl Fault for EngineFault {
    fn is_memory(&self) -> bool {
        true
    }
}

impl Fault for SessionFault {
    fn is_memory(&self) -> bool {
        matches!(self, SessionFault::Memory)
    }
}

impl Fault for ReplyFault {
    fn is_memory(&self) -> bool {
        matches!(self, ReplyFault::Memory)
    }
}

impl Fault for ReadFault {
    fn is_memory(&self) -> bool {
        matches!(self, ReadFault::Memory)
    }
}

impl Fault for TargetFault {
    fn is_memory(&self) -> bool {
        matches!(self, TargetFault::Memory)
    }
}

impl Fault for MappingFault {
    fn is_memory(&self) -> bool {
        matches!(self, MappingFault::Memory)
    }
}

impl Fault for ConfigFault {
    fn is_memory(&self) -> bool {
        matches!(self, ConfigFault::Memory)
    }
}

impl Fault for NotRead {
    fn is_memory(&self) -> bool {
        matches!(self, NotRead::Memory)
    }
}

impl Fault for RecordFault {
    fn is_memory(&self) -> bool {
        matches!(self, RecordFault::Memory)
    }
}

/// Why a case has nothing to show.
#[derive(Clone, Copy, Debug, PartialEq, Eq)]
pub enum Unshown {
    /// Memory was refused to what the case prepares or shows, or to a call that was made once more.
    Memory,
    /// A call has answered another fault, or what it never should.
    Other,
}

impl From<AllocError> for Unshown {
    fn from(_: AllocError) -> Self {
        Unshown::Memory
    }
}

/// How often memory was refused by name.
#[derive(Drop)]
pub struct Refusals {
    pub count: u64,
}

impl Refusals {
    /// One more.
    pub fn add(&mut self) {
        self.count = self.count.saturating_add(1);
    }
}

/// What a call that has to succeed gives.
pub fn done<T: Drop, F: Fault>(answer: Result<T, F>) -> Result<T, Unshown> {
    match answer {
        Ok(value) => Ok(value),
        Err(fault) => Err(if fault.is_memory() {
            Unshown::Memory
        } else {
            Unshown::Other
        }),
    }
}

/// What a call gives; none where memory was refused to it, which is counted.
pub fn unless_refused<T: Drop, F: Fault>(
    refusals: &mut Refusals,
    answer: Result<T, F>,
) -> Option<Result<T, Unshown>> {
    match done(answer) {
        Err(Unshown::Memory) => {
            refusals.add();
            None
        }
        answer => Some(answer),
    }
}

/// Makes a call, and once more where memory is refused to it. It writes the call twice, since a closure has three proofs of its own.
macro_rules! again {
    ($refusals:expr, $call:expr) => {
        match $crate::again::unless_refused($refusals, $call) {
            Some(answer) => answer,
            None => $crate::again::done($call),
        }
    };
}

pub(crate) use again;
