//! Why the program ends before its work is done, and how it says so.

use std::alloc::{AllocError, AllocFailed};
use sv_config::ConfigFault;
use sv_control::FoundFault;
use sv_watch::FiguresFault;
use thiserror::Error;

/// Why a descriptor isn't used.
#[derive(Clone, Copy, Debug, PartialEq, Eq, Error)]
pub enum DescriptorFault {
    /// It is no file of UTF-8 text that can be read.
    #[error("the CONFIG can't be read")]
    Unreadable,
    /// A node would refuse it.
    #[error("the CONFIG: {0}")]
    Refused(ConfigFault),
    /// A node's program would; why, it has said.
    #[error("the program refuses the CONFIG")]
    Program,
    /// Sessions that nodes have under another one are lost under it.
    #[error("the CONFIG loses sessions of the one before")]
    Loses,
    /// It has no nodes.
    #[error("the CONFIG has no cluster.ports")]
    NoPorts,
}

/// Why the program ends before its work is done.
#[derive(Clone, Copy, Debug, PartialEq, Eq, Error)]
pub enum Fault {
    /// Status 2: a word that is none of the command's. The text for the words themselves is clap's.
    #[error("{0}")]
    Arguments(&'static str),
    /// Status 3: the descriptor.
    #[error("{0}")]
    Descriptor(DescriptorFault),
    /// Status 4: a file of the journal can't be read.
    #[error("the journal can't be read")]
    Unreadable,
    /// Status 4: what the files hold isn't shown.
    #[error("the journal: {0}")]
    Journal(FoundFault),
    /// Status 4: something is where a file of the journal was to be made.
    #[error("a file of the journal is there already, and was left as it is")]
    Existing,
    /// Status 4: a file of the journal can't be made.
    #[error("the journal can't be made")]
    Unmade,
    /// Status 4: by a record that the program has said.
    #[error("the journal is another node's")]
    Anothers,
    /// Status 4: a file of figures.
    #[error("a file of figures {0}")]
    Figures(FiguresFault),
    /// Status 6: the node that is said to be gone answers.
    #[error("the node at port {0} answers: it isn't gone")]
    Answers(u16),
    /// Status 6: at each look sessions were on their way.
    #[error("sessions were on their way between the other nodes at each look; try again")]
    Unsettled,
    /// Status 5: the machine's clock can't be read.
    #[error("the clock can't be read")]
    Clock,
    /// Status 5: the node at a port doesn't answer.
    #[error("the node at port {0} doesn't answer")]
    Unanswered(u16),
    /// Status 5: the program of `check` can't be run, or is none of a node's.
    #[error("the PROGRAM can't be run, or is none of a node's")]
    Program,
    /// Status 5: standard output can't be written.
    #[error("standard output can't be written")]
    Output,
    /// Status 5.
    #[error("memory was refused")]
    Memory,
    /// Status 6: the node refuses the command, or not all could be done; what, the program has said.
    #[error("not done")]
    NotDone,
}

impl Fault {
    /// The exit status.
    pub fn status(self) -> u8 {
        match self {
            Fault::Arguments(_) => 2,
            Fault::Descriptor(_) => 3,
            Fault::Unreadable
            | Fault::Journal(_)
            | Fault::Existing
            | Fault::Unmade
            | Fault::Anothers
            | Fault::Figures(_) => 4,
            Fault::Unanswered(_) | Fault::Clock | Fault::Program | Fault::Output | Fault::Memory =>
                5,
            Fault::Answers(_) | Fault::Unsettled | Fault::NotDone => 6,
        }
    }
}

impl From<AllocError> for Fault {
    fn from(_: AllocError) -> Self {
        Fault::Memory
    }
}

impl<T: Drop> From<AllocFailed<T>> for Fault {
    fn from(_: AllocFailed<T>) -> Self {
        Fault::Memory
    }
}

impl From<FoundFault> for Fault {
    fn from(fault: FoundFault) -> Self {
        match fault {
            FoundFault::Memory => Fault::Memory,
            fault => Fault::Journal(fault),
        }
    }
}
