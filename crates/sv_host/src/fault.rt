//! Why a node ends.

ghost use Rattle.std.specs.Prelude.{◌≡◌};
ghost use Rattle.sv_host.specs.Stops.{fault_in};

use sv_journal::FileFault;
use sv_log::ReportFault;
use sv_net::Socket;
use sv_node::OpenFault;
use thiserror::Error;

/// Why a node ends before it is told to. Its text is its name, which a program prints.
#[derive(Clone, Copy, Debug, PartialEq, Eq, Error)]
pub enum HostFault {
    /// The file of secrets can't be opened, or has ended.
    #[error("Secrets")]
    Secrets,
    /// The node's port can't be listened at.
    #[error("Socket")]
    Socket,
    /// Standard output can't be written.
    #[error("Output")]
    Output,
    /// A journal's file failed.
    #[error("Device")]
    Device,
    /// A file of the journal isn't there, and wasn't to be made.
    #[error("NoJournal")]
    NoJournal,
    /// Another process has the journal.
    #[error("Locked")]
    Locked,
    /// The journal is none of a node's, or its starts are spent.
    #[error("Damaged")]
    Damaged,
    /// Another node has heard of a later start of this one: its journal is an older copy.
    #[error("OlderCopy")]
    OlderCopy,
    /// Another node has sessions that were made at a node of which this one wasn't told.
    #[error("Untold")]
    Untold,
    /// Another node that runs wasn't told of this one.
    #[error("Unannounced")]
    Unannounced,
    /// The journal has no room for the start.
    #[error("Full")]
    Full,
    /// Memory was refused while the journal was opened.
    #[error("Memory")]
    Memory,
    /// The log can't be opened.
    #[error("Log")]
    Log,
    /// The figures can't be written.
    #[error("Metrics")]
    Metrics,
}

impl From<ReportFault> for HostFault {
    fn from(fault: ReportFault) -> Self {
        match fault {
            ReportFault::Log => HostFault::Log,
            ReportFault::Metrics => HostFault::Metrics,
        }
    }
}

impl From<FileFault> for HostFault {
    fn from(fault: FileFault) -> Self {
        match fault {
            FileFault::Missing => HostFault::NoJournal,
            FileFault::Locked => HostFault::Locked,
            FileFault::Refused => HostFault::Device,
        }
    }
}

impl From<OpenFault> for HostFault {
    fn from(fault: OpenFault) -> Self {
        match fault {
            OpenFault::Device => HostFault::Device,
            OpenFault::Damaged => HostFault::Damaged,
            OpenFault::Full => HostFault::Full,
            OpenFault::Memory => HostFault::Memory,
        }
    }
}

/// Why a node serves no longer.
pub enum Stop {
    /// A command has told it to, on this connection.
    Told(Socket),
    /// The numbers of its requests or of its secrets are used up: this was the last.
    Spent(u64),
    Fault(HostFault),
}

/// By hand, so that the proof of a caller has one step for it.
impl Drop for Stop {
    fn drop(self) {
        match self {
            Stop::Told(_) | Stop::Spent(_) | Stop::Fault(_) => {}
        }
    }
}

impl Stop {
    /// What is at fault, if anything is.
    pub fn fault(&self) -> Option<HostFault>
        ensures { result ≡ fault_in self.now }
    {
        match self {
            Stop::Told(_) | Stop::Spent(_) => None,
            Stop::Fault(fault) => Some(*fault),
        }
    }
}
