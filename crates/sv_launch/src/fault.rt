//! Why the program ends before its work is done, and how it says so.

ghost use Rattle.std.specs.Prelude.{◌≡◌};
ghost use Rattle.sv_launch.specs.Fault.{fault_at, fault_in, fault_of, host_fault, place_fault, status_of};
ghost use Rattle.sv_launch.specs.declared.fault.Fault.TheVariants.{Memory};

use crate::files::Clash;
use crate::stream::OnceFault;
use std::alloc::{AllocError, AllocFailed};
use std::error::Error;
use std::fmt;
use sv_config::ConfigFault;
use sv_container::StartFault;
use sv_host::{HostFault, PlaceFault};

/// Why the program ends before its work is done. Its text is its name, which the program prints; that of [`Fault::SameFile`] says
/// besides which file it is.
#[derive(Clone, Copy, Debug, PartialEq, Eq)]
pub enum Fault {
    /// Status 2: the words are none that the program takes.
    Arguments,
    /// Status 3: the CONFIG can't be read, or is no UTF-8 text.
    Unreadable,
    /// Status 3: the descriptor is no document of TOML 1.1.
    NotToml,
    /// Status 3: a table of the descriptor lacks a field that it must have.
    MissingField,
    /// Status 3: a field of the descriptor is of another kind than it must be.
    WrongKind,
    /// Status 3: the descriptor has a key, or refers to a name, that nothing declares.
    UnknownName,
    /// Status 3: a pattern, path or name of the descriptor is badly spelled.
    BadPattern,
    /// Status 3: something stands twice in the descriptor that may stand once.
    Duplicate,
    /// Status 3: a count or a number of the descriptor is outside its limits.
    LimitExceeded,
    /// Status 3: the descriptor names an object that the program hasn't got.
    MissingObject,
    /// Status 3: a file that the descriptor has a context serve can't be, as a line says that names it.
    NotServed,
    /// Status 3: an object was made that the descriptor doesn't name.
    ExtraObject,
    /// Status 3: the descriptor gives no ports to the nodes of a cluster.
    Ports,
    /// Status 2: an option would have the node write to a file that is something else's.
    SameFile(Clash),
    /// Status 4: a file of the journal failed.
    Device,
    /// Status 4: a file of the journal isn't there, and `--existing` has none made.
    NoJournal,
    /// Status 6: another process has the journal.
    Locked,
    /// Status 4: the journal is none of a node's, or its starts are spent.
    Damaged,
    /// Status 4: another node has heard of a later start of this one: its journal is an older copy.
    OlderCopy,
    /// Status 3: another node has sessions that were made at a node of which this one wasn't told.
    Untold,
    /// Status 3: another node that runs wasn't told of this one.
    Unannounced,
    /// Status 4: the journal has no room for the start.
    Full,
    /// Status 4: memory was refused while the journal was opened.
    JournalMemory,
    /// Status 5: the file of secrets can't be opened, or has ended.
    Secrets,
    /// Status 5: the node's port can't be listened at.
    Socket,
    /// Status 5: the log can't be opened.
    Log,
    /// Status 5: the figures can't be written.
    Metrics,
    /// Status 5: standard input can't be read.
    Input,
    /// Status 5: standard output can't be written.
    Output,
    /// Status 5: memory was refused before the first request.
    Memory,
}

impl Fault {
    /// Its name alone.
    pub(crate) fn name(self) -> &'static str {
        match self {
            Fault::Arguments => "Arguments",
            Fault::Unreadable => "Unreadable",
            Fault::NotToml => "NotToml",
            Fault::MissingField => "MissingField",
            Fault::WrongKind => "WrongKind",
            Fault::UnknownName => "UnknownName",
            Fault::BadPattern => "BadPattern",
            Fault::Duplicate => "Duplicate",
            Fault::LimitExceeded => "LimitExceeded",
            Fault::MissingObject => "MissingObject",
            Fault::NotServed => "NotServed",
            Fault::ExtraObject => "ExtraObject",
            Fault::Ports => "Ports",
            Fault::SameFile(_) => "SameFile",
            Fault::Device => "Device",
            Fault::NoJournal => "NoJournal",
            Fault::Locked => "Locked",
            Fault::Damaged => "Damaged",
            Fault::OlderCopy => "OlderCopy",
            Fault::Untold => "Untold",
            Fault::Unannounced => "Unannounced",
            Fault::Full => "Full",
            Fault::Secrets => "Secrets",
            Fault::Socket => "Socket",
            Fault::Log => "Log",
            Fault::Metrics => "Metrics",
            Fault::Input => "Input",
            Fault::Output => "Output",
            Fault::JournalMemory | Fault::Memory => "Memory",
        }
    }

    /// The exit status.
    pub fn status(self) -> u8
        ensures { result ≡ status_of self }
    {
        match self {
            Fault::Arguments | Fault::SameFile(_) => 2,
            Fault::Device
            | Fault::NoJournal
            | Fault::OlderCopy
            | Fault::Damaged
            | Fault::Full
            | Fault::JournalMemory => 4,
            Fault::Locked => 6,
            Fault::Secrets
            | Fault::Socket
            | Fault::Log
            | Fault::Metrics
            | Fault::Input
            | Fault::Output
            | Fault::Memory => 5,
            _ => 3,
        }
    }
}

impl fmt::Display for Fault {
    fn fmt<W: fmt::Write>(&self, f: &mut fmt::Formatter<W>) -> fmt::Result {
        f.write_str(self.name())?;
        match self {
            Fault::SameFile(clash) => write!(f, ": {clash}"),
            _ => Ok(()),
        }
    }
}

impl Error for Fault {}

impl From<AllocError> for Fault {
    ghost from_gives = { λ _ fault. fault ≡ Memory };

    fn from(_: AllocError) -> Self {
        Fault::Memory
    }
}

impl<T: Drop> From<AllocFailed<T>> for Fault {
    ghost from_gives = { λ _ fault. fault ≡ Memory };

    fn from(_: AllocFailed<T>) -> Self {
        Fault::Memory
    }
}

impl From<ConfigFault> for Fault {
    ghost from_gives = { λ config fault. fault ≡ fault_in config };

    fn from(fault: ConfigFault) -> Self {
        match fault {
            ConfigFault::NotToml => Fault::NotToml,
            ConfigFault::MissingField => Fault::MissingField,
            ConfigFault::WrongKind => Fault::WrongKind,
            ConfigFault::UnknownName => Fault::UnknownName,
            ConfigFault::BadPattern => Fault::BadPattern,
            ConfigFault::Duplicate => Fault::Duplicate,
            ConfigFault::LimitExceeded => Fault::LimitExceeded,
            ConfigFault::Memory => Fault::Memory,
        }
    }
}

impl From<StartFault> for Fault {
    ghost from_gives = { λ start fault. fault ≡ fault_at start };

    fn from(fault: StartFault) -> Self {
        match fault {
            StartFault::MissingObject => Fault::MissingObject,
            StartFault::ExtraObject => Fault::ExtraObject,
            StartFault::Memory => Fault::Memory,
        }
    }
}

impl From<PlaceFault> for Fault {
    ghost from_gives = { λ place fault. fault ≡ place_fault place };

    fn from(fault: PlaceFault) -> Self {
        match fault {
            PlaceFault::Ports => Fault::Ports,
            PlaceFault::NoNode => Fault::Arguments,
            PlaceFault::Memory => Fault::Memory,
        }
    }
}

impl From<HostFault> for Fault {
    ghost from_gives = { λ host fault. fault ≡ host_fault host };

    fn from(fault: HostFault) -> Self {
        match fault {
            HostFault::Secrets => Fault::Secrets,
            HostFault::Socket => Fault::Socket,
            HostFault::Output => Fault::Output,
            HostFault::Device => Fault::Device,
            HostFault::NoJournal => Fault::NoJournal,
            HostFault::Locked => Fault::Locked,
            HostFault::OlderCopy => Fault::OlderCopy,
            HostFault::Untold => Fault::Untold,
            HostFault::Unannounced => Fault::Unannounced,
            HostFault::Damaged => Fault::Damaged,
            HostFault::Full => Fault::Full,
            HostFault::Memory => Fault::JournalMemory,
            HostFault::Log => Fault::Log,
            HostFault::Metrics => Fault::Metrics,
        }
    }
}

impl From<OnceFault> for Fault {
    ghost from_gives = { λ once fault. fault ≡ fault_of once };

    fn from(fault: OnceFault) -> Self {
        match fault {
            OnceFault::Input => Fault::Input,
            OnceFault::Output => Fault::Output,
        }
    }
}
