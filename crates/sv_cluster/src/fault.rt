//! Why the program ends before its script does, and how it says so.

ghost use Rattle.std.specs.Prelude.{◌≡◌};
ghost use Rattle.sv_cluster.specs.Fault.{status_of};
ghost use Rattle.sv_cluster.specs.declared.fault.Fault.TheVariants.{Arguments, Script, Socket};

use crate::script::ScriptFault;
use crate::words::Arguments as BadWords;
use sv_client::Unanswered;
use sv_config::ConfigFault;
use thiserror::Error;

/// Why the program ends before its script does. Its text is its name, which the program prints.
///
/// Refused memory has the name of what it was wanted for.
#[derive(Clone, Copy, Debug, PartialEq, Eq, Error)]
pub enum Fault {
    /// Status 2: the words are not NODE, CONFIG, DIR and SCRIPT.
    #[error("Arguments")]
    Arguments,
    /// Status 3: a line of the SCRIPT asks for nothing, a session is to be moved before there is one, or the CONFIG is at
    /// fault or has no ports.
    #[error("Script")]
    Script,
    /// Status 4: a node didn't start, or didn't end well.
    #[error("Process")]
    Process,
    /// Status 5: a node doesn't run or doesn't answer, or standard output can't be written.
    #[error("Socket")]
    Socket,
}

impl Fault {
    /// The exit status.
    pub fn status(self) -> u8
        ensures { result ≡ status_of self }
    {
        match self {
            Fault::Arguments => 2,
            Fault::Script => 3,
            Fault::Process => 4,
            Fault::Socket => 5,
        }
    }
}

impl From<BadWords> for Fault {
    ghost from_gives = { λ _ fault. fault ≡ Arguments };

    fn from(_: BadWords) -> Self {
        Fault::Arguments
    }
}

impl From<Unanswered> for Fault {
    ghost from_gives = { λ _ fault. fault ≡ Socket };

    fn from(_: Unanswered) -> Self {
        Fault::Socket
    }
}

impl From<ScriptFault> for Fault {
    ghost from_gives = { λ _ fault. fault ≡ Script };

    fn from(_: ScriptFault) -> Self {
        Fault::Script
    }
}

impl From<ConfigFault> for Fault {
    ghost from_gives = { λ _ fault. fault ≡ Script };

    fn from(_: ConfigFault) -> Self {
        Fault::Script
    }
}
