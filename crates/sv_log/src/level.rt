//! How much a line of a log matters.

use std::fmt;

/// How much a line of a log matters.
#[derive(Clone, Copy, PartialEq, Eq)]
pub enum Level {
    /// What was to be expected.
    Info,
    /// Something was refused or lost, and the node goes on.
    Warn,
    /// The node ends.
    Error,
}

impl Level {
    fn name(self) -> &'static str {
        match self {
            Level::Info => "info",
            Level::Warn => "warn",
            Level::Error => "error",
        }
    }

    /// What systemd's journal wants in front of a line: `err`, `warning` or `info` of syslog(3) (sd-daemon(3)).
    pub(crate) fn prefix(self) -> &'static str {
        match self {
            Level::Info => "<6>",
            Level::Warn => "<4>",
            Level::Error => "<3>",
        }
    }
}

impl fmt::Display for Level {
    fn fmt<W: fmt::Write>(&self, f: &mut fmt::Formatter<W>) -> fmt::Result {
        f.write_str(self.name())
    }
}
