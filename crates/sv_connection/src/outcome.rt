//! How a call of a connection ends.

use sv_message::fault::ReadFault;
use sv_target::TargetFault;

/// Why a request was refused by the connection.
#[derive(Clone, Copy, Debug, PartialEq, Eq)]
pub enum RequestFault {
    /// A fault of the message, or want of memory.
    Read(ReadFault),
    /// A fault of the method and the target.
    Target(TargetFault),
}

/// How a call ends. An outcome other than `Answered` and `Parked` closes the connection.
#[derive(Clone, Copy, Debug, PartialEq, Eq)]
pub enum Outcome {
    /// An answer was written, or a refusal with status 503; the connection closes where that says so.
    Answered,
    /// The site will answer later; nothing was written. `head_only` where that answer is to leave out its body.
    Parked { head_only: bool },
    /// The input has ended with no whole message, or the connection was closed before.
    Closed,
    /// The plain page of the fault was written, or the lines that say that memory was refused.
    Refused(RequestFault),
    /// The reader failed, or gave no whole message in 1,048,576 reads.
    ReadFailed,
    /// The writer failed; what went out is the front of the text.
    WriteFailed,
    /// The site has failed; nothing was written.
    Failed,
}
