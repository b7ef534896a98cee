//! Why the work of a servlet or a filter ends before it is done.

ghost use Rattle.std.specs.Prelude.{◌≡◌, Some, IfOk};
ghost use Rattle.sv_web.specs.Refusal.{before_after, next_after, refusal_label, reply_label, session_label};
ghost use Rattle.sv_web.specs.declared.refusal.Refusal.TheVariants.{Memory};

use std::alloc::{AllocError, Global};
use sv_model::Text;
use sv_servlet::{Before, Next, ReplyFault};
use sv_session::SessionFault;

/// Why the work of a servlet or a filter ends before it is done.
#[derive(Clone, Copy, Debug, PartialEq, Eq)]
pub enum Refusal {
    /// Memory was refused.
    Memory,
    /// The edit or the reply refused a call, by the fault of this name.
    Fault(&'static str),
    /// Another answer than the one that was wanted has been written.
    Answered,
}

impl From<AllocError> for Refusal {
    ghost from_gives = { λ _ refusal. refusal ≡ Memory };

    fn from(_: AllocError) -> Self {
        Refusal::Memory
    }
}

impl From<SessionFault> for Refusal {
    ghost from_gives = { λ fault refusal. refusal_label refusal ≡ session_label fault };

    fn from(fault: SessionFault) -> Self {
        match fault {
            SessionFault::Memory => Refusal::Memory,
            fault => Refusal::Fault(fault.name()),
        }
    }
}

impl From<ReplyFault> for Refusal {
    ghost from_gives = { λ fault refusal. refusal_label refusal ≡ reply_label fault };

    fn from(fault: ReplyFault) -> Self {
        match fault {
            ReplyFault::Memory => Refusal::Memory,
            fault => Refusal::Fault(fault.name()),
        }
    }
}

/// What follows a servlet's work: where a call was refused, the error page of 500 with the fault's name.
pub fn next_after(alloc: Global, ended: Result<Next, Refusal>) -> Result<Next, AllocError>
    ensures { IfOk result (λ next. Some next ≡ next_after ended) }
{
    match ended {
        Ok(next) => Ok(next),
        Err(Refusal::Memory) => Err(AllocError),
        Err(Refusal::Fault(name)) => {
            let text = Text::from_str(alloc, name)?;
            Ok(Next::SendError { code: 500, text })
        }
        Err(Refusal::Answered) => Ok(Next::Done),
    }
}

/// What follows a filter's work before a servlet, likewise.
pub fn before_after(alloc: Global, ended: Result<Before, Refusal>) -> Result<Before, AllocError>
    ensures { IfOk result (λ before. Some before ≡ before_after ended) }
{
    match ended {
        Ok(before) => Ok(before),
        Err(Refusal::Memory) => Err(AllocError),
        Err(Refusal::Fault(name)) => {
            let text = Text::from_str(alloc, name)?;
            Ok(Before::SendError { code: 500, text })
        }
        Err(Refusal::Answered) => Ok(Before::Stop),
    }
}
