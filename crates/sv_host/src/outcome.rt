//! What comes of a step.

ghost use Rattle.std.specs.Prelude.{OnOk, ◌≡◌, false};
ghost use Rattle.sv_node.specs.Call.{step_ends};
ghost use Rattle.sv_host.specs.Outcome.{answer_byte, refusal_byte, refused, sum_up};

use crate::fault::{HostFault, Stop};
use sv_model::{MoveRefusal, Output, StepFault};

/// What came of a step that a node was told to take.
#[derive(Clone, Copy, Debug, PartialEq, Eq)]
pub enum Taken {
    /// Nothing was put out.
    Quiet,
    /// Something was put out, and has been handed on.
    Busy,
    /// A session isn't moved, for this reason.
    MoveRefused(MoveRefusal),
    /// There was no room or no memory for the step.
    Refused,
}

/// What was put out by a step.
pub fn sum_up(outputs: &[Output]) -> Taken
    ensures { result ≡ sum_up outputs.now }
{
    match outputs {
        [] => Taken::Quiet,
        [Output::MoveRefused(why)] => Taken::MoveRefused(*why),
        _ => Taken::Busy,
    }
}

/// What a command that isn't done is answered with.
fn refusal_byte(why: MoveRefusal) -> u8
    ensures { result ≡ refusal_byte why }
{
    match why {
        MoveRefusal::UnknownKey => 1,
        MoveRefusal::NotActive => 2,
        MoveRefusal::BadPeer => 3,
        MoveRefusal::EpochsSpent => 4,
    }
}

/// The byte that answers a command.
pub fn answer_byte(taken: Taken) -> u8
    ensures { result ≡ answer_byte taken }
{
    match taken {
        Taken::Quiet | Taken::Busy => 0,
        Taken::MoveRefused(why) => refusal_byte(why),
        Taken::Refused => 5,
    }
}

/// What comes of a step that was refused: a node goes on, unless its disk has failed.
pub fn refused(fault: StepFault) -> Result<Taken, Stop>
    ensures refused { result ≡ refused fault }
    ensures goes_on { OnOk result (step_ends fault ≡ false) }
{
    match fault {
        StepFault::Full | StepFault::Memory => Ok(Taken::Refused),
        StepFault::Device | StepFault::Failed => Err(Stop::Fault(HostFault::Device)),
    }
}
