//! What takes inputs, a step each: one node, alone or of many.

ghost use Rattle.std.specs.Prelude.{◌≡◌, List, Result, vec_items};
ghost use Rattle.sv_model.specs.Cause.{cause_of};
ghost use Rattle.sv_model.specs.Site.{with_list};
ghost use Rattle.sv_model.specs.Ranges.{IsInput};
ghost use Rattle.sv_model.specs.declared.key.Moment.{Moment};
ghost use Rattle.sv_model.specs.declared.input.Input.{Input};
ghost use Rattle.sv_model.specs.declared.output.Output.{Output};
ghost use Rattle.sv_model.specs.declared.site.StepFault.{StepFault};
ghost use Rattle.sv_model.specs.declared.site.StepFault.TheVariants.{Memory};

use crate::engine::EngineFault;
use crate::input::Input;
use crate::key::Moment;
use crate::output::{Cause, Output};
use std::alloc::{AllocError, AllocFailed};
use thiserror::Error;

/// Why a step was not taken.
#[derive(Clone, Copy, Debug, PartialEq, Eq, Error)]
pub enum StepFault {
    /// Fault 1.
    #[error("the node has failed and must be opened again")]
    Failed,
    /// Fault 2.
    #[error("the journal has no room for the step")]
    Full,
    /// Fault 3.
    #[error("the disk failed under the step")]
    Device,
    /// Fault 4.
    #[error("memory was refused in the step")]
    Memory,
}

impl StepFault {
    /// Why a request is refused whose step was not taken.
    pub fn cause(self) -> Cause
        ensures { result ≡ cause_of self }
    {
        match self {
            StepFault::Full => Cause::JournalFull,
            StepFault::Memory | StepFault::Failed | StepFault::Device => Cause::Memory,
        }
    }
}

impl From<AllocError> for StepFault {
    ghost from_gives = { λ _ fault. fault ≡ Memory };

    fn from(_: AllocError) -> Self {
        StepFault::Memory
    }
}

impl<T: Drop> From<AllocFailed<T>> for StepFault {
    ghost from_gives = { λ _ fault. fault ≡ Memory };

    fn from(_: AllocFailed<T>) -> Self {
        StepFault::Memory
    }
}

impl From<EngineFault> for StepFault {
    ghost from_gives = { λ _ fault. fault ≡ Memory };

    fn from(_: EngineFault) -> Self {
        StepFault::Memory
    }
}

/// A node as its caller sees it.
pub trait Site {
    /// What a step may do: from a site, at a moment, by an input, with an answer, to a site.
    ghost steps: { Self → Moment → Input → Result (List Output) StepFault → Self → Type 0 };

    /// It may be called.
    ghost site_valid: { Self → Type 0 };

    /// Takes one input, and puts out what follows once all of it is durable.
    ///
    /// The keys and the node numbers of a packet are within the ranges of the formats. An order to move a session may name
    /// any key and any node: the step itself refuses what there can't be.
    fn step(&mut self, moment: Moment, input: Input) -> Result<Vec<Output>, StepFault>
        requires valid { site_valid self.old }
        requires input { IsInput input }
        ensures valid { site_valid self.new }
        ensures step { steps self.old moment input (with_list vec_items result) self.new };
}
