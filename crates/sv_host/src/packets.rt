//! Which of the packets that a step puts out are sent.

ghost use Rattle.std.specs.Prelude.{◌≡◌};
ghost use Rattle.sv_host.specs.Packets.{IsSending, Passes, sending_after};

use crate::round::{Round, Share};
use sv_model::Output;

/// Which of the packets that a step puts out are sent. One that isn't sent is a packet that is lost.
#[derive(Clone, Copy, Debug, PartialEq, Eq)]
pub enum Packets {
    All,
    /// Of those of a tick so many as are sent of one, in turn.
    InTurn,
    /// Of those of a tick the wants alone, so many as are sent of one, in turn.
    Wants,
    /// None: the tick of this second has put out the same ones.
    Nothing,
}

/// What is still to be sent of what a step has put out.
#[derive(Clone, Copy, Debug, PartialEq, Eq)]
pub enum Sending {
    All,
    Share(Share),
    Nothing,
}

impl Sending {
    pub fn of(packets: Packets, round: Round, outputs: &[Output]) -> Sending
        ensures { IsSending packets round outputs.now result }
    {
        match packets {
            Packets::All => Sending::All,
            Packets::InTurn => Sending::Share(round.share(outputs)),
            Packets::Wants => Sending::Share(round.share_of_wants(outputs)),
            Packets::Nothing => Sending::Nothing,
        }
    }

    /// Whether an output is handed on.
    pub fn takes(&mut self, output: &Output) -> bool
        ensures passes { Passes self.old output.now result }
        ensures after { self.new ≡ sending_after self.old output.now }
    {
        match self {
            Sending::All => true,
            Sending::Share(share) => share.takes(output),
            Sending::Nothing => !matches!(output, Output::Send(_)),
        }
    }
}
