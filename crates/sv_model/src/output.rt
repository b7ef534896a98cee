//! What a step puts out.

ghost use Rattle.std.specs.Prelude.{◌≡◌, IfOk};
ghost use Rattle.sv_model.specs.Cause.{cause_name};

use crate::packet::Packet;
use crate::response::Response;
use std::alloc::{AllocError, Global};

/// Why a request was refused; nothing was done for it.
#[derive(Clone, Copy, Debug, PartialEq, Eq)]
pub enum Cause {
    /// 64 requests are parked here.
    ParkFull,
    /// The session didn't come in time.
    Deadline,
    /// This node knows as many sessions as it can.
    TableFull,
    /// This node has no serial left for another session.
    SerialsSpent,
    /// This node has no number left for another want.
    WantsSpent,
    /// The journal file has no room.
    JournalFull,
    /// Memory was refused.
    Memory,
}

impl Cause {
    /// Each of them, once.
    pub const ALL: [Cause; 7] = [
        Cause::ParkFull,
        Cause::Deadline,
        Cause::TableFull,
        Cause::SerialsSpent,
        Cause::WantsSpent,
        Cause::JournalFull,
        Cause::Memory,
    ];

    /// Its name, as the body of the answer has it.
    pub fn name(self) -> &'static str
        ensures { result.now ≡ cause_name self }
    {
        match self {
            Cause::ParkFull => "ParkFull",
            Cause::Deadline => "Deadline",
            Cause::TableFull => "TableFull",
            Cause::SerialsSpent => "SerialsSpent",
            Cause::WantsSpent => "WantsSpent",
            Cause::JournalFull => "JournalFull",
            Cause::Memory => "Memory",
        }
    }
}

/// Why a session wasn't handed to another node.
#[derive(Clone, Copy, Debug, PartialEq, Eq)]
pub enum MoveRefusal {
    /// Refusal 1: this node knows no such session.
    UnknownKey,
    /// Refusal 2: the session isn't active here.
    NotActive,
    /// Refusal 3: there is no such node, or it is this one.
    BadPeer,
    /// Refusal 4: the session has no epoch left.
    EpochsSpent,
}

/// One output of a step, which leaves once the step's record is durable.
#[derive(Drop)]
pub enum Output {
    Answer { token: u64, response: Response },
    Refuse { token: u64, cause: Cause },
    Send(Packet),
    Moved,
    MoveRefused(MoveRefusal),
}

impl Output {
    /// An equal output; the values of a response's fields share their bytes with it.
    pub fn copy(&self, alloc: Global) -> Result<Output, AllocError>
        ensures { IfOk result (λ copy. copy ≡ self.now) }
    {
        let copy = match *self {
            Output::Answer {
                token,
                ref response,
            } => Output::Answer {
                token,
                response: response.copy(alloc)?,
            },
            Output::Refuse { token, cause } => Output::Refuse { token, cause },
            Output::Send(ref packet) => Output::Send(packet.copy(alloc)?),
            Output::Moved => Output::Moved,
            Output::MoveRefused(why) => Output::MoveRefused(why),
        };
        Ok(copy)
    }
}
