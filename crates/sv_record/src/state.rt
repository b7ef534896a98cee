//! What a node keeps of a key.

ghost use Rattle.std.specs.Prelude.{◌≡◌, ◌++◌, length, take, OnOk, OnErr};
ghost use Rattle.sv_model.specs.Ranges.{IsState};
ghost use Rattle.sv_record.specs.Reading.{Gives};
ghost use Rattle.sv_record.specs.Record.{key_state};
ghost use Rattle.sv_record.specs.declared.version.Version.TheVariants.{Two};

use crate::fault::RecordFault;
use crate::number::{read_byte, read_counting, read_node, write_byte, write_counting, write_node};
use crate::session::{read_session, write_session};
use crate::version::Version;
use std::alloc::{AllocError, Global};
use sv_model::KeyState;

#[tactic(auto, unfolding(crate::specs::Record::key_state))]
pub(crate) fn read_state(
    alloc: Global,
    version: Version,
    bytes: &[u8],
) -> Result<(KeyState, &[u8]), RecordFault>
    ensures { Gives (λ x. (x.0, x.1.now)) result ((key_state version).read bytes.now) }
{
    let (kind, rest) = read_byte(bytes)?;
    match kind {
        1 => {
            let (epoch, rest) = read_counting(rest)?;
            let (session, rest) = read_session(alloc, version, rest)?;
            Ok((KeyState::Active { epoch, session }, rest))
        }
        2 => {
            let (epoch, rest) = read_counting(rest)?;
            let (to, rest) = read_node(rest)?;
            let (session, rest) = read_session(alloc, version, rest)?;
            Ok((KeyState::Sent { epoch, session, to }, rest))
        }
        3 => {
            let (epoch, rest) = read_counting(rest)?;
            Ok((KeyState::Gone { epoch }, rest))
        }
        4 => {
            let (epoch, rest) = read_counting(rest)?;
            Ok((KeyState::Ended { epoch }, rest))
        }
        _ => Err(RecordFault::BadField),
    }
}

#[tactic(auto, unfolding(crate::specs::Record::key_state))]
pub(crate) fn write_state(state: &KeyState, out: &mut Vec<u8>) -> Result<(), AllocError>
    requires { IsState state.now }
    ensures ok { OnOk result (out.new.items ≡ out.old.items ++ (key_state Two).text state.now) }
    ensures err { OnErr result (take (length out.old.items) out.new.items ≡ out.old.items) }
    ensures fits { OnOk result ((key_state Two).Fits state.now) }
{
    match state {
        KeyState::Active { epoch, session } => {
            write_byte(1, out)?;
            write_counting(*epoch, out)?;
            write_session(session, out)
        }
        KeyState::Sent { epoch, session, to } => {
            write_byte(2, out)?;
            write_counting(*epoch, out)?;
            write_node(*to, out)?;
            write_session(session, out)
        }
        KeyState::Gone { epoch } => {
            write_byte(3, out)?;
            write_counting(*epoch, out)
        }
        KeyState::Ended { epoch } => {
            write_byte(4, out)?;
            write_counting(*epoch, out)
        }
    }
}
