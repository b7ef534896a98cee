//! Frames that come on a connection.

ghost use Rattle.std.specs.Prelude.{◌≡◌, ◌++◌, IfOk, OnOk, IfSome};
ghost use Rattle.sv_record.specs.Frame.{IsFrame};
ghost use Rattle.sv_record.specs.Reading.{Gives};
ghost use Rattle.sv_net.specs.Frames.{first_frame, behind_first};

use std::alloc::Global;
use sv_record::{Frame, RecordFault, read_frame};

/// Puts bytes after those that came before, and takes the frame off their front that is then whole; none where it isn't yet.
pub fn take_in(
    alloc: Global,
    bytes: &mut Vec<u8>,
    piece: &[u8],
) -> Result<Option<Frame>, RecordFault>
    // A fault is the first trouble, or memory was refused.
    ensures frame { Gives (λ o. o) result (first_frame (bytes.old.items ++ piece.now)) }
    ensures left { OnOk result (bytes.new.items ≡ behind_first (bytes.old.items ++ piece.now)) }
    ensures within { IfOk result (λ o. IfSome o (λ frame. IsFrame frame)) }
{
    bytes.extend_from_slice(piece)?;
    match read_frame(alloc, bytes.as_slice())? {
        Some((frame, len)) => {
            bytes.drain(..len);
            Ok(Some(frame))
        }
        None => Ok(None),
    }
}
