//! Takes in the bytes that have come.

ghost use Rattle.std.specs.Prelude.{◌≡◌, ◌++◌, false, List, ℕ};
ghost use Rattle.sv_message.specs.declared.request.RawRequest.{RawRequest as Raw};
ghost use Rattle.sv_message.specs.Message.{IsMessage};
ghost use Rattle.sv_message.specs.Reader.{Gives};
ghost use Rattle.sv_connection.specs.Arrive.{Brings};

use sv_message::fault::ReadFault;
use sv_message::reader::RequestReader;
use sv_message::request::RawRequest;

/// Puts bytes after those that were read, and takes the message that then stands at the front; none where it isn't whole yet.
pub fn take_in(requests: &mut RequestReader, piece: &[u8]) -> Result<Option<RawRequest>, ReadFault>
    requires { requests.old.closed ≡ false }
    ensures brings { Brings requests.old piece.now result requests.new }
    ensures found { (raw : Raw) (text rest : List ℕ) → IsMessage text raw → requests.old.rest ++ piece.now ≡ text ++ rest → Gives raw result }
{
    match requests.feed(piece) {
        Ok(()) => requests.next(),
        Err(_) => Err(ReadFault::Memory),
    }
}
