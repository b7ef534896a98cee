//! Reads until a message is there.

ghost use Rattle.std.specs.Prelude.{◌≡◌, ◌++◌, ℕ, List, [], Some, true, false, IfSome};
ghost use Rattle.std.specs.Io.KnownBytes.{prepend_known};
ghost use Rattle.sv_message.specs.declared.request.RawRequest.{RawRequest as Raw};
ghost use Rattle.sv_message.specs.Message.{IsMessage};
ghost use Rattle.sv_connection.specs.Connection.{held_by, is_closed, is_leaving, is_single, is_waiting, stand_of};
ghost use Rattle.sv_connection.specs.Receive.{is_request, is_taken};
ghost use Rattle.sv_solo.specs.Reading.{is_asked, Arrives, Ends, Hears};

use std::io::Read;
use sv_connection::{Connection, Received, RequestFault};
use sv_model::Request;

/// The bytes that a read asks for.
const READ_SIZE: usize = 4_096;

/// The reads of one call, at most, whatever the reader gives.
const READ_LIMIT: u32 = 1_048_576;

/// What the reads of one call brought.
#[derive(Drop)]
pub enum Arrived {
    Request(Request),
    Refused {
        fault: RequestFault,
        head_only: bool,
    },
    /// The input has ended with no whole message.
    End,
    /// The reader failed, or the call has made all its reads.
    Broken,
}

/// Takes what stands at the front, if nothing more comes: the connection closes if that is less than a request.
pub fn end(connection: &mut Connection) -> Received
    requires answered { is_waiting connection.old ≡ false }
    ensures single { is_single connection.new ≡ is_single connection.old }
    ensures waiting { is_waiting connection.new ≡ is_request result }
    ensures ended { Ends (is_single connection.old) (stand_of connection.old (Some [])) (stand_of connection.new (Some [])) result }
    ensures asked { (raw : Raw) (text rest : List ℕ) → is_closed connection.old ≡ false → IsMessage text raw → held_by connection.old ++ [] ≡ text ++ rest
        → is_taken result ≡ true → is_leaving connection.new ≡ raw.close }
    ensures none_taken { is_taken result ≡ false → is_leaving connection.new ≡ is_leaving connection.old }
{
    match connection.receive(&[]) {
        Received::More => {
            connection.close();
            Received::Closed
        }
        Received::Closed => Received::Closed,
        Received::Request(request) => Received::Request(request),
        Received::Refused { fault, head_only } => Received::Refused { fault, head_only },
    }
}

/// Reads once, and takes what then stands at the front; none if the reader fails.
fn hear<R: Read>(connection: &mut Connection, reader: &mut R) -> Option<Received>
    requires answered { is_waiting connection.old ≡ false }
    requires was_open { is_closed connection.old ≡ false }
    ensures single { is_single connection.new ≡ is_single connection.old }
    ensures waiting { IfSome result (λ received. is_waiting connection.new ≡ is_request received) }
    ensures heard { Hears (is_single connection.old) (prepend_known (held_by connection.old) (R.remaining reader.old))
        (prepend_known (held_by connection.new) (R.remaining reader.new)) (is_closed connection.new) result }
{
    let mut piece = [0u8; READ_SIZE];
    match reader.read(&mut piece) {
        Ok(0) => Some(end(connection)),
        Ok(count) => Some(connection.receive(&piece[..count])),
        Err(_) => None,
    }
}

/// Reads on until a request or a fault stands at the front, or the input ends; but for a request the connection closes.
fn read_on<R: Read>(connection: &mut Connection, reader: &mut R) -> Arrived
    requires answered { is_waiting connection.old ≡ false }
    requires was_open { is_closed connection.old ≡ false }
    ensures single { is_single connection.new ≡ is_single connection.old }
    ensures waiting { is_waiting connection.new ≡ is_asked result }
    ensures arrived { Arrives (is_single connection.old) (prepend_known (held_by connection.old) (R.remaining reader.old))
        (prepend_known (held_by connection.new) (R.remaining reader.new)) (is_closed connection.new) result }
{
    for _ in 0..READ_LIMIT {
        match hear(connection, reader) {
            Some(Received::Request(request)) => return Arrived::Request(request),
            Some(Received::Refused { fault, head_only }) => {
                return Arrived::Refused { fault, head_only };
            }
            Some(Received::More) => {}
            Some(Received::Closed) => return Arrived::End,
            None => break,
        }
    }
    connection.close();
    Arrived::Broken
}

/// Reads until a request or a fault stands at the front, or the input ends; but for a request the connection closes.
pub fn arrive<R: Read>(connection: &mut Connection, reader: &mut R) -> Arrived
    requires answered { is_waiting connection.old ≡ false }
    requires was_open { is_closed connection.old ≡ false }
    ensures single { is_single connection.new ≡ is_single connection.old }
    ensures waiting { is_waiting connection.new ≡ is_asked result }
    ensures arrived { Arrives (is_single connection.old) (prepend_known (held_by connection.old) (R.remaining reader.old))
        (prepend_known (held_by connection.new) (R.remaining reader.new)) (is_closed connection.new) result }
{
    match connection.receive(&[]) {
        Received::More => read_on(connection, reader),
        Received::Request(request) => Arrived::Request(request),
        Received::Refused { fault, head_only } => Arrived::Refused { fault, head_only },
        Received::Closed => Arrived::End,
    }
}
