//! Takes requests out of the bytes that come, and writes their answers.

ghost use Rattle.std.specs.Prelude.{◌≡◌, true};

use crate::arrive::take_in;
use crate::outcome::{Outcome, RequestFault};
use crate::received::Received;
use crate::request::{read_request, request_of};
use crate::speak::{say, say_fault};
use std::alloc::Global;
use std::io::Write;
use sv_message::reader::RequestReader;
use sv_message::request::RawRequest;
use sv_model::{Response, is_head};

/// In bytes: a buffer that is no larger stays while a client is silent. So most requests and answers take no memory anew, and a
/// silent client keeps little.
const KEPT: usize = 4_096;

/// One connection of a client (RFC 9112, section 9), with the bytes that were read and not yet served.
pub struct Connection {
    requests: RequestReader,
    /// Holds the text of a response while it is written, and keeps its room for the next.
    buffer: Vec<u8>,
    single: bool,
    closed: bool,
    /// Its request was parked, and is not yet answered.
    waiting: bool,
    /// The client asked for the close with the request that was taken last.
    leaving: bool,
    alloc: Global,
    ghost shut: { requests.closed ≡ true → closed ≡ true },
}

/// By hand, so that the proof of a caller has one step for it and not one for each state of its reader.
impl Drop for Connection {
    fn drop(self) {
        let Connection {
            requests: _,
            buffer: _,
            single: _,
            closed: _,
            waiting: _,
            leaving: _,
            alloc: _,
        } = self;
    }
}

impl Connection {
    ghost use Rattle.std.specs.Prelude.{◌≡◌, ◌==◌, ◌++◌, ℕ, List, true, false, [], Some, length};
    ghost use Rattle.sv_message.specs.declared.request.RawRequest.{RawRequest as Raw};
    ghost use Rattle.sv_connection.specs.Receive.{IsDirected, IsFound, Receives, is_request, is_taken};
    ghost use Rattle.sv_message.specs.Message.{IsMessage};
    ghost use Rattle.sv_connection.specs.Speak.{IsLateAnswer, IsPage, status_of};
    ghost use Rattle.sv_connection.specs.Connection.{IsFresh, held_by, is_closed, is_leaving, is_single, is_waiting, stand_of};

    /// A connection that has read nothing; `single` has it close after its first answer.
    pub fn new(alloc: Global, single: bool) -> Connection
        ensures { IsFresh result single }
    {
        Connection {
            requests: RequestReader::new(alloc),
            buffer: Vec::new(alloc),
            single,
            closed: false,
            waiting: false,
            leaving: false,
            alloc,
        }
    }

    /// Reads the target and the cookies of a request that was taken.
    fn direct(&mut self, raw: RawRequest) -> Received
        requires not_spent { self.old.requests.closed ≡ false }
        requires was_open { self.old.closed ≡ false }
        ensures requests { self.new.requests ≡ self.old.requests }
        ensures single { self.new.single ≡ self.old.single }
        ensures directed { IsDirected self.old.single raw self.new.closed result }
        ensures asked { self.new.leaving ≡ raw.close }
        ensures taken { is_taken result ≡ true }
    {
        self.leaving = raw.close;
        match read_request(self.alloc, &raw) {
            Ok(read) => Received::Request(request_of(raw, read, self.single)),
            Err(fault) => {
                self.closed = true;
                Received::Refused {
                    fault: RequestFault::Target(fault),
                    head_only: is_head(&raw.method),
                }
            }
        }
    }

    /// What stands at the front, with this after what has come, but for what waits after it.
    fn look(&mut self, piece: &[u8]) -> Received
        ensures single { is_single self.new ≡ is_single self.old }
        ensures once_closed { is_closed self.old ≡ true → held_by self.new ≡ held_by self.old }
        ensures received { Receives (is_single self.old) (stand_of self.old (Some piece.now)) (stand_of self.new (Some [])) result }
        ensures found { (raw : Raw) (text rest : List ℕ) → is_closed self.old ≡ false → IsMessage text raw → held_by self.old ++ piece.now ≡ text ++ rest
            → IsFound (is_single self.old) raw result }
        ensures asked { (raw : Raw) (text rest : List ℕ) → is_closed self.old ≡ false → IsMessage text raw → held_by self.old ++ piece.now ≡ text ++ rest
            → is_taken result ≡ true → is_leaving self.new ≡ raw.close }
        ensures none_taken { is_taken result ≡ false → is_leaving self.new ≡ is_leaving self.old }
    {
        if self.closed {
            return Received::Closed;
        }
        match take_in(&mut self.requests, piece) {
            Ok(None) => Received::More,
            Ok(Some(raw)) => self.direct(raw),
            Err(fault) => {
                self.closed = true;
                Received::Refused {
                    fault: RequestFault::Read(fault),
                    head_only: false,
                }
            }
        }
    }

    /// Puts bytes that have come after those that it holds, and takes the request that then stands at the front; where a fault
    /// stands there, the connection closes, and where there is less than a request, all is kept. It never waits, and asks and
    /// writes nothing: a request is to be asked, and answered by `answer`, and the page of a fault is written by `refuse`. Not
    /// called while an earlier request waits.
    ///
    /// Where bytes after a request came along, a call with no bytes takes the next.
    pub fn receive(&mut self, piece: &[u8]) -> Received
        requires answered { is_waiting self.old ≡ false }
        ensures single { is_single self.new ≡ is_single self.old }
        ensures waiting { is_waiting self.new ≡ is_request result }
        ensures once_closed { is_closed self.old ≡ true → held_by self.new ≡ held_by self.old }
        ensures received { Receives (is_single self.old) (stand_of self.old (Some piece.now)) (stand_of self.new (Some [])) result }
        ensures found { (raw : Raw) (text rest : List ℕ) → is_closed self.old ≡ false → IsMessage text raw → held_by self.old ++ piece.now ≡ text ++ rest
            → IsFound (is_single self.old) raw result }
        ensures asked { (raw : Raw) (text rest : List ℕ) → is_closed self.old ≡ false → IsMessage text raw → held_by self.old ++ piece.now ≡ text ++ rest
            → is_taken result ≡ true → is_leaving self.new ≡ raw.close }
        ensures none_taken { is_taken result ≡ false → is_leaving self.new ≡ is_leaving self.old }
    {
        let received = self.look(piece);
        self.waiting = received.is_request();
        received
    }

    /// Writes the page of a fault, without its body where that is not wanted; `now` is in whole seconds since 1970. The
    /// connection is closed.
    ///
    /// Where memory was refused, the lines that say so are written in its place.
    pub fn refuse<W: Write>(
        &mut self,
        writer: &mut W,
        fault: RequestFault,
        head_only: bool,
        now: u64,
    ) -> Outcome
        ensures single { is_single self.new ≡ is_single self.old }
        ensures waiting { is_waiting self.new ≡ is_waiting self.old }
        ensures held { held_by self.new ≡ held_by self.old }
        ensures leaving { is_leaving self.new ≡ is_leaving self.old }
        ensures closed { is_closed self.new ≡ true }
        ensures page { IsPage (status_of fault) head_only now fault (W.contents writer.old) (W.contents writer.new) true result }
    {
        let page = say_fault(self.alloc, &mut self.buffer, writer, fault, head_only, now);
        self.closed = true;
        page.outcome
    }

    /// Nothing is read or served any more.
    pub fn closed(&self) -> bool
        ensures { result ≡ is_closed self.now }
    {
        self.closed
    }

    /// Its request was parked, and is not yet answered.
    pub fn waiting(&self) -> bool
        ensures { result ≡ is_waiting self.now }
    {
        self.waiting
    }

    /// The client asked for the close with the request that was taken last, and so sends no more (RFC 9112, section 9.6).
    pub fn leaving(&self) -> bool
        ensures { result ≡ is_leaving self.now }
    {
        self.leaving
    }

    /// It holds nothing that was read and not yet served: its client has sent nothing of a next request.
    pub fn is_empty(&self) -> bool
        ensures { result ≡ (length (held_by self.now) == 0) }
    {
        self.requests.is_empty()
    }

    /// Gives back the memory that a large request and its answer have taken, once nothing is left of them.
    pub fn give_back(&mut self)
        ensures single { is_single self.new ≡ is_single self.old }
        ensures held { held_by self.new ≡ held_by self.old }
        ensures closed { is_closed self.new ≡ is_closed self.old }
        ensures waiting { is_waiting self.new ≡ is_waiting self.old }
        ensures leaving { is_leaving self.new ≡ is_leaving self.old }
    {
        self.requests.give_back(KEPT);
        if self.buffer.capacity() > KEPT {
            self.buffer = Vec::new(self.alloc);
        }
    }

    /// Has it close after its next answer.
    pub fn become_single(&mut self)
        ensures single { is_single self.new ≡ true }
        ensures held { held_by self.new ≡ held_by self.old }
        ensures closed { is_closed self.new ≡ is_closed self.old }
        ensures waiting { is_waiting self.new ≡ is_waiting self.old }
        ensures leaving { is_leaving self.new ≡ is_leaving self.old }
    {
        self.single = true;
    }

    /// Nothing is read, served or answered any more.
    pub fn close(&mut self)
        ensures single { is_single self.new ≡ is_single self.old }
        ensures held { held_by self.new ≡ held_by self.old }
        ensures closed { is_closed self.new ≡ true }
        ensures waiting { is_waiting self.new ≡ false }
        ensures leaving { is_leaving self.new ≡ is_leaving self.old }
    {
        self.closed = true;
        self.waiting = false;
    }

    /// Writes the response to a request that was parked; `now` is in whole seconds since 1970.
    ///
    /// Where memory is refused in making its text, the lines that say so are written in its place, and the outcome is
    /// `Refused` with `Memory`. The connection closes where the response says so, and after every outcome but
    /// `Answered`.
    pub fn answer<W: Write>(&mut self, writer: &mut W, response: &Response, now: u64) -> Outcome
        ensures single { is_single self.new ≡ is_single self.old }
        ensures waiting { is_waiting self.new ≡ false }
        ensures held { held_by self.new ≡ held_by self.old }
        ensures leaving { is_leaving self.new ≡ is_leaving self.old }
        ensures answered { IsLateAnswer response.now now (is_closed self.old) (W.contents writer.old) (W.contents writer.new) (is_closed self.new) result }
    {
        let said = say(
            self.alloc,
            &mut self.buffer,
            writer,
            response,
            now,
            Outcome::Answered,
        );
        self.closed = self.closed || said.closed;
        self.waiting = false;
        said.outcome
    }
}
