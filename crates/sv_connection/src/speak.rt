//! Writes responses, and what stands in their place where memory is refused.

ghost use Rattle.std.specs.Prelude.{◌≡◌, true, false, [], IfSome, IfNone};
ghost use Rattle.std.specs.Io.KnownBytes.{Appends};
ghost use Rattle.sv_model.specs.Page.{plain_page};
ghost use Rattle.sv_connection.specs.Speak.{AppendsFront, AppendsPart, IsWritten, IsSaid, IsStarved};
ghost use Rattle.sv_connection.specs.Speak.{IsPage, memory_lines, status_of, status_of_read, status_of_target};

use crate::outcome::{Outcome, RequestFault};
use http::StatusCode;
use std::alloc::Global;
use std::io::{ErrorKind, Write};
use sv_message::fault::ReadFault;
use sv_message::response::write_response;
use sv_model::{Response, Sequence, plain_page};
use sv_target::TargetFault;

/// How a text was sent, and whether the connection is closed after it.
#[derive(Clone, Copy, Debug, PartialEq, Eq)]
pub struct Said {
    pub outcome: Outcome,
    pub closed: bool,
}

/// What is written where memory is refused in reading a request or in making a text.
#[tactic(auto, unfolding(crate::specs::Speak::memory_lines))]
pub fn memory_lines() -> &'static [u8]
    ensures { result.now ≡ memory_lines }
{
    b"HTTP/1.1 503 Service Unavailable\r\nContent-Length: 0\r\nConnection: close\r\n\r\n"
}

/// Writes what the writer takes of a text at once, and gives what is left; none where it takes no more.
fn write_part<'a, W: Write>(writer: &mut W, text: &'a [u8]) -> Option<&'a [u8]>
    ensures left { IfSome result (λ rest. AppendsPart (W.contents writer.old) (W.contents writer.new) text.now rest.now) }
    ensures stuck { IfNone result (AppendsPart (W.contents writer.old) (W.contents writer.new) text.now text.now) }
{
    match writer.write(text) {
        Ok(0) => None,
        Ok(count) => Some(&text[count..]),
        Err(fault) => {
            if fault.kind() == ErrorKind::Interrupted {
                Some(text)
            } else {
                None
            }
        }
    }
}

/// Writes a text whole. Where the writer takes no more, what it took is the front of the text, which `write_all` doesn't say.
fn write_whole<W: Write>(writer: &mut W, text: &[u8]) -> bool
    ensures whole { result ≡ true → Appends (W.contents writer.old) (W.contents writer.new) text.now }
    ensures part { result ≡ false → AppendsFront (W.contents writer.old) (W.contents writer.new) text.now }
{
    let mut rest = text;
    for _ in 0..u64::MAX {
        if rest.is_empty() {
            return true;
        }
        match write_part(writer, rest) {
            Some(left) => rest = left,
            None => return false,
        }
    }
    false
}

/// Writes a text whole, and flushes it.
fn write_text<W: Write>(writer: &mut W, text: &[u8]) -> bool
    ensures whole { result ≡ true → Appends (W.contents writer.old) (W.contents writer.new) text.now }
    ensures part { result ≡ false → AppendsFront (W.contents writer.old) (W.contents writer.new) text.now }
{
    write_whole(writer, text) && writer.flush().is_ok()
}

/// Sends a text, with the outcome where that is done.
fn send<W: Write>(writer: &mut W, text: &[u8], done: Outcome, closes: bool) -> Said
    ensures { IsWritten text.now done closes (W.contents writer.old) (W.contents writer.new) result.closed result.outcome }
{
    if write_text(writer, text) {
        Said {
            outcome: done,
            closed: closes,
        }
    } else {
        Said {
            outcome: Outcome::WriteFailed,
            closed: true,
        }
    }
}

/// Says that memory was refused.
pub fn starve<W: Write>(writer: &mut W) -> Said
    ensures { IsStarved (W.contents writer.old) (W.contents writer.new) result.closed result.outcome }
{
    send(
        writer,
        memory_lines(),
        Outcome::Refused(RequestFault::Read(ReadFault::Memory)),
        true,
    )
}

/// Sends a response by way of a buffer, with the outcome where that is done.
pub fn say<W: Write>(
    alloc: Global,
    buffer: &mut Vec<u8>,
    writer: &mut W,
    response: &Response,
    now: u64,
    done: Outcome,
) -> Said
    ensures { IsSaid response.now now done (W.contents writer.old) (W.contents writer.new) result.closed result.outcome }
{
    buffer.clear();
    match write_response(alloc, response, now, buffer) {
        Ok(()) => send(writer, buffer.as_slice(), done, response.close),
        Err(_) => starve(writer),
    }
}

/// The status of the page of a message's fault; none where no page is made.
fn status_of_read(fault: ReadFault) -> Option<StatusCode>
    ensures { result ≡ status_of_read fault }
{
    match fault {
        ReadFault::BadHead | ReadFault::BadHost | ReadFault::BadFraming => {
            Some(StatusCode::BAD_REQUEST)
        }
        ReadFault::HeadTooLong => Some(StatusCode::REQUEST_HEADER_FIELDS_TOO_LARGE),
        ReadFault::BodyTooLong => Some(StatusCode::PAYLOAD_TOO_LARGE),
        ReadFault::Coding => Some(StatusCode::NOT_IMPLEMENTED),
        ReadFault::Expectation => Some(StatusCode::EXPECTATION_FAILED),
        ReadFault::Memory | ReadFault::Closed => None,
    }
}

/// The status of the page of a target's fault; none where no page is made.
fn status_of_target(fault: TargetFault) -> Option<StatusCode>
    ensures { result ≡ status_of_target fault }
{
    match fault {
        TargetFault::Connect => Some(StatusCode::NOT_IMPLEMENTED),
        TargetFault::BadTarget => Some(StatusCode::BAD_REQUEST),
        TargetFault::Memory => None,
    }
}

/// Sends the plain page of a status, after which the connection closes.
fn say_page<W: Write>(
    alloc: Global,
    buffer: &mut Vec<u8>,
    writer: &mut W,
    status: StatusCode,
    head_only: bool,
    now: u64,
    done: Outcome,
) -> Said
    ensures { IsSaid (plain_page status [] head_only true) now done (W.contents writer.old) (W.contents writer.new) result.closed result.outcome }
{
    match plain_page(alloc, status, Sequence::new(alloc), head_only, true) {
        Ok(page) => say(alloc, buffer, writer, &page, now, done),
        Err(_) => starve(writer),
    }
}

/// The status of the page of a fault; none where no page is made.
fn status_of(fault: RequestFault) -> Option<StatusCode>
    ensures { result ≡ status_of fault }
{
    match fault {
        RequestFault::Read(fault) => status_of_read(fault),
        RequestFault::Target(fault) => status_of_target(fault),
    }
}

/// Sends the page of a fault, without its body where that is not wanted.
pub fn say_fault<W: Write>(
    alloc: Global,
    buffer: &mut Vec<u8>,
    writer: &mut W,
    fault: RequestFault,
    head_only: bool,
    now: u64,
) -> Said
    ensures { IsPage (status_of fault) head_only now fault (W.contents writer.old) (W.contents writer.new) result.closed result.outcome }
{
    let done = Outcome::Refused(fault);
    match status_of(fault) {
        Some(status) => say_page(alloc, buffer, writer, status, head_only, now, done),
        None => starve(writer),
    }
}
