//! A connection that serves, answers and refuses, over a node alone. What is written where memory is refused is written here by
//! hand: four lines, or the page of a step's cause.

use crate::again::{Refusals, Unshown, again, done};
use crate::{given, shown};
use std::alloc::{AllocError, Global};
use sv_connection::{Connection, Outcome, RequestFault};
use sv_message::fault::ReadFault;
use sv_model::{Cause, Input, Moment, Response, Site, StepFault};
use sv_solo::{Solo, refusal};
use test_engine::{Counter, output_text, request};

type Shown = Result<String, Unshown>;

/// 1,000 seconds after the beginning of 1970.
const MOMENT: Moment = Moment {
    now: given::NOW,
    steady: given::NOW,
    secret: given::SECRET,
};

/// What is written where there is no memory for a request or for an answer's text.
const STARVED: &str =
    "HTTP/1.1 503 Service Unavailable\r\nContent-Length: 0\r\nConnection: close\r\n\r\n";

/// What is written where the step is refused for want of memory.
const REFUSED: &str =
    "HTTP/1.1 503 Service Unavailable\r\nDate: Thu, 01 Jan 1970 00:16:40 GMT\r\ncontent-type: text/plain\r\nContent-Length: 11\r\n\r\n503 Memory\n";

/// A request in chunks.
const SENT: &str =
    "POST /a/b%20c?q=1 HTTP/1.1\r\nHost: h\r\nCookie: a=1\r\nTransfer-Encoding: chunked\r\n\r\n3\r\nabc\r\n0\r\n\r\n";

fn solo(alloc: Global) -> Solo<Counter> {
    let engine = Counter {
        alloc,
        secret: given::SECRET,
    };
    Solo::new(alloc, engine)
}

/// One request on a connection of its own, with a writer that has room for its answer: its outcome, and what is written.
fn serve(
    alloc: Global,
    site: &mut Solo<Counter>,
    token: u64,
) -> Result<(Outcome, Vec<u8>), AllocError> {
    let mut connection = Connection::new(alloc, false);
    let mut reader = SENT.as_bytes();
    let mut writer = Vec::with_capacity(alloc, 1_000)?;
    let served = sv_solo::serve_next(
        alloc,
        &mut connection,
        &mut reader,
        &mut writer,
        site,
        MOMENT,
        token,
    );
    Ok((served.outcome, writer))
}

/// An outcome whose text says that memory was refused.
fn is_refusal(outcome: Outcome, written: &[u8]) -> bool {
    match outcome {
        Outcome::Refused(RequestFault::Read(ReadFault::Memory)) => written == STARVED.as_bytes(),
        Outcome::Answered => written == REFUSED.as_bytes(),
        _ => false,
    }
}

fn told(alloc: Global, outcome: Outcome, written: &[u8]) -> Shown {
    let text = str::from_utf8(written).unwrap_or("?");
    done(format!(in alloc; "{outcome:?} {text}"))
}

pub fn serve_next(alloc: Global, refusals: &mut Refusals) -> Shown {
    let mut site = solo(alloc);
    let (outcome, written) = serve(alloc, &mut site, 1)?;
    if !is_refusal(outcome, &written) {
        return told(alloc, outcome, &written);
    }
    refusals.add();
    let (outcome, written) = serve(alloc, &mut site, 2)?;
    told(alloc, outcome, &written)
}

/// A response on a connection of its own: its outcome; what is written takes the place of what was.
fn answer_once(alloc: Global, response: &Response, writer: &mut Vec<u8>) -> Outcome {
    let mut connection = Connection::new(alloc, false);
    writer.clear();
    connection.answer(writer, response, given::NOW)
}

/// The same, once more where memory is refused to it.
fn answer_by(
    alloc: Global,
    refusals: &mut Refusals,
    response: &Response,
    writer: &mut Vec<u8>,
) -> Outcome {
    let outcome = answer_once(alloc, response, writer);
    if !is_refusal(outcome, writer) {
        return outcome;
    }
    refusals.add();
    answer_once(alloc, response, writer)
}

pub fn answer(alloc: Global, refusals: &mut Refusals) -> Shown {
    let response = given::response(alloc)?;
    let mut writer = Vec::with_capacity(alloc, 1_000)?;
    let outcome = answer_by(alloc, refusals, &response, &mut writer);
    told(alloc, outcome, &writer)
}

pub fn refused(alloc: Global, refusals: &mut Refusals) -> Shown {
    let response = again!(refusals, refusal(alloc, Cause::Deadline, false, true))?;
    done(shown::response(alloc, &response))
}

/// A step of a node alone; what it puts out.
fn step(alloc: Global, site: &mut Solo<Counter>) -> Result<String, AllocError> {
    let request = request(alloc, &[])?;
    match site.step(MOMENT, Input::Ask { token: 1, request }) {
        Ok(outputs) => match outputs.as_slice() {
            [output] => output_text(alloc, output),
            _ => String::from_str(alloc, "other outputs"),
        },
        Err(StepFault::Memory) => Err(AllocError),
        Err(_) => String::from_str(alloc, "another fault"),
    }
}

pub fn solo_step(alloc: Global, refusals: &mut Refusals) -> Shown {
    let mut site = solo(alloc);
    again!(refusals, step(alloc, &mut site))
}
