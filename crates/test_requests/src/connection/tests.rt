//! Calls of a connection with the bytes that they have to write, and readers and writers that fail.

pub(super) mod alone;
mod echo;
mod engines;
pub(super) mod parked;
pub(super) mod received;
mod rows;
mod streams;

use echo::Echo;
use http::StatusCode;
use rows::{ANSWERS, REFUSALS, Row};
use std::alloc::Global;
use std::io::{Read, Write};
use std::process::Abort;
use streams::{Drip, GULP, Sink, new_sink, slow_reader};
use sv_connection::{Connection, Naming, Outcome, RequestFault, refusal_by};
use sv_message::fault::ReadFault;
use sv_model::{Cause, Field, Moment, Response, Secret, Sequence};
use sv_solo::{Served, refusal, serve_next};

/// Sun, 06 Nov 1994 08:49:37 GMT.
const AT: Moment = Moment {
    now: 784_111_777,
    steady: 784_111_777,
    secret: Secret([7; 16]),
};

/// A response with status 200 and no body.
fn bare_answer(alloc: Global, head_only: bool, close: bool) -> Response {
    Response {
        status: StatusCode::OK,
        fields: Sequence::new(alloc),
        body: Sequence::new(alloc),
        head_only,
        close,
    }
}

/// The refusal of a request.
fn refused(rt: &impl Abort, alloc: Global, cause: Cause, head_only: bool, close: bool) -> Response {
    refusal(alloc, cause, head_only, close).expect(rt, "memory")
}

/// The same where the cause is named in a field, too.
fn named(rt: &impl Abort, alloc: Global, cause: Cause, head_only: bool, close: bool) -> Response {
    refusal_by(alloc, Naming::InField, cause, head_only, close).expect(rt, "memory")
}

/// One call, after the answer to a request that waits; with no clause, so that the proof of a test carries none of the
/// connection's facts.
fn serve<R: Read, W: Write>(
    connection: &mut Connection,
    reader: &mut R,
    writer: &mut W,
    site: &mut Echo,
    token: u64,
) -> Served {
    if connection.waiting() {
        let _ = connection.answer(writer, &bare_answer(site.alloc, false, false), AT.now);
    }
    serve_next(site.alloc, connection, reader, writer, site, AT, token)
}

/// How a call ends, and how many outputs it hands out.
fn ended<R: Read, W: Write>(
    connection: &mut Connection,
    reader: &mut R,
    writer: &mut W,
    site: &mut Echo,
    token: u64,
) -> (Outcome, usize) {
    let served = serve(connection, reader, writer, site, token);
    (served.outcome, served.outputs.len())
}

/// Each call ends as the row says, and hands out as many outputs.
fn are_ended<R: Read>(
    row: &Row,
    connection: &mut Connection,
    reader: &mut R,
    writer: &mut Vec<u8>,
    site: &mut Echo,
) -> bool {
    let mut token: u64 = 40;
    for (outcome, outputs) in &row.calls {
        token = token.wrapping_add(1);
        if ended(connection, reader, writer, site, token) != (*outcome, *outputs) {
            return false;
        }
    }
    true
}

/// What is otherwise than a row says: how the calls end, the number of steps, or what is written.
fn difference_from(row: &Row, are_ended: bool, steps: u64, written: &[u8]) -> &'static str {
    if !are_ended {
        "a call ends otherwise"
    } else if steps != row.steps {
        "another number of steps"
    } else if written != row.written.as_bytes() {
        "another text"
    } else {
        ""
    }
}

/// What the calls of a row's connection do otherwise than it says.
fn difference<R: Read>(alloc: Global, row: &Row, reader: &mut R) -> &'static str {
    let mut connection = Connection::new(alloc, row.single);
    let mut site = Echo::new(alloc);
    let mut writer = Vec::new(alloc);
    let are_ended = are_ended(row, &mut connection, reader, &mut writer, &mut site);
    difference_from(row, are_ended, site.steps, writer.as_slice())
}

/// The same, for a reader that gives what is sent at once, or a byte at a time.
fn difference_read(alloc: Global, row: &Row, is_slow: bool) -> &'static str {
    if is_slow {
        difference(alloc, row, &mut slow_reader(row.sent.as_bytes(), 0))
    } else {
        difference(alloc, row, &mut row.sent.as_bytes())
    }
}

/// The same for both readers.
fn difference_of_both(alloc: Global, row: &Row) -> &'static str {
    match difference_read(alloc, row, false) {
        "" => difference_read(alloc, row, true),
        difference => difference,
    }
}

fn expect_rows(rt: &(impl Abort + AllocGlobal), rows: &[Row]) {
    for row in rows {
        let difference = difference_of_both(rt.alloc(), row);
        assert!(rt; difference.is_empty(), "{}: {difference}", row.name);
    }
}

#[test]
fn answers_and_refused_requests(rt: HostRuntime) {
    expect_rows(&rt, &ANSWERS);
    expect_rows(&rt, &REFUSALS);
}

/// How a call ends, and the token, the time and the close that the site is asked with.
fn asked(alloc: Global, single: bool, token: u64) -> (Outcome, u64, u64, bool) {
    let mut connection = Connection::new(alloc, single);
    let mut reader: &[u8] = REQUEST;
    let mut writer = Vec::new(alloc);
    let mut site = Echo::new(alloc);
    let outcome = ended(&mut connection, &mut reader, &mut writer, &mut site, token).0;
    (outcome, site.token, site.now, site.close)
}

pub(super) fn the_site_is_asked_as_the_call_says(alloc: Global) -> bool {
    let (answered, now, last) = (Outcome::Answered, AT.now, u64::MAX);
    asked(alloc, false, 0) == (answered, 0, now, false)
        && asked(alloc, true, last) == (answered, last, now, true)
}

/// How two calls of a connection end that closes after the first, with the reads up to each; and how many bytes a read asks for.
fn closed(alloc: Global) -> ((Outcome, usize), (Outcome, usize), usize) {
    let mut connection = Connection::new(alloc, true);
    let mut reader = slow_reader(b"GET /a HTTP/1.1\r\nHost: h\r\n\r\nGET /b", 0);
    let mut writer = new_sink(alloc, 0);
    let mut site = Echo::new(alloc);
    let first = ended(&mut connection, &mut reader, &mut writer, &mut site, 1).0;
    let reads = reader.calls;
    let next = ended(&mut connection, &mut reader, &mut writer, &mut site, 1).0;
    ((first, reads), (next, reader.calls), reader.asked)
}

/// A closed connection reads nothing more.
pub(super) fn what_follows_a_close_is_not_read(alloc: Global) -> bool {
    let reads = REQUEST.len();
    let want = ((Outcome::Answered, reads), (Outcome::Closed, reads), 4_096);
    closed(alloc) == want
}

/// How one call ends, and where it doesn't answer, the next one; what was done meanwhile.
#[derive(Clone, Copy, PartialEq, Eq)]
struct Ran {
    first: Outcome,
    /// How many outputs the first one hands out.
    outputs: usize,
    next: Option<Outcome>,
    steps: u64,
    reads: usize,
    writes: usize,
    /// So many bytes of the answer were written, and no others.
    written: Option<usize>,
}

/// The answer that is wanted where nothing fails.
const ANSWER: &str =
    "HTTP/1.1 200 OK\r\nDate: Sun, 06 Nov 1994 08:49:37 GMT\r\nContent-Length: 2\r\n\r\n/a";

/// So many calls of a [`Sink`] take the answer's 77 bytes, and one more is the flush.
const WRITES: usize = 11;

/// How many bytes these are of the front of the answer.
fn front_of_answer(held: &[u8]) -> Option<usize> {
    if ANSWER.as_bytes().starts_with(held) {
        Some(held.len())
    } else {
        None
    }
}

/// The call after one that didn't answer.
fn ended_next(
    connection: &mut Connection,
    reader: &mut Drip<'_>,
    writer: &mut Sink,
    site: &mut Echo,
    first: Outcome,
) -> Option<Outcome> {
    if first == Outcome::Answered {
        return None;
    }
    Some(ended(connection, reader, writer, site, 2).0)
}

/// Requests that are read byte by byte, with a read and a write that fail.
fn run(alloc: Global, sent: &[u8], read_fails: usize, write_fails: usize) -> Ran {
    let mut connection = Connection::new(alloc, false);
    let mut reader = slow_reader(sent, read_fails);
    let mut writer = new_sink(alloc, write_fails);
    let mut site = Echo::new(alloc);
    let (first, outputs) = ended(&mut connection, &mut reader, &mut writer, &mut site, 1);
    let next = ended_next(&mut connection, &mut reader, &mut writer, &mut site, first);
    Ran {
        first,
        outputs,
        next,
        steps: site.steps,
        reads: reader.calls,
        writes: writer.calls,
        written: front_of_answer(&writer.held),
    }
}

const REQUEST: &[u8] = b"GET /a HTTP/1.1\r\nHost: h\r\n\r\n";

/// What comes where nothing fails.
fn answered() -> Ran {
    Ran {
        first: Outcome::Answered,
        outputs: 1,
        next: None,
        steps: 1,
        reads: REQUEST.len(),
        writes: WRITES + 1,
        written: Some(ANSWER.len()),
    }
}

/// What comes where a read fails.
fn unread(fails_at: usize) -> Ran {
    Ran {
        first: Outcome::ReadFailed,
        outputs: 0,
        next: Some(Outcome::Closed),
        steps: 0,
        reads: fails_at,
        writes: 0,
        written: Some(0),
    }
}

/// What comes where a write fails, or the flush: before it each has taken its piece of the answer.
fn unwritten(fails_at: usize) -> Ran {
    let pieces = fails_at.saturating_sub(1).saturating_mul(GULP);
    Ran {
        first: Outcome::WriteFailed,
        next: Some(Outcome::Closed),
        writes: fails_at,
        written: Some(ANSWER.len().min(pieces)),
        ..answered()
    }
}

/// Each read of a request fails in turn; with none failing the request is answered.
pub(super) fn a_reader_that_fails(alloc: Global, input: usize) -> bool {
    let fails_at = input.saturating_add(1);
    let want = if fails_at <= REQUEST.len() {
        unread(fails_at)
    } else {
        answered()
    };
    run(alloc, REQUEST, fails_at, 0) == want
}

/// Each write of an answer fails in turn, and the flush; what was written before is a piece of the answer. A request that follows
/// isn't read.
pub(super) fn a_writer_that_fails(alloc: Global, input: usize) -> bool {
    let sent = b"GET /a HTTP/1.1\r\nHost: h\r\n\r\nGET /b HTTP/1.1\r\nHost: h\r\n\r\n";
    let fails_at = input.saturating_add(1);
    let want = if fails_at <= WRITES + 1 {
        unwritten(fails_at)
    } else {
        answered()
    };
    run(alloc, sent, 0, fails_at) == want
}

const TOO_LONG: &str =
    "HTTP/1.1 431 Request Header Fields Too Large\r\nDate: Sun, 06 Nov 1994 08:49:37 GMT\r\ncontent-type: text/plain\r\nContent-Length: 36\r\nConnection: close\r\n\r\n431 Request Header Fields Too Large\n";

/// How a call ends whose reader begins again at a place after its last byte: after how many reads, how many steps, and whether just
/// this is written.
fn run_endless(
    alloc: Global,
    sent: &[u8],
    again_at: usize,
    written: &str,
) -> (Outcome, usize, u64, bool) {
    let mut connection = Connection::new(alloc, false);
    let mut reader = slow_reader(sent, 0);
    reader.again_at = Some(again_at);
    let mut writer = Vec::new(alloc);
    let mut site = Echo::new(alloc);
    let outcome = ended(&mut connection, &mut reader, &mut writer, &mut site, 1).0;
    let is_written = writer.as_slice() == written.as_bytes();
    (outcome, reader.calls, site.steps, is_written)
}

/// A reader that never ends a head, a byte a read: 8,192 of them are too long for one.
pub(super) fn a_reader_that_never_ends_a_head(alloc: Global) -> bool {
    let too_long = Outcome::Refused(RequestFault::Read(ReadFault::HeadTooLong));
    run_endless(alloc, b"a", 0, TOO_LONG) == (too_long, 8_192, 0, true)
}

/// The head of a body in chunks, of 57 bytes, and a chunk of one byte after a line of 67.
static CHUNKS: &[u8] =
    b"POST /a HTTP/1.1\r\nHost: h\r\nTransfer-Encoding: chunked\r\n\r\n1;aaaaaaaaaaaaaaaaaaaaaaaaaaaaaaaaaaaaaaaaaaaaaaaaaaaaaaaaaaaaaaa\r\nx\r\n";

/// A reader that never ends a body, a byte a read: 65,536 chunks of 70 bytes would be 4,587,520 of them, and the call ends at
/// 1,048,576.
pub(super) fn a_reader_that_never_ends_a_body(alloc: Global) -> bool {
    run_endless(alloc, CHUNKS, 57, "") == (Outcome::ReadFailed, 1_048_576, 0, true)
}

static CAUSES: [(Cause, &str); 7] = [
    (Cause::ParkFull, "503 ParkFull\n"),
    (Cause::Deadline, "503 Deadline\n"),
    (Cause::TableFull, "503 TableFull\n"),
    (Cause::SerialsSpent, "503 SerialsSpent\n"),
    (Cause::WantsSpent, "503 WantsSpent\n"),
    (Cause::JournalFull, "503 JournalFull\n"),
    (Cause::Memory, "503 Memory\n"),
];

/// A field has this name and this value.
fn is_field(field: &Field, name: &str, value: &[u8]) -> bool {
    field.name.as_str() == name && field.value.as_bytes() == value
}

/// The field of a type.
fn is_its_type(field: &Field) -> bool {
    is_field(field, "content-type", b"text/plain")
}

/// The fields of a refusal are its type alone.
fn has_its_type(response: &Response) -> bool {
    match response.fields.as_slice() {
        [field] => is_its_type(field),
        _ => false,
    }
}

/// The cause in a refusal's body: between its status and the end of the line.
fn cause_in(text: &str) -> &[u8] {
    text.trim_start_matches("503 ").trim_end().as_bytes()
}

/// The fields of a refusal are its type and its cause.
fn has_its_cause(response: &Response, text: &str) -> bool {
    match response.fields.as_slice() {
        [first, second] => {
            is_its_type(first) && is_field(second, "kegbramble-cause", cause_in(text))
        }
        _ => false,
    }
}

/// A refusal by a cause has this body, and is for a HEAD and closes as it was asked for.
fn is_refusal(response: &Response, text: &str, head_only: bool, close: bool) -> bool {
    response.status == StatusCode::SERVICE_UNAVAILABLE
        && response.body.as_slice() == text.as_bytes()
        && response.head_only == head_only
        && response.close == close
}

fn is_refused(
    rt: &impl Abort,
    alloc: Global,
    row: &(Cause, &str),
    head_only: bool,
    close: bool,
) -> bool {
    let response = refused(rt, alloc, row.0, head_only, close);
    let named = named(rt, alloc, row.0, head_only, close);
    is_refusal(&response, row.1, head_only, close)
        && has_its_type(&response)
        && is_refusal(&named, row.1, head_only, close)
        && has_its_cause(&named, row.1)
}

pub(super) fn refusals(rt: &impl Abort, alloc: Global, input: usize) -> bool {
    match CAUSES.get(input) {
        Some(row) => is_refused(rt, alloc, row, false, true)
            && is_refused(rt, alloc, row, true, false),
        None => false,
    }
}
