//! Requests that are answered later.
//!
//! The texts are written out from RFC 9112 (sections 4 and 6) and RFC 9110 (sections 9.3.2 and 15.6.4).

use super::echo::Echo;
use super::streams::new_sink;
use super::{AT, ended, refused};
use std::alloc::Global;
use std::process::Abort;
use sv_connection::{Connection, Outcome};
use sv_model::{Cause, Response};

/// A method, whether its answer leaves out its body, and the text of that answer.
type Row = (&'static str, bool, &'static str);

static ROWS: [Row; 2] = [
    (
        "GET",
        false,
        "HTTP/1.1 503 Service Unavailable\r\nDate: Sun, 06 Nov 1994 08:49:37 GMT\r\ncontent-type: text/plain\r\nContent-Length: 13\r\nConnection: close\r\n\r\n503 Deadline\n",
    ),
    (
        "HEAD",
        true,
        "HTTP/1.1 503 Service Unavailable\r\nDate: Sun, 06 Nov 1994 08:49:37 GMT\r\ncontent-type: text/plain\r\nContent-Length: 13\r\nConnection: close\r\n\r\n",
    ),
];

/// A request that waits, and its answer.
#[derive(Clone, Copy, PartialEq, Eq)]
struct Waited {
    waits_before: bool,
    first: Outcome,
    waits: bool,
    /// So many bytes are written before the answer is there.
    early: usize,
    late: Outcome,
    waits_after: bool,
    /// Just the text of the answer is written.
    is_written: bool,
}

fn wait(alloc: Global, sent: &str, response: &Response, text: &str) -> Waited {
    let mut reader = sent.as_bytes();
    let mut writer = Vec::new(alloc);
    let mut site = Echo::new(alloc);
    let mut connection = Connection::new(alloc, true);
    let waits_before = connection.waiting();
    let first = ended(&mut connection, &mut reader, &mut writer, &mut site, 9).0;
    let waits = connection.waiting();
    let early = writer.len();
    let late = connection.answer(&mut writer, response, AT.now);
    Waited {
        waits_before,
        first,
        waits,
        early,
        late,
        waits_after: connection.waiting(),
        is_written: writer.as_slice() == text.as_bytes(),
    }
}

fn sent_by(rt: &impl Abort, alloc: Global, method: &str) -> String {
    format!(in alloc; "{method} /park HTTP/1.1\r\nHost: h\r\n\r\n").expect(rt, "memory")
}

fn waited_by(rt: &impl Abort, alloc: Global, row: &Row) -> Waited {
    let (method, head_only, text) = *row;
    let sent = sent_by(rt, alloc, method);
    let response = refused(rt, alloc, Cause::Deadline, head_only, true);
    wait(alloc, &sent, &response, text)
}

/// Nothing is written until the answer is there, and that is all that is written.
pub(in crate::connection) fn a_request_waits_for_its_answer(
    rt: &impl Abort,
    alloc: Global,
    input: usize,
) -> bool {
    let Some(row) = ROWS.get(input) else {
        return false;
    };
    let want = Waited {
        waits_before: false,
        first: Outcome::Parked { head_only: row.1 },
        waits: true,
        early: 0,
        late: Outcome::Answered,
        waits_after: false,
        is_written: true,
    };
    waited_by(rt, alloc, row) == want
}

/// A request that waits, its answer, whose first write fails, and the call after it; and how many steps were taken.
fn fail_late(alloc: Global, response: &Response) -> ([Outcome; 3], u64) {
    let mut reader: &[u8] =
        b"GET /park HTTP/1.1\r\nHost: h\r\n\r\nGET /a HTTP/1.1\r\nHost: h\r\n\r\n";
    let mut writer = new_sink(alloc, 1);
    let mut site = Echo::new(alloc);
    let mut connection = Connection::new(alloc, false);
    let first = ended(&mut connection, &mut reader, &mut writer, &mut site, 9).0;
    let late = connection.answer(&mut writer, response, AT.now);
    let next = ended(&mut connection, &mut reader, &mut writer, &mut site, 10).0;
    ([first, late, next], site.steps)
}

/// An answer that can't be written closes the connection, which waits no longer.
pub(in crate::connection) fn a_late_answer_that_is_not_written(
    rt: &impl Abort,
    alloc: Global,
) -> bool {
    let response = refused(rt, alloc, Cause::Deadline, false, false);
    let want = [
        Outcome::Parked { head_only: false },
        Outcome::WriteFailed,
        Outcome::Closed,
    ];
    fail_late(alloc, &response) == (want, 1)
}
