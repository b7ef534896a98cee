//! What a connection gives of bytes that come in pieces, with no site behind it.
//!
//! The texts are written out from RFC 9112 (sections 3 to 6 and 9) and RFC 9110 (sections 6.6.1, 8.6 and 15.5.1).

use super::{AT, bare_answer};
use crate::fixtures::add;
use std::alloc::Global;
use std::process::Abort;
use sv_connection::{Connection, Outcome, Received, RequestFault};
use sv_model::{Request, is_head};
use sv_solo::end;

/// A request with a body.
const FIRST: &str = "POST /a HTTP/1.1\r\nHost: h\r\nContent-Length: 3\r\n\r\nxyz";

/// A request whose client sends no more.
const LAST: &str = "HEAD /b HTTP/1.1\r\nHost: h\r\nConnection: close\r\n\r\n";

/// A request without a host, which is a fault once its head has ended.
const FAULTY: &str = "GET /b HTTP/1.1\r\nA: b\r\n\r\n";

/// How many places there are to cut two requests at, the ends among them, and how many to cut one and the faulty one.
pub(in crate::connection) const CUTS_OF_TWO: usize = FIRST.len() + LAST.len() + 1;

pub(in crate::connection) const CUTS_OF_FAULT: usize = FIRST.len() + FAULTY.len() + 1;

/// The answer to the first, and the page of the fault.
const ANSWERED: &str =
    "HTTP/1.1 200 OK\r\nDate: Sun, 06 Nov 1994 08:49:37 GMT\r\nContent-Length: 0\r\n\r\n";

const PAGE: &str =
    "HTTP/1.1 400 Bad Request\r\nDate: Sun, 06 Nov 1994 08:49:37 GMT\r\ncontent-type: text/plain\r\nContent-Length: 16\r\nConnection: close\r\n\r\n400 Bad Request\n";

/// A connection with what was written on it, and what it gave, told in words.
struct Caller {
    connection: Connection,
    written: Vec<u8>,
    told: String,
    alloc: Global,
}

/// By hand, so that a proof has one step for it.
impl Drop for Caller {
    fn drop(self) {
        let Caller {
            connection: _,
            written: _,
            told: _,
            alloc: _,
        } = self;
    }
}

impl Caller {
    fn new(alloc: Global) -> Caller {
        Caller {
            connection: Connection::new(alloc, false),
            written: Vec::new(alloc),
            told: String::new(alloc),
            alloc,
        }
    }

    /// Tells a word; whether more can be there.
    fn say(&mut self, rt: &impl Abort, word: &str, is_request: bool) -> bool {
        add(rt, &mut self.told, word);
        is_request
    }

    /// Tells of a request, and answers it with no body.
    fn tell_request(&mut self, rt: &impl Abort, request: &Request) -> bool {
        let text = words_of(rt, self.alloc, request);
        self.answer(is_head(&request.method), request.close);
        self.say(rt, &text, true)
    }

    fn answer(&mut self, head_only: bool, close: bool) {
        let response = bare_answer(self.alloc, head_only, close);
        let _ = self.connection.answer(&mut self.written, &response, AT.now);
    }

    /// Writes the page of a fault, and tells of it.
    fn tell_refusal(&mut self, rt: &impl Abort, fault: RequestFault, head_only: bool) -> bool {
        let outcome = self
            .connection
            .refuse(&mut self.written, fault, head_only, AT.now);
        let text = words_of_end(rt, self.alloc, outcome, head_only);
        self.say(rt, &text, false)
    }

    /// Tells what was given; a request is answered, and the page of a fault is written. Whether more can be there.
    fn tell(&mut self, rt: &impl Abort, received: Received) -> bool {
        match received {
            Received::Request(request) => self.tell_request(rt, &request),
            Received::Refused { fault, head_only } => self.tell_refusal(rt, fault, head_only),
            Received::More => self.say(rt, "more;", false),
            Received::Closed => self.say(rt, "closed;", false),
        }
    }

    fn receive_once(&mut self, rt: &impl Abort, piece: &[u8]) -> bool {
        if self.connection.waiting() {
            return false;
        }
        let received = self.connection.receive(piece);
        self.tell(rt, received)
    }

    /// Hands on what has come, and then nothing, until there is no request.
    fn receive(&mut self, rt: &impl Abort, piece: &[u8]) {
        if !self.receive_once(rt, piece) {
            return;
        }
        for _ in 0..3 {
            if !self.receive_once(rt, &[]) {
                break;
            }
        }
    }

    /// Says that nothing more comes, until there is no request.
    fn end(&mut self, rt: &impl Abort) {
        for _ in 0..3 {
            if self.connection.waiting() {
                break;
            }
            let received = end(&mut self.connection);
            if !self.tell(rt, received) {
                break;
            }
        }
    }

    /// Just this was told, and this written.
    fn has(&self, told: &str, written: &str) -> bool {
        self.told.as_str() == told && self.written.as_slice() == written.as_bytes()
    }
}

/// A request in words.
fn words_of(rt: &impl Abort, alloc: Global, request: &Request) -> String {
    let head_only = is_head(&request.method);
    let close = request.close;
    let path = request.path.as_str();
    format!(in alloc; "{path} {head_only} {close};").expect(rt, "memory")
}

/// The end of a refused request in words.
fn words_of_end(rt: &impl Abort, alloc: Global, outcome: Outcome, head_only: bool) -> String {
    format!(in alloc; "{outcome:?} {head_only};").expect(rt, "memory")
}

/// Two pieces and the end.
fn tell_cut(rt: &impl Abort, caller: &mut Caller, first: &[u8], rest: &[u8]) {
    caller.receive(rt, first);
    add(rt, &mut caller.told, "|");
    caller.receive(rt, rest);
    add(rt, &mut caller.told, "|");
    caller.end(rt);
}

/// Whether this is told of a stream that is cut there, and this written.
fn is_told(
    rt: &impl Abort,
    alloc: Global,
    stream: &str,
    cut: usize,
    told: &str,
    written: &str,
) -> bool {
    let bytes = stream.as_bytes();
    let (Some(first), Some(rest)) = (bytes.get(..cut), bytes.get(cut..)) else {
        return false;
    };
    let mut caller = Caller::new(alloc);
    tell_cut(rt, &mut caller, first, rest);
    caller.has(told, written)
}

/// Two texts in one.
fn both(rt: &impl Abort, alloc: Global, first: &str, second: &str) -> String {
    format!(in alloc; "{first}{second}").expect(rt, "memory")
}

/// What two requests are told as, by where their stream is cut.
fn told_of_two(cut: usize, end: usize) -> &'static str {
    if cut < FIRST.len() {
        "more;|/a false false;/b true true;closed;|closed;"
    } else if cut < end {
        "/a false false;more;|/b true true;closed;|closed;"
    } else {
        "/a false false;/b true true;closed;|closed;|closed;"
    }
}

/// The answer to the last.
const CLOSING: &str =
    "HTTP/1.1 200 OK\r\nDate: Sun, 06 Nov 1994 08:49:37 GMT\r\nContent-Length: 0\r\nConnection: close\r\n\r\n";

/// Two requests come, however the stream is cut: one is given once it is whole, and all else is kept.
pub(in crate::connection) fn two_requests_cut_anywhere(
    rt: &impl Abort,
    alloc: Global,
    cut: usize,
) -> bool {
    let stream = both(rt, alloc, FIRST, LAST);
    let written = both(rt, alloc, ANSWERED, CLOSING);
    let told = told_of_two(cut, stream.len());
    is_told(rt, alloc, &stream, cut, told, &written)
}

/// What a request and a fault are told as, by where their stream is cut.
fn told_of_fault(cut: usize, end: usize) -> &'static str {
    if cut < FIRST.len() {
        "more;|/a false false;Refused(Read(BadHost)) false;|closed;"
    } else if cut < end {
        "/a false false;more;|Refused(Read(BadHost)) false;|closed;"
    } else {
        "/a false false;Refused(Read(BadHost)) false;|closed;|closed;"
    }
}

/// The request before a fault is given, and the fault once it stands there.
pub(in crate::connection) fn a_fault_in_the_second_cut_anywhere(
    rt: &impl Abort,
    alloc: Global,
    cut: usize,
) -> bool {
    let stream = both(rt, alloc, FIRST, FAULTY);
    let written = both(rt, alloc, ANSWERED, PAGE);
    let told = told_of_fault(cut, stream.len());
    is_told(rt, alloc, &stream, cut, told, &written)
}

/// Whether the input that ends after these bytes is told so, and no more than this is written; and whether it closes.
fn ends_so(rt: &impl Abort, alloc: Global, sent: &[u8], told: &str, written: &str) -> bool {
    let mut caller = Caller::new(alloc);
    caller.receive(rt, sent);
    caller.end(rt);
    caller.has(told, written) && caller.connection.closed()
}

/// Whether the input that ends inside the first of two requests, or the second, is told so.
fn ends_inside(rt: &impl Abort, alloc: Global, sent: &[u8]) -> bool {
    if sent.len() < FIRST.len() {
        ends_so(rt, alloc, sent, "more;closed;", "")
    } else {
        ends_so(rt, alloc, sent, "/a false false;more;closed;", ANSWERED)
    }
}

/// The input ends inside a request: nothing is written for it, and the connection closes.
pub(in crate::connection) fn the_input_ends_inside_a_request(
    rt: &impl Abort,
    alloc: Global,
    len: usize,
) -> bool {
    let stream = both(rt, alloc, FIRST, LAST);
    match stream.as_bytes().get(..len) {
        Some(sent) => ends_inside(rt, alloc, sent),
        None => false,
    }
}

/// What stands there whole is given, though nothing more comes.
pub(in crate::connection) fn the_input_ends_behind_two_requests(
    rt: &impl Abort,
    alloc: Global,
) -> bool {
    let stream = both(rt, alloc, FIRST, LAST);
    let mut caller = Caller::new(alloc);
    let _ = caller.receive_once(rt, stream.as_bytes());
    caller.end(rt);
    caller.told.as_str() == "/a false false;/b true true;closed;"
}

static FAULTY_TARGETS: [(&str, &str); 2] = [
    (
        "CONNECT h:1 HTTP/1.1\r\nHost: h\r\n\r\nGET",
        "Refused(Target(Connect)) false;closed;",
    ),
    (
        "HEAD b HTTP/1.1\r\nHost: h\r\n\r\nGET",
        "Refused(Target(BadTarget)) true;closed;",
    ),
];

/// Whether a request and then the rest of another are told so.
fn is_refused(rt: &impl Abort, alloc: Global, sent: &str, told: &str) -> bool {
    let mut caller = Caller::new(alloc);
    caller.receive(rt, sent.as_bytes());
    caller.receive(rt, b" / HTTP/1.1\r\nHost: h\r\n\r\n");
    caller.told.as_str() == told
}

/// A fault of the method and the target is met once the request is whole, and nothing is read after it.
pub(in crate::connection) fn a_faulty_target(rt: &impl Abort, alloc: Global, input: usize) -> bool {
    match FAULTY_TARGETS.get(input) {
        Some((sent, told)) => is_refused(rt, alloc, sent, told),
        None => false,
    }
}
