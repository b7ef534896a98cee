//! What clients send, and what has to be written.
//!
//! The texts are written out from RFC 9112 (sections 3 to 9) and RFC 9110 (sections 6.6.1, 8.6, 9.3.2 and 15); the
//! date is the example of the latter's section 5.6.7.

use sv_connection::{Outcome, RequestFault};
use sv_message::fault::ReadFault;
use sv_target::TargetFault;

/// What a client sends, and what the calls of its connection have to do.
pub(super) struct Row {
    pub(super) name: &'static str,
    pub(super) single: bool,
    pub(super) sent: &'static str,
    /// The outcome of each call, and how many outputs it hands out.
    pub(super) calls: [(Outcome, usize); 3],
    pub(super) steps: u64,
    pub(super) written: &'static str,
}

const ANSWERED: (Outcome, usize) = (Outcome::Answered, 1);

const REFUSED: (Outcome, usize) = (Outcome::Answered, 0);

const PARKED: (Outcome, usize) = (Outcome::Parked { head_only: false }, 1);

const CLOSED: (Outcome, usize) = (Outcome::Closed, 0);

const FAILED: (Outcome, usize) = (Outcome::Failed, 0);

const BAD_HEAD: (Outcome, usize) = (Outcome::Refused(RequestFault::Read(ReadFault::BadHead)), 0);

const BAD_HOST: (Outcome, usize) = (Outcome::Refused(RequestFault::Read(ReadFault::BadHost)), 0);

const BAD_FRAMING: (Outcome, usize) = (
    Outcome::Refused(RequestFault::Read(ReadFault::BadFraming)),
    0,
);

const EXPECTATION: (Outcome, usize) = (
    Outcome::Refused(RequestFault::Read(ReadFault::Expectation)),
    0,
);

const CONNECT: (Outcome, usize) = (
    Outcome::Refused(RequestFault::Target(TargetFault::Connect)),
    0,
);

const BAD_TARGET: (Outcome, usize) = (
    Outcome::Refused(RequestFault::Target(TargetFault::BadTarget)),
    0,
);

pub(super) static ANSWERS: [Row; 19] = [
    Row {
        name: "two requests in one piece",
        single: false,
        sent: "GET /a HTTP/1.1\r\nHost: h\r\n\r\nGET /b-c HTTP/1.1\r\nHost: h\r\n\r\n",
        calls: [ANSWERED, ANSWERED, CLOSED],
        steps: 2,
        written: "HTTP/1.1 200 OK\r\nDate: Sun, 06 Nov 1994 08:49:37 GMT\r\nContent-Length: 2\r\n\r\n/aHTTP/1.1 200 OK\r\nDate: Sun, 06 Nov 1994 08:49:37 GMT\r\nContent-Length: 4\r\n\r\n/b-c",
    },
    Row {
        name: "HEAD",
        single: false,
        sent: "HEAD /a HTTP/1.1\r\nHost: h\r\n\r\n",
        calls: [ANSWERED, CLOSED, CLOSED],
        steps: 1,
        written: "HTTP/1.1 200 OK\r\nDate: Sun, 06 Nov 1994 08:49:37 GMT\r\nContent-Length: 2\r\n\r\n",
    },
    Row {
        name: "HTTP/1.0 closes",
        single: false,
        sent: "GET /a HTTP/1.0\r\n\r\nGET /b HTTP/1.0\r\n\r\n",
        calls: [ANSWERED, CLOSED, CLOSED],
        steps: 1,
        written: "HTTP/1.1 200 OK\r\nDate: Sun, 06 Nov 1994 08:49:37 GMT\r\nContent-Length: 2\r\nConnection: close\r\n\r\n/a",
    },
    Row {
        name: "Connection: close",
        single: false,
        sent: "GET /a HTTP/1.1\r\nHost: h\r\nConnection: close\r\n\r\nGET /b HTTP/1.1\r\nHost: h\r\n\r\n",
        calls: [ANSWERED, CLOSED, CLOSED],
        steps: 1,
        written: "HTTP/1.1 200 OK\r\nDate: Sun, 06 Nov 1994 08:49:37 GMT\r\nContent-Length: 2\r\nConnection: close\r\n\r\n/a",
    },
    Row {
        name: "a connection of one request",
        single: true,
        sent: "GET /a HTTP/1.1\r\nHost: h\r\n\r\nGET /b HTTP/1.1\r\nHost: h\r\n\r\n",
        calls: [ANSWERED, CLOSED, CLOSED],
        steps: 1,
        written: "HTTP/1.1 200 OK\r\nDate: Sun, 06 Nov 1994 08:49:37 GMT\r\nContent-Length: 2\r\nConnection: close\r\n\r\n/a",
    },
    Row {
        name: "no room in the journal, and the connection stays open",
        single: false,
        sent: "GET /full HTTP/1.1\r\nHost: h\r\n\r\nGET /a HTTP/1.1\r\nHost: h\r\n\r\n",
        calls: [REFUSED, ANSWERED, CLOSED],
        steps: 2,
        written: "HTTP/1.1 503 Service Unavailable\r\nDate: Sun, 06 Nov 1994 08:49:37 GMT\r\ncontent-type: text/plain\r\nContent-Length: 16\r\n\r\n503 JournalFull\nHTTP/1.1 200 OK\r\nDate: Sun, 06 Nov 1994 08:49:37 GMT\r\nContent-Length: 2\r\n\r\n/a",
    },
    Row {
        name: "no room in the journal for HEAD",
        single: false,
        sent: "HEAD /full HTTP/1.1\r\nHost: h\r\n\r\n",
        calls: [REFUSED, CLOSED, CLOSED],
        steps: 1,
        written: "HTTP/1.1 503 Service Unavailable\r\nDate: Sun, 06 Nov 1994 08:49:37 GMT\r\ncontent-type: text/plain\r\nContent-Length: 16\r\n\r\n",
    },
    Row {
        name: "no room in the journal on a connection of one request",
        single: true,
        sent: "GET /full HTTP/1.1\r\nHost: h\r\n\r\nGET /a HTTP/1.1\r\nHost: h\r\n\r\n",
        calls: [REFUSED, CLOSED, CLOSED],
        steps: 1,
        written: "HTTP/1.1 503 Service Unavailable\r\nDate: Sun, 06 Nov 1994 08:49:37 GMT\r\ncontent-type: text/plain\r\nContent-Length: 16\r\nConnection: close\r\n\r\n503 JournalFull\n",
    },
    Row {
        name: "no memory for the step",
        single: false,
        sent: "GET /memory HTTP/1.1\r\nHost: h\r\n\r\n",
        calls: [REFUSED, CLOSED, CLOSED],
        steps: 1,
        written: "HTTP/1.1 503 Service Unavailable\r\nDate: Sun, 06 Nov 1994 08:49:37 GMT\r\ncontent-type: text/plain\r\nContent-Length: 11\r\n\r\n503 Memory\n",
    },
    Row {
        name: "a refusal of the site's own",
        single: false,
        sent: "GET /refuse HTTP/1.0\r\n\r\n",
        calls: [ANSWERED, CLOSED, CLOSED],
        steps: 1,
        written: "HTTP/1.1 503 Service Unavailable\r\nDate: Sun, 06 Nov 1994 08:49:37 GMT\r\ncontent-type: text/plain\r\nContent-Length: 14\r\nConnection: close\r\n\r\n503 TableFull\n",
    },
    Row {
        name: "the disk has failed",
        single: false,
        sent: "GET /device HTTP/1.1\r\nHost: h\r\n\r\nGET /a HTTP/1.1\r\nHost: h\r\n\r\n",
        calls: [FAILED, CLOSED, CLOSED],
        steps: 1,
        written: "",
    },
    Row {
        name: "the node has failed",
        single: false,
        sent: "GET /failed HTTP/1.1\r\nHost: h\r\n\r\nGET /a HTTP/1.1\r\nHost: h\r\n\r\n",
        calls: [FAILED, CLOSED, CLOSED],
        steps: 1,
        written: "",
    },
    Row {
        name: "nothing speaks to the token, and the connection goes on behind a late answer",
        single: true,
        sent: "GET /park HTTP/1.1\r\nHost: h\r\n\r\nGET /a HTTP/1.1\r\nHost: h\r\n\r\n",
        calls: [PARKED, ANSWERED, CLOSED],
        steps: 2,
        written: "HTTP/1.1 200 OK\r\nDate: Sun, 06 Nov 1994 08:49:37 GMT\r\nContent-Length: 0\r\n\r\nHTTP/1.1 200 OK\r\nDate: Sun, 06 Nov 1994 08:49:37 GMT\r\nContent-Length: 2\r\nConnection: close\r\n\r\n/a",
    },
    Row {
        name: "outputs to another token, and a second one to its own",
        single: false,
        sent: "GET /other HTTP/1.1\r\nHost: h\r\n\r\n",
        calls: [(Outcome::Answered, 4), CLOSED, CLOSED],
        steps: 1,
        written: "HTTP/1.1 200 OK\r\nDate: Sun, 06 Nov 1994 08:49:37 GMT\r\nContent-Length: 7\r\n\r\nits own",
    },
    Row {
        name: "another method and a path of each kind of byte",
        single: false,
        sent: "BREW //Pot_09-z/ HTTP/1.1\r\nHost: h\r\n\r\n",
        calls: [ANSWERED, CLOSED, CLOSED],
        steps: 1,
        written: "HTTP/1.1 200 OK\r\nDate: Sun, 06 Nov 1994 08:49:37 GMT\r\nContent-Length: 11\r\n\r\n//Pot_09-z/",
    },
    Row {
        name: "an escape, dots, a query and a form, and then a body in chunks",
        single: false,
        sent: "POST /x/../p%61rams?a=1 HTTP/1.1\r\nHost: h\r\nContent-Type: application/x-www-form-urlencoded\r\nContent-Length: 8\r\n\r\nb=x+y%21POST /b HTTP/1.1\r\nHost: h\r\nTransfer-Encoding: chunked\r\n\r\n3\r\nabc\r\n0\r\n\r\n",
        calls: [ANSWERED, ANSWERED, CLOSED],
        steps: 2,
        written: "HTTP/1.1 200 OK\r\nDate: Sun, 06 Nov 1994 08:49:37 GMT\r\nContent-Length: 11\r\n\r\na=1\nb=x y!\nHTTP/1.1 200 OK\r\nDate: Sun, 06 Nov 1994 08:49:37 GMT\r\nContent-Length: 2\r\n\r\n/b",
    },
    Row {
        name: "an input of no bytes",
        single: false,
        sent: "",
        calls: [CLOSED, CLOSED, CLOSED],
        steps: 0,
        written: "",
    },
    Row {
        name: "a request that is cut",
        single: false,
        sent: "GET /a HTTP/1.1\r\nHost: h\r\n",
        calls: [CLOSED, CLOSED, CLOSED],
        steps: 0,
        written: "",
    },
    Row {
        name: "a second request that is cut",
        single: false,
        sent: "GET /a HTTP/1.1\r\nHost: h\r\n\r\nGE",
        calls: [ANSWERED, CLOSED, CLOSED],
        steps: 1,
        written: "HTTP/1.1 200 OK\r\nDate: Sun, 06 Nov 1994 08:49:37 GMT\r\nContent-Length: 2\r\n\r\n/a",
    },
];

/// Each page closes its connection, and what stands after the request is left.
pub(super) static REFUSALS: [Row; 9] = [
    Row {
        name: "no head",
        single: false,
        sent: "GET /\0 HTTP/1.1\r\nHost: h\r\n\r\nGET /a HTTP/1.1\r\nHost: h\r\n\r\n",
        calls: [BAD_HEAD, CLOSED, CLOSED],
        steps: 0,
        written: "HTTP/1.1 400 Bad Request\r\nDate: Sun, 06 Nov 1994 08:49:37 GMT\r\ncontent-type: text/plain\r\nContent-Length: 16\r\nConnection: close\r\n\r\n400 Bad Request\n",
    },
    Row {
        name: "two Hosts",
        single: false,
        sent: "GET /a HTTP/1.1\r\nHost: h\r\nHost: h\r\n\r\nGET /a HTTP/1.1\r\nHost: h\r\n\r\n",
        calls: [BAD_HOST, CLOSED, CLOSED],
        steps: 0,
        written: "HTTP/1.1 400 Bad Request\r\nDate: Sun, 06 Nov 1994 08:49:37 GMT\r\ncontent-type: text/plain\r\nContent-Length: 16\r\nConnection: close\r\n\r\n400 Bad Request\n",
    },
    Row {
        name: "a length that is no number; the page of a message's fault has its body to HEAD too",
        single: true,
        sent: "HEAD /a HTTP/1.1\r\nHost: h\r\nContent-Length: +0\r\n\r\n",
        calls: [BAD_FRAMING, CLOSED, CLOSED],
        steps: 0,
        written: "HTTP/1.1 400 Bad Request\r\nDate: Sun, 06 Nov 1994 08:49:37 GMT\r\ncontent-type: text/plain\r\nContent-Length: 16\r\nConnection: close\r\n\r\n400 Bad Request\n",
    },
    Row {
        name: "an expectation",
        single: false,
        sent: "GET /a HTTP/1.1\r\nHost: h\r\nExpect: 100-continue\r\n\r\nGET /a HTTP/1.1\r\nHost: h\r\n\r\n",
        calls: [EXPECTATION, CLOSED, CLOSED],
        steps: 0,
        written: "HTTP/1.1 417 Expectation Failed\r\nDate: Sun, 06 Nov 1994 08:49:37 GMT\r\ncontent-type: text/plain\r\nContent-Length: 23\r\nConnection: close\r\n\r\n417 Expectation Failed\n",
    },
    Row {
        name: "CONNECT, whatever its target",
        single: false,
        sent: "CONNECT h:80 HTTP/1.1\r\nHost: h\r\n\r\nGET /a HTTP/1.1\r\nHost: h\r\n\r\n",
        calls: [CONNECT, CLOSED, CLOSED],
        steps: 0,
        written: "HTTP/1.1 501 Not Implemented\r\nDate: Sun, 06 Nov 1994 08:49:37 GMT\r\ncontent-type: text/plain\r\nContent-Length: 20\r\nConnection: close\r\n\r\n501 Not Implemented\n",
    },
    Row {
        name: "CONNECT to a path",
        single: false,
        sent: "CONNECT /a HTTP/1.1\r\nHost: h\r\n\r\n",
        calls: [CONNECT, CLOSED, CLOSED],
        steps: 0,
        written: "HTTP/1.1 501 Not Implemented\r\nDate: Sun, 06 Nov 1994 08:49:37 GMT\r\ncontent-type: text/plain\r\nContent-Length: 20\r\nConnection: close\r\n\r\n501 Not Implemented\n",
    },
    Row {
        name: "a path above the root",
        single: false,
        sent: "GET /a/../.. HTTP/1.1\r\nHost: h\r\n\r\nGET /a HTTP/1.1\r\nHost: h\r\n\r\n",
        calls: [BAD_TARGET, CLOSED, CLOSED],
        steps: 0,
        written: "HTTP/1.1 400 Bad Request\r\nDate: Sun, 06 Nov 1994 08:49:37 GMT\r\ncontent-type: text/plain\r\nContent-Length: 16\r\nConnection: close\r\n\r\n400 Bad Request\n",
    },
    Row {
        name: "a target that is no path",
        single: false,
        sent: "OPTIONS * HTTP/1.1\r\nHost: h\r\n\r\n",
        calls: [BAD_TARGET, CLOSED, CLOSED],
        steps: 0,
        written: "HTTP/1.1 400 Bad Request\r\nDate: Sun, 06 Nov 1994 08:49:37 GMT\r\ncontent-type: text/plain\r\nContent-Length: 16\r\nConnection: close\r\n\r\n400 Bad Request\n",
    },
    Row {
        name: "HEAD of a target that is no path",
        single: false,
        sent: "HEAD /%2F HTTP/1.1\r\nHost: h\r\n\r\n",
        calls: [BAD_TARGET, CLOSED, CLOSED],
        steps: 0,
        written: "HTTP/1.1 400 Bad Request\r\nDate: Sun, 06 Nov 1994 08:49:37 GMT\r\ncontent-type: text/plain\r\nContent-Length: 16\r\nConnection: close\r\n\r\n",
    },
];
