//! Sessions whose ids change (Jakarta Servlet 6.0, `HttpServletRequest.changeSessionId`).
//!
//! The last 32 digits of a cookie are the secret, which is the number of the request that gave it to the session.

use super::overheard::Overheard;
use super::streams::Way;
use super::{NOW, Row, Table};
use std::alloc::Global;
use std::process::Abort;
use sv_launch::{Applications, Fault, Purpose, deployment_in, once};
use sv_model::Engine;
use sv_showcase::showcase;

const RENEWING: &str = r#"
[[context]]
path = "/shop"
servlet = [
  { name = "count", patterns = ["/count"] },
  { name = "renew", patterns = ["/renew"] },
]
"#;

/// Changes of an id, and what isn't one.
const CHANGES: &str =
    "GET /shop/count HTTP/1.1\r\nHost: localhost\r\n\r\nGET /shop/renew HTTP/1.1\r\nHost: localhost\r\nCookie: JSESSIONID=0000000000000000000100000000000000000000000000000001\r\n\r\nGET /shop/count HTTP/1.1\r\nHost: localhost\r\nCookie: JSESSIONID=0000000000000000000100000000000000000000000000000001\r\n\r\nGET /shop/count HTTP/1.1\r\nHost: localhost\r\nCookie: JSESSIONID=0000000000000000000100000000000000000000000000000002\r\n\r\nGET /shop/renew?twice=1 HTTP/1.1\r\nHost: localhost\r\nCookie: JSESSIONID=0000000000000000000100000000000000000000000000000002\r\n\r\nGET /shop/renew HTTP/1.1\r\nHost: localhost\r\n\r\nGET /shop/renew?make=1 HTTP/1.1\r\nHost: localhost\r\n\r\n";

pub static TABLES: [Table; 1] = [Table {
    descriptor: RENEWING,
    way: Way::Whole,
    rows: &[
        Row(
            "the old secret is turned away, and the new one names the session",
            "GET /shop/count HTTP/1.1\r\nHost: localhost\r\n\r\nGET /shop/renew HTTP/1.1\r\nHost: localhost\r\nCookie: JSESSIONID=0000000000000000000100000000000000000000000000000001\r\n\r\nGET /shop/count HTTP/1.1\r\nHost: localhost\r\nCookie: JSESSIONID=0000000000000000000100000000000000000000000000000001\r\n\r\nGET /shop/count HTTP/1.1\r\nHost: localhost\r\nCookie: JSESSIONID=0000000000000000000100000000000000000000000000000002\r\n\r\n",
            "HTTP/1.1 200 OK\r\nDate: Sun, 06 Nov 1994 08:49:37 GMT\r\ncontent-type: text/plain\r\nset-cookie: JSESSIONID=0000000000000000000100000000000000000000000000000001; Path=/shop; HttpOnly\r\nContent-Length: 2\r\n\r\n1\nHTTP/1.1 200 OK\r\nDate: Sun, 06 Nov 1994 08:49:37 GMT\r\ncontent-type: text/plain\r\nset-cookie: JSESSIONID=0000000000000000000100000000000000000000000000000002; Path=/shop; HttpOnly\r\nContent-Length: 8\r\n\r\nrenewed\nHTTP/1.1 200 OK\r\nDate: Sun, 06 Nov 1994 08:49:37 GMT\r\ncontent-type: text/plain\r\nset-cookie: JSESSIONID=0000000000000000000200000000000000000000000000000003; Path=/shop; HttpOnly\r\nContent-Length: 2\r\n\r\n1\nHTTP/1.1 200 OK\r\nDate: Sun, 06 Nov 1994 08:49:37 GMT\r\ncontent-type: text/plain\r\nContent-Length: 2\r\n\r\n2\n",
        ),
        Row(
            "an id is changed once in a request, and not where a session was made",
            CHANGES,
            "HTTP/1.1 200 OK\r\nDate: Sun, 06 Nov 1994 08:49:37 GMT\r\ncontent-type: text/plain\r\nset-cookie: JSESSIONID=0000000000000000000100000000000000000000000000000001; Path=/shop; HttpOnly\r\nContent-Length: 2\r\n\r\n1\nHTTP/1.1 200 OK\r\nDate: Sun, 06 Nov 1994 08:49:37 GMT\r\ncontent-type: text/plain\r\nset-cookie: JSESSIONID=0000000000000000000100000000000000000000000000000002; Path=/shop; HttpOnly\r\nContent-Length: 8\r\n\r\nrenewed\nHTTP/1.1 200 OK\r\nDate: Sun, 06 Nov 1994 08:49:37 GMT\r\ncontent-type: text/plain\r\nset-cookie: JSESSIONID=0000000000000000000200000000000000000000000000000003; Path=/shop; HttpOnly\r\nContent-Length: 2\r\n\r\n1\nHTTP/1.1 200 OK\r\nDate: Sun, 06 Nov 1994 08:49:37 GMT\r\ncontent-type: text/plain\r\nContent-Length: 2\r\n\r\n2\nHTTP/1.1 500 Internal Server Error\r\nDate: Sun, 06 Nov 1994 08:49:37 GMT\r\ncontent-type: text/plain\r\nset-cookie: JSESSIONID=0000000000000000000100000000000000000000000000000005; Path=/shop; HttpOnly\r\nContent-Length: 26\r\n\r\n500 Internal Server Error\nHTTP/1.1 500 Internal Server Error\r\nDate: Sun, 06 Nov 1994 08:49:37 GMT\r\ncontent-type: text/plain\r\nContent-Length: 26\r\n\r\n500 Internal Server Error\nHTTP/1.1 500 Internal Server Error\r\nDate: Sun, 06 Nov 1994 08:49:37 GMT\r\ncontent-type: text/plain\r\nset-cookie: JSESSIONID=0000000000000000000300000000000000000000000000000007; Path=/shop; HttpOnly\r\nContent-Length: 26\r\n\r\n500 Internal Server Error\n",
        ),
    ],
}];

/// A stream of requests, whose events are noted.
#[derive(Drop)]
struct Overhearing<'a> {
    input: &'a str,
    noted: &'a mut String,
}

impl Purpose for Overhearing<'_> {
    ghost serves = { λ _ _ _ _. Unit {0} };

    fn serve<E: Engine + Drop>(self, alloc: Global, engine: E) -> Result<(), Fault> {
        let Overhearing { input, noted } = self;
        let mut reader = input.as_bytes();
        let mut writer = Vec::new(alloc);
        let overheard = Overheard {
            alloc,
            engine,
            noted,
        };
        once(alloc, overheard, NOW, &mut reader, &mut writer)?;
        Ok(())
    }
}

/// What is noted of the events of those changes.
pub fn told(rt: &impl Abort, alloc: Global) -> String {
    let mut noted = String::new(alloc);
    let deployment = deployment_in(alloc, RENEWING).expect(rt, "a deployment");
    let purpose = Overhearing {
        input: CHANGES,
        noted: &mut noted,
    };
    let end = showcase(alloc).start(alloc, deployment, &[], purpose);
    end.expect(rt, "a stream that is served");
    noted
}

/// The events of the second row, request by request: the id of the session 1 is changed from the secret 1, then from the secret 2;
/// one that is refused, and a second change, tell nothing.
pub const EVENTS: &str =
    "in created:1 added:count out ;in changed:1/1 out ;in created:2 added:count out ;in replaced:count out ;in changed:1/2 out ;in out ;in created:3 out ;";
