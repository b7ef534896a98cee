//! When a session expires: its interval in seconds after its last request, and not before.

use super::streams::{Input, Output, Way};
use crate::expect::expect;
use std::alloc::Global;
use std::process::Abort;
use sv_connection::Connection;
use sv_host::secret_of;
use sv_launch::{Applications, Fault, Purpose, deployment_in};
use sv_model::{Engine, Moment, Site};
use sv_showcase::showcase;
use sv_solo::{Solo, serve_next};

/// A shop whose sessions expire after a minute.
const SHORT: &str =
    "context = [{ path = \"/shop\", interval = 60, servlet = [{ name = \"count\", patterns = [\"/count\"] }] }]";

/// What the stream shows, the moments of its two requests, the stream, and all that is written for it.
struct Timed(&'static str, [u64; 2], &'static str, &'static str);

static ROWS: [Timed; 3] = [
    Timed(
        "59 seconds behind a request the session lives",
        [1000, 1059],
        "GET /shop/count HTTP/1.1\r\nHost: localhost\r\n\r\nGET /shop/count HTTP/1.1\r\nHost: localhost\r\nCookie: JSESSIONID=0000000000000000000100000000000000000000000000000001\r\n\r\n",
        "HTTP/1.1 200 OK\r\nDate: Thu, 01 Jan 1970 00:16:40 GMT\r\ncontent-type: text/plain\r\nset-cookie: JSESSIONID=0000000000000000000100000000000000000000000000000001; Path=/shop; HttpOnly\r\nContent-Length: 2\r\n\r\n1\nHTTP/1.1 200 OK\r\nDate: Thu, 01 Jan 1970 00:17:39 GMT\r\ncontent-type: text/plain\r\nContent-Length: 2\r\n\r\n2\n",
    ),
    Timed(
        "60 seconds behind it the session has expired",
        [1000, 1060],
        "GET /shop/count HTTP/1.1\r\nHost: localhost\r\n\r\nGET /shop/count HTTP/1.1\r\nHost: localhost\r\nCookie: JSESSIONID=0000000000000000000100000000000000000000000000000001\r\n\r\n",
        "HTTP/1.1 200 OK\r\nDate: Thu, 01 Jan 1970 00:16:40 GMT\r\ncontent-type: text/plain\r\nset-cookie: JSESSIONID=0000000000000000000100000000000000000000000000000001; Path=/shop; HttpOnly\r\nContent-Length: 2\r\n\r\n1\nHTTP/1.1 200 OK\r\nDate: Thu, 01 Jan 1970 00:17:40 GMT\r\ncontent-type: text/plain\r\nset-cookie: JSESSIONID=0000000000000000000200000000000000000000000000000002; Path=/shop; HttpOnly\r\nContent-Length: 2\r\n\r\n1\n",
    ),
    Timed(
        "the last request doesn't go back with the clock",
        [10000, 6400],
        "GET /shop/count HTTP/1.1\r\nHost: localhost\r\n\r\nGET /shop/count HTTP/1.1\r\nHost: localhost\r\nCookie: JSESSIONID=0000000000000000000100000000000000000000000000000001\r\n\r\n",
        "HTTP/1.1 200 OK\r\nDate: Thu, 01 Jan 1970 02:46:40 GMT\r\ncontent-type: text/plain\r\nset-cookie: JSESSIONID=0000000000000000000100000000000000000000000000000001; Path=/shop; HttpOnly\r\nContent-Length: 2\r\n\r\n1\nHTTP/1.1 200 OK\r\nDate: Thu, 01 Jan 1970 01:46:40 GMT\r\ncontent-type: text/plain\r\nContent-Length: 2\r\n\r\n2\n",
    ),
];

/// Two requests of a stream, at these moments.
#[derive(Drop)]
struct Two<'a, 'b> {
    moments: [u64; 2],
    reader: &'a mut Input<'b>,
    writer: &'a mut Output,
}

/// The moment of a request, whose secret is its number.
fn moment_of(now: u64, number: u64) -> Moment {
    Moment {
        now,
        steady: now,
        secret: secret_of(number),
    }
}

/// Serves both on one connection.
fn serve_both<S: Site>(alloc: Global, two: Two, site: &mut S)
    requires { S.site_valid site.old }
{
    let Two {
        moments: [first, second],
        reader,
        writer,
    } = two;
    let mut connection = Connection::new(alloc, false);
    serve_next(
        alloc,
        &mut connection,
        reader,
        writer,
        site,
        moment_of(first, 1),
        1,
    );
    // At a node that stands alone no request waits; one that waited would have no second answer.
    if !connection.waiting() {
        serve_next(
            alloc,
            &mut connection,
            reader,
            writer,
            site,
            moment_of(second, 2),
            2,
        );
    }
}

impl Purpose for Two<'_, '_> {
    ghost serves = { λ _ _ _ _. Unit {0} };

    fn serve<E: Engine + Drop>(self, alloc: Global, engine: E) -> Result<(), Fault> {
        let mut site = Solo::new(alloc, engine);
        serve_both(alloc, self, &mut site);
        Ok(())
    }
}

fn serve(
    alloc: Global,
    moments: [u64; 2],
    reader: &mut Input,
    writer: &mut Output,
) -> Result<(), Fault> {
    let deployment = deployment_in(alloc, SHORT)?;
    let two = Two {
        moments,
        reader,
        writer,
    };
    showcase(alloc).start(alloc, deployment, &[], two)
}

/// All that is written for two requests at these moments.
fn written(rt: &impl Abort, alloc: Global, moments: [u64; 2], input: &str) -> String {
    let mut reader = Input::new(input, Way::Whole);
    let mut writer = Output::new(alloc, Way::Whole);
    let end = serve(alloc, moments, &mut reader, &mut writer);
    writer.ended(rt, end)
}

/// Each two requests are answered as their row says.
pub fn expect_rows(rt: &(impl Abort + AllocGlobal)) {
    for Timed(name, moments, input, output) in &ROWS {
        let text = written(rt, rt.alloc(), *moments, input);
        expect(rt, name, text.as_str(), output);
    }
}
