//! Which session a request is given, by its cookie (Jakarta Servlet 6.0, chapter 7; RFC 6265, section 4).
//!
//! A session's cookie is in digits its context (2), the node that made it (2), its serial from 1 (16) and its secret
//! (32), which is the number of the request that made it.

use super::{Row, Table, Way};
use sv_showcase::BUILT_IN;

pub static NAMED: [Table; 1] = [Table {
    descriptor: BUILT_IN,
    way: Way::Whole,
    rows: &[
        Row(
            "a session and its cookie",
            "GET /shop/count HTTP/1.1\r\nHost: localhost\r\n\r\nGET /shop/count HTTP/1.1\r\nHost: localhost\r\nCookie: JSESSIONID=0000000000000000000100000000000000000000000000000001\r\n\r\n",
            "HTTP/1.1 200 OK\r\nDate: Sun, 06 Nov 1994 08:49:37 GMT\r\ncontent-type: text/plain\r\nset-cookie: JSESSIONID=0000000000000000000100000000000000000000000000000001; Path=/shop; HttpOnly\r\nContent-Length: 2\r\n\r\n1\nHTTP/1.1 200 OK\r\nDate: Sun, 06 Nov 1994 08:49:37 GMT\r\ncontent-type: text/plain\r\nContent-Length: 2\r\n\r\n2\n",
        ),
        Row(
            "the request of the first look",
            "GET /shop/count HTTP/1.1\r\nHost: localhost\r\n\r\nGET /shop/count HTTP/1.1\r\nHost: localhost\r\nCookie: JSESSIONID=0000000000000000000100000000000000000000000000000001\r\n\r\nGET /shop/hello HTTP/1.1\r\nHost: localhost\r\n\r\n",
            "HTTP/1.1 200 OK\r\nDate: Sun, 06 Nov 1994 08:49:37 GMT\r\ncontent-type: text/plain\r\nset-cookie: JSESSIONID=0000000000000000000100000000000000000000000000000001; Path=/shop; HttpOnly\r\nContent-Length: 2\r\n\r\n1\nHTTP/1.1 200 OK\r\nDate: Sun, 06 Nov 1994 08:49:37 GMT\r\ncontent-type: text/plain\r\nContent-Length: 2\r\n\r\n2\nHTTP/1.1 200 OK\r\nDate: Sun, 06 Nov 1994 08:49:37 GMT\r\ncontent-type: text/plain\r\nContent-Length: 6\r\n\r\nHello\n",
        ),
        Row(
            "a cookie of another context names no session",
            "GET /shop/count HTTP/1.1\r\nHost: localhost\r\n\r\nGET /shop/count HTTP/1.1\r\nHost: localhost\r\nCookie: JSESSIONID=0100000000000000000100000000000000000000000000000001\r\n\r\n",
            "HTTP/1.1 200 OK\r\nDate: Sun, 06 Nov 1994 08:49:37 GMT\r\ncontent-type: text/plain\r\nset-cookie: JSESSIONID=0000000000000000000100000000000000000000000000000001; Path=/shop; HttpOnly\r\nContent-Length: 2\r\n\r\n1\nHTTP/1.1 200 OK\r\nDate: Sun, 06 Nov 1994 08:49:37 GMT\r\ncontent-type: text/plain\r\nset-cookie: JSESSIONID=0000000000000000000200000000000000000000000000000002; Path=/shop; HttpOnly\r\nContent-Length: 2\r\n\r\n1\n",
        ),
        Row(
            "a cookie without its last digit names no session",
            "GET /shop/count HTTP/1.1\r\nHost: localhost\r\n\r\nGET /shop/count HTTP/1.1\r\nHost: localhost\r\nCookie: JSESSIONID=000000000000000000010000000000000000000000000000000\r\n\r\n",
            "HTTP/1.1 200 OK\r\nDate: Sun, 06 Nov 1994 08:49:37 GMT\r\ncontent-type: text/plain\r\nset-cookie: JSESSIONID=0000000000000000000100000000000000000000000000000001; Path=/shop; HttpOnly\r\nContent-Length: 2\r\n\r\n1\nHTTP/1.1 200 OK\r\nDate: Sun, 06 Nov 1994 08:49:37 GMT\r\ncontent-type: text/plain\r\nset-cookie: JSESSIONID=0000000000000000000200000000000000000000000000000002; Path=/shop; HttpOnly\r\nContent-Length: 2\r\n\r\n1\n",
        ),
    ],
}];

pub static GIVEN: [Table; 1] = [Table {
    descriptor: BUILT_IN,
    way: Way::Whole,
    rows: &[
        Row(
            "with another secret the session is turned away",
            "GET /shop/count HTTP/1.1\r\nHost: localhost\r\n\r\nGET /shop/count HTTP/1.1\r\nHost: localhost\r\nCookie: JSESSIONID=0000000000000000000100000000000000000000000000000009\r\n\r\n",
            "HTTP/1.1 200 OK\r\nDate: Sun, 06 Nov 1994 08:49:37 GMT\r\ncontent-type: text/plain\r\nset-cookie: JSESSIONID=0000000000000000000100000000000000000000000000000001; Path=/shop; HttpOnly\r\nContent-Length: 2\r\n\r\n1\nHTTP/1.1 200 OK\r\nDate: Sun, 06 Nov 1994 08:49:37 GMT\r\ncontent-type: text/plain\r\nset-cookie: JSESSIONID=0000000000000000000200000000000000000000000000000002; Path=/shop; HttpOnly\r\nContent-Length: 2\r\n\r\n1\n",
        ),
        Row(
            "and stays",
            "GET /shop/count HTTP/1.1\r\nHost: localhost\r\n\r\nGET /shop/count HTTP/1.1\r\nHost: localhost\r\nCookie: JSESSIONID=0000000000000000000100000000000000000000000000000009\r\n\r\nGET /shop/count HTTP/1.1\r\nHost: localhost\r\nCookie: JSESSIONID=0000000000000000000100000000000000000000000000000001\r\n\r\n",
            "HTTP/1.1 200 OK\r\nDate: Sun, 06 Nov 1994 08:49:37 GMT\r\ncontent-type: text/plain\r\nset-cookie: JSESSIONID=0000000000000000000100000000000000000000000000000001; Path=/shop; HttpOnly\r\nContent-Length: 2\r\n\r\n1\nHTTP/1.1 200 OK\r\nDate: Sun, 06 Nov 1994 08:49:37 GMT\r\ncontent-type: text/plain\r\nset-cookie: JSESSIONID=0000000000000000000200000000000000000000000000000002; Path=/shop; HttpOnly\r\nContent-Length: 2\r\n\r\n1\nHTTP/1.1 200 OK\r\nDate: Sun, 06 Nov 1994 08:49:37 GMT\r\ncontent-type: text/plain\r\nContent-Length: 2\r\n\r\n2\n",
        ),
        Row(
            "the first cookie that is well formed",
            "GET /shop/count HTTP/1.1\r\nHost: localhost\r\n\r\nGET /shop/count HTTP/1.1\r\nHost: localhost\r\nCookie: JSESSIONID=none; JSESSIONID=0000000000000000000100000000000000000000000000000001\r\n\r\n",
            "HTTP/1.1 200 OK\r\nDate: Sun, 06 Nov 1994 08:49:37 GMT\r\ncontent-type: text/plain\r\nset-cookie: JSESSIONID=0000000000000000000100000000000000000000000000000001; Path=/shop; HttpOnly\r\nContent-Length: 2\r\n\r\n1\nHTTP/1.1 200 OK\r\nDate: Sun, 06 Nov 1994 08:49:37 GMT\r\ncontent-type: text/plain\r\nContent-Length: 2\r\n\r\n2\n",
        ),
        Row(
            "a login makes a session in place of the old",
            "GET /shop/count HTTP/1.1\r\nHost: localhost\r\n\r\nGET /shop/login?user=ann HTTP/1.1\r\nHost: localhost\r\nCookie: JSESSIONID=0000000000000000000100000000000000000000000000000001\r\n\r\nGET /shop/count HTTP/1.1\r\nHost: localhost\r\nCookie: JSESSIONID=0000000000000000000100000000000000000000000000000001\r\n\r\n",
            "HTTP/1.1 200 OK\r\nDate: Sun, 06 Nov 1994 08:49:37 GMT\r\ncontent-type: text/plain\r\nset-cookie: JSESSIONID=0000000000000000000100000000000000000000000000000001; Path=/shop; HttpOnly\r\nContent-Length: 2\r\n\r\n1\nHTTP/1.1 200 OK\r\nDate: Sun, 06 Nov 1994 08:49:37 GMT\r\ncontent-type: text/plain\r\nset-cookie: JSESSIONID=0000000000000000000200000000000000000000000000000002; Path=/shop; HttpOnly\r\nContent-Length: 12\r\n\r\nwelcome ann\nHTTP/1.1 200 OK\r\nDate: Sun, 06 Nov 1994 08:49:37 GMT\r\ncontent-type: text/plain\r\nset-cookie: JSESSIONID=0000000000000000000300000000000000000000000000000003; Path=/shop; HttpOnly\r\nContent-Length: 2\r\n\r\n1\n",
        ),
        Row(
            "a second session in one request is refused",
            "GET /shop/count HTTP/1.1\r\nHost: localhost\r\n\r\nGET /shop/login?user=ann&again=1 HTTP/1.1\r\nHost: localhost\r\nCookie: JSESSIONID=0000000000000000000100000000000000000000000000000001\r\n\r\n",
            "HTTP/1.1 200 OK\r\nDate: Sun, 06 Nov 1994 08:49:37 GMT\r\ncontent-type: text/plain\r\nset-cookie: JSESSIONID=0000000000000000000100000000000000000000000000000001; Path=/shop; HttpOnly\r\nContent-Length: 2\r\n\r\n1\nHTTP/1.1 200 OK\r\nDate: Sun, 06 Nov 1994 08:49:37 GMT\r\ncontent-type: text/plain\r\nContent-Length: 15\r\n\r\nSecondCreation\n",
        ),
        Row(
            "HEAD makes a session too",
            "HEAD /shop/count HTTP/1.1\r\nHost: localhost\r\n\r\nGET /shop/count HTTP/1.1\r\nHost: localhost\r\nCookie: JSESSIONID=0000000000000000000100000000000000000000000000000001\r\n\r\n",
            "HTTP/1.1 200 OK\r\nDate: Sun, 06 Nov 1994 08:49:37 GMT\r\ncontent-type: text/plain\r\nset-cookie: JSESSIONID=0000000000000000000100000000000000000000000000000001; Path=/shop; HttpOnly\r\nContent-Length: 2\r\n\r\nHTTP/1.1 200 OK\r\nDate: Sun, 06 Nov 1994 08:49:37 GMT\r\ncontent-type: text/plain\r\nContent-Length: 2\r\n\r\n2\n",
        ),
    ],
}];
