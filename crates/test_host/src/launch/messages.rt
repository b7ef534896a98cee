//! Messages: their framing (RFC 9112, section 6), and how a connection goes on or closes (section 9).

use super::{Row, Table, Way};
use sv_showcase::BUILT_IN;

pub static SERVED: [Table; 1] = [Table {
    descriptor: BUILT_IN,
    way: Way::Whole,
    rows: &[
        Row(
            "one request",
            "GET /shop/hello HTTP/1.1\r\nHost: localhost\r\n\r\n",
            "HTTP/1.1 200 OK\r\nDate: Sun, 06 Nov 1994 08:49:37 GMT\r\ncontent-type: text/plain\r\nContent-Length: 6\r\n\r\nHello\n",
        ),
        Row(
            "what curl sends",
            "GET /shop/hello HTTP/1.1\r\nHost: localhost\r\nUser-Agent: curl/7.88.1\r\nAccept: */*\r\n\r\n",
            "HTTP/1.1 200 OK\r\nDate: Sun, 06 Nov 1994 08:49:37 GMT\r\ncontent-type: text/plain\r\nContent-Length: 6\r\n\r\nHello\n",
        ),
        Row(
            "pipelined",
            "GET /shop/hello HTTP/1.1\r\nHost: localhost\r\n\r\nGET /shop/hello HTTP/1.1\r\nHost: localhost\r\n\r\n",
            "HTTP/1.1 200 OK\r\nDate: Sun, 06 Nov 1994 08:49:37 GMT\r\ncontent-type: text/plain\r\nContent-Length: 6\r\n\r\nHello\nHTTP/1.1 200 OK\r\nDate: Sun, 06 Nov 1994 08:49:37 GMT\r\ncontent-type: text/plain\r\nContent-Length: 6\r\n\r\nHello\n",
        ),
        Row("no input", "", ""),
        Row(
            "cut in the middle",
            "GET /shop/hello HTTP/1.1\r\nHost: loc",
            "",
        ),
        Row(
            "HTTP/1.0 closes",
            "GET /shop/hello HTTP/1.0\r\n\r\nGET /shop/hello HTTP/1.0\r\n\r\n",
            "HTTP/1.1 200 OK\r\nDate: Sun, 06 Nov 1994 08:49:37 GMT\r\ncontent-type: text/plain\r\nContent-Length: 6\r\nConnection: close\r\n\r\nHello\n",
        ),
        Row(
            "a client that closes",
            "GET /shop/hello HTTP/1.1\r\nHost: localhost\r\nConnection: Close\r\n\r\nGET /",
            "HTTP/1.1 200 OK\r\nDate: Sun, 06 Nov 1994 08:49:37 GMT\r\ncontent-type: text/plain\r\nContent-Length: 6\r\nConnection: close\r\n\r\nHello\n",
        ),
        Row(
            "HEAD has no body",
            "HEAD /shop/hello HTTP/1.1\r\nHost: localhost\r\n\r\n",
            "HTTP/1.1 200 OK\r\nDate: Sun, 06 Nov 1994 08:49:37 GMT\r\ncontent-type: text/plain\r\nContent-Length: 6\r\n\r\n",
        ),
        Row(
            "a chunked body, read as the form that it is",
            "POST /shop/snoop HTTP/1.1\r\nHost: localhost\r\nContent-Type: application/x-www-form-urlencoded\r\nTransfer-Encoding: chunked\r\n\r\n3\r\nabc\r\n0\r\n\r\n",
            "HTTP/1.1 200 OK\r\nDate: Sun, 06 Nov 1994 08:49:37 GMT\r\ncontent-type: text/plain\r\nContent-Length: 102\r\n\r\nmethod=POST\nrequest_uri=/shop/snoop\ncontext_path=/shop\nservlet_path=/snoop\npath_info=-\nquery=-\np abc=\n",
        ),
        Row(
            "an expectation in HTTP/1.0 is ignored",
            "GET /shop/hello HTTP/1.0\r\nHost: localhost\r\nExpect: 100-continue\r\n\r\n",
            "HTTP/1.1 200 OK\r\nDate: Sun, 06 Nov 1994 08:49:37 GMT\r\ncontent-type: text/plain\r\nContent-Length: 6\r\nConnection: close\r\n\r\nHello\n",
        ),
        Row(
            "an expectation",
            "GET /shop/hello HTTP/1.1\r\nHost: localhost\r\nExpect: 100-continue\r\n\r\n",
            "HTTP/1.1 417 Expectation Failed\r\nDate: Sun, 06 Nov 1994 08:49:37 GMT\r\ncontent-type: text/plain\r\nContent-Length: 23\r\nConnection: close\r\n\r\n417 Expectation Failed\n",
        ),
    ],
}];

pub static REFUSED: [Table; 1] = [Table {
    descriptor: BUILT_IN,
    way: Way::Whole,
    rows: &[
        Row(
            "no head",
            "GET\x01/ HTTP/1.1\r\n\r\n",
            "HTTP/1.1 400 Bad Request\r\nDate: Sun, 06 Nov 1994 08:49:37 GMT\r\ncontent-type: text/plain\r\nContent-Length: 16\r\nConnection: close\r\n\r\n400 Bad Request\n",
        ),
        Row(
            "two hosts",
            "GET /shop/hello HTTP/1.1\r\nHost: localhost\r\nHost: b\r\n\r\n",
            "HTTP/1.1 400 Bad Request\r\nDate: Sun, 06 Nov 1994 08:49:37 GMT\r\ncontent-type: text/plain\r\nContent-Length: 16\r\nConnection: close\r\n\r\n400 Bad Request\n",
        ),
        Row(
            "two lengths of a body",
            "GET /shop/hello HTTP/1.1\r\nHost: localhost\r\nContent-Length: 0\r\nContent-Length: 0\r\n\r\n",
            "HTTP/1.1 400 Bad Request\r\nDate: Sun, 06 Nov 1994 08:49:37 GMT\r\ncontent-type: text/plain\r\nContent-Length: 16\r\nConnection: close\r\n\r\n400 Bad Request\n",
        ),
        Row(
            "a length with a transfer coding",
            "GET /shop/hello HTTP/1.1\r\nHost: localhost\r\nContent-Length: 3\r\nTransfer-Encoding: chunked\r\n\r\n",
            "HTTP/1.1 400 Bad Request\r\nDate: Sun, 06 Nov 1994 08:49:37 GMT\r\ncontent-type: text/plain\r\nContent-Length: 16\r\nConnection: close\r\n\r\n400 Bad Request\n",
        ),
        Row(
            "a transfer coding that doesn't end in chunked",
            "GET /shop/hello HTTP/1.1\r\nHost: localhost\r\nTransfer-Encoding: gzip\r\n\r\n",
            "HTTP/1.1 400 Bad Request\r\nDate: Sun, 06 Nov 1994 08:49:37 GMT\r\ncontent-type: text/plain\r\nContent-Length: 16\r\nConnection: close\r\n\r\n400 Bad Request\n",
        ),
        Row(
            "a transfer coding that isn't known",
            "GET /shop/hello HTTP/1.1\r\nHost: localhost\r\nTransfer-Encoding: gzip, chunked\r\n\r\n",
            "HTTP/1.1 501 Not Implemented\r\nDate: Sun, 06 Nov 1994 08:49:37 GMT\r\ncontent-type: text/plain\r\nContent-Length: 20\r\nConnection: close\r\n\r\n501 Not Implemented\n",
        ),
        Row(
            "a body of one byte too many",
            "GET /shop/hello HTTP/1.1\r\nHost: localhost\r\nContent-Length: 65537\r\n\r\n",
            "HTTP/1.1 413 Payload Too Large\r\nDate: Sun, 06 Nov 1994 08:49:37 GMT\r\ncontent-type: text/plain\r\nContent-Length: 22\r\nConnection: close\r\n\r\n413 Payload Too Large\n",
        ),
        Row(
            "a head of 64 fields",
            "GET /shop/hello HTTP/1.1\r\nHost: localhost\r\na: b\r\na: b\r\na: b\r\na: b\r\na: b\r\na: b\r\na: b\r\na: b\r\na: b\r\na: b\r\na: b\r\na: b\r\na: b\r\na: b\r\na: b\r\na: b\r\na: b\r\na: b\r\na: b\r\na: b\r\na: b\r\na: b\r\na: b\r\na: b\r\na: b\r\na: b\r\na: b\r\na: b\r\na: b\r\na: b\r\na: b\r\na: b\r\na: b\r\na: b\r\na: b\r\na: b\r\na: b\r\na: b\r\na: b\r\na: b\r\na: b\r\na: b\r\na: b\r\na: b\r\na: b\r\na: b\r\na: b\r\na: b\r\na: b\r\na: b\r\na: b\r\na: b\r\na: b\r\na: b\r\na: b\r\na: b\r\na: b\r\na: b\r\na: b\r\na: b\r\na: b\r\na: b\r\na: b\r\n\r\n",
            "HTTP/1.1 200 OK\r\nDate: Sun, 06 Nov 1994 08:49:37 GMT\r\ncontent-type: text/plain\r\nContent-Length: 6\r\n\r\nHello\n",
        ),
        Row(
            "a head of 65 fields",
            "GET /shop/hello HTTP/1.1\r\nHost: localhost\r\na: b\r\na: b\r\na: b\r\na: b\r\na: b\r\na: b\r\na: b\r\na: b\r\na: b\r\na: b\r\na: b\r\na: b\r\na: b\r\na: b\r\na: b\r\na: b\r\na: b\r\na: b\r\na: b\r\na: b\r\na: b\r\na: b\r\na: b\r\na: b\r\na: b\r\na: b\r\na: b\r\na: b\r\na: b\r\na: b\r\na: b\r\na: b\r\na: b\r\na: b\r\na: b\r\na: b\r\na: b\r\na: b\r\na: b\r\na: b\r\na: b\r\na: b\r\na: b\r\na: b\r\na: b\r\na: b\r\na: b\r\na: b\r\na: b\r\na: b\r\na: b\r\na: b\r\na: b\r\na: b\r\na: b\r\na: b\r\na: b\r\na: b\r\na: b\r\na: b\r\na: b\r\na: b\r\na: b\r\na: b\r\n\r\n",
            "HTTP/1.1 431 Request Header Fields Too Large\r\nDate: Sun, 06 Nov 1994 08:49:37 GMT\r\ncontent-type: text/plain\r\nContent-Length: 36\r\nConnection: close\r\n\r\n431 Request Header Fields Too Large\n",
        ),
        Row(
            "a tunnel",
            "CONNECT localhost:80 HTTP/1.1\r\nHost: localhost\r\n\r\n",
            "HTTP/1.1 501 Not Implemented\r\nDate: Sun, 06 Nov 1994 08:49:37 GMT\r\ncontent-type: text/plain\r\nContent-Length: 20\r\nConnection: close\r\n\r\n501 Not Implemented\n",
        ),
        Row(
            "a path above the root",
            "GET /shop/../../hello HTTP/1.1\r\nHost: localhost\r\n\r\n",
            "HTTP/1.1 400 Bad Request\r\nDate: Sun, 06 Nov 1994 08:49:37 GMT\r\ncontent-type: text/plain\r\nContent-Length: 16\r\nConnection: close\r\n\r\n400 Bad Request\n",
        ),
    ],
}];
