//! How a context names its sessions: by the cookie that its descriptor chooses (RFC 6265, sections 4.1.1 and 4.1.2.5; RFC 6265bis, section
//! 4.1.2.7). The digits of a cookie are those of `sessions.rt`.

use super::{Row, Table, Way};

/// One whose sessions have all that a descriptor may choose, and one that is at the root and chooses one attribute.
const CHOSEN: &str = r#"
[[context]]
path = "/shop"
cookie = { name = "__Secure-ID", secure = true, same-site = "Lax" }
servlet = [{ name = "count", patterns = ["/count"] }]

[[context]]
path = ""
cookie = { same-site = "Strict" }
servlet = [{ name = "count", patterns = ["/count"] }]
"#;

pub static CHOICES: [Table; 1] = [Table {
    descriptor: CHOSEN,
    way: Way::Whole,
    rows: &[
        Row(
            "a session by the cookie of its context",
            "GET /shop/count HTTP/1.1\r\nHost: localhost\r\n\r\nGET /shop/count HTTP/1.1\r\nHost: localhost\r\nCookie: __Secure-ID=0000000000000000000100000000000000000000000000000001\r\n\r\n",
            "HTTP/1.1 200 OK\r\nDate: Sun, 06 Nov 1994 08:49:37 GMT\r\ncontent-type: text/plain\r\nset-cookie: __Secure-ID=0000000000000000000100000000000000000000000000000001; Path=/shop; HttpOnly; Secure; SameSite=Lax\r\nContent-Length: 2\r\n\r\n1\nHTTP/1.1 200 OK\r\nDate: Sun, 06 Nov 1994 08:49:37 GMT\r\ncontent-type: text/plain\r\nContent-Length: 2\r\n\r\n2\n",
        ),
        Row(
            "the same digits in a cookie of the usual name, which is another's",
            "GET /shop/count HTTP/1.1\r\nHost: localhost\r\n\r\nGET /shop/count HTTP/1.1\r\nHost: localhost\r\nCookie: JSESSIONID=0000000000000000000100000000000000000000000000000001\r\n\r\n",
            "HTTP/1.1 200 OK\r\nDate: Sun, 06 Nov 1994 08:49:37 GMT\r\ncontent-type: text/plain\r\nset-cookie: __Secure-ID=0000000000000000000100000000000000000000000000000001; Path=/shop; HttpOnly; Secure; SameSite=Lax\r\nContent-Length: 2\r\n\r\n1\nHTTP/1.1 200 OK\r\nDate: Sun, 06 Nov 1994 08:49:37 GMT\r\ncontent-type: text/plain\r\nset-cookie: __Secure-ID=0000000000000000000200000000000000000000000000000002; Path=/shop; HttpOnly; Secure; SameSite=Lax\r\nContent-Length: 2\r\n\r\n1\n",
        ),
        Row(
            "a second cookie of the name is looked at if the first names no session",
            "GET /shop/count HTTP/1.1\r\nHost: localhost\r\n\r\nGET /shop/count HTTP/1.1\r\nHost: localhost\r\nCookie: a=b; __Secure-ID=1; __Secure-ID=0000000000000000000100000000000000000000000000000001\r\n\r\n",
            "HTTP/1.1 200 OK\r\nDate: Sun, 06 Nov 1994 08:49:37 GMT\r\ncontent-type: text/plain\r\nset-cookie: __Secure-ID=0000000000000000000100000000000000000000000000000001; Path=/shop; HttpOnly; Secure; SameSite=Lax\r\nContent-Length: 2\r\n\r\n1\nHTTP/1.1 200 OK\r\nDate: Sun, 06 Nov 1994 08:49:37 GMT\r\ncontent-type: text/plain\r\nContent-Length: 2\r\n\r\n2\n",
        ),
        Row(
            "an attribute alone, with the usual name",
            "GET /count HTTP/1.1\r\nHost: localhost\r\n\r\nGET /count HTTP/1.1\r\nHost: localhost\r\nCookie: JSESSIONID=0100000000000000000100000000000000000000000000000001\r\n\r\n",
            "HTTP/1.1 200 OK\r\nDate: Sun, 06 Nov 1994 08:49:37 GMT\r\ncontent-type: text/plain\r\nset-cookie: JSESSIONID=0100000000000000000100000000000000000000000000000001; Path=/; HttpOnly; SameSite=Strict\r\nContent-Length: 2\r\n\r\n1\nHTTP/1.1 200 OK\r\nDate: Sun, 06 Nov 1994 08:49:37 GMT\r\ncontent-type: text/plain\r\nContent-Length: 2\r\n\r\n2\n",
        ),
    ],
}];
