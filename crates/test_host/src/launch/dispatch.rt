//! Filters, forwards, includes and error pages (Jakarta Servlet 6.0, chapters 6, 9 and 10.9).

use super::{Row, Table, Way};
use sv_showcase::BUILT_IN;

/// Two filters, of which one is mapped twice to the same path.
const STAMPS: &str = r#"
[[context]]
path = "/shop"
servlet = [{ name = "hello", patterns = ["/hello"] }]
filter = [{ name = "stamp-a" }, { name = "stamp-b" }]
filter-mapping = [
  { filter = "stamp-a", servlet = "hello" },
  { filter = "stamp-b", pattern = "/*" },
  { filter = "stamp-a", pattern = "/hello" },
]
"#;

const GATE: &str = r#"
[[context]]
path = "/shop"
servlet = [{ name = "hello", patterns = ["/hello"] }]
filter = [{ name = "gate" }]
filter-mapping = [{ filter = "gate", pattern = "/*" }]
"#;

const PAGES: &str = r#"
[[context]]
path = "/shop"
servlet = [
  { name = "snoop", patterns = ["/snoop"] },
  { name = "faulty", patterns = ["/faulty", "/oops"] },
]
error-page = [{ status = 404, path = "/oops" }, { path = "/snoop" }]
"#;

pub static TABLES: [Table; 4] = [
    Table {
        descriptor: BUILT_IN,
        way: Way::Whole,
        rows: &[
            Row(
                "below an include status and fields stand still",
                "GET /shop/inc?path=/faulty HTTP/1.1\r\nHost: localhost\r\n\r\n",
                "HTTP/1.1 200 OK\r\nDate: Sun, 06 Nov 1994 08:49:37 GMT\r\ncontent-type: text/plain\r\nContent-Length: 9\r\n\r\n[faulty\n]",
            ),
            Row(
                "a forward empties the body",
                "GET /shop/fwd HTTP/1.1\r\nHost: localhost\r\n\r\n",
                "HTTP/1.1 200 OK\r\nDate: Sun, 06 Nov 1994 08:49:37 GMT\r\ncontent-type: text/plain\r\nContent-Length: 6\r\n\r\nHello\n",
            ),
            Row(
                "a servlet that forwards to itself is abandoned",
                "GET /shop/fwd?to=/fwd HTTP/1.1\r\nHost: localhost\r\n\r\n",
                "HTTP/1.1 500 Internal Server Error\r\nDate: Sun, 06 Nov 1994 08:49:37 GMT\r\ncontent-type: text/plain\r\nContent-Length: 26\r\n\r\n500 Internal Server Error\n",
            ),
            Row(
                "a servlet that sends an error",
                "GET /shop/faulty?code=404 HTTP/1.1\r\nHost: localhost\r\n\r\n",
                "HTTP/1.1 404 Not Found\r\nDate: Sun, 06 Nov 1994 08:49:37 GMT\r\ncontent-type: text/plain\r\nContent-Length: 14\r\n\r\n404 Not Found\n",
            ),
            Row(
                "asked for no error",
                "GET /shop/faulty HTTP/1.1\r\nHost: localhost\r\n\r\n",
                "HTTP/1.1 418 I'm a teapot\r\nDate: Sun, 06 Nov 1994 08:49:37 GMT\r\ncontent-type: text/plain\r\nx-faulty: yes\r\nContent-Length: 7\r\n\r\nfaulty\n",
            ),
        ],
    },
    Table {
        descriptor: STAMPS,
        way: Way::Whole,
        rows: &[Row(
            "a filter that is mapped by pattern stands before one by servlet, and each once",
            "GET /shop/hello HTTP/1.1\r\nHost: localhost\r\n\r\n",
            "HTTP/1.1 200 OK\r\nDate: Sun, 06 Nov 1994 08:49:37 GMT\r\ncontent-type: text/plain\r\nContent-Length: 14\r\n\r\n<b<aHello\na>b>",
        )],
    },
    Table {
        descriptor: GATE,
        way: Way::Whole,
        rows: &[
            Row(
                "a filter that sends an error",
                "GET /shop/hello HTTP/1.1\r\nHost: localhost\r\n\r\n",
                "HTTP/1.1 403 Forbidden\r\nDate: Sun, 06 Nov 1994 08:49:37 GMT\r\ncontent-type: text/plain\r\nContent-Length: 14\r\n\r\n403 Forbidden\n",
            ),
            Row(
                "a filter that passes",
                "GET /shop/hello?key=open HTTP/1.1\r\nHost: localhost\r\n\r\n",
                "HTTP/1.1 200 OK\r\nDate: Sun, 06 Nov 1994 08:49:37 GMT\r\ncontent-type: text/plain\r\nContent-Length: 6\r\n\r\nHello\n",
            ),
        ],
    },
    Table {
        descriptor: PAGES,
        way: Way::Whole,
        rows: &[
            Row(
                "an error page that faults",
                "GET /shop/faulty?code=404 HTTP/1.1\r\nHost: localhost\r\n\r\n",
                "HTTP/1.1 500 Internal Server Error\r\nDate: Sun, 06 Nov 1994 08:49:37 GMT\r\ncontent-type: text/plain\r\nContent-Length: 26\r\n\r\n500 Internal Server Error\n",
            ),
            Row(
                "the default error page",
                "GET /shop/faulty?fault=x HTTP/1.1\r\nHost: localhost\r\n\r\n",
                "HTTP/1.1 500 Internal Server Error\r\nDate: Sun, 06 Nov 1994 08:49:37 GMT\r\ncontent-type: text/plain\r\nContent-Length: 467\r\n\r\nmethod=GET\nrequest_uri=/shop/snoop\ncontext_path=/shop\nservlet_path=/snoop\npath_info=-\nquery=fault=x\np fault=x\na jakarta.servlet.error.message=x\na jakarta.servlet.error.request_uri=/shop/faulty\na jakarta.servlet.error.servlet_name=faulty\na jakarta.servlet.error.status_code=500\na jakarta.servlet.forward.context_path=/shop\na jakarta.servlet.forward.query_string=fault=x\na jakarta.servlet.forward.request_uri=/shop/faulty\na jakarta.servlet.forward.servlet_path=/faulty\n",
            ),
        ],
    },
];
