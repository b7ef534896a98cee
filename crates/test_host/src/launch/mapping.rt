//! Which context and which servlet a path has (Jakarta Servlet 6.0, chapter 12), by what the servlets show of it.

use super::{Row, Table, Way};
use sv_showcase::BUILT_IN;

/// Patterns of each form, in the root context. Two servlets show their paths, and the others are told apart by what they
/// write.
const PATTERNS: &str = r#"
[[context]]
path = ""
servlet = [
  { name = "snoop-bar", patterns = ["/foo/bar/*", "/baz/*"] },
  { name = "hello", patterns = ["/catalog"] },
  { name = "snoop-bop", patterns = ["*.bop"] },
  { name = "faulty", patterns = ["/"] },
]
"#;

/// A context below another.
const CONTEXTS: &str = r#"
[[context]]
path = "/a"
servlet = [{ name = "snoop", patterns = ["/*"] }]

[[context]]
path = "/a/b"
servlet = [{ name = "snoop", patterns = ["/"] }]
"#;

pub static BUILT: [Table; 1] = [Table {
    descriptor: BUILT_IN,
    way: Way::Whole,
    rows: &[
        Row(
            "the context's root",
            "GET /shop/ HTTP/1.1\r\nHost: localhost\r\n\r\n",
            "HTTP/1.1 200 OK\r\nDate: Sun, 06 Nov 1994 08:49:37 GMT\r\ncontent-type: text/plain\r\nContent-Length: 83\r\n\r\nmethod=GET\nrequest_uri=/shop/\ncontext_path=/shop\nservlet_path=\npath_info=/\nquery=-\n",
        ),
        Row(
            "the context's path alone",
            "GET /shop HTTP/1.1\r\nHost: localhost\r\n\r\n",
            "HTTP/1.1 200 OK\r\nDate: Sun, 06 Nov 1994 08:49:37 GMT\r\ncontent-type: text/plain\r\nContent-Length: 82\r\n\r\nmethod=GET\nrequest_uri=/shop\ncontext_path=/shop\nservlet_path=\npath_info=/\nquery=-\n",
        ),
        Row(
            "an exact pattern",
            "GET /shop/snoop?a=b HTTP/1.1\r\nHost: localhost\r\n\r\n",
            "HTTP/1.1 200 OK\r\nDate: Sun, 06 Nov 1994 08:49:37 GMT\r\ncontent-type: text/plain\r\nContent-Length: 102\r\n\r\nmethod=GET\nrequest_uri=/shop/snoop\ncontext_path=/shop\nservlet_path=/snoop\npath_info=-\nquery=a=b\np a=b\n",
        ),
        Row(
            "a path of no context",
            "GET /elsewhere HTTP/1.1\r\nHost: localhost\r\n\r\n",
            "HTTP/1.1 404 Not Found\r\nDate: Sun, 06 Nov 1994 08:49:37 GMT\r\ncontent-type: text/plain\r\nContent-Length: 14\r\n\r\n404 Not Found\n",
        ),
        Row(
            "a path that only begins like the context's",
            "GET /shopping HTTP/1.1\r\nHost: localhost\r\n\r\n",
            "HTTP/1.1 404 Not Found\r\nDate: Sun, 06 Nov 1994 08:49:37 GMT\r\ncontent-type: text/plain\r\nContent-Length: 14\r\n\r\n404 Not Found\n",
        ),
        Row(
            "a path of no servlet",
            "GET /shop/none HTTP/1.1\r\nHost: localhost\r\n\r\n",
            "HTTP/1.1 404 Not Found\r\nDate: Sun, 06 Nov 1994 08:49:37 GMT\r\ncontent-type: text/plain\r\nContent-Length: 14\r\n\r\n404 Not Found\n",
        ),
    ],
}];

pub static WRITTEN: [Table; 2] = [
    Table {
        descriptor: PATTERNS,
        way: Way::Whole,
        rows: &[
            Row(
                "a prefix before an extension",
                "GET /foo/bar/index.bop HTTP/1.1\r\nHost: localhost\r\n\r\n",
                "HTTP/1.1 200 OK\r\nDate: Sun, 06 Nov 1994 08:49:37 GMT\r\ncontent-type: text/plain\r\nContent-Length: 107\r\n\r\nmethod=GET\nrequest_uri=/foo/bar/index.bop\ncontext_path=\nservlet_path=/foo/bar\npath_info=/index.bop\nquery=-\n",
            ),
            Row(
                "what is below a prefix",
                "GET /foo/bar/index.html HTTP/1.1\r\nHost: localhost\r\n\r\n",
                "HTTP/1.1 200 OK\r\nDate: Sun, 06 Nov 1994 08:49:37 GMT\r\ncontent-type: text/plain\r\nContent-Length: 109\r\n\r\nmethod=GET\nrequest_uri=/foo/bar/index.html\ncontext_path=\nservlet_path=/foo/bar\npath_info=/index.html\nquery=-\n",
            ),
            Row(
                "a prefix itself",
                "GET /baz HTTP/1.1\r\nHost: localhost\r\n\r\n",
                "HTTP/1.1 200 OK\r\nDate: Sun, 06 Nov 1994 08:49:37 GMT\r\ncontent-type: text/plain\r\nContent-Length: 80\r\n\r\nmethod=GET\nrequest_uri=/baz\ncontext_path=\nservlet_path=/baz\npath_info=-\nquery=-\n",
            ),
            Row(
                "below the other prefix",
                "GET /baz/index.html HTTP/1.1\r\nHost: localhost\r\n\r\n",
                "HTTP/1.1 200 OK\r\nDate: Sun, 06 Nov 1994 08:49:37 GMT\r\ncontent-type: text/plain\r\nContent-Length: 101\r\n\r\nmethod=GET\nrequest_uri=/baz/index.html\ncontext_path=\nservlet_path=/baz\npath_info=/index.html\nquery=-\n",
            ),
            Row(
                "an exact pattern",
                "GET /catalog HTTP/1.1\r\nHost: localhost\r\n\r\n",
                "HTTP/1.1 200 OK\r\nDate: Sun, 06 Nov 1994 08:49:37 GMT\r\ncontent-type: text/plain\r\nContent-Length: 6\r\n\r\nHello\n",
            ),
            Row(
                "the default",
                "GET /catalog/index.html HTTP/1.1\r\nHost: localhost\r\n\r\n",
                "HTTP/1.1 418 I'm a teapot\r\nDate: Sun, 06 Nov 1994 08:49:37 GMT\r\ncontent-type: text/plain\r\nx-faulty: yes\r\nContent-Length: 7\r\n\r\nfaulty\n",
            ),
            Row(
                "an extension",
                "GET /catalog/racecar.bop HTTP/1.1\r\nHost: localhost\r\n\r\n",
                "HTTP/1.1 200 OK\r\nDate: Sun, 06 Nov 1994 08:49:37 GMT\r\ncontent-type: text/plain\r\nContent-Length: 112\r\n\r\nmethod=GET\nrequest_uri=/catalog/racecar.bop\ncontext_path=\nservlet_path=/catalog/racecar.bop\npath_info=-\nquery=-\n",
            ),
            Row(
                "an extension at the root",
                "GET /index.bop HTTP/1.1\r\nHost: localhost\r\n\r\n",
                "HTTP/1.1 200 OK\r\nDate: Sun, 06 Nov 1994 08:49:37 GMT\r\ncontent-type: text/plain\r\nContent-Length: 92\r\n\r\nmethod=GET\nrequest_uri=/index.bop\ncontext_path=\nservlet_path=/index.bop\npath_info=-\nquery=-\n",
            ),
        ],
    },
    Table {
        descriptor: CONTEXTS,
        way: Way::Whole,
        rows: &[
            Row(
                "a context's path ends at a slash",
                "GET /a/bc HTTP/1.1\r\nHost: localhost\r\n\r\n",
                "HTTP/1.1 200 OK\r\nDate: Sun, 06 Nov 1994 08:49:37 GMT\r\ncontent-type: text/plain\r\nContent-Length: 81\r\n\r\nmethod=GET\nrequest_uri=/a/bc\ncontext_path=/a\nservlet_path=\npath_info=/bc\nquery=-\n",
            ),
            Row(
                "the longest context path",
                "GET /a/b HTTP/1.1\r\nHost: localhost\r\n\r\n",
                "HTTP/1.1 200 OK\r\nDate: Sun, 06 Nov 1994 08:49:37 GMT\r\ncontent-type: text/plain\r\nContent-Length: 81\r\n\r\nmethod=GET\nrequest_uri=/a/b\ncontext_path=/a/b\nservlet_path=/\npath_info=-\nquery=-\n",
            ),
            Row(
                "no context",
                "GET /ab HTTP/1.1\r\nHost: localhost\r\n\r\n",
                "HTTP/1.1 404 Not Found\r\nDate: Sun, 06 Nov 1994 08:49:37 GMT\r\ncontent-type: text/plain\r\nContent-Length: 14\r\n\r\n404 Not Found\n",
            ),
        ],
    },
];
