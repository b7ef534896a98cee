//! Dispatches one in another, and what each of them shows (Jakarta Servlet 6.0, sections 6.2.5, 9.3.1, 9.4.2 and 10.9.1).

use super::{Row, Table, Way};
use sv_showcase::BUILT_IN;

/// A default page that shows what it is asked.
const SNOOPED: &str = r#"
[[context]]
path = "/shop"
servlet = [
  { name = "snoop", patterns = ["/snoop"] },
  { name = "includer", patterns = ["/inc"] },
  { name = "faulty", patterns = ["/faulty"] },
]
error-page = [{ path = "/snoop" }]
"#;

/// A filter for each kind of dispatch, and a page for 404.
const MARKED: &str = r#"
[[context]]
path = "/shop"
servlet = [
  { name = "hello", patterns = ["/hello"] },
  { name = "includer", patterns = ["/inc"] },
  { name = "forwarder", patterns = ["/fwd"] },
  { name = "faulty", patterns = ["/faulty"] },
]
filter = [{ name = "stamp-r" }, { name = "stamp-f" }, { name = "stamp-i" }, { name = "stamp-e" }]
filter-mapping = [
  { filter = "stamp-r", pattern = "/*" },
  { filter = "stamp-f", pattern = "/*", dispatch = ["FORWARD"] },
  { filter = "stamp-i", pattern = "/*", dispatch = ["INCLUDE"] },
  { filter = "stamp-e", pattern = "/*", dispatch = ["ERROR"] },
]
error-page = [{ status = 404, path = "/hello" }]
"#;

/// A filter that asks for a key, for all dispatches but the request's own.
const GUARDED: &str = r#"
[[context]]
path = "/shop"
servlet = [
  { name = "hello", patterns = ["/hello"] },
  { name = "includer", patterns = ["/inc"] },
  { name = "forwarder", patterns = ["/fwd"] },
  { name = "faulty", patterns = ["/faulty"] },
]
filter = [{ name = "gate" }]
filter-mapping = [{ filter = "gate", servlet = "hello", dispatch = ["FORWARD", "INCLUDE", "ERROR"] }]
error-page = [{ status = 404, path = "/hello" }]
"#;

pub static INCLUDES: [Table; 1] = [Table {
    descriptor: BUILT_IN,
    way: Way::Whole,
    rows: &[
        Row(
            "an include with a query: its parameters stand first, the request keeps its own URI and query",
            "GET /shop/inc?path=/snoop%3Fa=1 HTTP/1.1\r\nHost: localhost\r\n\r\n",
            "HTTP/1.1 200 OK\r\nDate: Sun, 06 Nov 1994 08:49:37 GMT\r\ncontent-type: text/plain\r\nContent-Length: 316\r\n\r\n[method=GET\nrequest_uri=/shop/inc\ncontext_path=/shop\nservlet_path=/inc\npath_info=-\nquery=path=/snoop%3Fa=1\np a=1\np path=/snoop?a=1\na jakarta.servlet.include.context_path=/shop\na jakarta.servlet.include.query_string=a=1\na jakarta.servlet.include.request_uri=/shop/snoop\na jakarta.servlet.include.servlet_path=/snoop\n]",
        ),
        Row(
            "an include without a query has no attribute for it",
            "GET /shop/inc?path=/snoop HTTP/1.1\r\nHost: localhost\r\n\r\n",
            "HTTP/1.1 200 OK\r\nDate: Sun, 06 Nov 1994 08:49:37 GMT\r\ncontent-type: text/plain\r\nContent-Length: 257\r\n\r\n[method=GET\nrequest_uri=/shop/inc\ncontext_path=/shop\nservlet_path=/inc\npath_info=-\nquery=path=/snoop\np path=/snoop\na jakarta.servlet.include.context_path=/shop\na jakarta.servlet.include.request_uri=/shop/snoop\na jakarta.servlet.include.servlet_path=/snoop\n]",
        ),
        Row(
            "an include with a path info",
            "GET /shop/inc?path=/ HTTP/1.1\r\nHost: localhost\r\n\r\n",
            "HTTP/1.1 200 OK\r\nDate: Sun, 06 Nov 1994 08:49:37 GMT\r\ncontent-type: text/plain\r\nContent-Length: 274\r\n\r\n[method=GET\nrequest_uri=/shop/inc\ncontext_path=/shop\nservlet_path=/inc\npath_info=-\nquery=path=/\np path=/\na jakarta.servlet.include.context_path=/shop\na jakarta.servlet.include.path_info=/\na jakarta.servlet.include.request_uri=/shop/\na jakarta.servlet.include.servlet_path=\n]",
        ),
        Row(
            "an include in an include: the inner one's attributes stand, and no query of the outer one",
            "GET /shop/inc?path=/inc%3Fpath=/snoop HTTP/1.1\r\nHost: localhost\r\n\r\n",
            "HTTP/1.1 200 OK\r\nDate: Sun, 06 Nov 1994 08:49:37 GMT\r\ncontent-type: text/plain\r\nContent-Length: 295\r\n\r\n[[method=GET\nrequest_uri=/shop/inc\ncontext_path=/shop\nservlet_path=/inc\npath_info=-\nquery=path=/inc%3Fpath=/snoop\np path=/snoop\np path=/inc?path=/snoop\na jakarta.servlet.include.context_path=/shop\na jakarta.servlet.include.request_uri=/shop/snoop\na jakarta.servlet.include.servlet_path=/snoop\n]]",
        ),
    ],
}];

pub static FORWARDS: [Table; 1] = [Table {
    descriptor: BUILT_IN,
    way: Way::Whole,
    rows: &[
        Row(
            "a forward with a query",
            "GET /shop/fwd?to=/snoop%3Fa=1 HTTP/1.1\r\nHost: localhost\r\n\r\n",
            "HTTP/1.1 200 OK\r\nDate: Sun, 06 Nov 1994 08:49:37 GMT\r\ncontent-type: text/plain\r\nContent-Length: 310\r\n\r\nmethod=GET\nrequest_uri=/shop/snoop\ncontext_path=/shop\nservlet_path=/snoop\npath_info=-\nquery=a=1\np a=1\np to=/snoop?a=1\na jakarta.servlet.forward.context_path=/shop\na jakarta.servlet.forward.query_string=to=/snoop%3Fa=1\na jakarta.servlet.forward.request_uri=/shop/fwd\na jakarta.servlet.forward.servlet_path=/fwd\n",
        ),
        Row(
            "a forward without a query keeps the old one",
            "GET /shop/fwd?to=/snoop HTTP/1.1\r\nHost: localhost\r\n\r\n",
            "HTTP/1.1 200 OK\r\nDate: Sun, 06 Nov 1994 08:49:37 GMT\r\ncontent-type: text/plain\r\nContent-Length: 300\r\n\r\nmethod=GET\nrequest_uri=/shop/snoop\ncontext_path=/shop\nservlet_path=/snoop\npath_info=-\nquery=to=/snoop\np to=/snoop\na jakarta.servlet.forward.context_path=/shop\na jakarta.servlet.forward.query_string=to=/snoop\na jakarta.servlet.forward.request_uri=/shop/fwd\na jakarta.servlet.forward.servlet_path=/fwd\n",
        ),
        Row(
            "a forward behind a forward: the attributes are the first one's",
            "GET /shop/fwd?to=/fwd%3Fto=/snoop%253Fa=1 HTTP/1.1\r\nHost: localhost\r\n\r\n",
            "HTTP/1.1 200 OK\r\nDate: Sun, 06 Nov 1994 08:49:37 GMT\r\ncontent-type: text/plain\r\nContent-Length: 348\r\n\r\nmethod=GET\nrequest_uri=/shop/snoop\ncontext_path=/shop\nservlet_path=/snoop\npath_info=-\nquery=a=1\np a=1\np to=/snoop?a=1\np to=/fwd?to=/snoop%3Fa=1\na jakarta.servlet.forward.context_path=/shop\na jakarta.servlet.forward.query_string=to=/fwd%3Fto=/snoop%253Fa=1\na jakarta.servlet.forward.request_uri=/shop/fwd\na jakarta.servlet.forward.servlet_path=/fwd\n",
        ),
    ],
}];

pub static MIXED: [Table; 1] = [Table {
    descriptor: BUILT_IN,
    way: Way::Whole,
    rows: &[
        Row(
            "a forward in an include keeps the include's attributes, and empties the body",
            "GET /shop/inc?path=/fwd%3Fto=/snoop HTTP/1.1\r\nHost: localhost\r\n\r\n",
            "HTTP/1.1 200 OK\r\nDate: Sun, 06 Nov 1994 08:49:37 GMT\r\ncontent-type: text/plain\r\nContent-Length: 533\r\n\r\nmethod=GET\nrequest_uri=/shop/snoop\ncontext_path=/shop\nservlet_path=/snoop\npath_info=-\nquery=path=/fwd%3Fto=/snoop\np to=/snoop\np path=/fwd?to=/snoop\na jakarta.servlet.forward.context_path=/shop\na jakarta.servlet.forward.query_string=path=/fwd%3Fto=/snoop\na jakarta.servlet.forward.request_uri=/shop/inc\na jakarta.servlet.forward.servlet_path=/inc\na jakarta.servlet.include.context_path=/shop\na jakarta.servlet.include.query_string=to=/snoop\na jakarta.servlet.include.request_uri=/shop/fwd\na jakarta.servlet.include.servlet_path=/fwd\n]",
        ),
        Row(
            "an include in a forward keeps the forward's URI, query and attributes",
            "GET /shop/fwd?to=/inc%3Fpath=/snoop HTTP/1.1\r\nHost: localhost\r\n\r\n",
            "HTTP/1.1 200 OK\r\nDate: Sun, 06 Nov 1994 08:49:37 GMT\r\ncontent-type: text/plain\r\nContent-Length: 477\r\n\r\n[method=GET\nrequest_uri=/shop/inc\ncontext_path=/shop\nservlet_path=/inc\npath_info=-\nquery=path=/snoop\np path=/snoop\np to=/inc?path=/snoop\na jakarta.servlet.forward.context_path=/shop\na jakarta.servlet.forward.query_string=to=/inc%3Fpath=/snoop\na jakarta.servlet.forward.request_uri=/shop/fwd\na jakarta.servlet.forward.servlet_path=/fwd\na jakarta.servlet.include.context_path=/shop\na jakarta.servlet.include.request_uri=/shop/snoop\na jakarta.servlet.include.servlet_path=/snoop\n]",
        ),
        Row(
            "an error that is sent below an include is an end",
            "GET /shop/inc?path=/faulty%3Fcode=404 HTTP/1.1\r\nHost: localhost\r\n\r\n",
            "HTTP/1.1 200 OK\r\nDate: Sun, 06 Nov 1994 08:49:37 GMT\r\ncontent-type: text/plain\r\nContent-Length: 2\r\n\r\n[]",
        ),
        Row(
            "a fault below an include ends the includer too",
            "GET /shop/inc?path=/faulty%3Ffault=x HTTP/1.1\r\nHost: localhost\r\n\r\n",
            "HTTP/1.1 500 Internal Server Error\r\nDate: Sun, 06 Nov 1994 08:49:37 GMT\r\ncontent-type: text/plain\r\nContent-Length: 26\r\n\r\n500 Internal Server Error\n",
        ),
        Row(
            "a path that no target of a request may have is a fault",
            "GET /shop/inc?path=hello HTTP/1.1\r\nHost: localhost\r\n\r\n",
            "HTTP/1.1 500 Internal Server Error\r\nDate: Sun, 06 Nov 1994 08:49:37 GMT\r\ncontent-type: text/plain\r\nContent-Length: 26\r\n\r\n500 Internal Server Error\n",
        ),
    ],
}];

pub static PAGES: [Table; 1] = [Table {
    descriptor: SNOOPED,
    way: Way::Whole,
    rows: &[
        Row(
            "an error page that is reached from an include sees the request as it came",
            "GET /shop/inc?path=/faulty%3Ffault=x HTTP/1.1\r\nHost: localhost\r\n\r\n",
            "HTTP/1.1 500 Internal Server Error\r\nDate: Sun, 06 Nov 1994 08:49:37 GMT\r\ncontent-type: text/plain\r\nContent-Length: 503\r\n\r\nmethod=GET\nrequest_uri=/shop/snoop\ncontext_path=/shop\nservlet_path=/snoop\npath_info=-\nquery=path=/faulty%3Ffault=x\np path=/faulty?fault=x\na jakarta.servlet.error.message=x\na jakarta.servlet.error.request_uri=/shop/inc\na jakarta.servlet.error.servlet_name=includer\na jakarta.servlet.error.status_code=500\na jakarta.servlet.forward.context_path=/shop\na jakarta.servlet.forward.query_string=path=/faulty%3Ffault=x\na jakarta.servlet.forward.request_uri=/shop/inc\na jakarta.servlet.forward.servlet_path=/inc\n",
        ),
        Row(
            "a bad path's page has the fault's name",
            "GET /shop/inc?path=hello HTTP/1.1\r\nHost: localhost\r\n\r\n",
            "HTTP/1.1 500 Internal Server Error\r\nDate: Sun, 06 Nov 1994 08:49:37 GMT\r\ncontent-type: text/plain\r\nContent-Length: 476\r\n\r\nmethod=GET\nrequest_uri=/shop/snoop\ncontext_path=/shop\nservlet_path=/snoop\npath_info=-\nquery=path=hello\np path=hello\na jakarta.servlet.error.message=bad-path\na jakarta.servlet.error.request_uri=/shop/inc\na jakarta.servlet.error.servlet_name=includer\na jakarta.servlet.error.status_code=500\na jakarta.servlet.forward.context_path=/shop\na jakarta.servlet.forward.query_string=path=hello\na jakarta.servlet.forward.request_uri=/shop/inc\na jakarta.servlet.forward.servlet_path=/inc\n",
        ),
        Row(
            "a path without a servlet: no name and no text",
            "GET /shop/none HTTP/1.1\r\nHost: localhost\r\n\r\n",
            "HTTP/1.1 404 Not Found\r\nDate: Sun, 06 Nov 1994 08:49:37 GMT\r\ncontent-type: text/plain\r\nContent-Length: 391\r\n\r\nmethod=GET\nrequest_uri=/shop/snoop\ncontext_path=/shop\nservlet_path=/snoop\npath_info=-\nquery=-\na jakarta.servlet.error.message=\na jakarta.servlet.error.request_uri=/shop/none\na jakarta.servlet.error.servlet_name=\na jakarta.servlet.error.status_code=404\na jakarta.servlet.forward.context_path=/shop\na jakarta.servlet.forward.request_uri=/shop/none\na jakarta.servlet.forward.servlet_path=/none\n",
        ),
    ],
}];

pub static FILTERED: [Table; 2] = [
    Table {
        descriptor: MARKED,
        way: Way::Whole,
        rows: &[
            Row(
                "filters of an include, round what is included",
                "GET /shop/inc?path=/hello HTTP/1.1\r\nHost: localhost\r\n\r\n",
                "HTTP/1.1 200 OK\r\nDate: Sun, 06 Nov 1994 08:49:37 GMT\r\ncontent-type: text/plain\r\nContent-Length: 16\r\n\r\n<r[<iHello\ni>]r>",
            ),
            Row(
                "filters of a forward; the body is emptied before them",
                "GET /shop/fwd?to=/hello HTTP/1.1\r\nHost: localhost\r\n\r\n",
                "HTTP/1.1 200 OK\r\nDate: Sun, 06 Nov 1994 08:49:37 GMT\r\ncontent-type: text/plain\r\nContent-Length: 12\r\n\r\n<fHello\nf>r>",
            ),
            Row(
                "filters of an error page",
                "GET /shop/faulty?code=404 HTTP/1.1\r\nHost: localhost\r\n\r\n",
                "HTTP/1.1 404 Not Found\r\nDate: Sun, 06 Nov 1994 08:49:37 GMT\r\ncontent-type: text/plain\r\nContent-Length: 10\r\n\r\n<eHello\ne>",
            ),
        ],
    },
    Table {
        descriptor: GUARDED,
        way: Way::Whole,
        rows: &[
            Row(
                "a filter that sends an error in a forward",
                "GET /shop/fwd HTTP/1.1\r\nHost: localhost\r\n\r\n",
                "HTTP/1.1 403 Forbidden\r\nDate: Sun, 06 Nov 1994 08:49:37 GMT\r\ncontent-type: text/plain\r\nContent-Length: 14\r\n\r\n403 Forbidden\n",
            ),
            Row(
                "in an include it is an end",
                "GET /shop/inc HTTP/1.1\r\nHost: localhost\r\n\r\n",
                "HTTP/1.1 200 OK\r\nDate: Sun, 06 Nov 1994 08:49:37 GMT\r\ncontent-type: text/plain\r\nContent-Length: 2\r\n\r\n[]",
            ),
            Row(
                "on the way to an error page",
                "GET /shop/faulty?code=404 HTTP/1.1\r\nHost: localhost\r\n\r\n",
                "HTTP/1.1 500 Internal Server Error\r\nDate: Sun, 06 Nov 1994 08:49:37 GMT\r\ncontent-type: text/plain\r\nContent-Length: 26\r\n\r\n500 Internal Server Error\n",
            ),
            Row(
                "which is let pass with the key",
                "GET /shop/faulty?code=404&key=open HTTP/1.1\r\nHost: localhost\r\n\r\n",
                "HTTP/1.1 404 Not Found\r\nDate: Sun, 06 Nov 1994 08:49:37 GMT\r\ncontent-type: text/plain\r\nContent-Length: 6\r\n\r\nHello\n",
            ),
        ],
    },
];
