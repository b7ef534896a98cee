//! Plain pages.

use crate::model::fields::{Pairs, are_fields, fields_of, is_field};
use http::StatusCode;
use std::alloc::Global;
use std::process::Abort;
use sv_model::{Response, Sequence, phrase, plain_body, plain_page, plain_type};

/// A plain page: its code, the fields so far, and the fields, the phrase and the body that it has then.
struct Page {
    name: &'static str,
    code: u16,
    so_far: Pairs,
    fields: Pairs,
    phrase: &'static str,
    body: &'static [u8],
    head_only: bool,
    close: bool,
}

/// The phrases are those of RFC 9110, section 15; it has none for 299.
static PAGES: [Page; 4] = [
    Page {
        name: "404, of which the head is sent alone",
        code: 404,
        so_far: &[("x-a", "1")],
        fields: &[("x-a", "1"), ("content-type", "text/plain")],
        phrase: "Not Found",
        body: b"404 Not Found\n",
        head_only: true,
        close: false,
    },
    Page {
        name: "500, which has a type and closes",
        code: 500,
        so_far: &[("content-type", "text/html"), ("x-a", "1")],
        fields: &[("content-type", "text/plain"), ("x-a", "1")],
        phrase: "Internal Server Error",
        body: b"500 Internal Server Error\n",
        head_only: false,
        close: true,
    },
    Page {
        name: "299",
        code: 299,
        so_far: &[],
        fields: &[("content-type", "text/plain")],
        phrase: "",
        body: b"299 \n",
        head_only: false,
        close: false,
    },
    Page {
        name: "503",
        code: 503,
        so_far: &[],
        fields: &[("content-type", "text/plain")],
        phrase: "Service Unavailable",
        body: b"503 Service Unavailable\n",
        head_only: false,
        close: false,
    },
];

fn status(rt: &impl Abort, code: u16) -> StatusCode {
    StatusCode::from_u16(code).expect(rt, "the code of a status")
}

/// The plain page of a row.
fn page_of(rt: &impl Abort, alloc: Global, page: &Page) -> Response {
    let status = status(rt, page.code);
    let fields = fields_of(rt, alloc, page.so_far);
    plain_page(alloc, status, fields, page.head_only, page.close).expect(rt, "memory")
}

/// The response is what a row says.
fn is_page(response: &Response, page: &Page) -> bool {
    response.status.as_u16() == page.code
        && are_fields(response.fields.as_slice(), page.fields)
        && response.body.as_slice() == page.body
        && response.head_only == page.head_only
        && response.close == page.close
}

/// The plain body of a code.
fn body_of(rt: &impl Abort, alloc: Global, code: u16) -> Sequence<u8> {
    plain_body(alloc, status(rt, code)).expect(rt, "memory")
}

fn is_made(rt: &impl Abort, alloc: Global, page: &Page) -> bool {
    is_page(&page_of(rt, alloc, page), page)
}

/// The phrase and the plain body of a row's code are its own.
fn is_said(rt: &impl Abort, alloc: Global, page: &Page) -> bool {
    let is_phrase = phrase(status(rt, page.code)) == page.phrase;
    is_phrase && body_of(rt, alloc, page.code).as_slice() == page.body
}

fn is_plain_type() -> bool {
    is_field(&plain_type(), "content-type", "text/plain")
}

pub(super) fn other_page(rt: &impl Abort, alloc: Global) -> Option<&'static str> {
    if !is_plain_type() {
        return Some("the plain type");
    }
    for page in &PAGES {
        if !is_made(rt, alloc, page) || !is_said(rt, alloc, page) {
            return Some(page.name);
        }
    }
    None
}
