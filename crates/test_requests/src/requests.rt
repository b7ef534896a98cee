//! A request as a container or a site is handed it.

use http::Method;
use std::alloc::Global;
use std::process::Abort;
use sv_model::{Request, Sequence, Text};

/// A text of a request.
pub fn text_of(rt: &impl Abort, alloc: Global, text: &str) -> Text {
    Text::from_str(alloc, text).expect(rt, "memory")
}

/// A request with a path as it was sent and as it was read, and nothing else.
pub fn request_for(
    rt: &impl Abort,
    alloc: Global,
    raw_path: &str,
    path: &str,
    close: bool,
) -> Request {
    Request {
        method: Method::GET,
        raw_path: text_of(rt, alloc, raw_path),
        path: text_of(rt, alloc, path),
        query: None,
        fields: Sequence::new(alloc),
        cookies: Sequence::new(alloc),
        params: Sequence::new(alloc),
        body: Sequence::new(alloc),
        close,
    }
}
