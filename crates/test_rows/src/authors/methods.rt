//! Servlets that answer by the method of a request.
//!
//! `methods` has which methods are written, and which one is asked. `json-put` has a content type, or `-` for none, and a body, which a
//! servlet takes by PUT if it is JSON.

use crate::authors::asked::{Asked, answered, method_of, type_of};
use crate::authors::checked::Checked;
use crate::authors::said::Said;
use crate::escape::bytes_of;
use crate::fault::RowFault;
use crate::row::{first, first_word};
use http::Method;
use std::alloc::Global;
use sv_web::Methods;

const GET: Said = Said { text: "got" };

const POST: Said = Said { text: "posted" };

const PUT: Said = Said { text: "put" };

const DELETE: Said = Said { text: "deleted" };

/// What a servlet answers of which these methods are written.
fn answered_by(alloc: Global, written: &str, asked: Asked<'_>) -> Result<String, RowFault> {
    let none = Methods::new();
    match written {
        "none" => answered(alloc, none, asked),
        "get" => answered(alloc, none.get(GET), asked),
        "post" => answered(alloc, none.post(POST), asked),
        "get,post" => answered(alloc, none.post(POST).get(GET), asked),
        "put,delete" => answered(alloc, none.delete(DELETE).put(PUT), asked),
        "all" => answered(
            alloc,
            none.get(GET).post(POST).put(PUT).delete(DELETE),
            asked,
        ),
        _ => Err(RowFault::Part),
    }
}

pub fn methods(alloc: Global, words: &str) -> Result<String, RowFault> {
    let (written, method) = first_word(words);
    let method = method_of(alloc, method)?;
    answered_by(alloc, written, Asked::by(&method))
}

pub fn json_put(alloc: Global, parts: &str) -> Result<String, RowFault> {
    let (media, body) = first(parts);
    let fields = type_of(alloc, media)?;
    let body = bytes_of(alloc, body)?;
    let method = Method::PUT;
    let asked = Asked {
        fields: &fields,
        body: &body,
        ..Asked::by(&method)
    };
    answered(alloc, Methods::new().put(Checked), asked)
}
