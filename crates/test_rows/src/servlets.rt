//! Replies, attributes of a request, and objects in boxes.

pub mod attributes;
pub mod filters;
pub mod lives;
pub mod replies;

use crate::escape::shown_briefly;
use http::Method;
use std::alloc::{AllocError, Global};
use sv_model::{Field, Key, Secret};
use sv_servlet::{Call, Replied, Reply, ReplyFault, RequestAttributes};
use sv_session::SessionEdit;

fn push_field(alloc: Global, text: &mut String, field: &Field) -> Result<(), AllocError> {
    let value = field.value.to_str().unwrap_or("?");
    let line = format!(in alloc; "<{}: {value}> ", field.name.as_str())?;
    text.push_str(&line)?;
    Ok(())
}

/// The fields in order, each between angle brackets and before a blank.
fn fields_text(alloc: Global, fields: &[Field]) -> Result<String, AllocError> {
    let mut text = String::new(alloc);
    for field in fields {
        push_field(alloc, &mut text, field)?;
    }
    Ok(text)
}

/// The status, the fields and the body of what a reply has come to.
fn replied_text(alloc: Global, replied: &Replied) -> Result<String, AllocError> {
    let fields = fields_text(alloc, replied.fields.as_slice())?;
    let body = shown_briefly(alloc, replied.body.as_slice())?;
    format!(in alloc; "{} {fields}<{body}>", replied.status.as_u16())
}

/// The status, the fields and the body of a reply.
fn reply_text(alloc: Global, reply: Reply) -> Result<String, AllocError> {
    replied_text(alloc, &reply.finish())
}

/// A reply with a status, a field and a body.
fn written(alloc: Global) -> Result<Reply, ReplyFault> {
    let mut reply = Reply::new(alloc);
    reply.status(404)?;
    reply.header("x-a", "1")?;
    reply.write(b"body")?;
    Ok(reply)
}

/// The edit of a request that names no session.
fn fresh_edit(alloc: Global) -> SessionEdit {
    let fresh = (Key { home: 0, serial: 1 }, Secret([1; 16]));
    SessionEdit::begin(alloc, None, 0, 600, 1_000, fresh)
}

/// A request for `/a` of the context `/shop`.
fn call_of<'a>(
    method: &'a Method,
    none: Option<&'a str>,
    attributes: &'a RequestAttributes,
) -> Call<'a> {
    Call {
        method,
        request_uri: "/shop/a",
        context_path: "/shop",
        servlet_path: "/a",
        path_info: none,
        query: none,
        params: &[],
        fields: &[],
        cookies: &[],
        body: b"",
        settings: &[],
        attributes,
        resume: 0,
    }
}
