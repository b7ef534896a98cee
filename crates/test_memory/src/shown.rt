//! What cases show of values: enough to tell them from any that a call could leave by mistake.

use std::alloc::{AllocError, Global};
use sv_model::{Attributes, Field, Request, Response, Session};

/// Adds a text, and a blank after it.
fn add(line: &mut String, text: &str) -> Result<(), AllocError> {
    line.push_str(text)?;
    line.push(' ')?;
    Ok(())
}

/// Adds a name and its value.
fn add_both(line: &mut String, name: &str, value: &str) -> Result<(), AllocError> {
    add(line, name)?;
    add(line, value)
}

fn add_number(line: &mut String, number: usize) -> Result<(), AllocError> {
    write!(line, "{number} ")
}

/// Names and values in order.
pub fn attributes(alloc: Global, attributes: &Attributes) -> Result<String, AllocError> {
    let mut line = String::new(alloc);
    for (name, value) in attributes.iter() {
        add_both(&mut line, name, text(value))?;
    }
    add_number(&mut line, attributes.size())?;
    Ok(line)
}

pub fn session(alloc: Global, session: &Session) -> Result<String, AllocError> {
    let own = attributes(alloc, &session.attributes)?;
    let Session {
        context,
        secret: _,
        created,
        last,
        interval,
        fresh,
        attributes: _,
    } = session;
    format!(in alloc; "{context} {created} {last} {interval} {fresh} {own}")
}

/// Names and values in order.
pub fn fields(alloc: Global, fields: &[Field]) -> Result<String, AllocError> {
    let mut line = String::new(alloc);
    for field in fields {
        add_both(
            &mut line,
            field.name.as_str(),
            field.value.to_str().unwrap_or("?"),
        )?;
    }
    Ok(line)
}

/// A text of bytes.
fn text(bytes: &[u8]) -> &str {
    str::from_utf8(bytes).unwrap_or("?")
}

pub fn request(alloc: Global, request: &Request) -> Result<String, AllocError> {
    let mut line = fields(alloc, request.fields.as_slice())?;
    add(&mut line, request.path.as_str())?;
    add(&mut line, request.raw_path.as_str())?;
    add(&mut line, text(request.body.as_slice()))?;
    for cookie in request.cookies.as_slice() {
        add(&mut line, text(cookie.value.as_slice()))?;
    }
    for param in request.params.as_slice() {
        add(&mut line, param.value.as_str())?;
    }
    Ok(line)
}

pub fn response(alloc: Global, response: &Response) -> Result<String, AllocError> {
    let mut line = fields(alloc, response.fields.as_slice())?;
    add(&mut line, text(response.body.as_slice()))?;
    Ok(line)
}
