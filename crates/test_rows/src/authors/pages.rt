//! Pages, and what is sent in place of one.
//!
//! `escaped` has a text; `written` has a text that is written escaped after so many bytes; `error` has a status and a text; `head` has
//! `held` or `free` for the reply, and what is set; `own-path` has a path that a client may be sent on to, or not.

use crate::authors::requests::answered;
use crate::fault::RowFault;
use crate::row::first_word;
use std::alloc::{AllocError, Global};
use sv_model::Field;
use sv_servlet::{Next, Replied, Reply};
use sv_web::laws::shown_as_text;
use sv_web::{
    escape, is_own_path, read_u16, read_u64, send_error, send_redirect, set_header, set_html,
    set_plain_text, write_escaped,
};

/// More bytes than a body takes.
const MOST: u64 = 300_000;

/// A field, as it stands in a head.
fn line(alloc: Global, name: &str, value: &[u8]) -> Result<String, RowFault> {
    match str::from_utf8(value) {
        Ok(value) => Ok(format!(in alloc; "{name}: {value}")?),
        Err(_) => Err(RowFault::Part),
    }
}

pub fn own_path(alloc: Global, word: &str) -> Result<String, RowFault> {
    answered(alloc, is_own_path(word))
}

pub fn escaped(alloc: Global, words: &str) -> Result<String, RowFault> {
    shown_as_text();
    let bytes = escape(alloc, words.as_bytes())?;
    match str::from_utf8(&bytes) {
        Ok(text) => Ok(String::from_str(alloc, text)?),
        Err(_) => Err(RowFault::Part),
    }
}

/// So many bytes.
pub fn filler(alloc: Global, count: u64) -> Result<Vec<u8>, RowFault> {
    if count > MOST {
        return Err(RowFault::Part);
    }
    let mut bytes = Vec::new(alloc);
    for _ in 0..count {
        bytes.push(b'a')?;
    }
    Ok(bytes)
}

/// A reply whose body has so many bytes.
pub fn reply_of(alloc: Global, count: u64) -> Result<Reply, RowFault> {
    let mut reply = Reply::new(alloc);
    reply.write(filler(alloc, count)?.as_slice())?;
    Ok(reply)
}

/// How many bytes the body has, and its last five.
fn tail(alloc: Global, reply: Reply) -> Result<String, RowFault> {
    let body = reply.finish().body;
    let from = body.len().saturating_sub(5);
    match str::from_utf8(&body.as_slice()[from..]) {
        Ok(text) => Ok(format!(in alloc; "{} bytes, {text}", body.len())?),
        Err(_) => Err(RowFault::Part),
    }
}

pub fn written(alloc: Global, words: &str) -> Result<String, RowFault> {
    let Some((count, text)) = words.split_once(' ') else {
        return Err(RowFault::Part);
    };
    let mut reply = reply_of(alloc, read_u64(count).unwrap_or(MOST))?;
    write_escaped(alloc, &mut reply, text.as_bytes())?;
    tail(alloc, reply)
}

/// What is to follow.
pub fn next_text(alloc: Global, next: Next) -> Result<String, AllocError> {
    match next {
        Next::Done => String::from_str(alloc, "done"),
        Next::SendError { code, text } => format!(in alloc; "error {code} {}", text.as_str()),
        _ => String::from_str(alloc, "another"),
    }
}

pub fn error(alloc: Global, words: &str) -> Result<String, RowFault> {
    let Some((code, text)) = words.split_once(' ') else {
        return Err(RowFault::Part);
    };
    let next = send_error(alloc, read_u16(code).unwrap_or(0), text)?;
    Ok(next_text(alloc, next)?)
}

fn push_field(alloc: Global, text: &mut String, field: &Field) -> Result<(), RowFault> {
    let line = line(alloc, field.name.as_str(), field.value.as_bytes())?;
    text.push_str(" ")?;
    text.push_str(&line)?;
    Ok(())
}

/// Adds the status and the fields of a reply.
pub fn push_fields(alloc: Global, text: &mut String, replied: &Replied) -> Result<(), RowFault> {
    let status = format!(in alloc; "{}", replied.status.as_u16())?;
    text.push_str(&status)?;
    for field in replied.fields.as_slice() {
        push_field(alloc, text, field)?;
    }
    Ok(())
}

/// Sets what the word says.
fn set(reply: &mut Reply, word: &str) -> Result<(), RowFault> {
    match word {
        "html" => set_html(reply)?,
        "plain" => set_plain_text(reply)?,
        "refresh" => set_header(reply, "refresh", "5")?,
        "date" => set_header(reply, "date", "today")?,
        "redirect" => send_redirect(reply, "/shop/cart")?,
        _ => return Err(RowFault::Part),
    }
    Ok(())
}

pub fn head(alloc: Global, words: &str) -> Result<String, RowFault> {
    let (hold, word) = first_word(words);
    let mut reply = Reply::new(alloc);
    reply.hold(hold == "held");
    set(&mut reply, word)?;
    let mut text = String::new(alloc);
    push_fields(alloc, &mut text, &reply.finish())?;
    Ok(text)
}
