//! A servlet and filters of work, called as a dispatch does.
//!
//! `status` has the status that the servlet sets; `echo` has how many bytes stand in the reply's body, and the text that the filter
//! writes before a servlet, and after it where it passed; `closed` has how many bytes stand there before the filter answers.

use crate::authors::asked::Asked;
use crate::authors::attributes::edit_of;
use crate::authors::closed::Closed;
use crate::authors::echo::Echo;
use crate::authors::pages::{next_text, reply_of};
use crate::authors::status::Status;
use crate::fault::RowFault;
use crate::row::first_word;
use http::Method;
use std::alloc::{AllocError, Global};
use sv_servlet::{Answers, Before, Call, Next, Reply, RequestAttributes, Surrounds};
use sv_session::SessionEdit;
use sv_web::{Web, read_u16, read_u64};

/// What is to follow where the servlet has set a status.
fn followed(
    alloc: Global,
    code: u16,
    edit: &mut SessionEdit,
    reply: &mut Reply,
) -> Result<Next, AllocError> {
    let attributes = RequestAttributes::new(alloc);
    let method = Method::GET;
    let call = Asked::by(&method).call(&attributes);
    Web::new(alloc, Status { code }).answer(&call, edit, reply)
}

fn status_text(alloc: Global, code: u16, reply: &mut Reply) -> Result<String, RowFault> {
    let mut edit = edit_of(alloc, "none")?;
    let next = followed(alloc, code, &mut edit, reply)?;
    Ok(next_text(alloc, next)?)
}

pub fn status(alloc: Global, word: &str) -> Result<String, RowFault> {
    let mut reply = Reply::new(alloc);
    let text = status_text(alloc, read_u16(word).unwrap_or(0), &mut reply)?;
    Ok(format!(in alloc; "{text}, {}", reply.finish().status.as_u16())?)
}

/// What a filter says that doesn't pass.
fn refused(alloc: Global, before: Before) -> Result<String, RowFault> {
    match before {
        Before::SendError { code, text } => Ok(format!(in alloc;
            "error {code} {}",
            text.as_str()
        )?),
        _ => Err(RowFault::Part),
    }
}

/// The filter comes before a servlet, and after it where it passed.
fn passed(
    alloc: Global,
    call: &Call<'_>,
    edit: &mut SessionEdit,
    reply: &mut Reply,
) -> Result<String, RowFault> {
    let mut filter = Web::new(alloc, Echo);
    match filter.before(call, edit, reply)? {
        Before::Pass => {
            filter.after(call, edit, reply)?;
            Ok(String::from_str(alloc, "passed")?)
        }
        before => refused(alloc, before),
    }
}

fn echo_text(alloc: Global, body: &[u8], reply: &mut Reply) -> Result<String, RowFault> {
    let mut edit = edit_of(alloc, "none")?;
    let attributes = RequestAttributes::new(alloc);
    let method = Method::POST;
    let asked = Asked {
        body,
        ..Asked::by(&method)
    };
    passed(alloc, &asked.call(&attributes), &mut edit, reply)
}

pub fn echo(alloc: Global, words: &str) -> Result<String, RowFault> {
    let (count, text) = first_word(words);
    let mut reply = reply_of(alloc, read_u64(count).unwrap_or(0))?;
    let said = echo_text(alloc, text.as_bytes(), &mut reply)?;
    Ok(format!(in alloc; "{said}, {} bytes", reply.finish().body.len())?)
}

/// What the filter says that answers in a servlet's place.
fn closed_text(alloc: Global, reply: &mut Reply) -> Result<String, RowFault> {
    let mut edit = edit_of(alloc, "none")?;
    let attributes = RequestAttributes::new(alloc);
    let method = Method::GET;
    let call = Asked::by(&method).call(&attributes);
    match Web::new(alloc, Closed).before(&call, &mut edit, reply)? {
        Before::Stop => Ok(String::from_str(alloc, "stopped")?),
        before => refused(alloc, before),
    }
}

pub fn closed(alloc: Global, word: &str) -> Result<String, RowFault> {
    let mut reply = reply_of(alloc, read_u64(word).unwrap_or(0))?;
    let said = closed_text(alloc, &mut reply)?;
    Ok(format!(in alloc; "{said}, {} bytes", reply.finish().body.len())?)
}
