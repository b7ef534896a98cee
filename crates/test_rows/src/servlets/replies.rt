//! Replies step by step.
//!
//! The parts of `reply` are its calls: `status CODE`, `header NAME=VALUE`, `set NAME=VALUE` for a field that was made before, and `add NAME=VALUE`,
//! `many COUNT` for fields from `x-0` on, `write TEXT`, `fill LENGTH` for a body of so many bytes, `reset`, `clear`, `hold` and `let-go`;
//! `nothing` is no call. The part of `reply-fault` is the fault's number.

use super::reply_text;
use crate::escape::text_of;
use crate::fault::RowFault;
use crate::listed::push_listed;
use crate::row;
use crate::web::fields::field_of;
use std::alloc::{AllocError, Global};
use sv_servlet::{Reply, ReplyFault};

/// What a call answers.
type Answer = Result<(), ReplyFault>;

fn status(reply: &mut Reply, code: &str) -> Result<Answer, RowFault> {
    Ok(reply.status(row::status(code)?))
}

fn header(alloc: Global, reply: &mut Reply, words: &str) -> Result<Answer, RowFault> {
    let (name, value) = row::pair(words);
    let value = text_of(alloc, value)?;
    Ok(reply.header(name, value.as_str()))
}

fn set(alloc: Global, reply: &mut Reply, words: &str) -> Result<Answer, RowFault> {
    let (name, value) = row::pair(words);
    Ok(reply.set(field_of(alloc, name, value)?))
}

fn add(alloc: Global, reply: &mut Reply, words: &str) -> Result<Answer, RowFault> {
    let (name, value) = row::pair(words);
    Ok(reply.add(field_of(alloc, name, value)?))
}

/// Sets so many fields, up to the first one that is refused.
fn set_many(alloc: Global, reply: &mut Reply, count: &str) -> Result<Answer, RowFault> {
    for number in 0..row::size(count)? {
        let name = format!(in alloc; "x-{number}")?;
        if let Err(fault) = reply.header(name.as_str(), "1") {
            return Ok(Err(fault));
        }
    }
    Ok(Ok(()))
}

/// Writes so many bytes at once.
fn fill(alloc: Global, reply: &mut Reply, length: &str) -> Result<Answer, RowFault> {
    let bytes = vec![in alloc; b'a'; row::size(length)?]?;
    Ok(reply.write(bytes.as_slice()))
}

/// Makes a call that may be refused.
fn made(alloc: Global, reply: &mut Reply, call: &str, words: &str) -> Result<Answer, RowFault> {
    match call {
        "status" => status(reply, words),
        "header" => header(alloc, reply, words),
        "set" => set(alloc, reply, words),
        "add" => add(alloc, reply, words),
        "many" => set_many(alloc, reply, words),
        "write" => Ok(reply.write(words.as_bytes())),
        "fill" => fill(alloc, reply, words),
        _ => Err(RowFault::Part),
    }
}

fn answer_text(alloc: Global, answer: Answer) -> Result<String, AllocError> {
    match answer {
        Ok(()) => String::from_str(alloc, "done"),
        Err(fault) => format!(in alloc; "{fault:?}"),
    }
}

/// Makes a call that can't be refused; whether this is one.
fn is_made(reply: &mut Reply, call: &str) -> bool {
    match call {
        "reset" => reply.reset(),
        "clear" => reply.clear_body(),
        "hold" => reply.hold(true),
        "let-go" => reply.hold(false),
        "nothing" => {}
        _ => return false,
    }
    true
}

/// Makes a call, and says what it answers; of one that answers nothing its name.
fn answer(alloc: Global, reply: &mut Reply, part: &str) -> Result<String, RowFault> {
    let (call, words) = row::first_word(part);
    if is_made(reply, call) {
        return Ok(String::from_str(alloc, call)?);
    }
    let answer = made(alloc, reply, call, words)?;
    Ok(answer_text(alloc, answer)?)
}

/// What each call answers.
fn answers(alloc: Global, reply: &mut Reply, calls: &str) -> Result<String, RowFault> {
    let mut text = String::new(alloc);
    for call in calls.split('|') {
        push_listed(&mut text, &answer(alloc, reply, call)?)?;
    }
    Ok(text)
}

/// What each call answers, and then the status, the fields and the body.
pub fn reply(alloc: Global, calls: &str) -> Result<String, RowFault> {
    let mut reply = Reply::new(alloc);
    let answers = answers(alloc, &mut reply, calls)?;
    let text = reply_text(alloc, reply)?;
    Ok(format!(in alloc; "{answers}; {text}")?)
}

fn fault_of(part: &str) -> Result<ReplyFault, RowFault> {
    match part {
        "1" => Ok(ReplyFault::BadStatus),
        "2" => Ok(ReplyFault::BadHeader),
        "3" => Ok(ReplyFault::Reserved),
        "4" => Ok(ReplyFault::TooMany),
        "5" => Ok(ReplyFault::TooLong),
        "6" => Ok(ReplyFault::Memory),
        _ => Err(RowFault::Part),
    }
}

/// A fault's name.
pub fn fault(alloc: Global, part: &str) -> Result<String, RowFault> {
    let fault = fault_of(part)?;
    Ok(String::from_str(alloc, fault.name())?)
}
