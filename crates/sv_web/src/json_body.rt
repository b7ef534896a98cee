//! JSON (RFC 8259).

ghost use Rattle.std.specs.Prelude.{◌≡◌, false, IfOk, option_map};
ghost use Rattle.serde_json.specs.View.{view};
ghost use Rattle.serde_json.specs.Written.{compact_text, has_float};
ghost use Rattle.sv_web.specs.Exchange.{CompletesGiving, CompletesPart, GoesOn, lent_in};
ghost use Rattle.sv_web.specs.Json as spec;
ghost use Rattle.sv_web.specs.Refusal.{Does, DoesPart};
ghost use Rattle.sv_web.specs.Steps.{set_status};

use crate::cutting::is_type;
use crate::exchange::Exchange;
use crate::header::set_header;
use crate::refusal::Refusal;
use crate::request::field;
use serde_json::Value;
use std::alloc::{AllocError, Global};
use sv_servlet::Call;

/// The value that a text is; none where it is no JSON in UTF-8.
#[tactic(auto, unfolding(crate::specs::Json::value_in))]
fn value_in(alloc: Global, text: &[u8]) -> Result<Option<Value>, AllocError>
    ensures { IfOk result (λ found. option_map view found ≡ spec.value_in text.now) }
{
    match Value::from_slice(alloc, text) {
        Ok(value) => Ok(Some(value)),
        Err(fault) if fault.is_memory() => Err(AllocError),
        Err(_) => Ok(None),
    }
}

/// What says why a request was refused.
#[tactic(auto, unfolding(crate::specs::Json::error_text))]
fn error_text(alloc: Global, why: &str) -> Result<Vec<u8>, AllocError>
    ensures { IfOk result (λ text. text.items ≡ spec.error_text why.now) }
{
    let why = Value::try_from_str(alloc, why)?;
    let why = why.to_vec(alloc)?;
    let mut text = Vec::from_slice(alloc, b"{\"error\":")?;
    text.extend_from_slice(why.as_slice())?;
    text.extend_from_slice(b"}")?;
    Ok(text)
}

/// Writes a text that is JSON.
fn write_text(web: &mut Exchange<'_>, text: &[u8]) -> Result<(), Refusal>
    ensures { CompletesPart (spec.written text.now) web.old web.new result }
{
    set_header(web.reply, "content-type", "application/json")?;
    web.reply.write(text)?;
    Ok(())
}

/// Writes a value as JSON, without blanks, with its content type. No clause says which digits a number has that is no integer.
pub fn send_json(web: &mut Exchange<'_>, value: &Value) -> Result<(), Refusal>
    ensures same { GoesOn web.old web.new }
    ensures written { has_float (view value.now) ≡ false → DoesPart (spec.written (compact_text (view value.now))) (lent_in web.old) (lent_in web.new) result }
{
    let text = value.to_vec(web.alloc)?;
    write_text(web, text.as_slice())
}

/// Sets a status.
fn set_code(web: &mut Exchange<'_>, code: u16) -> Result<(), Refusal>
    ensures { CompletesPart (set_status code) web.old web.new result }
{
    web.reply.status(code)?;
    Ok(())
}

/// Writes a text that is JSON, with a status.
fn write_by(web: &mut Exchange<'_>, code: u16, text: &[u8]) -> Result<(), Refusal>
    ensures { CompletesPart (spec.written_by code text.now) web.old web.new result }
{
    match set_code(web, code) {
        Ok(()) => write_text(web, text),
        Err(refusal) => Err(refusal),
    }
}

/// Answers a status, and why, as `{"error":"why"}`: 422 where a value is not what the servlet takes (RFC 9110, section 15.5.21).
#[tactic(auto, unfolding(crate::specs::Json::refused))]
pub fn send_json_error(web: &mut Exchange<'_>, code: u16, why: &str) -> Result<(), Refusal>
    ensures { CompletesPart (spec.refused code why.now) web.old web.new result }
{
    let text = error_text(web.alloc, why)?;
    write_by(web, code, text.as_slice())
}

/// The content type is `application/json`.
fn is_json(alloc: Global, call: &Call<'_>) -> Result<bool, AllocError>
    ensures { IfOk result (λ is. is ≡ spec.is_json call.now) }
{
    match field(call.fields, "content-type") {
        Some(value) => is_type(alloc, value, "application/json"),
        None => Ok(false),
    }
}

/// The value that the body is. Another content type is answered 415, and what is no JSON 400 (RFC 9110, sections 15.5.16 and 15.5.1),
/// each with why, and ends the work.
#[tactic(auto, unfolding(crate::specs::Json::json))]
pub fn json(web: &mut Exchange<'_>) -> Result<Value, Refusal>
    ensures { CompletesGiving (spec.json web.old.call.now) web.old web.new (spec.seen result) }
{
    let call = web.call;
    if !is_json(web.alloc, call)? {
        send_json_error(web, 415, "the content type is not application/json")?;
        return Err(Refusal::Answered);
    }
    let Some(value) = value_in(web.alloc, call.body)? else {
        send_json_error(web, 400, "the body is not JSON")?;
        return Err(Refusal::Answered);
    };
    Ok(value)
}
