//! The bookings as JSON.

ghost use Rattle.std.specs.Prelude.{◌≡◌, false, IfOk};
ghost use Rattle.serde_json.specs.View.{view};
ghost use Rattle.serde_json.specs.Written.{has_float};
ghost use Rattle.sv_web.specs.Exchange.{Completes, CompletesPart};
ghost use Rattle.club_site.specs.Bookings as spec;

use crate::kept::{NAME, SLOTS, seen};
use crate::slots::{book, place_of};
use serde_json::{Value, json};
use std::alloc::{AllocError, Global};
use sv_servlet::Next;
use sv_web::{Exchange, Get, Post, Refusal, json as body_of, send_json, send_json_error};

/// Answers the slots that a member has booked, each as `{"court":1,"hour":8}`. A POST of such an object books a slot.
///
/// A browser sends JSON of another site only if it is told that it may (Fetch Standard, "CORS protocol"), so there is no token.
#[derive(Clone, Copy)]
pub struct Bookings;

/// What is booked, as a list of objects.
fn list_value(alloc: Global, slots: &[u8]) -> Result<Value, AllocError>
    ensures { IfOk result (λ value. view value ≡ spec.list_data slots.now) }
{
    let mut values = Vec::new(alloc);
    for slot in slots {
        let (court, hour) = place_of(*slot);
        values.push(json!(in alloc; {"court": court, "hour": hour})?)?;
    }
    Ok(Value::Array(values))
}

/// Ends the work where nobody has logged in.
#[tactic(auto, unfolding(crate::specs::Bookings::admitted))]
fn admit(web: &mut Exchange<'_>) -> Result<(), Refusal>
    ensures { CompletesPart spec.admitted web.old web.new result }
{
    if !seen(web.edit, NAME).is_empty() {
        return Ok(());
    }
    send_json_error(web, 401, "log in first")?;
    Err(Refusal::Answered)
}

/// Sends a value.
#[tactic(auto, unfolding(crate::specs::Bookings::sent))]
fn send(web: &mut Exchange<'_>, value: &Value) -> Result<(), Refusal>
    requires { has_float (view value.now) ≡ false }
    ensures { CompletesPart (spec.sent (view value.now)) web.old web.new result }
{
    send_json(web, value)
}

/// Answers what is booked.
#[tactic(auto, using(crate::proofs::BookingsLemmas::no_floats), unfolding(crate::specs::Bookings::listed))]
fn list(web: &mut Exchange<'_>) -> Result<Next, Refusal>
    ensures { Completes spec.listed web.old web.new result }
{
    let value = list_value(web.alloc, seen(web.edit, SLOTS))?;
    send(web, &value)?;
    Ok(Next::Done)
}

impl Get for Bookings {
    ghost use Rattle.club_site.specs.Bookings.{asked};

    ghost gets = { λ _. asked };

    fn get(&mut self, web: &mut Exchange<'_>) -> Result<Next, Refusal> {
        admit(web)?;
        list(web)
    }
}

impl Post for Bookings {
    ghost use Rattle.club_site.specs.Bookings.{taken};

    ghost posts = { λ _. taken };

    fn post(&mut self, web: &mut Exchange<'_>) -> Result<Next, Refusal> {
        admit(web)?;
        let value = body_of(web)?;
        let court = value.get("court").and_then(Value::as_u64).unwrap_or(0);
        let hour = value.get("hour").and_then(Value::as_u64).unwrap_or(0);
        if let Some(fault) = book(web, court, hour)? {
            send_json_error(web, 422, fault)?;
            return Ok(Next::Done);
        }
        web.reply.status(201)?;
        list(web)
    }
}
