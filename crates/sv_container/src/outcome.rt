//! What comes of a request: the response, what became of sessions, and the events in order.

ghost use Rattle.std.specs.Prelude.{◌≡◌, IfOk};
ghost use Rattle.sv_container.specs.Outcome.{destroyed_of, events_for, fate_for, missing_page, outcome_of, served_outside, told, unserved_of};

use http::StatusCode;
use std::alloc::{AllocError, Global};
use sv_model::{
    Birth, Event, Fate, Key, Outcome, Request, Response, Sequence, Told, is_head, plain_page,
};
use sv_session::Edited;

/// The page where no context serves.
fn missing_page(alloc: Global, request: &Request) -> Result<Response, AllocError>
    ensures { IfOk result (λ response. response ≡ missing_page request.now) }
{
    let head_only = is_head(&request.method);
    plain_page(
        alloc,
        StatusCode::NOT_FOUND,
        Sequence::new(alloc),
        head_only,
        request.close,
    )
}

/// What comes of a request for which no context serves.
pub fn served_outside(alloc: Global, request: &Request) -> Result<Outcome, AllocError>
    ensures { IfOk result (λ o. o ≡ served_outside request.now) }
{
    Ok(Outcome {
        response: missing_page(alloc, request)?,
        fate: Fate::Untouched,
        birth: Birth::Absent,
        events: Sequence::new(alloc),
    })
}

/// An event for the listeners of a context.
pub fn told(context: u8, event: Event) -> Told
    ensures { result ≡ told context event }
{
    Told { context, event }
}

/// The events of a request in a context, with those of its edit.
#[inline(always)]
fn events_for(
    context: u8,
    expired: Option<Key>,
    edited: Sequence<Told>,
) -> Result<Sequence<Told>, AllocError>
    ensures { IfOk result (λ events. events ≡ events_for context expired edited) }
{
    let mut events = edited.into_vec();
    events.insert(0, told(context, Event::RequestIn))?;
    if let Some(key) = expired {
        events.insert(0, told(context, Event::Destroyed(key)))?;
    }
    events.push(told(context, Event::RequestOut))?;
    Ok(Sequence::from_vec(events))
}

/// That a session has expired, if one has.
fn destroyed(alloc: Global, context: u8, expired: Option<Key>) -> Result<Sequence<Told>, AllocError>
    ensures { IfOk result (λ events. events ≡ destroyed_of context expired) }
{
    let mut events = Sequence::new(alloc);
    if let Some(key) = expired {
        events.push(told(context, Event::Destroyed(key)))?;
    }
    Ok(events)
}

/// What comes of a request that is answered and not served: its session stays as it came.
pub fn unserved_of(
    alloc: Global,
    context: u8,
    expired: Option<Key>,
    response: Response,
    fate: Fate,
) -> Result<Outcome, AllocError>
    ensures { IfOk result (λ o. o ≡ unserved_of context expired response fate) }
{
    let events = destroyed(alloc, context, expired)?;
    Ok(Outcome {
        response,
        fate: fate_for(expired, fate),
        birth: Birth::Absent,
        events,
    })
}

/// What became of the session that was handed in.
#[inline(always)]
fn fate_for(expired: Option<Key>, fate: Fate) -> Fate
    ensures { result ≡ fate_for expired fate }
{
    match expired {
        Some(_) => Fate::Ended,
        None => fate,
    }
}

/// What comes of a request in a context.
#[inline(always)]
pub fn outcome_of(
    context: u8,
    expired: Option<Key>,
    response: Response,
    edited: Edited,
) -> Result<Outcome, AllocError>
    ensures { IfOk result (λ o. o ≡ outcome_of context expired response edited.fate edited.birth edited.events) }
{
    let Edited {
        fate,
        birth,
        id_changed: _,
        events,
    } = edited;
    Ok(Outcome {
        response,
        fate: fate_for(expired, fate),
        birth,
        events: events_for(context, expired, events)?,
    })
}
