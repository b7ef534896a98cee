//! When sessions expire, and how they are joined to a request.
//!
//! The parts of `expired` are the last request, the interval, and the second that is asked for; of `joined` the last request, and the
//! second of the request that the session is joined to.

use super::session;
use crate::fault::RowFault;
use crate::row::{first, interval, number};
use std::alloc::{AllocError, Global};
use sv_model::Session;
use sv_session::{expired, join_request};

/// Whether a session has expired.
fn has_expired(alloc: Global, last: u64, interval: i32, now: u64) -> bool {
    let mut session = session(alloc);
    session.last = last;
    session.interval = interval;
    expired(&session, now)
}

pub fn expires(alloc: Global, parts: &str) -> Result<String, RowFault> {
    let (last, rest) = first(parts);
    let (given, now) = first(rest);
    let is_so = has_expired(alloc, number(last)?, interval(given)?, number(now)?);
    Ok(format!(in alloc; "{is_so}")?)
}

/// A fresh session of a last request, joined to another one.
fn fresh_joined(alloc: Global, last: u64, now: u64) -> Session {
    let mut session = session(alloc);
    session.last = last;
    session.fresh = true;
    join_request(&mut session, now);
    session
}

/// The last request, fresh, created, and the interval.
fn times_text(alloc: Global, session: &Session) -> Result<String, AllocError> {
    format!(in alloc;
        "{} {} {} {}",
        session.last, session.fresh, session.created, session.interval
    )
}

pub fn joined(alloc: Global, parts: &str) -> Result<String, RowFault> {
    let (last, now) = first(parts);
    let session = fresh_joined(alloc, number(last)?, number(now)?);
    Ok(times_text(alloc, &session)?)
}
