//! The edit of a session.
//!
//! The parts of `edit` are `held` or `none`, for whether a session is handed in, and the calls that are made. What comes of them is what
//! each call answers, what became of the session that was handed in and of the one that was made, whether an id was changed, and what
//! the edit tells.

mod calls;
pub mod expiry;
pub mod faults;
mod left;
mod told;

use crate::fault::RowFault;
use crate::listed::push_listed;
use crate::row::first;
use calls::answer;
use left::left_text;
use std::alloc::Global;
use sv_model::{Attributes, Key, Secret, Session};
use sv_session::SessionEdit;

/// The key of the session that is handed in.
const KEY: Key = Key { home: 1, serial: 4 };

/// The key of a session that is made, and the secret that is fresh.
const FRESH: (Key, Secret) = (Key { home: 2, serial: 9 }, Secret([8; 16]));

/// A session whose secret is 7 in each byte.
fn session(alloc: Global) -> Session {
    Session {
        context: 3,
        secret: Secret([7; 16]),
        created: 1_000,
        last: 1_060,
        interval: 1_800,
        fresh: false,
        attributes: Attributes::new(alloc),
    }
}

/// The edit of a request that names a session, or none.
fn begun(alloc: Global, word: &str) -> Result<SessionEdit, RowFault> {
    let held = match word {
        "held" => Some((KEY, session(alloc))),
        "none" => None,
        _ => return Err(RowFault::Part),
    };
    Ok(SessionEdit::begin(alloc, held, 3, 600, 1_100, FRESH))
}

/// What each call answers.
fn answers(alloc: Global, edit: &mut SessionEdit, calls: &str) -> Result<String, RowFault> {
    let mut text = String::new(alloc);
    for call in calls.split('|') {
        push_listed(&mut text, &answer(alloc, edit, call)?)?;
    }
    Ok(text)
}

/// After what the calls answer, what the edit leaves.
fn ended(alloc: Global, answers: &str, edit: SessionEdit) -> Result<String, RowFault> {
    let left = left_text(alloc, edit)?;
    Ok(format!(in alloc; "{answers}; {left}")?)
}

pub fn edit(alloc: Global, parts: &str) -> Result<String, RowFault> {
    let (word, calls) = first(parts);
    let mut edit = begun(alloc, word)?;
    let answers = answers(alloc, &mut edit, calls)?;
    ended(alloc, &answers, edit)
}
