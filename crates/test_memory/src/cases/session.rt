//! The calls of an edit, of a reply and of a request's attributes.

use crate::again::{Refusals, Unshown, again, done};
use crate::{given, shown};
use std::alloc::{AllocError, Global};
use sv_model::{Birth, Fate, Key, Secret};
use sv_servlet::{Replied, Reply, ReplyFault, RequestAttributes};
use sv_session::{Edited, SessionEdit, SessionFault};
use sv_web::{SetCookie, set_cookie};

type Shown = Result<String, Unshown>;

const FRESH: (Key, Secret) = (Key { home: 0, serial: 2 }, Secret([2; 16]));

/// An edit of a session with one attribute.
fn edit(alloc: Global) -> Result<SessionEdit, AllocError> {
    let held = Some((given::KEY, given::session(alloc)?));
    Ok(SessionEdit::begin(alloc, held, 0, 600, given::NOW, FRESH))
}

/// What has become of the session that was handed in.
fn handed(alloc: Global, fate: &Fate) -> Result<String, AllocError> {
    match fate {
        Fate::Kept(session) => shown::session(alloc, session),
        Fate::Ended => String::from_str(alloc, "ended"),
        Fate::Untouched => Ok(String::new(alloc)),
    }
}

/// What has become of the session that was made.
fn made(alloc: Global, birth: &Birth) -> Result<String, AllocError> {
    match birth {
        Birth::Alive(session) => shown::session(alloc, session),
        Birth::Ended => String::from_str(alloc, "ended"),
        Birth::Absent => Ok(String::new(alloc)),
    }
}

/// What has become of both sessions, and how many events there are.
fn edited_text(alloc: Global, edited: &Edited) -> Result<String, AllocError> {
    let handed = handed(alloc, &edited.fate)?;
    let made = made(alloc, &edited.birth)?;
    format!(in alloc;
        "{handed} {made} {} {}",
        edited.id_changed,
        edited.events.len()
    )
}

fn finished(alloc: Global, edit: SessionEdit) -> Result<String, AllocError> {
    edited_text(alloc, &edit.finish())
}

/// The edit of a case: of a session with one attribute, or of none where one is to be made.
fn begun(alloc: Global, name: &str) -> Result<SessionEdit, AllocError> {
    match name {
        "edit-create" => Ok(SessionEdit::begin(alloc, None, 0, 600, given::NOW, FRESH)),
        _ => edit(alloc),
    }
}

/// The call of a case.
fn call(edit: &mut SessionEdit, name: &str) -> Result<(), SessionFault> {
    match name {
        "edit-set" => edit.set("age", Some(b"17")),
        "edit-set-again" => edit.set("user", Some(b"bob")),
        "edit-set-none" => edit.set("user", None),
        "edit-remove" => edit.remove("user"),
        "edit-invalidate" => edit.invalidate(),
        "edit-create" => edit.create().and(Ok(())),
        _ => edit.change_id(),
    }
}

/// A call of an edit that leaves something.
pub fn edited(alloc: Global, refusals: &mut Refusals, name: &str) -> Shown {
    let mut edit = begun(alloc, name)?;
    match again!(refusals, call(&mut edit, name)) {
        Ok(()) => done(finished(alloc, edit)),
        Err(why) => Err(why),
    }
}

pub fn names(alloc: Global, refusals: &mut Refusals) -> Shown {
    let edit = edit(alloc)?;
    let names = again!(refusals, edit.names())?;
    done(format!(in alloc; "{}", names.len()))
}

fn replied(alloc: Global, reply: Reply) -> Result<String, AllocError> {
    let Replied {
        status,
        fields,
        body,
    } = reply.finish();
    let own = shown::fields(alloc, fields.as_slice())?;
    format!(in alloc; "{} {own}{:?}", status.as_u16(), body.as_slice())
}

/// A reply with a field and a body.
fn reply(alloc: Global) -> Result<Reply, Unshown> {
    let mut reply = Reply::new(alloc);
    done(reply.header("x-a", "1"))?;
    done(reply.write(b"body"))?;
    Ok(reply)
}

/// Sets a cookie with attributes.
fn cookie(alloc: Global, reply: &mut Reply) -> Result<(), ReplyFault> {
    let mut cookie = SetCookie::new("lang", "en");
    cookie.path = Some("/shop");
    cookie.max_age = Some(3_600);
    set_cookie(alloc, reply, &cookie)
}

/// The call of a case.
fn call_reply(alloc: Global, reply: &mut Reply, name: &str) -> Result<(), ReplyFault> {
    match name {
        "reply-header" => reply.header("x-own-name-of-a-field", "a value"),
        "reply-header-again" => reply.header("X-A", "another value"),
        "reply-set" => reply.set(given::field(alloc)?),
        "reply-add" => reply.add(given::field(alloc)?),
        "reply-set-cookie" => cookie(alloc, reply),
        _ => reply.write(b"more of the body than there is room for"),
    }
}

/// A call of a reply with a field and a body.
pub fn called(alloc: Global, refusals: &mut Refusals, name: &str) -> Shown {
    let mut reply = reply(alloc)?;
    match again!(refusals, call_reply(alloc, &mut reply, name)) {
        Ok(()) => done(replied(alloc, reply)),
        Err(why) => Err(why),
    }
}

fn listed(alloc: Global, attributes: &RequestAttributes) -> Result<String, AllocError> {
    let mut line = String::new(alloc);
    for (name, value) in attributes.iter() {
        line.push_str(name)?;
        line.push_str(value)?;
    }
    Ok(line)
}

pub fn attribute(alloc: Global, refusals: &mut Refusals) -> Shown {
    let mut attributes = RequestAttributes::new(alloc);
    again!(refusals, attributes.insert("a", "1"))?;
    again!(refusals, attributes.insert("b", "2"))?;
    again!(refusals, attributes.insert("a", "3"))?;
    done(listed(alloc, &attributes))
}

pub fn attributes(alloc: Global, refusals: &mut Refusals) -> Shown {
    let mut attributes = RequestAttributes::new(alloc);
    attributes.insert("a", "1")?;
    let copy = again!(refusals, attributes.copy())?;
    done(listed(alloc, &copy))
}
