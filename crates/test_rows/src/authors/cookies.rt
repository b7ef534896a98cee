//! Cookies that are sent and set, a context's settings, and what a request has of its own.
//!
//! `cookie` has a name, and a Cookie field's value; `setting` a name, and settings as `a=1&b=2`. The parts of `set-cookie` are a name and a
//! value as `a=1`, and attributes: `path PATH`, `age SECONDS`, `secure`, `http-only`, `strict`, `lax` and `none`. `token` has a label, of a
//! request whose secret is 16 bytes 1; `now` has the seconds of a request.

use crate::authors::attributes::edit_of;
use crate::authors::pages::push_fields;
use crate::fault::RowFault;
use crate::row::{first, number, pair};
use crate::web::fields::field_of;
use std::alloc::{AllocError, Global};
use sv_model::{Key, Secret, Text};
use sv_servlet::{Reply, Setting};
use sv_session::SessionEdit;
use sv_target::cookies;
use sv_web::{SameSite, SetCookie, set_cookie};

/// A value between angle brackets, or `none`.
pub fn bracketed(alloc: Global, value: Option<&[u8]>) -> Result<String, RowFault> {
    let Some(value) = value else {
        return Ok(String::from_str(alloc, "none")?);
    };
    match str::from_utf8(value) {
        Ok(value) => Ok(format!(in alloc; "<{value}>")?),
        Err(_) => Err(RowFault::Part),
    }
}

pub fn cookie(alloc: Global, words: &str) -> Result<String, RowFault> {
    let (name, value) = words.split_once(' ').unwrap_or((words, ""));
    let field = field_of(alloc, "cookie", value)?;
    let sent = cookies(alloc, &[field])?;
    bracketed(alloc, sv_web::cookie(sent.as_slice(), name))
}

fn setting_of(alloc: Global, text: &str) -> Result<Setting, AllocError> {
    let (name, value) = pair(text);
    Ok(Setting {
        name: Text::from_str(alloc, name)?,
        value: Text::from_str(alloc, value)?,
    })
}

pub fn setting(alloc: Global, words: &str) -> Result<String, RowFault> {
    let (name, texts) = words.split_once(' ').unwrap_or((words, ""));
    let mut settings = Vec::new(alloc);
    for text in texts.split('&') {
        settings.push(setting_of(alloc, text)?)?;
    }
    let value = sv_web::setting(&settings, name);
    bracketed(alloc, value.map(|value| value.as_bytes()))
}

fn seconds(part: &str) -> Result<u32, RowFault> {
    match part.parse::<u32>() {
        Ok(seconds) => Ok(seconds),
        Err(_) => Err(RowFault::Part),
    }
}

/// Gives a cookie an attribute.
fn put<'a>(cookie: &mut SetCookie<'a>, part: &'a str) -> Result<(), RowFault> {
    let (word, value) = part.split_once(' ').unwrap_or((part, ""));
    match word {
        "path" => cookie.path = Some(value),
        "age" => cookie.max_age = Some(seconds(value)?),
        "secure" => cookie.is_secure = true,
        "http-only" => cookie.is_http_only = true,
        "strict" => cookie.same_site = Some(SameSite::Strict),
        "lax" => cookie.same_site = Some(SameSite::Lax),
        "none" => cookie.same_site = Some(SameSite::None),
        _ => return Err(RowFault::Part),
    }
    Ok(())
}

/// The status and the fields of a reply in which the cookie is set.
pub fn set(alloc: Global, parts: &str) -> Result<String, RowFault> {
    let (named, attributes) = first(parts);
    let (name, value) = pair(named);
    let mut cookie = SetCookie::new(name, value);
    for attribute in attributes.split('|') {
        if !attribute.is_empty() {
            put(&mut cookie, attribute)?;
        }
    }
    let mut reply = Reply::new(alloc);
    set_cookie(alloc, &mut reply, &cookie)?;
    let mut text = String::new(alloc);
    push_fields(alloc, &mut text, &reply.finish())?;
    Ok(text)
}

pub fn token(alloc: Global, label: &str) -> Result<String, RowFault> {
    let edit = edit_of(alloc, "none")?;
    Ok(sv_web::token(alloc, &edit, label)?.into_string())
}

pub fn now(alloc: Global, word: &str) -> Result<String, RowFault> {
    let fresh = (Key { home: 0, serial: 1 }, Secret([1; 16]));
    let edit = SessionEdit::begin(alloc, None, 0, 1_800, number(word)?, fresh);
    Ok(format!(in alloc; "{}", sv_web::now(&edit))?)
}
