//! Cookie fields and the cookies in them, by RFC 6265, sections 4.2.1 and 5.4, and the cookie that names a session, by
//! Jakarta Servlet 6.0, section 7.1.1.

use crate::digits::{bytes_of_digits, digits_of};
use crate::escape::{bytes_of, push_pair, shown};
use crate::fault::RowFault;
use crate::row::{first, number, small};
use crate::web::fields::fields_of;
use std::alloc::{AllocError, Global};
use sv_model::{Cookie, Key, Secret, Sequence};
use sv_target::{SESSION_COOKIE, cookie_text, cookies, session_cookie};

/// Each cookie as its name, a bar and its value between angle brackets.
fn cookies_text(alloc: Global, cookies: &[Cookie]) -> Result<String, AllocError> {
    let mut text = String::new(alloc);
    for cookie in cookies {
        push_pair(&mut text, cookie.name.as_slice(), cookie.value.as_slice())?;
    }
    Ok(text)
}

/// The cookies of fields.
pub fn pairs(alloc: Global, parts: &str) -> Result<String, RowFault> {
    let fields = fields_of(alloc, parts)?;
    let found = cookies(alloc, fields.as_slice())?;
    Ok(cookies_text(alloc, found.as_slice())?)
}

fn cookie_of(alloc: Global, name: &str, value: &str) -> Result<Cookie, AllocError> {
    let name = bytes_of(alloc, name)?;
    let value = bytes_of(alloc, value)?;
    Ok(Cookie {
        name: Sequence::from_vec(name),
        value: Sequence::from_vec(value),
    })
}

/// The cookies that the parts give, each a name, an equals sign and a value.
fn cookies_of(alloc: Global, parts: &str) -> Result<Sequence<Cookie>, RowFault> {
    let mut cookies = Sequence::new(alloc);
    for part in parts.split('|') {
        if let Some((name, value)) = part.split_once('=') {
            cookies.push(cookie_of(alloc, name, value)?)?;
        }
    }
    Ok(cookies)
}

/// The home, the serial and the secret of a session.
fn session_of(alloc: Global, named: Option<(Key, Secret)>) -> Result<String, AllocError> {
    match named {
        Some((key, secret)) => {
            let secret = digits_of(alloc, &secret.0)?;
            format!(in alloc; "{}.{} {secret}", key.home, key.serial)
        }
        None => String::from_str(alloc, "none"),
    }
}

/// The session of a context that cookies name.
pub fn session(alloc: Global, parts: &str) -> Result<String, RowFault> {
    let (context, rest) = first(parts);
    let context = small(context)?;
    let cookies = cookies_of(alloc, rest)?;
    Ok(session_of(
        alloc,
        session_cookie(SESSION_COOKIE.as_bytes(), cookies.as_slice(), context),
    )?)
}

/// The session of a context that the fields of a request name.
pub fn asked(alloc: Global, parts: &str) -> Result<String, RowFault> {
    let (context, rest) = first(parts);
    let context = small(context)?;
    let fields = fields_of(alloc, rest)?;
    let found = cookies(alloc, fields.as_slice())?;
    Ok(session_of(
        alloc,
        session_cookie(SESSION_COOKIE.as_bytes(), found.as_slice(), context),
    )?)
}

/// The secret of 16 bytes in hexadecimal.
fn secret_of(alloc: Global, digits: &str) -> Result<Secret, RowFault> {
    let bytes = bytes_of_digits(alloc, digits)?;
    let mut secret = [0; 16];
    if bytes.len() != secret.len() {
        return Err(RowFault::Part);
    }
    secret.copy_from_slice(&bytes);
    Ok(Secret(secret))
}

/// The cookie of a context, a home, a serial and a secret.
pub fn text(alloc: Global, parts: &str) -> Result<String, RowFault> {
    let (context, rest) = first(parts);
    let (home, rest) = first(rest);
    let (serial, secret) = first(rest);
    let home = small(home)?;
    let serial = number(serial)?;
    let secret = secret_of(alloc, secret)?;
    let text = cookie_text(small(context)?, Key { home, serial }, secret);
    let value = shown(alloc, &text)?;
    Ok(format!(in alloc; "{SESSION_COOKIE}={value}")?)
}
