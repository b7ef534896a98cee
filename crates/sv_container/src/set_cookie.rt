//! The field that names a session to the client: one that is new, or one whose id was changed (RFC 6265, section 4.1;
//! Jakarta Servlet 6.0, section "Cookies").

ghost use Rattle.std.specs.Prelude.{◌≡◌, IfOk, IsTrue};
ghost use Rattle.sv_container.specs.SetCookie.{announced, cookie_field, cookie_path, cookie_value, is_sendable, named_value, same_site_text, secure_text, with_cookie};

use http_header::{HeaderName, HeaderValue, HeaderValueError};
use std::alloc::{AllocError, Global};
use sv_config::SameSite;
use sv_model::{Birth, Fate, Field, Key, Response, Secret, Text};
use sv_session::Edited;
use sv_target::cookie_text;

/// The paths of a context: the context path, or `/` for the context at the root.
fn cookie_path(path: &str) -> &str
    ensures { result.now ≡ cookie_path path.now }
{
    if path.is_empty() { "/" } else { path }
}

/// How the cookie is set that names a session of a context (Jakarta Servlet 6.0, section 7.1.1).
#[derive(Drop)]
pub struct SessionCookie {
    pub name: Text,
    /// Browsers send it over secure connections alone (RFC 6265, section 4.1.2.5).
    pub secure: bool,
    /// Whether browsers send it with requests of other sites; as they do by themselves where nothing is said.
    pub same_site: Option<SameSite>,
}

impl SessionCookie {
    /// The bytes of its name.
    pub fn name_bytes(&self) -> &[u8]
        ensures { result.now ≡ self.now.name }
    {
        self.name.as_str().as_bytes()
    }
}

fn secure_text(secure: bool) -> &'static str
    ensures { result.now ≡ secure_text secure }
{
    if secure { "; Secure" } else { "" }
}

fn same_site_text(same_site: Option<SameSite>) -> &'static str
    ensures { result.now ≡ same_site_text same_site }
{
    match same_site {
        None => "",
        Some(SameSite::Strict) => "; SameSite=Strict",
        Some(SameSite::Lax) => "; SameSite=Lax",
        Some(SameSite::None) => "; SameSite=None",
    }
}

/// The name of the cookie and the session's 52 digits.
fn named_value(
    alloc: Global,
    name: &str,
    context: u8,
    named: (Key, Secret),
) -> Result<Vec<u8>, AllocError>
    ensures { IfOk result (λ value. value.items ≡ named_value name.now context named) }
{
    let (key, secret) = named;
    let mut value = Vec::new(alloc);
    value.extend_from_slice(name.as_bytes())?;
    value.extend_from_slice(b"=")?;
    value.extend_from_slice(cookie_text(context, key, secret).as_slice())?;
    Ok(value)
}

/// These, and the attributes of the cookie.
fn cookie_value(
    alloc: Global,
    cookie: &SessionCookie,
    context: u8,
    path: &str,
    named: (Key, Secret),
) -> Result<Vec<u8>, AllocError>
    ensures { IfOk result (λ value. value.items ≡ cookie_value cookie.now context path.now named) }
{
    let mut value = named_value(alloc, cookie.name.as_str(), context, named)?;
    value.extend_from_slice(b"; Path=")?;
    value.extend_from_slice(cookie_path(path).as_bytes())?;
    value.extend_from_slice(b"; HttpOnly")?;
    value.extend_from_slice(secure_text(cookie.secure).as_bytes())?;
    value.extend_from_slice(same_site_text(cookie.same_site).as_bytes())?;
    Ok(value)
}

/// `set-cookie` with the cookie of a session.
fn cookie_field(
    alloc: Global,
    cookie: &SessionCookie,
    context: u8,
    path: &str,
    named: (Key, Secret),
) -> Result<Field, AllocError>
    requires name { IsTrue (is_sendable cookie.now.name) }
    requires path { IsTrue (is_sendable path.now) }
    ensures { IfOk result (λ field. field ≡ cookie_field cookie.now context path.now named) }
{
    let value = cookie_value(alloc, cookie, context, path, named)?;
    match HeaderValue::from_bytes(alloc, value.as_slice()) {
        Ok(value) => Ok(Field {
            name: HeaderName::from_static("set-cookie"),
            value,
        }),
        Err(HeaderValueError::Invalid) => unreachable!(),
        Err(HeaderValueError::OutOfMemory) => Err(AllocError),
    }
}

/// The session that the client has to know of, by the key of the one that was joined, and the key and secret of a
/// session that was made.
#[inline(always)]
pub fn announced(
    joined: Option<Key>,
    fresh: (Key, Secret),
    edited: &Edited,
) -> Option<(Key, Secret)>
    ensures { result ≡ announced joined fresh edited.now.fate edited.now.birth edited.now.id_changed }
{
    match (&edited.birth, &edited.fate, joined) {
        (Birth::Alive(_), _, _) => Some(fresh),
        (_, Fate::Kept(session), Some(key)) if edited.id_changed => Some((key, session.secret)),
        _ => None,
    }
}

/// Names the session, if one has to be known, after the application's fields.
#[inline(always)]
pub fn with_cookie(
    alloc: Global,
    cookie: &SessionCookie,
    context: u8,
    path: &str,
    announced: Option<(Key, Secret)>,
    response: Response,
) -> Result<Response, AllocError>
    requires name { IsTrue (is_sendable cookie.now.name) }
    requires path { IsTrue (is_sendable path.now) }
    ensures { IfOk result (λ r. r ≡ with_cookie cookie.now context path.now announced response) }
{
    let mut response = response;
    if let Some(named) = announced {
        let field = cookie_field(alloc, cookie, context, path, named)?;
        response.fields.push(field)?;
    }
    Ok(response)
}
