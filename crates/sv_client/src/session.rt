//! The session that a cookie names.

ghost use Rattle.std.specs.Prelude.{◌≡◌, ◌∷◌, [], IfOk, IfSome, IsNone, Some, None};
ghost use Rattle.http_header.specs.FieldValue.{IsFieldValue};
ghost use Rattle.sv_model.specs.Keys.{IsKey};
ghost use Rattle.sv_model.specs.declared.session.TheConstants.{CONTEXT_LIMIT as CONTEXTS};
ghost use Rattle.sv_client.specs.Session.{NamesFirst, NamesNone, cookie_with};
ghost use Rattle.sv_target.specs.Cookies.{pairs_of};
ghost use Rattle.sv_target.specs.SessionCookie as spec;

use http_header::{HeaderName, HeaderValue, HeaderValueError};
use std::alloc::{AllocError, Global};
use sv_model::{CONTEXT_LIMIT, Cookie, Field, Key, Secret, Sequence};
use sv_target::{SESSION_COOKIE, cookies, session_cookie};

/// The session that a cookie names.
#[derive(Clone, Copy, Debug, PartialEq, Eq)]
pub struct Session {
    /// The number of its context.
    pub context: u8,
    pub key: Key,
    pub secret: Secret,
    ghost nameable: { IsKey key },
}

/// The session of a context that cookies name.
#[tactic(auto, using(crate::proofs::SessionLemmas::nameable))]
fn session_of(cookies: &[Cookie], context: u8) -> Option<Session>
    ensures context { IfSome result (λ session. session.context ≡ context) }
    ensures named { IfSome result (λ session. spec.session_cookie spec.default_name cookies.now context ≡ Some (session.key, session.secret)) }
    ensures none { IsNone result → spec.session_cookie spec.default_name cookies.now context ≡ None }
{
    match session_cookie(SESSION_COOKIE.as_bytes(), cookies, context) {
        Some((key, secret)) => Some(Session {
            context,
            key,
            secret,
        }),
        None => None,
    }
}

/// The session that cookies name, of the least context of which they name one.
fn session_among(cookies: &[Cookie]) -> Option<Session>
    ensures named { IfSome result (λ session. NamesFirst cookies.now session.context session.key session.secret) }
    ensures none { IsNone result → NamesNone CONTEXTS cookies.now }
{
    for context in 0..CONTEXT_LIMIT {
        let session = session_of(cookies, context);
        if session.is_some() {
            return session;
        }
    }
    None
}

/// The pairs of the Cookie field with this value.
#[tactic(auto, using(crate::proofs::SessionLemmas::pairs_alone))]
fn pairs_with(alloc: Global, value: HeaderValue) -> Result<Sequence<Cookie>, AllocError>
    ensures { IfOk result (λ pairs. pairs ≡ pairs_of value.bytes) }
{
    let name = HeaderName::from_static("cookie");
    let pairs = cookies(alloc, &[Field { name, value }])?;
    Ok(pairs)
}

/// The session that the value of a Set-Cookie field sets (RFC 6265, section 4.1.1), if it is a session's.
///
/// A cookie and its attributes are parted as the pairs of a Cookie field are.
pub fn session_set(alloc: Global, value: &[u8]) -> Result<Option<Session>, AllocError>
    ensures named { IfOk result (λ found. IfSome found (λ session. NamesFirst (pairs_of value.now) session.context session.key session.secret)) }
    ensures none { IfOk result (λ found. IsNone found → IsFieldValue value.now → NamesNone CONTEXTS (pairs_of value.now)) }
{
    match HeaderValue::from_bytes(alloc, value) {
        Ok(value) => {
            let pairs = pairs_with(alloc, value)?;
            Ok(session_among(pairs.as_slice()))
        }
        Err(HeaderValueError::Invalid) => Ok(None),
        Err(_) => Err(AllocError),
    }
}

/// The cookie of a session with this value.
fn cookie_of(alloc: Global, value: &str) -> Result<Cookie, AllocError>
    ensures { IfOk result (λ cookie. cookie ≡ cookie_with value.now) }
{
    let mut name = Sequence::new(alloc);
    name.extend_from_slice(SESSION_COOKIE.as_bytes())?;
    let mut bytes = Sequence::new(alloc);
    bytes.extend_from_slice(value.as_bytes())?;
    Ok(Cookie { name, value: bytes })
}

/// The session that a cookie's value names: 52 digits, of any context.
pub fn session_named(alloc: Global, value: &str) -> Result<Option<Session>, AllocError>
    ensures named { IfOk result (λ found. IfSome found (λ session. NamesFirst (cookie_with value.now ∷ []) session.context session.key session.secret)) }
    ensures none { IfOk result (λ found. IsNone found → NamesNone CONTEXTS (cookie_with value.now ∷ [])) }
{
    Ok(session_among(&[cookie_of(alloc, value)?]))
}
