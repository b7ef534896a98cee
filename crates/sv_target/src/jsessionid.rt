//! The cookie that names a session (Jakarta Servlet 6.0, section 7.1.1).

ghost use Rattle.std.specs.Prelude.{◌≡◌};
ghost use Rattle.sv_target.specs.SessionCookie as spec;

use crate::digits::{BYTES, spelled_bytes};
use crate::name::is_same;
use sv_model::{Cookie, Key, NODE_LIMIT, Secret};

/// The name of the cookie where nobody chooses another.
pub const SESSION_COOKIE: &str = "JSESSIONID";

/// The value of a session's cookie: in digits of `0-9a-f` the context's number (2), the home (2), the serial (16) and
/// the secret (32).
#[tactic(auto, unfolding(crate::specs::SessionCookie::cookie_text))]
pub fn cookie_text(context: u8, key: Key, secret: Secret) -> [u8; 52]
    ensures { result ≡ spec.cookie_text context key secret }
{
    let mut text = [0; 52];
    hex::encode_to_slice(session_bytes(context, key, secret), &mut text).unwrap();
    text
}

fn session_bytes(context: u8, key: Key, secret: Secret) -> [u8; BYTES]
    ensures { result ≡ spec.session_bytes context key secret }
{
    let mut bytes = [0; BYTES];
    bytes[0] = context;
    bytes[1] = key.home;
    bytes[2..10].copy_from_slice(&key.serial.to_be_bytes());
    bytes[10..].copy_from_slice(&secret.0);
    bytes
}

/// The session of a context that a request's cookies of this name name, with the secret that has to be the session's own. Takes
/// no memory.
///
/// It is that of the first cookie which names one: a cookie of another form or of another context is passed over. Whether
/// there is such a session isn't asked here.
pub fn session_cookie(name: &[u8], cookies: &[Cookie], context: u8) -> Option<(Key, Secret)>
    ensures { result ≡ spec.session_cookie name.now cookies.now context }
{
    for cookie in cookies {
        if let Some(named) = session_of_cookie(name, cookie, context) {
            return Some(named);
        }
    }
    None
}

#[tactic(auto, unfolding(crate::specs::SessionCookie::session_of_cookie))]
fn session_of_cookie(name: &[u8], cookie: &Cookie, context: u8) -> Option<(Key, Secret)>
    ensures { result ≡ spec.session_of_cookie name.now context cookie.now }
{
    if !is_same(cookie.name.as_slice(), name) {
        return None;
    }
    let bytes = spelled_bytes(cookie.value.as_slice())?;
    session_of_bytes(bytes, context)
}

#[tactic(auto, unfolding(crate::specs::SessionCookie::session_of_bytes))]
fn session_of_bytes(bytes: [u8; BYTES], context: u8) -> Option<(Key, Secret)>
    ensures { result ≡ spec.session_of_bytes context bytes }
{
    let key = key_of(bytes);
    let is_named = bytes[0] == context && key.home < NODE_LIMIT && key.serial > 0;
    is_named.then_some((key, secret_of(bytes)))
}

fn key_of(bytes: [u8; BYTES]) -> Key
    ensures { result ≡ spec.key_of bytes }
{
    let mut serial = [0; 8];
    serial.copy_from_slice(&bytes[2..10]);
    Key {
        home: bytes[1],
        serial: u64::from_be_bytes(serial),
    }
}

fn secret_of(bytes: [u8; BYTES]) -> Secret
    ensures { result ≡ spec.secret_of bytes }
{
    let mut secret = [0; 16];
    secret.copy_from_slice(&bytes[10..26]);
    Secret(secret)
}
