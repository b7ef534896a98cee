//! Sessions and their keys as texts.

use std::alloc::AllocError;
use sv_model::{Key, Secret, Session};

/// Adds a key: its home and its serial with a point between them.
pub fn push_key(text: &mut String, key: Key) -> Result<(), AllocError> {
    write!(text, "{}.{}", key.home, key.serial)
}

/// Adds a secret's last byte; the others are 0, or there are two bars.
pub fn push_secret(text: &mut String, secret: Secret) -> Result<(), AllocError> {
    match secret {
        Secret([0, 0, 0, 0, 0, 0, 0, 0, 0, 0, 0, 0, 0, 0, 0, last]) => write!(text, "{last}"),
        Secret(_) => text.push_str("||"),
    }
}

/// Values that are longer are told by their length.
const LONG: usize = 64;

/// Adds a name and a value with a sign of equality between them.
pub fn push_pair(text: &mut String, name: &str, value: &[u8]) -> Result<(), AllocError> {
    write!(text, " {name}=")?;
    if value.len() > LONG {
        return write!(text, "{} bytes", value.len());
    }
    text.push_str(str::from_utf8(value).unwrap_or("||"))
}

/// Adds the seconds in which a session was made and last named, its interval, and whether it is fresh.
fn push_times(text: &mut String, session: &Session) -> Result<(), AllocError> {
    let freshness = if session.fresh { "fresh" } else { "used" };
    write!(
        text,
        " {} {} {} {freshness}",
        session.created, session.last, session.interval
    )
}

/// Adds a session's attributes.
fn push_attributes(text: &mut String, session: &Session) -> Result<(), AllocError> {
    for (name, value) in session.attributes.iter() {
        push_pair(text, name, value)?;
    }
    Ok(())
}

/// Adds a session in brackets: its context, its secret, the seconds in which it was made and last named, its interval, whether it
/// is fresh, and its attributes.
pub fn push_session(text: &mut String, session: &Session) -> Result<(), AllocError> {
    write!(text, " [{} ", session.context)?;
    push_secret(text, session.secret)?;
    push_times(text, session)?;
    push_attributes(text, session)?;
    text.push(']')
}
