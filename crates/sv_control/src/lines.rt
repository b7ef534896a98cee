//! What is shown of a journal: a line for each session.

ghost use Rattle.std.specs.Prelude.{◌≡◌, ◌∷◌, [], ◌++◌, IfOk, OnOk, Some, map, string_bytes};
ghost use Rattle.std.specs.Option.{option_map};
ghost use Rattle.sv_control.specs.Lines as spec;
ghost use Rattle.sv_control.specs.Lines.{attribute_text, attribute_to_see, byte_text, escaped_byte, place_text, seen_attribute, seen_place};
ghost use Rattle.sv_control.specs.Lines.{seen_session, session_text, session_to_see, times_text, to_see, value_to_see};

use crate::naming::key_text;
use serde::Serialize;
use std::alloc::{AllocError, Global};
use std::fmt;
use sv_model::{Attributes, Key, KeyState, Session};

/// Whether the values of attributes are shown, which may be anybody's secrets.
#[derive(Clone, Copy, Debug, PartialEq, Eq)]
pub enum Disclosure {
    /// Names, and how many bytes each value has.
    Sizes,
    /// Names, sizes and values.
    Values,
}

/// What is shown of an attribute.
#[derive(Drop, Serialize)]
pub struct AttributeLine {
    pub name: String,
    /// How many bytes the value has.
    pub bytes: usize,
    /// The value, where values are shown: bytes that are no printable ASCII, blanks and backslashes as `\x` and two digits.
    pub value: Option<String>,
}

/// Where a session is.
#[derive(Clone, Copy, Serialize)]
pub struct SessionPlace {
    /// `active` here, or `sent` to another node.
    pub state: &'static str,
    pub epoch: u64,
    /// The node that it was sent to.
    pub to: Option<u8>,
    /// The number of its context.
    pub context: u8,
}

/// When a session was made and named, in whole seconds since 1970.
#[derive(Clone, Copy, Serialize)]
pub struct SessionTimes {
    pub created: u64,
    /// When a request last named it.
    pub last: u64,
    /// When it expires if no request names it; none where it never does.
    pub expires: Option<u64>,
}

/// What is shown of a session: what a node that holds it, or has sent it and has no acknowledgement yet, keeps of it.
#[derive(Drop, Serialize)]
pub struct SessionLine {
    /// `HOME.SERIAL`.
    pub key: String,
    #[serde(flatten)]
    pub place: SessionPlace,
    #[serde(flatten)]
    pub times: SessionTimes,
    pub attributes: Vec<AttributeLine>,
}

/// Adds a byte as `\x` and two hexadecimal digits.
fn add_escaped(alloc: Global, text: &mut String, byte: u8) -> Result<(), AllocError>
    ensures { OnOk result (string_bytes text.new ≡ string_bytes text.old ++ escaped_byte byte) }
{
    let escaped = if byte < 16 {
        format!(in alloc; "\\x0{byte:x}")?
    } else {
        format!(in alloc; "\\x{byte:x}")?
    };
    text.push_str(escaped.as_str())
}

/// Adds a byte of a value.
fn add_byte(alloc: Global, text: &mut String, byte: u8) -> Result<(), AllocError>
    ensures { OnOk result (string_bytes text.new ≡ string_bytes text.old ++ byte_text byte) }
{
    match byte {
        b'!'..=b'[' | b']'..=b'~' => Ok(text.push(char::from(byte))?),
        _ => add_escaped(alloc, text, byte),
    }
}

/// A value as it is shown.
fn value_text(alloc: Global, value: &[u8]) -> Result<String, AllocError>
    ensures { IfOk result (λ text. string_bytes text ≡ spec.value_text value.now) }
{
    let mut text = String::new(alloc);
    for byte in value {
        add_byte(alloc, &mut text, *byte)?;
    }
    Ok(text)
}

/// The value of an attribute, where values are shown.
fn value_shown(
    alloc: Global,
    value: &[u8],
    disclosure: Disclosure,
) -> Result<Option<String>, AllocError>
    ensures { IfOk result (λ text. option_map string_bytes text ≡ value_to_see disclosure value.now) }
{
    match disclosure {
        Disclosure::Sizes => Ok(None),
        Disclosure::Values => Ok(Some(value_text(alloc, value)?)),
    }
}

/// What is shown of one attribute.
fn attribute_line(
    alloc: Global,
    name: &str,
    value: &[u8],
    disclosure: Disclosure,
) -> Result<AttributeLine, AllocError>
    ensures { IfOk result (λ line. seen_attribute line ≡ attribute_to_see disclosure (name.now, value.now)) }
{
    Ok(AttributeLine {
        name: String::from_str(alloc, name)?,
        bytes: value.len(),
        value: value_shown(alloc, value, disclosure)?,
    })
}

/// A line more.
fn add_line(lines: &mut Vec<AttributeLine>, line: AttributeLine) -> Result<(), AllocError>
    ensures { OnOk result (lines.new.items ≡ lines.old.items ++ line ∷ []) }
{
    lines.push(line)?;
    Ok(())
}

fn attribute_lines(
    alloc: Global,
    attributes: &Attributes,
    disclosure: Disclosure,
) -> Result<Vec<AttributeLine>, AllocError>
    ensures { IfOk result (λ lines. map seen_attribute lines.items ≡ map (attribute_to_see disclosure) attributes.now) }
{
    let mut lines = Vec::new(alloc);
    for (name, value) in attributes.iter() {
        let line = attribute_line(alloc, name, value, disclosure)?;
        add_line(&mut lines, line)?;
    }
    Ok(lines)
}

/// When a session expires if no request names it; an interval of 0 and less never passes.
fn expiry(session: &Session) -> Option<u64>
    ensures { result ≡ spec.expiry session.now.last session.now.interval }
{
    match u64::try_from(session.interval) {
        Ok(seconds) if seconds > 0 => session.last.checked_add(seconds),
        _ => None,
    }
}

fn times_of(session: &Session) -> SessionTimes
    ensures { result ≡ spec.times_of session.now }
{
    SessionTimes {
        created: session.created,
        last: session.last,
        expires: expiry(session),
    }
}

fn line_of(
    alloc: Global,
    key: Key,
    place: SessionPlace,
    session: &Session,
    disclosure: Disclosure,
) -> Result<SessionLine, AllocError>
    ensures { IfOk result (λ line. seen_session line ≡ session_to_see disclosure key (seen_place place) session.now) }
{
    let attributes = attribute_lines(alloc, &session.attributes, disclosure)?;
    Ok(SessionLine {
        key: key_text(alloc, key)?,
        place,
        times: times_of(session),
        attributes,
    })
}

/// What is shown of a key; of one whose session has gone or ended, nothing.
pub fn session_line(
    alloc: Global,
    key: Key,
    state: &KeyState,
    disclosure: Disclosure,
) -> Result<Option<SessionLine>, AllocError>
    ensures { IfOk result (λ line. option_map seen_session line ≡ to_see disclosure key state.now) }
{
    let (place, session) = match state {
        KeyState::Active { epoch, session } => {
            let place = SessionPlace {
                state: "active",
                epoch: *epoch,
                to: None,
                context: session.context,
            };
            (place, session)
        }
        KeyState::Sent { epoch, session, to } => {
            let place = SessionPlace {
                state: "sent",
                epoch: *epoch,
                to: Some(*to),
                context: session.context,
            };
            (place, session)
        }
        KeyState::Gone { .. } | KeyState::Ended { .. } => return Ok(None),
    };
    Ok(Some(line_of(alloc, key, place, session, disclosure)?))
}

impl fmt::Display for AttributeLine {
    ghost output = { λ x. Some (attribute_text x) };

    fn fmt<W: fmt::Write>(&self, f: &mut fmt::Formatter<W>) -> fmt::Result {
        write!(f, "{}:{}", self.name, self.bytes)?;
        match &self.value {
            Some(value) => write!(f, "={value}"),
            None => Ok(()),
        }
    }
}

impl fmt::Display for SessionPlace {
    ghost output = { λ x. Some (place_text x) };

    fn fmt<W: fmt::Write>(&self, f: &mut fmt::Formatter<W>) -> fmt::Result {
        f.write_str(self.state)?;
        if let Some(to) = self.to {
            write!(f, " to {to}")?;
        }
        write!(f, ", epoch {}, context {}", self.epoch, self.context)
    }
}

impl fmt::Display for SessionTimes {
    ghost output = { λ x. Some (times_text x) };

    fn fmt<W: fmt::Write>(&self, f: &mut fmt::Formatter<W>) -> fmt::Result {
        write!(f, "made {}, last {}, ", self.created, self.last)?;
        match self.expires {
            Some(expires) => write!(f, "expires {expires}"),
            None => f.write_str("never expires"),
        }
    }
}

impl fmt::Display for SessionLine {
    ghost output = { λ x. Some (session_text x) };

    fn fmt<W: fmt::Write>(&self, f: &mut fmt::Formatter<W>) -> fmt::Result {
        write!(f, "{} {}, {},", self.key, self.place, self.times)?;
        for attribute in &self.attributes {
            write!(f, " {attribute}")?;
        }
        Ok(())
    }
}
