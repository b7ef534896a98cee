//! The attribute of a session that keeps its memory.

ghost use Rattle.std.specs.Prelude.{◌≡◌, IfOk, IsTrue, OnOk};
ghost use Rattle.sv_once.specs.Room as spec;

use std::alloc::{AllocError, Global};
use sv_model::{ATTRIBUTE_LIMIT, SESSION_LIMIT, Sequence, Session, Text, VALUE_LIMIT};

/// The name of the attribute that keeps what a session remembers.
pub const MEMORY: &str = "kegbramble.once";

/// The bytes of what a session remembers; none where it remembers nothing.
#[tactic(auto, unfolding(crate::specs::Room::memory_name))]
pub fn memory_of(session: &Session) -> &[u8]
    ensures { result.now ≡ spec.memory_of session.now }
{
    match session.attributes.get(MEMORY) {
        Some(bytes) => bytes,
        None => &[],
    }
}

/// Takes what a session remembers away, so that it is as its application sees it; gives the bytes.
#[tactic(auto, unfolding(crate::specs::Room::memory_name))]
pub fn take_memory(alloc: Global, session: &mut Session) -> Sequence<u8>
    ensures bytes { result ≡ spec.memory_of session.old }
    ensures bare { session.new ≡ spec.bare session.old }
{
    match session.attributes.remove(MEMORY) {
        Some(bytes) => bytes,
        None => Sequence::new(alloc),
    }
}

fn is_small(session: &Session) -> bool
    ensures { result ≡ spec.is_small session.now }
{
    session.attributes.len() <= ATTRIBUTE_LIMIT && session.attributes.size() <= SESSION_LIMIT
}

/// The bytes, and what the application keeps, are no longer than those of an attribute and of a session.
fn is_bounded(session: &Session, memory: &Sequence<u8>) -> bool
    ensures { result ≡ spec.is_bounded memory.now session.now }
{
    memory.len() <= VALUE_LIMIT && session.attributes.size() <= SESSION_LIMIT
}

/// Sets the attribute to these bytes, if there are any.
#[tactic(auto, unfolding(crate::specs::Room::memory_name))]
fn put(alloc: Global, session: &mut Session, memory: Sequence<u8>) -> Result<(), AllocError>
    requires { IsTrue (spec.is_bounded memory session.old) }
    ensures { OnOk result (session.new ≡ spec.remembering memory session.old) }
{
    if memory.len() > 0 {
        let name = Text::from_str(alloc, MEMORY)?;
        session.attributes.insert(name, memory)?;
    }
    Ok(())
}

/// Gives a session these bytes to remember in place of what it remembered; none where there is no room for them beside what the
/// application keeps.
#[tactic(auto, unfolding(crate::specs::Room::session_with))]
pub fn with_memory(
    alloc: Global,
    session: Session,
    memory: Sequence<u8>,
) -> Result<Option<Session>, AllocError>
    ensures { IfOk result (λ s. s ≡ spec.session_with memory session) }
{
    let mut session = session;
    take_memory(alloc, &mut session);
    if !is_bounded(&session, &memory) {
        return Ok(None);
    }
    put(alloc, &mut session, memory)?;
    if is_small(&session) {
        Ok(Some(session))
    } else {
        Ok(None)
    }
}
