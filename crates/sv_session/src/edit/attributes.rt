//! The attributes of the session that is held.

ghost use Rattle.std.specs.Prelude.{◌≡◌, ◌<◌, ◌≤◌, ◌^◌, length, Option, option_copied, IfOk, OnOk, OnErr};
ghost use Rattle.sv_model.specs.declared.session.TheConstants.{NAME_LIMIT, VALUE_LIMIT};
ghost use Rattle.sv_model.specs.Attributes.{attributes_size, value_of, with_attribute};
ghost use Rattle.sv_session.specs.Calls.{Admits, Answers, Gives, is_name, is_too_large, set_event};
ghost use Rattle.sv_session.specs.Calls.{seen_value, get_result, names_result, set_result, value_result, remove_result};

use super::SessionEdit;
use crate::fault::SessionFault;
use std::alloc::{AllocError, Global};
use sv_model::{
    ATTRIBUTE_LIMIT, Attributes, Event, Key, NAME_LIMIT, SESSION_LIMIT, Sequence, Session, Text,
    Told, VALUE_LIMIT,
};

/// The name can be that of an attribute.
fn is_name(name: &str) -> bool
    ensures { result ≡ is_name name.now }
{
    !name.is_empty() && name.len() <= NAME_LIMIT
}

/// The attributes would be too many, or too large in all, with this value at this name.
fn is_too_large(attributes: &Attributes, name: &str, value: &[u8]) -> bool
    requires name { length name.now ≤ NAME_LIMIT }
    requires value { length value.now ≤ VALUE_LIMIT }
    ensures { result ≡ is_too_large (with_attribute attributes.now name.now value.now) }
{
    match attributes.get(name) {
        Some(old) => {
            attributes.len() > ATTRIBUTE_LIMIT
                || attributes.size() - old.len() > SESSION_LIMIT - value.len()
        }
        None => {
            attributes.len() >= ATTRIBUTE_LIMIT
                || attributes.size() > SESSION_LIMIT - (name.len() + value.len())
        }
    }
}

/// What is told of a value that is put at a name, by the value that was there.
fn set_event(key: Key, name: Text, value: Sequence<u8>, old: Option<Sequence<u8>>) -> Event
    ensures { result ≡ set_event key name value old }
{
    match old {
        Some(old) => Event::Replaced { key, name, old },
        None => Event::Added { key, name, value },
    }
}

/// A name and a value in memory of their own.
fn copied(alloc: Global, name: &str, value: &[u8]) -> Result<(Text, Sequence<u8>), AllocError>
    ensures { IfOk result (λ copy. copy ≡ (name.now, value.now)) }
{
    let name = Text::from_str(alloc, name)?;
    let value = Vec::from_slice(alloc, value)?;
    Ok((name, Sequence::from_vec(value)))
}

/// Puts a value at a name, and makes what is told of it.
fn put(
    alloc: Global,
    key: Key,
    session: &mut Session,
    name: &str,
    value: &[u8],
) -> Result<Event, AllocError>
    requires { attributes_size (with_attribute session.old.attributes name.now value.now) < 2 ^ 64 }
    ensures event { IfOk result (λ event. event ≡ set_event key name.now value.now (value_of session.old.attributes name.now)) }
    ensures ok { OnOk result (session.new ≡ record session.old { attributes = with_attribute session.old.attributes name.now value.now }) }
    ensures err { OnErr result (session.new ≡ session.old) }
{
    // Of a value that is replaced the old one is shown.
    let shown: &[u8] = match session.attributes.get(name) {
        Some(_) => &[],
        None => value,
    };
    let (told, shown) = copied(alloc, name, shown)?;
    let (name, value) = copied(alloc, name, value)?;
    let old = session.attributes.insert(name, value)?;
    Ok(set_event(key, told, shown, old))
}

impl SessionEdit {
    /// The value of an attribute, or none where there is no such attribute; NoSession without a session.
    #[tactic(auto, unfolding(crate::specs::Calls::get_result))]
    pub fn get(&self, name: &str) -> Result<Option<&[u8]>, SessionFault>
        ensures { seen_value result ≡ get_result self.entry.now name.now }
    {
        let Some((_, session)) = self.holding.held() else {
            return Err(SessionFault::NoSession);
        };
        Ok(session.attributes.get(name))
    }

    /// The names of the attributes in order of their bytes; NoSession without a session.
    #[tactic(auto, unfolding(crate::specs::Calls::names_result))]
    pub fn names(&self) -> Result<Sequence<Text>, SessionFault>
        ensures { Gives (names_result self.entry.now) result }
    {
        let Some((_, session)) = self.holding.held() else {
            return Err(SessionFault::NoSession);
        };
        Ok(session.attributes.names(self.alloc)?)
    }

    /// The tests that a value and its name have to pass before memory is taken for them.
    #[tactic(auto, unfolding(crate::specs::Calls::value_result))]
    fn admits(&self, name: &str, value: &[u8]) -> Result<(), SessionFault>
        ensures { Admits (value_result self.entry.now name.now value.now) result }
    {
        let Some((_, session)) = self.holding.held() else {
            return Err(SessionFault::NoSession);
        };
        if !is_name(name) {
            return Err(SessionFault::BadName);
        }
        if value.len() > VALUE_LIMIT {
            return Err(SessionFault::ValueTooLong);
        }
        if is_too_large(&session.attributes, name, value) {
            return Err(SessionFault::SessionTooLarge);
        }
        Ok(())
    }

    /// Sets an attribute to a value.
    #[tactic(auto, unfolding(crate::specs::Calls::value_result, crate::specs::Edit::held_by))]
    fn set_value(&mut self, name: &str, value: &[u8]) -> Result<(), SessionFault>
        ensures { Answers self.old (value_result self.old name.now value.now) result self.new }
    {
        self.admits(name, value)?;
        // The event's place comes first: after the change nothing may fail.
        self.events.reserve(1)?;
        let alloc = self.alloc;
        let Some((key, _)) = self.holding.held() else {
            return Err(SessionFault::NoSession);
        };
        let Some(session) = self.holding.held_mut() else {
            return Err(SessionFault::NoSession);
        };
        let event = put(alloc, key, session, name, value)?;
        let context = self.context;
        self.events.push_reserved(Told { context, event });
        Ok(())
    }

    /// Sets an attribute to a value, which is told as Added with the value, or as Replaced with the old one; no value
    /// removes the attribute.
    ///
    /// A value is refused as the first of these: NoSession; BadName where the name is not of 1 to 128 bytes;
    /// ValueTooLong past 65,536 bytes; SessionTooLarge where the session would have more than 64 attributes, or names
    /// and values of more than 131,072 bytes in all; Memory. A removal is refused as that of `remove` is.
    pub fn set(&mut self, name: &str, value: Option<&[u8]>) -> Result<(), SessionFault>
        ensures { Answers self.old (set_result self.old name.now (option_copied value.entry)) result self.new }
    {
        match value {
            Some(value) => self.set_value(name, value),
            None => self.remove(name),
        }
    }

    /// Removes an attribute, which is told as Removed with the value that it had; where there is none nothing is
    /// told, and no memory is taken. NoSession without a session.
    #[tactic(auto, unfolding(crate::specs::Calls::remove_result, crate::specs::Edit::held_by))]
    pub fn remove(&mut self, name: &str) -> Result<(), SessionFault>
        ensures { Answers self.old (remove_result self.old name.now) result self.new }
    {
        let Some((key, session)) = self.holding.held() else {
            return Err(SessionFault::NoSession);
        };
        if session.attributes.get(name).is_none() {
            return Ok(());
        }
        self.events.reserve(1)?;
        let told = Text::from_str(self.alloc, name)?;
        let Some(session) = self.holding.held_mut() else {
            return Err(SessionFault::NoSession);
        };
        if let Some(old) = session.attributes.remove(name) {
            let context = self.context;
            let event = Event::Removed {
                key,
                name: told,
                old,
            };
            self.events.push_reserved(Told { context, event });
        }
        Ok(())
    }
}
