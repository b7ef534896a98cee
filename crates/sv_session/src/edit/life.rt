//! The life of the session that is held.

ghost use Rattle.std.specs.Prelude.{◌≡◌, ◌≢◌, Err};
ghost use Rattle.sv_session.specs.Edit.{has_made, has_used_secret};
ghost use Rattle.sv_session.specs.Calls.{Answers, change_id_result, create_result, key_result, interval_result, invalidate_result, new_result};
ghost use Rattle.sv_session.specs.declared.fault.SessionFault.TheVariants.{Memory};

use super::SessionEdit;
use crate::fault::SessionFault;
use sv_model::{Attributes, Birth, Event, Fate, Key, Session};

impl SessionEdit {
    /// The key of the session that is held; NoSession without a session.
    #[tactic(auto, unfolding(crate::specs::Calls::key_result))]
    pub fn key(&self) -> Result<Key, SessionFault>
        ensures { result ≡ key_result self.entry.now }
    {
        match self.holding.held() {
            Some((key, _)) => Ok(key),
            None => Err(SessionFault::NoSession),
        }
    }

    /// Whether no request has named the session yet; NoSession without a session.
    #[tactic(auto, unfolding(crate::specs::Calls::new_result))]
    pub fn is_new(&self) -> Result<bool, SessionFault>
        ensures { result ≡ new_result self.entry.now }
    {
        match self.holding.held() {
            Some((_, session)) => Ok(session.fresh),
            None => Err(SessionFault::NoSession),
        }
    }

    /// Sets the seconds without a request after which the session expires, never where they are 0 or less;
    /// NoSession without a session. It is not told.
    #[tactic(auto, unfolding(crate::specs::Calls::interval_result, crate::specs::Edit::held_by))]
    pub fn set_interval(&mut self, seconds: i32) -> Result<(), SessionFault>
        ensures answer { Answers self.old (interval_result self.old seconds) result self.new }
        ensures takes_no_memory { result ≢ Err Memory }
    {
        let Some(session) = self.holding.held_mut() else {
            return Err(SessionFault::NoSession);
        };
        session.interval = seconds;
        Ok(())
    }

    /// Ends the session, which is told as Destroyed alone, whatever attributes it has; NoSession without a session.
    #[tactic(auto, unfolding(crate::specs::Calls::invalidate_result, crate::specs::Edit::held_by))]
    pub fn invalidate(&mut self) -> Result<(), SessionFault>
        ensures { Answers self.old (invalidate_result self.old) result self.new }
    {
        let Some((key, _)) = self.holding.held() else {
            return Err(SessionFault::NoSession);
        };
        self.tell(Event::Destroyed(key))?;
        match self.holding.birth {
            Birth::Alive(_) => self.holding.birth = Birth::Ended,
            Birth::Absent | Birth::Ended => self.holding.fate = Fate::Ended,
        }
        Ok(())
    }

    /// A session was made in this edit.
    fn has_made(&self) -> bool
        ensures { result ≡ has_made self.entry.now }
    {
        match self.holding.birth {
            Birth::Absent => false,
            Birth::Alive(_) | Birth::Ended => true,
        }
    }

    /// Makes a session where none is held, which is told as Created, and answers whether it made one.
    ///
    /// Refused as SecondCreation where none is held and the request has made one before, also one that has ended.
    #[tactic(auto, unfolding(crate::specs::Calls::create_result))]
    pub fn create(&mut self) -> Result<bool, SessionFault>
        ensures { Answers self.old (create_result self.old) result self.new }
    {
        if self.holding.held().is_some() {
            return Ok(false);
        }
        if self.has_made() {
            return Err(SessionFault::SecondCreation);
        }
        let (key, secret) = self.holding.fresh;
        self.tell(Event::Created(key))?;
        self.holding.birth = Birth::Alive(Session {
            context: self.context,
            secret,
            created: self.now,
            last: self.now,
            interval: self.interval,
            fresh: true,
            attributes: Attributes::new(self.alloc),
        });
        Ok(true)
    }

    /// The fresh secret was given to a session in this edit.
    fn has_used_secret(&self) -> bool
        ensures { result ≡ has_used_secret self.entry.now }
    {
        self.has_made() || self.id_changed
    }

    /// Gives the session that is held the fresh secret, which is told as IdChanged with the old one. Its key stays
    /// (Jakarta Servlet 6.0, `HttpServletRequest.changeSessionId`).
    ///
    /// Refused as the first of these: NoSession; SecretUsed where the request has made a session or changed an id
    /// before; Memory.
    #[tactic(auto, unfolding(crate::specs::Calls::change_id_result, crate::specs::Edit::held_by))]
    pub fn change_id(&mut self) -> Result<(), SessionFault>
        ensures { Answers self.old (change_id_result self.old) result self.new }
    {
        let (key, session) = self.holding.held().ok_or(SessionFault::NoSession)?;
        let old = session.secret;
        if self.has_used_secret() {
            return Err(SessionFault::SecretUsed);
        }
        self.tell(Event::IdChanged { key, old })?;
        let (_, secret) = self.holding.fresh;
        let session = self.holding.held_mut().ok_or(SessionFault::NoSession)?;
        session.secret = secret;
        self.id_changed = true;
        Ok(())
    }
}
