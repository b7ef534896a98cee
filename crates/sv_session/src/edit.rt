//! The edit of a session, from its beginning to what it leaves.

mod attributes;
mod holding;
mod life;
mod token;

ghost use Rattle.std.specs.Prelude.{◌≡◌, OnOk, OnErr};
ghost use Rattle.sv_session.specs.Calls.{tell};
ghost use Rattle.sv_session.specs.Edit.{begun, key_of, fate_of};

use holding::Holding;
use std::alloc::{AllocError, Global};
use std::marker::Model;
use sv_model::{Birth, Event, Fate, Key, Secret, Sequence, Session, Told};

/// What an edit leaves.
#[derive(Drop)]
pub struct Edited {
    /// What became of the session that was handed in.
    pub fate: Fate,
    /// What became of a session that was made.
    pub birth: Birth,
    /// Whether the session that was handed in was given another secret, also where it has ended since.
    pub id_changed: bool,
    /// The events of the edit, in order.
    pub events: Sequence<Told>,
}

/// A session while a request is served: the one that was handed in, or one that is made.
pub struct SessionEdit {
    context: u8,
    interval: i32,
    now: u64,
    holding: Holding,
    id_changed: bool,
    events: Vec<Told>,
    alloc: Global,
}

/// By hand, so that the proof of a caller has one step for it and not one for each fate and birth.
impl Drop for SessionEdit {
    fn drop(self) {
        let SessionEdit {
            context: _,
            interval: _,
            now: _,
            holding: _,
            id_changed: _,
            events: _,
            alloc: _,
        } = self;
    }
}

impl Model for SessionEdit {
    ghost use Rattle.sv_session.specs.Edit.{Edit};

    ghost Value = { Edit };

    ghost view = { λ e. record {
      context = e.context;
      interval = e.interval;
      now = e.now;
      fresh = e.holding.fresh;
      handed = e.holding.handed;
      fate =
          e.holding.fate;
      birth = e.holding.birth;
      id_changed = e.id_changed;
      events = e.events.items;
    } };
}

/// The key of the session that is handed in, and its fate as long as nobody ends it.
fn taken(held: Option<(Key, Session)>) -> (Option<Key>, Fate)
    ensures key { result.0 ≡ key_of held }
    ensures fate { result.1 ≡ fate_of held }
{
    match held {
        Some((key, session)) => (Some(key), Fate::Kept(session)),
        None => (None, Fate::Untouched),
    }
}

impl SessionEdit {
    /// Begins the edit for a request in a context at `now` in whole seconds.
    ///
    /// `held` is the session that the request names, joined to the request, or none. A session that is made
    /// gets the `fresh` key and secret and the context's `interval` in seconds; one whose id is changed gets the
    /// fresh secret alone.
    pub fn begin(
        alloc: Global,
        held: Option<(Key, Session)>,
        context: u8,
        interval: i32,
        now: u64,
        fresh: (Key, Secret),
    ) -> SessionEdit
        ensures { result ≡ begun held context interval now fresh }
    {
        let (handed, fate) = taken(held);
        SessionEdit {
            context,
            interval,
            now,
            holding: Holding {
                fresh,
                handed,
                fate,
                birth: Birth::Absent,
            },
            id_changed: false,
            events: Vec::new(alloc),
            alloc,
        }
    }

    /// Ends the edit.
    pub fn finish(self) -> Edited
        ensures fate { result.fate ≡ self.fate }
        ensures birth { result.birth ≡ self.birth }
        ensures id_changed { result.id_changed ≡ self.id_changed }
        ensures events { result.events ≡ self.events }
    {
        let SessionEdit {
            context: _,
            interval: _,
            now: _,
            holding,
            id_changed,
            events,
            alloc: _,
        } = self;
        let Holding {
            fresh: _,
            handed: _,
            fate,
            birth,
        } = holding;
        Edited {
            fate,
            birth,
            id_changed,
            events: Sequence::from_vec(events),
        }
    }

    /// Tells an event to the listeners of the context.
    fn tell(&mut self, event: Event) -> Result<(), AllocError>
        ensures ok { OnOk result (self.new ≡ tell self.old event) }
        ensures err { OnErr result (self.new ≡ self.old) }
    {
        let context = self.context;
        self.events.push(Told { context, event })?;
        Ok(())
    }
}
