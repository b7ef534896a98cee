//! The session that an edit holds.

ghost use Rattle.std.specs.Borrow.{sem};
ghost use Rattle.std.specs.Prelude.{◌≡◌, option_map};
ghost use Rattle.sv_session.specs.Edit.{held_by};
ghost use Rattle.sv_session.specs.Holding.{LendsAlive, LendsHeld, LendsKept, alive_in, kept_in};

use sv_model::{Birth, Fate, Key, Secret, Session};

/// The session that was handed in, and the one that is made in its place.
#[derive(Drop)]
pub struct Holding {
    /// The key and the secret of a session that is made; one whose id is changed takes the secret alone.
    pub fresh: (Key, Secret),
    /// The key of the session that was handed in.
    pub handed: Option<Key>,
    pub fate: Fate,
    pub birth: Birth,
}

/// The session of a birth, to be changed.
fn alive_mut(birth: &mut Birth) -> Option<&mut Session>
    ensures* writes_back { sem 𝓛 (LendsAlive birth.entry result) }
    ensures value { option_map (λ session. session.now) result ≡ alive_in birth.old }
{
    match birth {
        Birth::Alive(session) => Some(session),
        Birth::Absent => None,
        Birth::Ended => None,
    }
}

/// The session of a fate, to be changed.
fn kept_mut(fate: &mut Fate) -> Option<&mut Session>
    ensures* writes_back { sem 𝓛 (LendsKept fate.entry result) }
    ensures value { option_map (λ session. session.now) result ≡ kept_in fate.old }
{
    match fate {
        Fate::Kept(session) => Some(session),
        Fate::Untouched => None,
        Fate::Ended => None,
    }
}

impl Holding {
    /// The session that is held, with its key.
    #[tactic(auto, unfolding(crate::specs::Edit::held_by))]
    pub fn held(&self) -> Option<(Key, &Session)>
        ensures { option_map (λ held. (held.0, held.1.now)) result ≡ held_by self.now.birth self.now.fate self.now.handed self.now.fresh }
    {
        match (&self.birth, &self.fate, self.handed) {
            (Birth::Alive(session), _, _) => Some((self.fresh.0, session)),
            (_, Fate::Kept(session), Some(key)) => Some((key, session)),
            _ => None,
        }
    }

    /// The session that is held, to be changed.
    #[tactic(auto, unfolding(crate::specs::Edit::held_by))]
    pub fn held_mut(&mut self) -> Option<&mut Session>
        ensures* writes_back { sem 𝓛 (LendsHeld self.entry result) }
        ensures value { option_map (λ session. session.now) result
            ≡ option_map (λ held. held.1) (held_by self.old.birth self.old.fate self.old.handed self.old.fresh) }
    {
        match self.birth {
            Birth::Alive(_) => alive_mut(&mut self.birth),
            Birth::Absent | Birth::Ended => match self.handed {
                Some(_) => kept_mut(&mut self.fate),
                None => None,
            },
        }
    }
}
