//! When a node asks again for the sessions that its requests wait for.

ghost use Rattle.std.specs.Prelude.{◌≡◌};
ghost use Rattle.sv_host.specs.Asking.{at, asked, is_due, sooner};

/// In milliseconds: so long after the first request that waits a node asks again.
const FIRST: u64 = 50;

/// In milliseconds: so long it waits until it asks once more, at most.
const LAST: u64 = 1_000;

/// When a node asks again for the sessions that its requests wait for: a want is lost where its session is on its way just then. A tick
/// puts them out again each second; where the session goes from node to node that is too late. The times between double, so that a
/// node that is down costs few packets.
#[derive(Clone, Copy, Debug, PartialEq, Eq)]
pub struct Asking {
    /// When it asks next, in milliseconds by the clock that nobody sets; none while nobody waits.
    pub due: Option<u64>,
    /// How long after the last time that is.
    pause: u64,
}

impl Asking {
    /// Nobody waits.
    pub const NONE: Asking = Asking {
        due: None,
        pause: FIRST,
    };

    /// It is time to ask.
    pub fn is_due(self, now: u64) -> bool
        ensures { result ≡ is_due self now }
    {
        match self.due {
            Some(due) => due <= now,
            None => false,
        }
    }

    /// What is due once a turn has come to its end, after which requests wait or none does.
    pub fn at(self, now: u64, waits: bool) -> Asking
        ensures { result ≡ at self now waits }
    {
        if !waits {
            return Asking::NONE;
        }
        match self.due {
            Some(_) => self,
            None => Asking {
                due: Some(now.saturating_add(FIRST)),
                pause: FIRST,
            },
        }
    }

    /// It has asked.
    pub fn asked(self, now: u64) -> Asking
        ensures { result ≡ asked self now }
    {
        let doubled = self.pause.saturating_mul(2);
        let pause = if doubled < LAST { doubled } else { LAST };
        Asking {
            due: Some(now.saturating_add(pause)),
            pause,
        }
    }

    /// A session has come for which requests waited: others may have lost their wants for it.
    pub fn sooner(self, now: u64) -> Asking
        ensures { result ≡ sooner self now }
    {
        let soon = now.saturating_add(FIRST);
        let due = match self.due {
            Some(due) if due < soon => due,
            _ => soon,
        };
        Asking {
            due: Some(due),
            pause: FIRST,
        }
    }
}
