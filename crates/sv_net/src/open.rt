//! An open connection.

ghost use Rattle.std.specs.Prelude.{◌≡◌};
ghost use Rattle.sv_net.specs.Exchange.{Continues};
ghost use Rattle.sv_net.specs.declared.state.State.TheVariants.{New};

use crate::socket::Socket;
use crate::state::State;
use std::time::Duration;

/// An open connection.
pub struct Open {
    pub socket: Socket,
    pub state: State,
    /// When the state began, and when something was last read, by the clock that never goes back.
    pub(crate) begun: Duration,
    pub(crate) heard: Duration,
}

/// By hand, so that the proof of a caller has one step for it and not one for each state.
impl Drop for Open {
    fn drop(self) {
        let Open {
            socket: _,
            state: _,
            begun: _,
            heard: _,
        } = self;
    }
}

impl Open {
    /// A connection that has come at a moment, and on which nothing has come yet.
    pub fn new(socket: Socket, begun: Duration) -> Open
        ensures socket { result.socket ≡ socket }
        ensures state { result.state ≡ New }
    {
        Open {
            socket,
            state: State::New,
            begun,
            heard: begun,
        }
    }

    /// A connection that begins a state at a moment.
    pub(crate) fn at(socket: Socket, state: State, begun: Duration) -> Open
        ensures { result ≡ record { socket = socket; state = state; begun = begun; heard = begun } }
    {
        Open {
            socket,
            state,
            begun,
            heard: begun,
        }
    }

    /// Its socket, its state, when that began, and when something was last read.
    pub(crate) fn into_parts(self) -> (Socket, State, Duration, Duration)
        ensures socket { result.0 ≡ self.socket }
        ensures state { result.1 ≡ self.state }
    {
        let Open {
            socket,
            state,
            begun,
            heard,
        } = self;
        (socket, state, begun, heard)
    }

    /// A client whose request waits, and that sends no more: it has been silent for longer than any other.
    pub(crate) fn silenced(self) -> Open
        ensures { Continues self result }
    {
        let Open {
            socket,
            state,
            begun,
            heard: _,
        } = self;
        Open {
            socket,
            state: state.silenced(),
            begun,
            heard: Duration::ZERO,
        }
    }

    /// A packet on its way, for which the command at a place waits.
    pub(crate) fn held_for(self, place: usize) -> Open
        ensures { Continues self result }
    {
        let Open {
            socket,
            state,
            begun,
            heard,
        } = self;
        Open {
            socket,
            state: state.held_for(place),
            begun,
            heard,
        }
    }

    /// It has so much more time. A request that waits has no such limit, and is said to have taken as long as it has.
    pub(crate) fn forgive(&mut self, stood: Duration)
        ensures socket { self.new.socket ≡ self.old.socket }
        ensures state { self.new.state ≡ self.old.state }
    {
        if !self.state.is_waiting() {
            self.begun = self.begun.saturating_add(stood);
        }
        self.heard = self.heard.saturating_add(stood);
    }

    /// It has taken longer than it may.
    pub(crate) fn is_late(&self, clock: Duration) -> bool {
        let (whole, silence) = self.state.patience();
        clock >= self.begun.saturating_add(Duration::from_secs(whole))
            || clock >= self.heard.saturating_add(Duration::from_secs(silence))
    }
}
