//! A node that takes sessions of one that is drained.

use crate::commands::tick;
use crate::fault::Fault;
use crate::greetings::hears;
use crate::limit::clock;
use std::time::Duration;
use sv_client::{Address, NodeNumber};

/// A node that has answered is given sessions for so long before it is asked again, in thousandths of a second.
const FRESH: u64 = 250;

/// How long it may take to answer, in seconds: one that takes sessions answers in milliseconds.
const PATIENCE: u64 = 3;

/// A node that takes sessions, how many it has got, and whether it gets more.
#[derive(Clone, Copy, Debug, PartialEq, Eq)]
pub struct Taker {
    pub node: NodeNumber,
    port: u16,
    /// The node that is drained.
    from: NodeNumber,
    /// How many it has got.
    pub count: u64,
    /// It has room for so many more, by its journal; none where that wasn't read.
    room: Option<u64>,
    /// When it answered last, by the clock that nobody sets.
    answered: Option<Duration>,
    /// It didn't answer when it was asked last.
    is_silent: bool,
    /// It was said that it gets no more.
    is_told: bool,
}

impl Taker {
    /// One that hasn't been asked yet.
    pub fn new(node: NodeNumber, port: u16, from: NodeNumber, room: Option<u64>) -> Taker {
        Taker {
            node,
            port,
            from,
            count: 0,
            room,
            answered: None,
            is_silent: false,
            is_told: false,
        }
    }

    /// Says how many sessions it has room for, where that is known.
    pub fn say_room(&self, machine: &HostRuntime) -> Result<(), Fault> {
        let Some(room) = self.room else {
            return Ok(());
        };
        match println!(machine; "node {} has room for {room} more", self.node.value) {
            Ok(()) => Ok(()),
            Err(_) => Err(Fault::Output),
        }
    }

    /// Says once why it gets no more.
    fn say_not(&mut self, machine: &HostRuntime, why: &'static str) -> Result<(), Fault> {
        if self.is_told {
            return Ok(());
        }
        self.is_told = true;
        match println!(machine; "node {} {why}", self.node.value) {
            Ok(()) => Ok(()),
            Err(_) => Err(Fault::Output),
        }
    }

    fn has_room(&self) -> bool {
        self.room != Some(0)
    }

    /// It has answered a moment ago.
    fn is_fresh(&self, machine: &HostRuntime) -> bool {
        match self.answered {
            Some(then) => clock(machine).saturating_sub(then) < Duration::from_millis(FRESH),
            None => false,
        }
    }

    /// Whether it answers: on another machine it does so to greetings alone.
    fn answers(&self, machine: &HostRuntime) -> bool {
        let address = Address {
            port: self.port,
            patience: PATIENCE,
        };
        tick(machine, address).is_ok() || hears(machine, address, self.from.value, self.node.value)
    }

    /// Asks it; whether it answers.
    fn ask(&mut self, machine: &HostRuntime) -> Result<bool, Fault> {
        if self.answers(machine) {
            self.answered = Some(clock(machine));
            return Ok(true);
        }
        self.is_silent = true;
        self.say_not(machine, "doesn't answer, and gets none")?;
        Ok(false)
    }

    /// Whether it is given one more: it has room, and answers.
    pub fn takes(&mut self, machine: &HostRuntime) -> Result<bool, Fault> {
        if !self.has_room() {
            self.say_not(machine, "has room for no more")?;
            return Ok(false);
        }
        if self.is_silent || self.is_fresh(machine) {
            return Ok(!self.is_silent);
        }
        self.ask(machine)
    }

    /// One more has gone to it.
    pub fn give(&mut self) {
        self.count = self.count.saturating_add(1);
        if let Some(room) = self.room {
            self.room = Some(room.saturating_sub(1));
        }
    }

    /// It is asked again before it gets one.
    pub fn doubt(&mut self) {
        self.is_silent = false;
        self.answered = None;
    }
}
