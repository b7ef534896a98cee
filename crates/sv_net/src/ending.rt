//! Connections that are closed before their end.

ghost use Rattle.sv_net.specs.Exchange.{AllContinue, GoOnWith};

use crate::connections::Connections;
use crate::open::Open;
use crate::queue::Queue;
use crate::state::{State, Yielding};
use std::time::Duration;
use sv_log::{Event, Loss};

/// In milliseconds: so often is looked who has taken too long.
const LOOKING: u64 = 500;

/// Why a connection is ended that isn't at its end.
#[derive(Clone, Copy)]
enum Ending {
    /// It has taken too long.
    Late,
    /// Somebody has come for whom there was no room.
    GaveWay,
}

impl Ending {
    /// Why a packet is lost that was on its way.
    fn loss(self) -> Loss {
        match self {
            Ending::Late => Loss::Late,
            Ending::GaveWay => Loss::GaveWay,
        }
    }

    /// What is told of a client that was at a state; nothing where the client had nothing more to say.
    fn event(self, state: &State) -> Option<Event> {
        let phase = state.phase();
        match self {
            Ending::Late if phase.is_over() => None,
            Ending::Late => Some(Event::Late { phase }),
            Ending::GaveWay => Some(Event::GaveWay { phase }),
        }
    }
}

impl Connections {
    /// The one that has been silent for longest, of those that give way like this and aren't to be gone on with.
    fn most_silent(&self, yielding: Yielding, queue: &Queue) -> Option<usize> {
        let mut oldest: Option<(usize, Duration)> = None;
        for (place, slot) in self.places.iter().enumerate() {
            if let Some(open) = slot {
                let is_older = match oldest {
                    Some((_, heard)) => open.heard < heard,
                    None => true,
                };
                if is_older && open.state.yielding() == yielding && !queue.has(place) {
                    oldest = Some((place, open.heard));
                }
            }
        }
        let (place, _) = oldest?;
        Some(place)
    }

    /// The one that gives way first: a packet on its way, which is sent again, before a client is closed.
    fn first_to_go(&self, queue: &Queue) -> Option<usize> {
        match self.most_silent(Yielding::First, queue) {
            Some(place) => Some(place),
            None => self.most_silent(Yielding::BySilence, queue),
        }
    }

    /// Closes the connection that gives way first, of those that aren't to be gone on with; false where none does.
    pub(crate) fn make_room(&mut self, queue: &Queue) -> bool
        ensures { AllContinue self.old self.new }
    {
        let Some(place) = self.first_to_go(queue) else {
            return false;
        };
        self.end(place, Ending::GaveWay);
        true
    }

    /// Ends a connection that isn't at its end.
    fn end(&mut self, place: usize, ending: Ending)
        ensures { AllContinue self.old self.new }
    {
        if let Some(open) = self.take(place) {
            self.end_taken(place, open, ending);
        }
    }

    /// The same of one that was taken from its place.
    fn end_taken(&mut self, place: usize, open: Open, ending: Ending)
        ensures { AllContinue self.old self.new }
    {
        self.leave(place);
        if let State::Calling { to, holder, .. } = open.state {
            self.report.lost(to, ending.loss());
            self.release(holder);
        } else if let Some(event) = ending.event(&open.state) {
            self.report.note(event);
        }
    }

    /// Puts a connection back of which all that has come was read, or which takes no more now; or ends it if it has taken too long.
    pub fn keep_in_time(&mut self, place: usize, open: Open)
        ensures { GoOnWith place «open» self.old self.new }
    {
        if open.is_late(self.clock) {
            self.end_taken(place, open, Ending::Late);
        } else {
            self.keep(place, open);
        }
    }

    /// Whether somebody at a place has taken too long who isn't to be gone on with.
    fn is_late_at(&self, place: usize, queue: &Queue) -> bool {
        match self.places.get(place) {
            Some(Some(open)) => open.is_late(self.clock) && !queue.has(place),
            _ => false,
        }
    }

    /// Ends whoever is at a place, if that one has taken too long.
    fn end_late(&mut self, place: usize, queue: &Queue)
        ensures { AllContinue self.old self.new }
    {
        if self.is_late_at(place, queue) {
            self.end(place, Ending::Late);
        }
    }

    /// Ends the connections that have taken too long, once in a while. One that is to be gone on with has said something, and the
    /// node hasn't read it yet: whether it's late is seen once that is done.
    pub(crate) fn look_round(&mut self, queue: &Queue)
        ensures { AllContinue self.old self.new }
    {
        if self.clock < self.looked.saturating_add(Duration::from_millis(LOOKING)) {
            return;
        }
        self.looked = self.clock;
        for place in 0..self.places.len() {
            self.end_late(place, queue);
        }
    }
}
