//! How often things have happened since their lines were written.

use crate::event::Event;
use std::alloc::{AllocFailed, Global};
use std::fmt;

/// So many kinds of lines are written in a second at most; what else happens then is counted.
pub const KINDS: usize = 32;

/// An event whose line was written, and how often its like has happened since.
#[derive(Clone, Copy)]
pub struct Entry {
    /// The last one.
    pub event: Event,
    pub times: u64,
    /// When its line was written last, in seconds since 1970.
    said: u64,
}

impl Entry {
    /// So long has passed since its line was written that the next one may be.
    fn is_due(&self, second: u64) -> bool {
        second.abs_diff(self.said) >= self.event.pause()
    }
}

impl fmt::Display for Entry {
    fn fmt<W: fmt::Write>(&self, f: &mut fmt::Formatter<W>) -> fmt::Result {
        let Entry {
            event,
            times,
            said: _,
        } = *self;
        write!(f, "{event} times={times}")
    }
}

/// What has happened since its line was written.
#[derive(Drop)]
pub struct Tally {
    entries: Vec<Entry>,
    skipped: u64,
}

/// What is to be done with an event.
#[derive(Clone, Copy, PartialEq, Eq)]
pub enum Telling {
    /// Its line is to be written.
    Now,
    /// It is counted, and said once its next line may be written.
    Later,
}

impl Tally {
    pub fn new(alloc: Global) -> Tally {
        Tally {
            entries: Vec::new(alloc),
            skipped: 0,
        }
    }

    /// The place of the entry of such an event.
    fn place_of(&self, event: Event) -> Option<usize> {
        let sort = event.sort();
        self.entries
            .iter()
            .position(|entry| entry.event.sort() == sort)
    }

    /// Counts an event of this second.
    pub fn count(&mut self, event: Event, second: u64) -> Telling {
        if let Some(place) = self.place_of(event) {
            if let Some(entry) = self.entries.get_mut(place) {
                entry.event = event;
                entry.times = entry.times.saturating_add(1);
            }
            return Telling::Later;
        }
        if self.entries.len() < KINDS {
            let added: Result<(), AllocFailed<Entry>> = self.entries.push(Entry {
                event,
                times: 0,
                said: second,
            });
            if added.is_ok() {
                return Telling::Now;
            }
        }
        self.skipped = self.skipped.saturating_add(1);
        Telling::Later
    }

    /// How many kinds are on the list.
    pub fn len(&self) -> usize {
        self.entries.len()
    }

    /// What has happened again since its line was written, at a place of the list; none if it hasn't.
    pub fn repeated(&self, place: usize) -> Option<Entry> {
        self.entries
            .get(place)
            .copied()
            .filter(|entry| entry.times > 0)
    }

    /// The same, if it may be said in this second.
    pub fn due(&self, place: usize, second: u64) -> Option<Entry> {
        self.repeated(place).filter(|entry| entry.is_due(second))
    }

    /// The same, if an event says that it happens no more.
    pub fn ended(&self, place: usize, event: Event) -> Option<Entry> {
        self.repeated(place).filter(|entry| event.ends(entry.event))
    }

    /// Forgets what happens no more, as an event says: what is like it is said at once.
    pub fn forget(&mut self, event: Event) {
        self.entries.retain(|entry| !event.ends(entry.event));
    }

    /// How many events were neither written nor counted by their kind.
    pub fn skipped(&self) -> u64 {
        self.skipped
    }

    /// Begins a second. What has happened again stays on the list, so that it is said no more often than it may be.
    pub fn begin(&mut self, second: u64) {
        self.entries
            .retain(|entry| entry.times > 0 || !entry.is_due(second));
        for entry in &mut self.entries {
            if entry.is_due(second) {
                entry.times = 0;
                entry.said = second;
            }
        }
        self.skipped = 0;
    }
}
