//! The connections that are to be gone on with, in turn.

use std::alloc::{AllocError, AllocFailed, Global};

/// The places of connections that are to be gone on with, each once, in the order in which they came.
#[derive(Drop)]
pub struct Queue {
    places: Vec<usize>,
    /// By its place, whether a connection is among them.
    is_listed: Vec<bool>,
}

impl Queue {
    pub fn new(alloc: Global) -> Queue {
        Queue {
            places: Vec::new(alloc),
            is_listed: Vec::new(alloc),
        }
    }

    pub fn is_empty(&self) -> bool {
        self.places.is_empty()
    }

    pub fn len(&self) -> usize {
        self.places.len()
    }

    /// Makes room to say of a place whether it is among them.
    fn reach(&mut self, place: usize) -> Result<(), AllocError> {
        for _ in self.is_listed.len()..=place {
            self.is_listed.push(false)?;
        }
        Ok(())
    }

    /// Says of a place whether it is among them from now on.
    fn mark(&mut self, place: usize, is_listed: bool) {
        if let Some(mark) = self.is_listed.get_mut(place) {
            *mark = is_listed;
        }
    }

    /// Whether a place is among them.
    pub fn has(&self, place: usize) -> bool {
        self.is_listed.get(place) == Some(&true)
    }

    /// Adds a place after the others, if it isn't among them. Where memory is refused it isn't added.
    pub fn add(&mut self, place: usize) {
        if self.reach(place).is_err() || self.has(place) {
            return;
        }
        let added: Result<(), AllocFailed<usize>> = self.places.push(place);
        if added.is_ok() {
            self.mark(place, true);
        }
    }

    /// The first ones, so many at most.
    pub fn front(&self, most: usize) -> &[usize] {
        if self.places.len() <= most {
            self.places.as_slice()
        } else {
            &self.places[..most]
        }
    }

    /// Forgets the first ones, so many at most.
    pub fn forget(&mut self, most: usize) {
        let count = self.front(most).len();
        for at in 0..count {
            if let Some(place) = self.places.get(at).copied() {
                self.mark(place, false);
            }
        }
        if count <= self.places.len() {
            self.places.drain(..count);
        }
    }
}
