//! A listener that counts what it is told.

ghost use Rattle.std.specs.Prelude.{◌≡◌, replicate};
ghost use Rattle.sv_samples.specs.Tally.{place_of, tallied};

use sv_model::{Event, Told};
use sv_servlet::Listener;

/// How many kinds of events there are.
const KINDS: usize = 12;

/// Counts the events of its context, each kind by itself.
///
/// It notes twelve numbers, 0 at first, in the order of the kinds of events. Each stays at the greatest of 64 bits.
#[derive(Drop)]
pub struct Tally {
    counts: [u64; KINDS],
}

/// The place of an event's number.
fn place_of(event: &Event) -> usize
    ensures { result ≡ place_of event.now }
{
    match event {
        Event::ContextUp => 0,
        Event::ContextDown => 1,
        Event::RequestIn => 2,
        Event::RequestOut => 3,
        Event::Created(_) => 4,
        Event::Destroyed(_) => 5,
        Event::Added { .. } => 6,
        Event::Removed { .. } => 7,
        Event::Replaced { .. } => 8,
        Event::Passivate(_) => 9,
        Event::Activate(_) => 10,
        Event::IdChanged { .. } => 11,
    }
}

impl Tally {
    /// A listener that has been told nothing.
    pub fn new() -> Tally
        ensures noted { ⟦<Tally as Listener>⟧.noted result ≡ replicate 12 0 }
        ensures meaning { ⟦<Tally as Listener>⟧.hears result ≡ tallied }
    {
        Tally { counts: [0; KINDS] }
    }
}

impl Listener for Tally {
    ghost use Rattle.sv_samples.specs.Tally.{tallied};

    ghost hears = { λ t. tallied };

    ghost noted = { λ t. t.counts };

    fn hear(&mut self, told: &Told) {
        let place = place_of(&told.event);
        self.counts[place] = self.counts[place].saturating_add(1);
    }
}
