//! A listener that counts orders.

ghost use Rattle.std.specs.Prelude.{◌≡◌, ◌∷◌, []};
ghost use Rattle.example_servlets.specs.Orders.{counted, is_order};

use crate::kept::ORDER;
use sv_model::{Event, Told};
use sv_servlet::Listener;

/// Counts the orders of all sessions, up to the greatest number of 64 bits.
#[derive(Clone, Copy)]
pub struct Orders {
    count: u64,
}

/// An order was kept in a session.
fn is_order(event: &Event) -> bool
    ensures { result ≡ is_order event.now }
{
    match event {
        Event::Added { name, .. } => name.as_str() == ORDER,
        Event::Replaced { name, .. } => name.as_str() == ORDER,
        _ => false,
    }
}

impl Orders {
    /// No order yet.
    pub fn new() -> Orders
        ensures noted { ⟦<Orders as Listener>⟧.noted result ≡ 0 ∷ [] }
        ensures meaning { ⟦<Orders as Listener>⟧.hears result ≡ counted }
    {
        Orders { count: 0 }
    }
}

impl Listener for Orders {
    ghost use Rattle.std.specs.Prelude.{◌∷◌, []};
    ghost use Rattle.example_servlets.specs.Orders.{counted};

    ghost hears = { λ _. counted };

    ghost noted = { λ o. o.count ∷ [] };

    fn hear(&mut self, told: &Told) {
        if is_order(&told.event) {
            self.count = self.count.saturating_add(1);
        }
    }
}
