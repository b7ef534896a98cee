//! A box of a listener is a listener, so that code over `L: Listener` takes both.

use crate::listener::Listener;
use sv_model::Told;

impl Listener for Box<dyn Listener> {
    ghost hears = { λ b. (Listener-box b).hears b.value };

    ghost noted = { λ b. (Listener-box b).noted b.value };

    fn hear(&mut self, told: &Told) {
        (**self).hear(told)
    }
}
