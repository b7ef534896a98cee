//! Tells events to the listeners of their context (Jakarta Servlet 6.0, section 11.3).

ghost use Rattle.std.specs.Prelude.{◌≡◌};
ghost use Rattle.sv_container.specs.Listening.{ear_of, ears_of, heard_by, heard_by_all, heard_of, noted_of};
ghost use Rattle.sv_container.specs.Outcome.{told};

use crate::named::Named;
use crate::outcome::told;
use sv_model::{Event, Told};
use sv_servlet::Listener;

/// The event is told in reverse order of declaration: it ends something.
fn is_an_end(event: &Event) -> bool {
    matches!(
        event,
        Event::ContextDown | Event::RequestOut | Event::Destroyed(_)
    )
}

fn tell_one<L: Listener>(named: &mut Named<L>, told: &Told)
    ensures ear { ear_of L.hears named.new ≡ ear_of L.hears named.old }
    ensures noted { L.noted named.new.object ≡ heard_by (ear_of L.hears named.old) told.now (L.noted named.old.object) }
{
    if named.context == usize::from(told.context) {
        named.object.hear(told);
    }
}

fn tell_in_order<L: Listener>(listeners: &mut Vec<Named<L>>, told: &Told)
    ensures same { ears_of L.hears listeners.new.items ≡ ears_of L.hears listeners.old.items }
    ensures noted { noted_of L.noted listeners.new.items ≡ heard_by_all (ears_of L.hears listeners.old.items) (noted_of L.noted listeners.old.items) told.now }
{
    for at in 0..listeners.len() {
        tell_one(&mut listeners[at], told);
    }
}

fn tell_in_reverse<L: Listener>(listeners: &mut Vec<Named<L>>, told: &Told)
    ensures same { ears_of L.hears listeners.new.items ≡ ears_of L.hears listeners.old.items }
    ensures noted { noted_of L.noted listeners.new.items ≡ heard_by_all (ears_of L.hears listeners.old.items) (noted_of L.noted listeners.old.items) told.now }
{
    for at in (0..listeners.len()).rev() {
        tell_one(&mut listeners[at], told);
    }
}

/// Tells an event to the listeners of its context.
fn tell<L: Listener>(listeners: &mut Vec<Named<L>>, told: &Told)
    ensures same { ears_of L.hears listeners.new.items ≡ ears_of L.hears listeners.old.items }
    ensures noted { noted_of L.noted listeners.new.items ≡ heard_by_all (ears_of L.hears listeners.old.items) (noted_of L.noted listeners.old.items) told.now }
{
    if is_an_end(&told.event) {
        tell_in_reverse(listeners, told);
    } else {
        tell_in_order(listeners, told);
    }
}

/// Tells an event to the listeners of a context of a number.
pub fn announce<L: Listener>(listeners: &mut Vec<Named<L>>, context: u8, event: Event)
    ensures same { ears_of L.hears listeners.new.items ≡ ears_of L.hears listeners.old.items }
    ensures noted { noted_of L.noted listeners.new.items ≡ heard_by_all (ears_of L.hears listeners.old.items) (noted_of L.noted listeners.old.items)
        (told context event) }
{
    tell(listeners, &told(context, event));
}

/// Tells events in order.
pub fn tell_all<L: Listener>(listeners: &mut Vec<Named<L>>, told: &[Told])
    ensures same { ears_of L.hears listeners.new.items ≡ ears_of L.hears listeners.old.items }
    ensures noted { noted_of L.noted listeners.new.items ≡ heard_of (ears_of L.hears listeners.old.items) (noted_of L.noted listeners.old.items) told.now }
{
    for one in told {
        tell(listeners, one);
    }
}
