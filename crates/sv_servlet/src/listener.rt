//! Listeners: objects that are told what happened (Jakarta Servlet 6.0, chapter "Application Lifecycle Events").

ghost use Rattle.std.specs.Prelude.{◌≡◌, ℕ, List};
ghost use Rattle.sv_model.specs.declared.event.Told.{Told as Event};

use sv_model::Told;

/// An application object that is told the events of its context.
///
/// Its meaning is a list of numbers, and what an event makes of them: a function that no call changes.
pub trait Listener: Drop {
    /// What an event makes of the numbers.
    ghost hears: { Self → Event → List ℕ → List ℕ };

    /// The numbers that it has noted.
    ghost noted: { Self → List ℕ };

    /// Tells it an event of its context. Takes no memory that can be refused to the caller.
    fn hear(&mut self, told: &Told)
        ensures same { hears self.new ≡ hears self.old }
        ensures noted { noted self.new ≡ hears self.old told.now (noted self.old) };
}
