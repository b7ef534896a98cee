//! An engine whose events are noted.

ghost use Rattle.std.specs.Prelude.{◌≡◌};

use std::alloc::{AllocError, Global};
use sv_model::{Engine, EngineFault, Event, Key, Outcome, Request, Secret, Session, Told};

/// An engine, and the events that it was told: a word each with the serial of its session or the name of its attribute, and a
/// semicolon after those of one step.
#[derive(Drop)]
pub struct Overheard<'a, E: Drop> {
    pub alloc: Global,
    pub engine: E,
    pub noted: &'a mut String,
}

/// An event in words; a change of an id with the last byte of the secret that the session had.
fn words_of(alloc: Global, event: &Event) -> Result<String, AllocError> {
    match event {
        Event::RequestIn => String::from_str(alloc, "in "),
        Event::RequestOut => String::from_str(alloc, "out "),
        Event::Created(key) => format!(in alloc; "created:{} ", key.serial),
        Event::Added { name, .. } => format!(in alloc; "added:{} ", name.as_str()),
        Event::Replaced { name, .. } => format!(in alloc; "replaced:{} ", name.as_str()),
        Event::IdChanged { key, old } => {
            let Secret([.., last]) = old;
            format!(in alloc; "changed:{}/{last} ", key.serial)
        }
        _ => String::from_str(alloc, "other "),
    }
}

/// Notes an event; where memory is refused, nothing.
fn note(alloc: Global, noted: &mut String, event: &Event) {
    if let Ok(words) = words_of(alloc, event) {
        let _ = noted.push_str(words.as_str());
    }
}

/// Notes the events of one step.
fn note_all(alloc: Global, noted: &mut String, told: &[Told]) {
    for one in told {
        note(alloc, noted, &one.event);
    }
    let _ = noted.push(';');
}

impl<E: Engine + Drop> Engine for Overheard<'_, E> {
    ghost meaning = { λ o. E.meaning o.engine };

    ghost heard = { λ o. E.heard o.engine };

    ghost valid = { λ o. E.valid o.engine };

    fn names(&self, request: &Request) -> Option<(Key, Secret)> {
        self.engine.names(request)
    }

    fn serve(
        &mut self,
        request: &Request,
        session: Option<(Key, &Session)>,
        now: u64,
        fresh: (Key, Secret),
    ) -> Result<Outcome, EngineFault> {
        self.engine.serve(request, session, now, fresh)
    }

    fn tell(&mut self, told: &[Told]) {
        note_all(self.alloc, self.noted, told);
        self.engine.tell(told);
    }

    ghost untouched = { λ o valid. E.untouched o.engine valid };

    ghost within_limits = { λ o valid. E.within_limits o.engine valid };

    ghost names_keys = { λ o valid. E.names_keys o.engine valid };
}
