//! A servlet, a filter and a listener that note what they live through.

ghost use Rattle.std.specs.Prelude.{◌≡◌, []};
ghost use Rattle.sv_servlet.specs.Filter.{verdict};
ghost use Rattle.sv_servlet.specs.Servlet.{answer, phase_after_init};
ghost use Rattle.sv_servlet.specs.declared.filter.Before.TheVariants.{Pass};
ghost use Rattle.sv_servlet.specs.declared.servlet.Next.TheVariants.{Done};

use std::alloc::AllocError;
use std::cell::RefCell;
use std::rc::Rc;
use sv_model::{Event, Told};
use sv_servlet::{Before, Call, Filter, InitFault, Listener, Next, Phase, Reply, Servlet};
use sv_session::SessionEdit;

/// What objects live through, in order: of each the name, a full stop, a word and a blank.
pub type Diary = Rc<RefCell<String>>;

/// Writes into the diary for an object, and writes when it is dropped.
pub struct Pen {
    pub name: String,
    pub diary: Diary,
}

impl Pen {
    fn note(&self, word: &str) {
        if let Ok(mut notes) = self.diary.try_borrow_mut() {
            let _ = notes.push_str(self.name.as_str());
            let _ = notes.push_str(".");
            let _ = notes.push_str(word);
            let _ = notes.push_str(" ");
        }
    }
}

impl Drop for Pen {
    fn drop(self) {
        self.note("drop");
        let Pen { name: _, diary: _ } = self;
    }
}

/// What the initialisation of an object answers, which succeeds where it is able.
fn init(pen: &Pen, phase: &mut Phase, is_able: bool) -> Result<(), InitFault>
    ensures { phase.new ≡ phase_after_init result }
{
    pen.note("init");
    if is_able {
        *phase = Phase::Ready;
        Ok(())
    } else {
        *phase = Phase::Failed;
        Err(InitFault::Unavailable)
    }
}

/// A servlet that leaves what it is lent as it is.
#[derive(Drop)]
pub struct NotingServlet {
    pub pen: Pen,
    pub is_able: bool,
    pub phase: Phase,
}

impl Servlet for NotingServlet {
    ghost serves = { λ _ _ l. answer l Done };

    ghost servlet_phase = { λ s. s.phase };

    fn init(&mut self) -> Result<(), InitFault> {
        init(&self.pen, &mut self.phase, self.is_able)
    }

    fn service(
        &mut self,
        _call: &Call<'_>,
        _edit: &mut SessionEdit,
        _reply: &mut Reply,
    ) -> Result<Next, AllocError> {
        self.pen.note("serve");
        Ok(Next::Done)
    }

    fn destroy(&mut self) {
        self.pen.note("destroy");
        self.phase = Phase::Destroyed;
    }
}

/// A filter that lets each request pass.
#[derive(Drop)]
pub struct NotingFilter {
    pub pen: Pen,
    pub is_able: bool,
    pub phase: Phase,
}

impl Filter for NotingFilter {
    ghost filtering = { λ _. record { before = λ _ l. verdict l Pass; after = λ _ l. l } };

    ghost filter_phase = { λ f. f.phase };

    fn init(&mut self) -> Result<(), InitFault> {
        init(&self.pen, &mut self.phase, self.is_able)
    }

    fn before(
        &mut self,
        _call: &Call<'_>,
        _edit: &mut SessionEdit,
        _reply: &mut Reply,
    ) -> Result<Before, AllocError> {
        self.pen.note("before");
        Ok(Before::Pass)
    }

    fn after(
        &mut self,
        _call: &Call<'_>,
        _edit: &mut SessionEdit,
        _reply: &mut Reply,
    ) -> Result<(), AllocError> {
        self.pen.note("after");
        Ok(())
    }

    fn destroy(&mut self) {
        self.pen.note("destroy");
        self.phase = Phase::Destroyed;
    }
}

/// The word for an event.
fn word_of(event: &Event) -> &'static str {
    match event {
        Event::ContextUp => "up",
        Event::ContextDown => "down",
        Event::RequestIn => "in",
        Event::RequestOut => "out",
        Event::Created(_) => "created",
        Event::Destroyed(_) => "destroyed",
        Event::Added { .. } => "added",
        Event::Removed { .. } => "removed",
        Event::Replaced { .. } => "replaced",
        Event::Passivate(_) => "passivate",
        Event::Activate(_) => "activate",
        Event::IdChanged { .. } => "changed",
    }
}

/// A listener that keeps no numbers.
#[derive(Drop)]
pub struct NotingListener {
    pub pen: Pen,
}

impl Listener for NotingListener {
    ghost hears = { λ _ _ numbers. numbers };

    ghost noted = { λ _. [] };

    fn hear(&mut self, told: &Told) {
        self.pen.note(word_of(&told.event));
    }
}
