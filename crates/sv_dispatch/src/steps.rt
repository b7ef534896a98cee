//! The steps of a dispatch that leave the stack alone.

ghost use Rattle.std.specs.Prelude.{◌≡◌, ◌≢◌, ℕ, ◌+◌, ◌*◌, ◌<◌, ◌≤◌, suc, IfOk, IfErr, All, OnOk};
ghost use Rattle.sv_dispatch.specs.Dispatching.{outcome, closed, dispatched, performed, sent, to_serve};
ghost use Rattle.sv_dispatch.specs.Rows.{IsReadyAt};
ghost use Rattle.sv_dispatch.specs.Sight.{call_of};
ghost use Rattle.sv_dispatch.specs.Stack.{current, opened, followed, reentered, closed_open, nesting, IsOpen, IsModeOf, need, weight};
ghost use Rattle.sv_dispatch.specs.Stages.{table_of, lent_of, IsSound};
ghost use Rattle.sv_dispatch.specs.declared.mode.Ending.TheVariants.{Abandoned};
ghost use Rattle.sv_dispatch.specs.declared.mode.Mode.TheVariants.{Leave};

use crate::calls::service_at;
use crate::chain::{begin, run_afters, servlet_at};
use crate::mode::{Ending, Frame, Mode, Open, Then};
use crate::stage::Stage;
use crate::view::View;
use crate::visit::{Ask, Visit, visit_of};
use std::alloc::{AllocError, Global};
use sv_mapping::Dispatcher;
use sv_model::Text;
use sv_servlet::{Before, Filter, Next, Servlet};

/// How a dispatch ends where an error is sent; below an include that is its end and nothing more.
#[tactic(auto, unfolding(crate::specs::Dispatching::sent))]
fn sent(view: &View<'_>, code: u16, text: Text) -> Ending
    ensures ending { result ≡ sent view.now code text }
    ensures kept { result ≢ Abandoned }
{
    if view.is_included() {
        Ending::Finished
    } else {
        Ending::Failed { code, text }
    }
}

/// Ends a dispatch that was not abandoned.
#[inline(always)]
pub fn end<S: Servlet, F: Filter>(
    stage: &mut Stage<S, F>,
    view: View<'_>,
    passed: Vec<usize>,
    ended: Ending,
) -> Result<Ending, AllocError>
    requires ready { All (IsReadyAt (table_of S.Servlet F.Filter stage.old).filters) passed.items }
    requires kept { ended ≢ Abandoned }
    ensures same { table_of S.Servlet F.Filter stage.new ≡ table_of S.Servlet F.Filter stage.old }
    ensures ended { IfOk result (λ over. over ≡ ended) }
    ensures closed { OnOk result ((left : ℕ) → outcome ended left (lent_of stage.new)
        ≡ closed (table_of S.Servlet F.Filter stage.old).filters passed.items (call_of view.entry 0)
        (outcome ended left (lent_of stage.old))) }
{
    run_afters(stage, &view, passed)?;
    Ok(ended)
}

/// Ends a dispatch that was not abandoned, and goes back to the one that waits for it.
fn finish<'a, S: Servlet, F: Filter>(
    stage: &mut Stage<S, F>,
    view: View<'a>,
    passed: Vec<usize>,
    ended: Ending,
) -> Result<Mode<'a>, AllocError>
    requires ready { All (IsReadyAt (table_of S.Servlet F.Filter stage.old).filters) passed.items }
    requires kept { ended ≢ Abandoned }
    ensures same { table_of S.Servlet F.Filter stage.new ≡ table_of S.Servlet F.Filter stage.old }
    ensures mode { IfOk result (λ mode. mode ≡ Leave ended) }
    ensures closed { OnOk result ((left : ℕ) → outcome ended left (lent_of stage.new)
        ≡ closed (table_of S.Servlet F.Filter stage.old).filters passed.items (call_of view.entry 0)
        (outcome ended left (lent_of stage.old))) }
{
    Ok(Mode::Leave(end(stage, view, passed, ended)?))
}

/// The servlet that is to be called after the filters, or how the dispatch ends without it.
#[inline(always)]
pub fn to_serve<S: Servlet, F: Filter>(
    alloc: Global,
    stage: &Stage<S, F>,
    view: &View<'_>,
    servlet: Option<usize>,
    before: Before,
) -> Result<usize, Ending>
    ensures servlet { result ≡ to_serve (table_of S.Servlet F.Filter stage.now).servlets view.now servlet before }
    ensures kept { IfErr result (λ ended. ended ≢ Abandoned) }
{
    match before {
        Before::Pass | Before::PassWith { .. } => match servlet_at(stage, servlet) {
            Some(servlet) => Ok(servlet),
            None => Err(sent(view, 404, Text::new(alloc))),
        },
        Before::Stop => Err(Ending::Finished),
        Before::SendError { code, text } => Err(sent(view, code, text)),
        Before::Fault(name) => Err(Ending::Faulted(name)),
    }
}

/// Calls the filters of a dispatch, up to the one that does not pass.
fn open<'a, S: Servlet, F: Filter>(
    alloc: Global,
    stage: &mut Stage<S, F>,
    visit: Visit<'a>,
) -> Result<Mode<'a>, AllocError>
    requires { IsSound (table_of S.Servlet F.Filter stage.old) }
    ensures same { table_of S.Servlet F.Filter stage.new ≡ table_of S.Servlet F.Filter stage.old }
    ensures held { IfOk result (IsModeOf (table_of S.Servlet F.Filter stage.old)) }
    ensures need { IfOk result (λ mode. need mode ≤ 1) }
    ensures less { IfOk result (λ mode. weight mode < 2) }
    ensures current { IfOk result (λ mode. (e left : ℕ) → current (table_of S.Servlet F.Filter stage.old) (suc e) mode left
        (lent_of stage.new) ≡ performed (table_of S.Servlet F.Filter stage.old)
        (dispatched (table_of S.Servlet F.Filter stage.old) e) visit.entry left (lent_of stage.old)) }
{
    let Visit {
        dispatcher,
        view,
        path,
        servlet,
    } = visit;
    let (passed, view, before) = begin(alloc, stage, dispatcher, view, path.as_str(), servlet)?;
    match to_serve(alloc, stage, &view, servlet, before) {
        Ok(servlet) => Ok(Mode::Serve(Open {
            view,
            passed,
            servlet,
            resume: 0,
        })),
        Err(ended) => finish(stage, view, passed, ended),
    }
}

/// Ends an open dispatch that was not abandoned.
fn close<'a, S: Servlet, F: Filter>(
    stage: &mut Stage<S, F>,
    held: Open<'a>,
    ended: Ending,
) -> Result<Mode<'a>, AllocError>
    requires ready { All (IsReadyAt (table_of S.Servlet F.Filter stage.old).filters) held.passed.items }
    requires kept { ended ≢ Abandoned }
    ensures same { table_of S.Servlet F.Filter stage.new ≡ table_of S.Servlet F.Filter stage.old }
    ensures mode { IfOk result (λ mode. mode ≡ Leave ended) }
    ensures closed { OnOk result ((left : ℕ) → outcome ended left (lent_of stage.new)
        ≡ closed_open (table_of S.Servlet F.Filter stage.old) held.entry (outcome ended left (lent_of stage.old))) }
{
    let Open {
        view,
        passed,
        servlet: _,
        resume: _,
    } = held;
    finish(stage, view, passed, ended)
}

/// A dispatch waits for the one that its servlet asks for.
// Apart, as `leave` is, so that a dispatch that asks for none has no room cleared for one.
#[inline(never)]
fn nest<'a>(
    held: Open<'a>,
    then: Then,
    dispatcher: Dispatcher,
    path: Text,
) -> Result<Mode<'a>, AllocError>
    ensures { IfOk result (λ mode. mode ≡ nesting held.entry then dispatcher path) }
{
    let view = held.view.again()?;
    Ok(Mode::Nest(
        Frame { held, then },
        Ask {
            dispatcher,
            view,
            path,
        },
    ))
}

/// What follows a servlet's answer.
pub fn follow<'a, S: Servlet, F: Filter>(
    stage: &mut Stage<S, F>,
    held: Open<'a>,
    next: Next,
) -> Result<Mode<'a>, AllocError>
    requires { IsOpen (table_of S.Servlet F.Filter stage.old) held }
    ensures same { table_of S.Servlet F.Filter stage.new ≡ table_of S.Servlet F.Filter stage.old }
    ensures held { IfOk result (IsModeOf (table_of S.Servlet F.Filter stage.old)) }
    ensures need { IfOk result (λ mode. need mode ≤ 1) }
    ensures less { IfOk result (λ mode. weight mode ≤ 6) }
    ensures current { IfOk result (λ mode. (e left : ℕ) → current (table_of S.Servlet F.Filter stage.old) (suc e) mode left
        (lent_of stage.new) ≡ followed (table_of S.Servlet F.Filter stage.old) e held.entry left (lent_of stage.old) next) }
{
    match next {
        Next::Done => close(stage, held, Ending::Finished),
        Next::SendError { code, text } => {
            let ended = sent(&held.view, code, text);
            close(stage, held, ended)
        }
        Next::Fault(name) => close(stage, held, Ending::Faulted(name)),
        Next::Forward(path) => {
            stage.reply.clear_body();
            nest(held, Then::Return, Dispatcher::Forward, path)
        }
        Next::Include { path, resume } => {
            stage.reply.hold(true);
            nest(held, Then::Resume(resume), Dispatcher::Include, path)
        }
    }
}

/// Calls the servlet of a dispatch.
pub fn serve<'a, S: Servlet, F: Filter>(
    stage: &mut Stage<S, F>,
    left: &mut u32,
    held: Open<'a>,
) -> Result<Mode<'a>, AllocError>
    requires { IsOpen (table_of S.Servlet F.Filter stage.old) held }
    ensures same { table_of S.Servlet F.Filter stage.new ≡ table_of S.Servlet F.Filter stage.old }
    ensures held { IfOk result (IsModeOf (table_of S.Servlet F.Filter stage.old)) }
    ensures need { IfOk result (λ mode. need mode ≤ 1) }
    ensures less { IfOk result (λ mode. weight mode + 7 * left.new < 7 * left.old + 1) }
    ensures current { IfOk result (λ mode. (e : ℕ) → current (table_of S.Servlet F.Filter stage.old) (suc e) mode left.new
        (lent_of stage.new) ≡ opened (table_of S.Servlet F.Filter stage.old) e held.entry left.old (lent_of stage.old)) }
{
    if *left == 0 {
        return Ok(Mode::Leave(Ending::Abandoned));
    }
    *left -= 1;
    let next = service_at(
        &mut stage.servlets,
        held.servlet,
        &held.view.call(held.resume),
        &mut stage.edit,
        &mut stage.reply,
    )?;
    follow(stage, held, next)
}

/// Calls the filters of a dispatch, and its servlet where they pass.
fn perform<'a, S: Servlet, F: Filter>(
    alloc: Global,
    stage: &mut Stage<S, F>,
    left: &mut u32,
    visit: Visit<'a>,
) -> Result<Mode<'a>, AllocError>
    requires { IsSound (table_of S.Servlet F.Filter stage.old) }
    ensures same { table_of S.Servlet F.Filter stage.new ≡ table_of S.Servlet F.Filter stage.old }
    ensures held { IfOk result (IsModeOf (table_of S.Servlet F.Filter stage.old)) }
    ensures need { IfOk result (λ mode. need mode ≤ 1) }
    ensures less { IfOk result (λ mode. weight mode + 7 * left.new < 7 * left.old + 2) }
    ensures current { IfOk result (λ mode. (e : ℕ) → current (table_of S.Servlet F.Filter stage.old) (suc e) mode left.new
        (lent_of stage.new) ≡ performed (table_of S.Servlet F.Filter stage.old)
        (dispatched (table_of S.Servlet F.Filter stage.old) e) visit.entry left.old (lent_of stage.old)) }
{
    match open(alloc, stage, visit)? {
        Mode::Serve(held) => serve(stage, left, held),
        other => Ok(other),
    }
}

/// Reads and maps the path of a dispatch, and calls its filters and its servlet: most dispatches end there.
pub fn enter<'a, S: Servlet, F: Filter>(
    alloc: Global,
    stage: &mut Stage<S, F>,
    left: &mut u32,
    ask: Ask<'a>,
) -> Result<Mode<'a>, AllocError>
    requires { IsSound (table_of S.Servlet F.Filter stage.old) }
    ensures same { table_of S.Servlet F.Filter stage.new ≡ table_of S.Servlet F.Filter stage.old }
    ensures held { IfOk result (IsModeOf (table_of S.Servlet F.Filter stage.old)) }
    ensures need { IfOk result (λ mode. need mode ≤ 1) }
    ensures less { IfOk result (λ mode. weight mode + 7 * left.new < 7 * left.old + 3) }
    ensures current { IfOk result (λ mode. (e : ℕ) → current (table_of S.Servlet F.Filter stage.old) (suc e) mode left.new
        (lent_of stage.new) ≡ dispatched (table_of S.Servlet F.Filter stage.old) (suc e) ask.entry left.old (lent_of stage.old)) }
{
    match visit_of(alloc, stage, ask)? {
        Some(visit) => perform(alloc, stage, left, visit),
        None => Ok(Mode::Leave(Ending::Faulted(Text::from_str(alloc, "bad-path")?))),
    }
}

/// The servlet of a dispatch is called once more, with a number.
fn resume_with<'a>(held: Open<'a>, resume: u16) -> Open<'a>
    ensures { result ≡ record held.entry { resume = resume } }
{
    let mut held = held;
    held.resume = resume;
    held
}

/// Goes on with the dispatch that waited.
#[inline(never)]
pub fn leave<'a, S: Servlet, F: Filter>(
    stage: &mut Stage<S, F>,
    frame: Frame<'a>,
    ended: Ending,
) -> Result<Mode<'a>, AllocError>
    requires { IsOpen (table_of S.Servlet F.Filter stage.old) frame.held }
    ensures same { table_of S.Servlet F.Filter stage.new ≡ table_of S.Servlet F.Filter stage.old }
    ensures held { IfOk result (IsModeOf (table_of S.Servlet F.Filter stage.old)) }
    ensures need { IfOk result (λ mode. need mode ≤ 1) }
    ensures less { IfOk result (λ mode. weight mode < 2) }
    ensures current { IfOk result (λ mode. (e left : ℕ) → current (table_of S.Servlet F.Filter stage.old) (suc e) mode left
        (lent_of stage.new) ≡ reentered (table_of S.Servlet F.Filter stage.old) e frame.entry
        (outcome ended left (lent_of stage.old))) }
{
    let Frame { held, then } = frame;
    match then {
        Then::Return => match ended {
            Ending::Abandoned => Ok(Mode::Leave(Ending::Abandoned)),
            ended => close(stage, held, ended),
        },
        Then::Resume(resume) => {
            stage.reply.hold(held.view.is_included());
            match ended {
                Ending::Abandoned => Ok(Mode::Leave(Ending::Abandoned)),
                Ending::Faulted(name) => close(stage, held, Ending::Faulted(name)),
                Ending::Finished => Ok(Mode::Serve(resume_with(held, resume))),
                Ending::Failed { code: _, text: _ } => Ok(Mode::Serve(resume_with(held, resume))),
            }
        }
    }
}
