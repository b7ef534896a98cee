//! The dispatch of a request: most are answered by one call of a servlet, and nothing is put on the stack for them.

ghost use Rattle.std.specs.Prelude.{◌≡◌, All, IfOk};
ghost use Rattle.sv_dispatch.specs.Dispatching.{ask, befores, begun, dispatched, outcome};
ghost use Rattle.sv_dispatch.specs.MappedPath.{mapped_path_of};
ghost use Rattle.sv_dispatch.specs.Rows.{IsReadyAt};
ghost use Rattle.sv_dispatch.specs.Stack.{behind_filters, followed, opened, IsOpen};
ghost use Rattle.sv_dispatch.specs.Stages.{table_of, lent_of, IsSound};
ghost use Rattle.sv_mapping.specs.declared.dispatcher.Dispatcher.TheVariants.{Request};

use crate::calls::service_at;
use crate::chain::{chain_of, run_befores};
use crate::mode::{Ending, Open};
use crate::stack::run_from;
use crate::stage::Stage;
use crate::steps::{end, follow, to_serve};
use crate::view::View;
use std::alloc::{AllocError, Global};
use sv_mapping::Dispatcher;
use sv_servlet::{Before, Filter, Next, Servlet};

/// What follows a servlet that asks for an error page or for another dispatch.
// Apart, so that a request whose reply stands has no room cleared for the dispatches that wait.
#[inline(never)]
fn go_on<'a, S: Servlet, F: Filter>(
    alloc: Global,
    stage: &mut Stage<S, F>,
    left: &mut u32,
    held: Open<'a>,
    next: Next,
) -> Result<Ending, AllocError>
    requires sound { IsSound (table_of S.Servlet F.Filter stage.old) }
    requires held { IsOpen (table_of S.Servlet F.Filter stage.old) held }
    ensures same { table_of S.Servlet F.Filter stage.new ≡ table_of S.Servlet F.Filter stage.old }
    ensures outcome { IfOk result (λ ended. outcome ended left.new (lent_of stage.new)
        ≡ followed (table_of S.Servlet F.Filter stage.old) 15 held.entry left.old (lent_of stage.old) next) }
{
    let mode = follow(stage, held, next)?;
    run_from(alloc, stage, left, mode)
}

/// What follows a servlet's answer.
#[inline(always)]
fn follow_first<'a, S: Servlet, F: Filter>(
    alloc: Global,
    stage: &mut Stage<S, F>,
    left: &mut u32,
    held: Open<'a>,
    next: Next,
) -> Result<Ending, AllocError>
    requires sound { IsSound (table_of S.Servlet F.Filter stage.old) }
    requires held { IsOpen (table_of S.Servlet F.Filter stage.old) held }
    ensures same { table_of S.Servlet F.Filter stage.new ≡ table_of S.Servlet F.Filter stage.old }
    ensures outcome { IfOk result (λ ended. outcome ended left.new (lent_of stage.new)
        ≡ followed (table_of S.Servlet F.Filter stage.old) 15 held.entry left.old (lent_of stage.old) next) }
{
    match next {
        Next::Done => end(stage, held.view, held.passed, Ending::Finished),
        next => go_on(alloc, stage, left, held, next),
    }
}

/// Calls the servlet of a request.
#[inline(always)]
fn serve_first<'a, S: Servlet, F: Filter>(
    alloc: Global,
    stage: &mut Stage<S, F>,
    left: &mut u32,
    held: Open<'a>,
) -> Result<Ending, AllocError>
    requires sound { IsSound (table_of S.Servlet F.Filter stage.old) }
    requires held { IsOpen (table_of S.Servlet F.Filter stage.old) held }
    ensures same { table_of S.Servlet F.Filter stage.new ≡ table_of S.Servlet F.Filter stage.old }
    ensures outcome { IfOk result (λ ended. outcome ended left.new (lent_of stage.new)
        ≡ opened (table_of S.Servlet F.Filter stage.old) 15 held.entry left.old (lent_of stage.old)) }
{
    if *left == 0 {
        return Ok(Ending::Abandoned);
    }
    *left -= 1;
    let next = service_at(
        &mut stage.servlets,
        held.servlet,
        &held.view.call(held.resume),
        &mut stage.edit,
        &mut stage.reply,
    )?;
    follow_first(alloc, stage, left, held, next)
}

/// What follows the filters of a request: a call of its servlet, or the end without one.
#[inline(always)]
fn place_first<'a, S: Servlet, F: Filter>(
    alloc: Global,
    stage: &mut Stage<S, F>,
    left: &mut u32,
    view: View<'a>,
    passed: Vec<usize>,
    servlet: Option<usize>,
    before: Before,
) -> Result<Ending, AllocError>
    requires sound { IsSound (table_of S.Servlet F.Filter stage.old) }
    requires ready { All (IsReadyAt (table_of S.Servlet F.Filter stage.old).filters) passed.items }
    ensures same { table_of S.Servlet F.Filter stage.new ≡ table_of S.Servlet F.Filter stage.old }
    ensures outcome { IfOk result (λ ended. outcome ended left.new (lent_of stage.new)
        ≡ behind_filters (table_of S.Servlet F.Filter stage.old) 15 servlet left.old
        (begun passed.items view.entry before (lent_of stage.old))) }
{
    match to_serve(alloc, stage, &view, servlet, before) {
        Ok(servlet) => serve_first(
            alloc,
            stage,
            left,
            Open {
                view,
                passed,
                servlet,
                resume: 0,
            },
        ),
        Err(ended) => end(stage, view, passed, ended),
    }
}

/// Calls the filters of a request, and what follows them.
// Apart, so that a request without filters is known to be shown as it came.
#[inline(never)]
fn filter_first<'a, S: Servlet, F: Filter>(
    alloc: Global,
    stage: &mut Stage<S, F>,
    left: &mut u32,
    view: View<'a>,
    chain: Vec<usize>,
    servlet: Option<usize>,
) -> Result<Ending, AllocError>
    requires sound { IsSound (table_of S.Servlet F.Filter stage.old) }
    requires ready { All (IsReadyAt (table_of S.Servlet F.Filter stage.old).filters) chain.items }
    ensures same { table_of S.Servlet F.Filter stage.new ≡ table_of S.Servlet F.Filter stage.old }
    ensures outcome { IfOk result (λ ended. outcome ended left.new (lent_of stage.new)
        ≡ behind_filters (table_of S.Servlet F.Filter stage.old) 15 servlet left.old
        (befores (table_of S.Servlet F.Filter stage.old).filters chain.items view.entry (lent_of stage.old))) }
{
    let (passed, view, before) = run_befores(alloc, stage, view, chain.as_slice())?;
    place_first(alloc, stage, left, view, passed, servlet, before)
}

/// Runs the dispatch of a request, with all that it asks for; `left` service calls are left.
///
/// The path is mapped to the servlet.
pub fn dispatch_first<'a, S: Servlet, F: Filter>(
    alloc: Global,
    stage: &mut Stage<S, F>,
    left: &mut u32,
    view: View<'a>,
    path: &str,
    servlet: Option<usize>,
) -> Result<Ending, AllocError>
    requires sound { IsSound (table_of S.Servlet F.Filter stage.old) }
    requires servlet { servlet ≡ (mapped_path_of (table_of S.Servlet F.Filter stage.old).patterns path.now).servlet }
    ensures same { table_of S.Servlet F.Filter stage.new ≡ table_of S.Servlet F.Filter stage.old }
    ensures outcome { IfOk result (λ ended. outcome ended left.new (lent_of stage.new)
        ≡ dispatched (table_of S.Servlet F.Filter stage.old) 16 (ask Request view.entry path.now) left.old (lent_of stage.old)) }
{
    let chain = chain_of(alloc, stage, Dispatcher::Request, path, servlet)?;
    if chain.is_empty() {
        place_first(alloc, stage, left, view, chain, servlet, Before::Pass)
    } else {
        filter_first(alloc, stage, left, view, chain, servlet)
    }
}
