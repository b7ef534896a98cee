//! A dispatch that is asked for, and where its path leads.

ghost use Rattle.std.specs.Prelude.{◌≡◌, IfOk};
ghost use Rattle.sv_dispatch.specs.Dispatching.{shown_at, visit, visit_at, visit_of};
ghost use Rattle.sv_dispatch.specs.MappedPath.{mapped_path_of};
ghost use Rattle.sv_dispatch.specs.Stages.{table_of};
ghost use Rattle.sv_mapping.specs.declared.dispatcher.Dispatcher.TheVariants.{Request};

use crate::destination::{Destination, destination_of};
use crate::mapped_path::{MappedPath, mapped_path_of, servlet_of};
use crate::stage::Stage;
use crate::view::View;
use std::alloc::{AllocError, Global};
use sv_mapping::Dispatcher;
use sv_model::Text;
use sv_servlet::{Filter, Servlet};

/// A dispatch that is asked for, by a path that nobody has read yet.
#[derive(Drop)]
pub struct Ask<'a> {
    pub dispatcher: Dispatcher,
    /// What the dispatch shows that asks for it.
    pub view: View<'a>,
    /// For a request its path within the context; else a dispatch path.
    pub path: Text,
}

/// A dispatch whose filters are to be called.
#[derive(Drop)]
pub struct Visit<'a> {
    pub dispatcher: Dispatcher,
    pub view: View<'a>,
    /// The path within the context.
    pub path: Text,
    /// The servlet that the path is mapped to.
    pub servlet: Option<usize>,
}

/// What the dispatch to a target shows.
fn shown<'a>(
    alloc: Global,
    dispatcher: Dispatcher,
    view: View<'a>,
    target: Destination,
    place: MappedPath,
) -> Result<View<'a>, AllocError>
    ensures { IfOk result (λ shown. shown ≡ shown_at dispatcher view.entry target place) }
{
    match dispatcher {
        Dispatcher::Request => Ok(view),
        Dispatcher::Include => {
            view.included(alloc, &target, &place.servlet_path, &place.path_info)
        }
        Dispatcher::Forward | Dispatcher::Error => {
            let (servlet_path, path_info) = place.into_shown();
            view.forwarded(alloc, target, servlet_path, path_info)
        }
    }
}

/// The dispatch to a target.
fn visit_at<'a, S: Servlet, F: Filter>(
    alloc: Global,
    stage: &Stage<S, F>,
    ask: Ask<'a>,
    target: Destination,
) -> Result<Visit<'a>, AllocError>
    ensures { IfOk result (λ visit. visit ≡ visit_at ask.entry target
        (mapped_path_of (table_of S.Servlet F.Filter stage.now).patterns target.path) ask.entry.dispatcher) }
{
    let place = mapped_path_of(alloc, &stage.patterns, target.path.as_str())?;
    let path = target.path.copy(alloc)?;
    let servlet = place.servlet;
    let dispatcher = ask.dispatcher;
    let view = shown(alloc, dispatcher, ask.view, target, place)?;
    Ok(Visit {
        dispatcher,
        view,
        path,
        servlet,
    })
}

/// The dispatch of a request, whose path is as it came.
fn visit_as_it_came<'a, S: Servlet, F: Filter>(stage: &Stage<S, F>, ask: Ask<'a>) -> Visit<'a>
    ensures { result ≡ visit Request ask.entry.view ask.entry.path
        (mapped_path_of (table_of S.Servlet F.Filter stage.now).patterns ask.entry.path).servlet }
{
    let servlet = servlet_of(&stage.patterns, ask.path.as_str());
    Visit {
        dispatcher: Dispatcher::Request,
        view: ask.view,
        path: ask.path,
        servlet,
    }
}

/// The dispatch that is asked for, or none where its path is refused.
#[tactic(auto, unfolding(crate::specs::Dispatching::visit_of))]
pub fn visit_of<'a, S: Servlet, F: Filter>(
    alloc: Global,
    stage: &Stage<S, F>,
    ask: Ask<'a>,
) -> Result<Option<Visit<'a>>, AllocError>
    ensures { IfOk result (λ visit. visit ≡ visit_of (table_of S.Servlet F.Filter stage.now) ask.entry) }
{
    if let Dispatcher::Request = ask.dispatcher {
        return Ok(Some(visit_as_it_came(stage, ask)));
    }
    match destination_of(alloc, ask.view.context_path(), ask.path.as_str())? {
        Some(target) => Ok(Some(visit_at(alloc, stage, ask, target)?)),
        None => Ok(None),
    }
}
