//! The dispatch of a request, and of an error that comes of it to an error page (Jakarta Servlet 6.0, section 10.9).

ghost use Rattle.std.specs.Prelude.{◌≡◌, ℕ, ◌≤◌, IfOk};
ghost use Rattle.sv_dispatch.specs.Dispatching.{outcome};
ghost use Rattle.sv_dispatch.specs.MappedPath.{mapped_path_of};
ghost use Rattle.sv_dispatch.specs.Pages as spec;
ghost use Rattle.sv_dispatch.specs.Sight.{errored, first_sight};
ghost use Rattle.sv_dispatch.specs.Stages.{table_of, lent_of, IsSound};

use crate::first::dispatch_first;
use crate::hosted::name_at;
use crate::mapped_path::{mapped_path_of, servlet_of};
use crate::mode::Ending;
use crate::page::{page_of_error, page_of_fault};
use crate::stack::dispatch;
use crate::stage::Stage;
use crate::view::View;
use crate::visit::Ask;
use std::alloc::{AllocError, Global};
use sv_mapping::Dispatcher;
use sv_model::Text;
use sv_servlet::{Call, Filter, Reply, Servlet};

/// The service calls of a request.
const CALLS: u32 = 64;

/// How the dispatch of a request ended.
#[derive(Clone, Copy, Debug, PartialEq, Eq)]
pub enum Ended {
    /// The reply stands.
    Normal,
    /// The reply is that of an error page, which was reached with this status.
    ErrorPage(u16),
    /// The plain page of this status is sent, after the fields of the reply.
    Plain(u16),
}

/// The status of an error: 500 for a code outside 400 to 599.
fn status_of(code: u16) -> u16
    ensures status { result ≡ spec.status_of code }
    ensures least { 400 ≤ result }
    ensures most { result ≤ 599 }
{
    if code < 400 || code > 599 { 500 } else { code }
}

/// The reply as an error page finds it: no body, not held, and the status; the fields stay.
fn make_ready(reply: &mut Reply, status: u16)
    requires least { 400 ≤ status }
    requires most { status ≤ 599 }
    ensures { reply.new ≡ spec.readied_reply reply.old status }
{
    reply.clear_body();
    reply.hold(false);
    let _ = reply.status(status);
}

/// The path of a request within its context.
fn path_of(alloc: Global, call: &Call<'_>) -> Result<Text, AllocError>
    ensures { IfOk result (λ path. path ≡ spec.path_of call.now) }
{
    let mut path = String::from_str(alloc, call.servlet_path)?;
    if let Some(info) = call.path_info {
        path.push_str(info)?;
    }
    Ok(Text::from_string(path))
}

/// What an error dispatch begins with: the request as it came, and the attributes of the error.
fn error_view<'a, S: Servlet, F: Filter>(
    alloc: Global,
    stage: &Stage<S, F>,
    call: &'a Call<'a>,
    status: u16,
    message: &str,
) -> Result<View<'a>, AllocError>
    ensures { IfOk result (λ view. view ≡ errored (first_sight call.now) status message.now
        (spec.servlet_name (table_of S.Servlet F.Filter stage.now) call.now)) }
{
    let path = path_of(alloc, call)?;
    let place = mapped_path_of(alloc, &stage.patterns, path.as_str())?;
    View::of(call).errored(
        alloc,
        status,
        message,
        name_at(&stage.servlets, place.servlet),
    )
}

/// The plain page of 500 stands at the end.
fn give_plain<S: Servlet, F: Filter>(stage: &mut Stage<S, F>) -> Ended
    ensures same { table_of S.Servlet F.Filter stage.new ≡ table_of S.Servlet F.Filter stage.old }
    ensures ran { spec.ran result (lent_of stage.new) ≡ spec.plain 500 (lent_of stage.old) }
{
    make_ready(&mut stage.reply, 500);
    Ended::Plain(500)
}

/// How a request ends after the dispatch to its error page.
fn page_ended<S: Servlet, F: Filter>(stage: &mut Stage<S, F>, status: u16, ended: Ending) -> Ended
    ensures same { table_of S.Servlet F.Filter stage.new ≡ table_of S.Servlet F.Filter stage.old }
    ensures ran { (left : ℕ) → spec.ran result (lent_of stage.new) ≡ spec.shown_page status (outcome ended left (lent_of stage.old)) }
{
    match ended {
        Ending::Finished => Ended::ErrorPage(status),
        Ending::Failed { code: _, text: _ } => give_plain(stage),
        Ending::Faulted(_) => give_plain(stage),
        Ending::Abandoned => give_plain(stage),
    }
}

/// An error dispatch to a page from the request as it came.
#[inline(never)]
fn show_page<'a, S: Servlet, F: Filter>(
    alloc: Global,
    stage: &mut Stage<S, F>,
    left: u32,
    call: &'a Call<'a>,
    status: u16,
    message: &str,
    page: Option<Text>,
) -> Result<Ended, AllocError>
    requires sound { IsSound (table_of S.Servlet F.Filter stage.old) }
    requires least { 400 ≤ status }
    requires most { status ≤ 599 }
    ensures same { table_of S.Servlet F.Filter stage.new ≡ table_of S.Servlet F.Filter stage.old }
    ensures ran { IfOk result (λ ended. spec.ran ended (lent_of stage.new)
        ≡ spec.paged (table_of S.Servlet F.Filter stage.old) call.now status message.now left (lent_of stage.old) page) }
{
    make_ready(&mut stage.reply, status);
    let Some(path) = page else {
        return Ok(Ended::Plain(status));
    };
    let view = error_view(alloc, stage, call, status, message)?;
    let mut left = left;
    let ended = dispatch(
        alloc,
        stage,
        &mut left,
        Ask {
            dispatcher: Dispatcher::Error,
            view,
            path,
        },
    )?;
    Ok(page_ended(stage, status, ended))
}

/// Settles a request by how its dispatch ended: an error goes to the context's error page.
fn settle<'a, S: Servlet, F: Filter>(
    alloc: Global,
    stage: &mut Stage<S, F>,
    left: u32,
    call: &'a Call<'a>,
    ended: Ending,
) -> Result<Ended, AllocError>
    requires { IsSound (table_of S.Servlet F.Filter stage.old) }
    ensures same { table_of S.Servlet F.Filter stage.new ≡ table_of S.Servlet F.Filter stage.old }
    ensures ran { IfOk result (λ given. spec.ran given (lent_of stage.new)
        ≡ spec.settled_all (table_of S.Servlet F.Filter stage.old) call.now (outcome ended left (lent_of stage.old))) }
{
    match ended {
        Ending::Finished => Ok(Ended::Normal),
        Ending::Failed { code, text } => {
            let status = status_of(code);
            let page = page_of_error(alloc, stage.pages.as_slice(), status)?;
            show_page(alloc, stage, left, call, status, text.as_str(), page)
        }
        Ending::Faulted(name) => {
            let page = page_of_fault(alloc, stage.pages.as_slice(), name.as_str())?;
            show_page(alloc, stage, left, call, 500, name.as_str(), page)
        }
        Ending::Abandoned => Ok(give_plain(stage)),
    }
}

/// Dispatches a request for a path that is mapped already, and an error that comes of it to the context's error page.
///
/// The call's servlet path and path info together are the path, within the context; it is mapped to the servlet.
pub fn run_at<S: Servlet, F: Filter>(
    alloc: Global,
    stage: &mut Stage<S, F>,
    call: Call<'_>,
    path: &str,
    servlet: Option<usize>,
) -> Result<Ended, AllocError>
    requires sound { IsSound (table_of S.Servlet F.Filter stage.old) }
    requires path { path.now ≡ spec.path_of call }
    requires servlet { servlet ≡ (mapped_path_of (table_of S.Servlet F.Filter stage.old).patterns path.now).servlet }
    ensures same { table_of S.Servlet F.Filter stage.new ≡ table_of S.Servlet F.Filter stage.old }
    ensures ran { IfOk result (λ ended. spec.ran ended (lent_of stage.new)
        ≡ spec.served (table_of S.Servlet F.Filter stage.old) call.entry (lent_of stage.old)) }
{
    let mut left = CALLS;
    let ended = dispatch_first(alloc, stage, &mut left, View::of(&call), path, servlet)?;
    settle(alloc, stage, left, &call, ended)
}

/// The same for a request whose path is still to be mapped.
///
/// The call's servlet path and path info together are the request's path within the context.
pub fn run<S: Servlet, F: Filter>(
    alloc: Global,
    stage: &mut Stage<S, F>,
    call: Call<'_>,
) -> Result<Ended, AllocError>
    requires { IsSound (table_of S.Servlet F.Filter stage.old) }
    ensures same { table_of S.Servlet F.Filter stage.new ≡ table_of S.Servlet F.Filter stage.old }
    ensures ran { IfOk result (λ ended. spec.ran ended (lent_of stage.new)
        ≡ spec.served (table_of S.Servlet F.Filter stage.old) call.entry (lent_of stage.old)) }
{
    let path = path_of(alloc, &call)?;
    let servlet = servlet_of(&stage.patterns, path.as_str());
    run_at(alloc, stage, call, path.as_str(), servlet)
}
