//! Dispatches over small servlets: how they end, and the status and the body that come of them.
//!
//! The servlets stand in tables, so that a row names the path that is asked for, and what else differs.

ghost use Rattle.std.specs.Prelude.{◌≡◌};
ghost use Rattle.sv_dispatch.specs.Stages.{IsSound, table_of};
ghost use Rattle.sv_servlet.specs.declared.servlet.Phase.TheVariants.{Ready};
ghost use Rattle.test_rows.specs.Staged.{IsStaged};

pub mod filters;
pub mod kinds;
pub mod nesting;
pub mod pages;
pub mod shown;

use crate::escape::shown_briefly;
use crate::fault::RowFault;
use crate::scripted::{Marking, Says, Scripted, Then};
use crate::staged::{add_filter, add_servlet};
use http::Method;
use std::alloc::{AllocError, Global};
use sv_dispatch::{Ended, Stage, run};
use sv_mapping::{Dispatcher, Dispatchers};
use sv_servlet::{Call, Filter, Phase, Replied, Reply, RequestAttributes, Servlet};

/// A servlet of a path: its status, what it writes, and what is to follow.
type Row = (&'static str, u16, Says, Then);

/// A servlet that is ready.
fn servlet_of(alloc: Global, status: u16, says: Says, then: Then) -> Scripted
    ensures { result.phase ≡ Ready }
{
    Scripted {
        status,
        says,
        then,
        phase: Phase::Ready,
        calls: 0,
        alloc,
    }
}

/// Adds a servlet for each row.
fn add_servlets(
    alloc: Global,
    stage: &mut Stage<Scripted, Marking>,
    rows: &[Row],
) -> Result<(), RowFault>
    requires { IsStaged stage.old }
    ensures { IsStaged stage.new }
{
    for row in rows {
        let (path, status, says, then) = *row;
        add_servlet(alloc, stage, path, servlet_of(alloc, status, says, then))?;
    }
    Ok(())
}

/// What the second filter says: it passes, stops, sends an error or faults.
fn then_of(word: &str) -> Result<Then, RowFault> {
    match word {
        "passes" => Ok(Then::Ends),
        "stops" => Ok(Then::Forwards("")),
        "sends" => Ok(Then::Fails(403)),
        "faults" => Ok(Then::Faults("x")),
        _ => Err(RowFault::Part),
    }
}

/// A filter that is ready.
fn filter_of(alloc: Global, before: &'static str, after: &'static str, then: Then) -> Marking
    ensures { result.phase ≡ Ready }
{
    Marking {
        before,
        after,
        then,
        phase: Phase::Ready,
        alloc,
    }
}

/// Adds two filters for a kind of dispatch: the first passes, and the second does as `then` says.
fn add_filters(
    alloc: Global,
    stage: &mut Stage<Scripted, Marking>,
    kind: Dispatcher,
    then: Then,
) -> Result<(), RowFault>
    requires { IsStaged stage.old }
    ensures { IsStaged stage.new }
{
    let kinds = Dispatchers::of(&[kind]);
    add_filter(
        alloc,
        stage,
        kinds,
        filter_of(alloc, "<b", "b>", Then::Ends),
    )?;
    add_filter(alloc, stage, kinds, filter_of(alloc, "<a", "a>", then))
}

const CONTEXT: &str = "/shop";

/// A request for a path of the context.
fn call_of<'a>(
    method: &'a Method,
    none: Option<&'a str>,
    attributes: &'a RequestAttributes,
    request_uri: &'a str,
) -> Call<'a> {
    Call {
        method,
        request_uri,
        context_path: CONTEXT,
        servlet_path: request_uri.strip_prefix(CONTEXT).unwrap_or(""),
        path_info: none,
        query: none,
        params: &[],
        fields: &[],
        cookies: &[],
        body: b"",
        settings: &[],
        attributes,
        resume: 0,
    }
}

/// Dispatches a request for a path of the context.
fn run_path<S: Servlet, F: Filter>(
    alloc: Global,
    stage: &mut Stage<S, F>,
    path: &str,
) -> Result<Ended, AllocError>
    requires { IsSound (table_of S.Servlet F.Filter stage.old) }
{
    let method = Method::GET;
    let attributes = RequestAttributes::new(alloc);
    let uri = format!(in alloc; "{CONTEXT}{path}")?;
    let call = call_of(&method, None, &attributes, uri.as_str());
    run(alloc, stage, call)
}

/// The stage's reply; all else of it is dropped.
fn reply_of<S: Servlet, F: Filter>(stage: Stage<S, F>) -> Reply {
    stage.reply
}

/// How a dispatch ended, the status, and the body between angle brackets.
fn ended_text(alloc: Global, ended: Ended, replied: &Replied) -> Result<String, AllocError> {
    let body = shown_briefly(alloc, replied.body.as_slice())?;
    format!(in alloc; "{ended:?} {} <{body}>", replied.status.as_u16())
}

/// Dispatches a request for a path of the context: what comes of it.
fn dispatched<S: Servlet, F: Filter>(
    alloc: Global,
    stage: Stage<S, F>,
    path: &str,
) -> Result<String, RowFault>
    requires { IsSound (table_of S.Servlet F.Filter stage) }
{
    let mut stage = stage;
    let ended = run_path(alloc, &mut stage, path)?;
    let replied = reply_of(stage).finish();
    Ok(ended_text(alloc, ended, &replied)?)
}
