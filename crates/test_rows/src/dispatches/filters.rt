//! Filters round a servlet (Jakarta Servlet 6.0, chapter "Filtering").
//!
//! The part of `chain` is what the second filter says of a request for `/w`; there is no error page. `included` has no parts. Those of
//! `carried` are a path, and what each of two filters of requests has the attribute `member` be, `-` if it sets none.

ghost use Rattle.test_rows.specs.Staged.{IsStaged};

use super::{add_filters, add_servlets, dispatched, filter_of, then_of};
use crate::dispatches::Row;
use crate::fault::RowFault;
use crate::row::first;
use crate::scripted::{Marking, Says, Scripted, Then};
use crate::staged::{add_filter, empty_stage};
use std::alloc::Global;
use sv_dispatch::Stage;
use sv_mapping::{Dispatcher, Dispatchers};

static HELLO: [Row; 1] = [("/w", 200, Says::Text("Hello\n"), Then::Ends)];

/// The servlet, and the two filters.
fn furnish(alloc: Global, stage: &mut Stage<Scripted, Marking>, then: Then) -> Result<(), RowFault>
    requires { IsStaged stage.old }
    ensures { IsStaged stage.new }
{
    add_servlets(alloc, stage, &HELLO)?;
    add_filters(alloc, stage, Dispatcher::Request, then)
}

/// `before` runs in order of the mappings and `after` in reverse, of those that passed.
pub fn chain(alloc: Global, word: &str) -> Result<String, RowFault> {
    let then = then_of(word)?;
    let mut stage: Stage<Scripted, Marking> = empty_stage(alloc);
    furnish(alloc, &mut stage, then)?;
    dispatched(alloc, stage, "/w")
}

static INCLUDING: [Row; 2] = [
    ("/w", 200, Says::Text("w"), Then::Ends),
    ("/iw", 200, Says::Text("["), Then::Includes("/w")),
];

/// A servlet, one that includes it, and a filter of includes.
fn furnish_including(alloc: Global, stage: &mut Stage<Scripted, Marking>) -> Result<(), RowFault>
    requires { IsStaged stage.old }
    ensures { IsStaged stage.new }
{
    add_servlets(alloc, stage, &INCLUDING)?;
    let includes = Dispatchers::of(&[Dispatcher::Include]);
    add_filter(
        alloc,
        stage,
        includes,
        filter_of(alloc, "<", ">", Then::Ends),
    )
}

/// A filter runs in the dispatches that its mapping names, here those of includes.
pub fn included(alloc: Global) -> Result<String, RowFault> {
    let mut stage: Stage<Scripted, Marking> = empty_stage(alloc);
    furnish_including(alloc, &mut stage)?;
    dispatched(alloc, stage, "/iw")
}

static SHOWING: [Row; 3] = [
    ("/w", 200, Says::Attribute("member"), Then::Ends),
    ("/fw", 200, Says::Text("gone"), Then::Forwards("/w")),
    ("/iw", 200, Says::Text("["), Then::Includes("/w")),
];

/// What a filter says that has the attribute be so.
fn carries(word: &str) -> Result<Then, RowFault> {
    match word {
        "Ada" => Ok(Then::Carries("Ada")),
        "Bea" => Ok(Then::Carries("Bea")),
        "-" => Ok(Then::Ends),
        _ => Err(RowFault::Part),
    }
}

/// A servlet that shows the attribute, one that forwards to it, one that includes it, and two filters.
fn furnish_showing(
    alloc: Global,
    stage: &mut Stage<Scripted, Marking>,
    one: Then,
    two: Then,
) -> Result<(), RowFault>
    requires { IsStaged stage.old }
    ensures { IsStaged stage.new }
{
    add_servlets(alloc, stage, &SHOWING)?;
    let requests = Dispatchers::of(&[Dispatcher::Request]);
    add_filter(alloc, stage, requests, filter_of(alloc, "<b", "b>", one))?;
    add_filter(alloc, stage, requests, filter_of(alloc, "<a", "a>", two))
}

/// What a filter sets is seen after it.
pub fn carried(alloc: Global, parts: &str) -> Result<String, RowFault> {
    let (path, values) = first(parts);
    let (one, two) = first(values);
    let (one, two) = (carries(one)?, carries(two)?);
    let mut stage: Stage<Scripted, Marking> = empty_stage(alloc);
    furnish_showing(alloc, &mut stage, one, two)?;
    dispatched(alloc, stage, path)
}
