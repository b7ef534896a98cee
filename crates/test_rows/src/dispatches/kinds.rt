//! Filters in each kind of dispatch (Jakarta Servlet 6.0, sections 6.2.5, 9.3, 9.4 and 10.9).
//!
//! The parts of `filtered` are the kind of dispatch that the filters are for, the path of a request that leads to one, and what the
//! second filter says. The first one passes and writes `<b` and `b>`; the second writes `<a`, and `a>` where it passed. A dispatch of
//! another kind has no filters, so only in the rows of `ERROR` do they stand round the error page `/page`.

ghost use Rattle.test_rows.specs.Staged.{IsStaged};

use super::{Row, add_filters, add_servlets, dispatched, then_of};
use crate::application::filters::dispatcher_of;
use crate::fault::RowFault;
use crate::row::first;
use crate::scripted::{Marking, Says, Scripted, Then};
use crate::staged::{add_page, empty_stage};
use std::alloc::Global;
use sv_dispatch::{PageFor, Stage};
use sv_mapping::Dispatcher;

/// A message is what the error was sent with, here `why`, or the name of a fault.
const MESSAGE: Says = Says::Attribute("jakarta.servlet.error.message");

static SERVLETS: [Row; 5] = [
    ("/w", 201, Says::Text("w"), Then::Ends),
    ("/fw", 202, Says::Text("lost"), Then::Forwards("/w")),
    ("/iw", 203, Says::Text("["), Then::Includes("/w")),
    ("/fail", 200, Says::Text("f"), Then::Fails(404)),
    ("/page", 503, MESSAGE, Then::Ends),
];

/// The servlets, the filters of a kind of dispatch, and the page of every error.
fn furnish(
    alloc: Global,
    stage: &mut Stage<Scripted, Marking>,
    kind: Dispatcher,
    then: Then,
) -> Result<(), RowFault>
    requires { IsStaged stage.old }
    ensures { IsStaged stage.new }
{
    add_servlets(alloc, stage, &SERVLETS)?;
    add_filters(alloc, stage, kind, then)?;
    add_page(alloc, stage, PageFor::Default, "/page")
}

/// A filter that passes, stops, sends an error or faults does so in a dispatch of each kind.
pub fn filtered(alloc: Global, parts: &str) -> Result<String, RowFault> {
    let (kind, rest) = first(parts);
    let (path, word) = first(rest);
    let (kind, then) = (dispatcher_of(kind)?, then_of(word)?);
    let mut stage: Stage<Scripted, Marking> = empty_stage(alloc);
    furnish(alloc, &mut stage, kind, then)?;
    dispatched(alloc, stage, path)
}
