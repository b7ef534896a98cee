//! Error pages (Jakarta Servlet 6.0, section 10.9). The part of `page` is the path that is asked for.

ghost use Rattle.test_rows.specs.Staged.{IsStaged};

use super::{Row, add_servlets, dispatched};
use crate::fault::RowFault;
use crate::scripted::{Marking, Says, Scripted, Then};
use crate::staged::{add_page, empty_stage};
use std::alloc::Global;
use sv_dispatch::{PageFor, Stage};
use sv_model::Text;

const STATUS: Says = Says::Attribute("jakarta.servlet.error.status_code");

const MESSAGE: Says = Says::Attribute("jakarta.servlet.error.message");

const NAME: Says = Says::Attribute("jakarta.servlet.error.servlet_name");

static SERVLETS: [Row; 9] = [
    ("/404", 200, Says::Text("f"), Then::Fails(404)),
    ("/418", 200, Says::Text("f"), Then::Fails(418)),
    ("/99", 200, Says::Text("f"), Then::Fails(99)),
    ("/x", 200, Says::Text("f"), Then::Faults("x")),
    ("/y", 200, Says::Text("f"), Then::Faults("y")),
    ("/status", 404, STATUS, Then::Ends),
    ("/message", 500, MESSAGE, Then::Ends),
    ("/name", 503, NAME, Then::Ends),
    ("/again", 200, MESSAGE, Then::Fails(400)),
];

/// The default page, and those of two statuses and of a fault.
fn add_pages(alloc: Global, stage: &mut Stage<Scripted, Marking>) -> Result<(), RowFault>
    requires { IsStaged stage.old }
    ensures { IsStaged stage.new }
{
    add_page(alloc, stage, PageFor::Default, "/again")?;
    add_page(alloc, stage, PageFor::Status(404), "/status")?;
    add_page(alloc, stage, PageFor::Status(500), "/name")?;
    let fault = PageFor::Fault(Text::from_str(alloc, "x")?);
    add_page(alloc, stage, fault, "/message")
}

/// A page by its status or its fault before the default; a code outside 400 to 599 has status 500, and so has a fault;
/// an error in an error page gives the plain page of 500. A page that sets a status has it.
pub fn page(alloc: Global, path: &str) -> Result<String, RowFault> {
    let mut stage: Stage<Scripted, Marking> = empty_stage(alloc);
    add_servlets(alloc, &mut stage, &SERVLETS)?;
    add_pages(alloc, &mut stage)?;
    dispatched(alloc, stage, path)
}
