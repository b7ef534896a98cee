//! What a dispatch shows of the request (Jakarta Servlet 6.0, sections 9.3.1 and 9.4.2).
//!
//! The parts of `shown` are the path of the request, and what the servlet `/s` writes: `uri`, or an attribute's name after
//! `jakarta.servlet.`.

ghost use Rattle.test_rows.specs.Staged.{IsStaged};

use super::{Row, add_servlets, dispatched, servlet_of};
use crate::fault::RowFault;
use crate::row::first;
use crate::scripted::{Marking, Says, Scripted, Then};
use crate::staged::{add_servlet, empty_stage};
use std::alloc::Global;
use sv_dispatch::Stage;

const FORWARD_URI: Says = Says::Attribute("jakarta.servlet.forward.request_uri");

const FORWARD_PATH: Says = Says::Attribute("jakarta.servlet.forward.servlet_path");

const FORWARD_QUERY: Says = Says::Attribute("jakarta.servlet.forward.query_string");

const INCLUDE_URI: Says = Says::Attribute("jakarta.servlet.include.request_uri");

const INCLUDE_PATH: Says = Says::Attribute("jakarta.servlet.include.servlet_path");

/// Each writes nothing itself.
static OTHERS: [Row; 6] = [
    ("/fs", 200, Says::Text(""), Then::Forwards("/s")),
    ("/ffs", 200, Says::Text(""), Then::Forwards("/fs")),
    ("/is", 200, Says::Text(""), Then::Includes("/s")),
    ("/fis", 200, Says::Text(""), Then::Forwards("/is")),
    ("/ifs", 200, Says::Text(""), Then::Includes("/fs")),
    ("/iis", 200, Says::Text(""), Then::Includes("/is")),
];

fn says_of(word: &str) -> Result<Says, RowFault> {
    match word {
        "uri" => Ok(Says::Uri),
        "forward.request_uri" => Ok(FORWARD_URI),
        "forward.servlet_path" => Ok(FORWARD_PATH),
        "forward.query_string" => Ok(FORWARD_QUERY),
        "include.request_uri" => Ok(INCLUDE_URI),
        "include.servlet_path" => Ok(INCLUDE_PATH),
        _ => Err(RowFault::Part),
    }
}

/// The servlet `/s`, and those that lead to it.
fn furnish(alloc: Global, stage: &mut Stage<Scripted, Marking>, says: Says) -> Result<(), RowFault>
    requires { IsStaged stage.old }
    ensures { IsStaged stage.new }
{
    let servlet = servlet_of(alloc, 200, says, Then::Ends);
    add_servlet(alloc, stage, "/s", servlet)?;
    add_servlets(alloc, stage, &OTHERS)
}

/// A forward shows the target's URI and keeps the original values in attributes, those of the first forward; an include
/// keeps the URI and has the innermost target's values in attributes.
pub fn shown(alloc: Global, parts: &str) -> Result<String, RowFault> {
    let (path, word) = first(parts);
    let says = says_of(word)?;
    let mut stage: Stage<Scripted, Marking> = empty_stage(alloc);
    furnish(alloc, &mut stage, says)?;
    dispatched(alloc, stage, path)
}
