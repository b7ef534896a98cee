//! Forwards and includes, one in another (Jakarta Servlet 6.0, sections 9.3 and 9.4).
//!
//! The part of `nested` is the path that is asked for. `looped` has no parts.

ghost use Rattle.test_rows.specs.Staged.{IsStaged};

use super::{Row, add_servlets, dispatched, run_path};
use crate::fault::RowFault;
use crate::scripted::{Marking, Says, Scripted, Then};
use crate::staged::empty_stage;
use std::alloc::{AllocError, Global};
use sv_dispatch::Stage;

static SERVLETS: [Row; 16] = [
    ("/w", 201, Says::Text("w"), Then::Ends),
    ("/fw", 200, Says::Text("lost"), Then::Forwards("/w")),
    ("/iw", 200, Says::Text("["), Then::Includes("/w")),
    ("/fiw", 200, Says::Text("lost"), Then::Forwards("/iw")),
    ("/ifw", 202, Says::Text("["), Then::Includes("/fw")),
    ("/iiw", 202, Says::Text("("), Then::Includes("/iw")),
    ("/loop", 200, Says::Text("."), Then::Forwards("/loop")),
    ("/fail", 200, Says::Text("f"), Then::Fails(404)),
    ("/fault", 200, Says::Text("f"), Then::Faults("x")),
    ("/ifail", 202, Says::Text("["), Then::Includes("/fail")),
    ("/ifault", 202, Says::Text("["), Then::Includes("/fault")),
    ("/query", 202, Says::Text("["), Then::Includes("/w?a=b")),
    (
        "/escape",
        202,
        Says::Text("["),
        Then::Includes("/x/../%77;v=1"),
    ),
    ("/above", 202, Says::Text("["), Then::Includes("/../w")),
    ("/slash", 202, Says::Text("["), Then::Includes("/%2Fw")),
    ("/relative", 202, Says::Text("["), Then::Includes("w")),
];

/// A forward empties the body, also that of the includer, and keeps its target's status. Below an include the status
/// stands still, and an error that is sent is an end; a fault isn't, and no more is a dispatch that is 17 deep. A dispatch
/// path is read as a target: with a query, an escape, a dot segment; one above the root, one with an escaped slash and one
/// that doesn't begin with a slash is a fault.
pub fn nested(alloc: Global, path: &str) -> Result<String, RowFault> {
    let mut stage: Stage<Scripted, Marking> = empty_stage(alloc);
    add_servlets(alloc, &mut stage, &SERVLETS)?;
    dispatched(alloc, stage, path)
}

/// The calls of the first servlet.
fn calls(stage: &Stage<Scripted, Marking>) -> u64 {
    stage
        .servlets
        .first()
        .map_or(0, |hosted| hosted.object.calls)
}

/// How a request for a servlet that forwards to itself ends, and how often the servlet is called: once at each depth, and 16
/// dispatches may be one in another.
fn calls_text(alloc: Global, stage: &mut Stage<Scripted, Marking>) -> Result<String, AllocError>
    requires { IsStaged stage.old }
{
    let ended = run_path(alloc, stage, "/loop")?;
    format!(in alloc; "{ended:?}, {} calls", calls(stage))
}

pub fn looped(alloc: Global) -> Result<String, RowFault> {
    let mut stage: Stage<Scripted, Marking> = empty_stage(alloc);
    add_servlets(alloc, &mut stage, &SERVLETS[6..7])?;
    Ok(calls_text(alloc, &mut stage)?)
}
