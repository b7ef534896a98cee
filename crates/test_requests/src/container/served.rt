//! Which objects a request reaches.

use crate::container::cast::{clear_notes, has_notes, new_diary};
use crate::container::lives::started;
use crate::container::noting::Diary;
use crate::requests::request_for;
use std::alloc::Global;
use std::process::Abort;
use sv_model::{Engine, Key, Request, Secret};

const FRESH: (Key, Secret) = (Key { home: 0, serial: 1 }, Secret([1; 16]));

/// Serves a request, and tells what is to be told; whether it is answered with this status.
fn serves<E: Engine>(engine: &mut E, request: &Request, status: u16) -> bool
    requires { E.valid engine.old }
    ensures { E.valid engine.new }
{
    match engine.serve(request, None, 1_000, FRESH) {
        Ok(outcome) => {
            engine.tell(outcome.events.as_slice());
            outcome.response.status.as_u16() == status
        }
        Err(_) => false,
    }
}

/// Whether a request for a path is answered with this status.
pub fn is_answered<E: Engine>(
    rt: &impl Abort,
    alloc: Global,
    engine: &mut E,
    path: &str,
    status: u16,
) -> bool
    requires { E.valid engine.old }
    ensures { E.valid engine.new }
{
    let request = request_for(rt, alloc, path, path, false);
    serves(engine, &request, status)
}

/// The object that can't be initialised, a path, the status, and what is noted.
type Row = (&'static str, &'static str, u16, &'static str);

static ROWS: [Row; 7] = [
    // Filters in order, the servlet, the filters in reverse; what comes in is heard in order, what goes out in reverse.
    (
        "",
        "/a/1",
        200,
        "f1.before f2.before s1.serve f2.after f1.after l1.in l2.in l2.out l1.out ",
    ),
    (
        "",
        "/b/3",
        200,
        "f3.before s3.serve f3.after l3.in l4.in l4.out l3.out ",
    ),
    // No servlet has the path: its filters are called.
    (
        "",
        "/b/1",
        404,
        "f3.before f3.after l3.in l4.in l4.out l3.out ",
    ),
    // A servlet that can't be initialised is as one that isn't there, and the others serve.
    (
        "s1",
        "/a/1",
        404,
        "f1.before f2.before f2.after f1.after l1.in l2.in l2.out l1.out ",
    ),
    (
        "s1",
        "/a/2",
        200,
        "f1.before f2.before s2.serve f2.after f1.after l1.in l2.in l2.out l1.out ",
    ),
    // A filter that can't be initialised takes its context out of service, and no other.
    ("f2", "/a/1", 404, ""),
    (
        "f2",
        "/b/3",
        200,
        "f3.before s3.serve f3.after l3.in l4.in l4.out l3.out ",
    ),
];

/// A row's request is answered, and its objects are called, as it says.
fn is_served(rt: &impl Abort, alloc: Global, diary: &Diary, row: &Row) -> bool {
    let (unable, path, status, notes) = *row;
    let mut container = started(rt, alloc, diary, unable);
    clear_notes(diary);
    is_answered(rt, alloc, &mut container, path, status) && has_notes(diary, notes)
}

pub fn requests_reach_their_objects(rt: &impl Abort, alloc: Global, input: usize) -> bool {
    match ROWS.get(input) {
        Some(row) => is_served(rt, alloc, &new_diary(rt, alloc), row),
        None => false,
    }
}
