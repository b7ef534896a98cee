//! Two applications from start to shutdown.

ghost use Rattle.sv_container.specs.Life.{AreNamedNew};

use crate::container::cast::{
    Part, filters_of, has_end, has_notes, listeners_of, new_diary, servlets_of,
};
use crate::container::noting::{Diary, NotingFilter, NotingListener, NotingServlet};
use std::alloc::Global;
use std::process::Abort;
use sv_config::Deployment;
use sv_container::{Container, Named, Stopped};
use sv_model::Engine;
use sv_servlet::{Filter, Listener, Servlet};

pub type Noted = Container<NotingServlet, NotingFilter, NotingListener>;

pub const DESCRIPTOR: &str = r#"[[context]]
path = "/a"
servlet = [{ name = "s1", patterns = ["/1"] }, { name = "s2", patterns = ["/2"] }]
filter = [{ name = "f1" }, { name = "f2" }]
filter-mapping = [{ filter = "f1", pattern = "/*" }, { filter = "f2", pattern = "/*" }]
listener = [{ name = "l1" }, { name = "l2" }]

[[context]]
path = "/b"
servlet = [{ name = "s3", patterns = ["/3"] }]
filter = [{ name = "f3" }]
filter-mapping = [{ filter = "f3", pattern = "/*" }]
listener = [{ name = "l3" }, { name = "l4" }]
"#;

// Handed in in another order than they are declared.
pub static SERVLETS: [Part; 3] = [(1, "s3"), (0, "s2"), (0, "s1")];

pub static FILTERS: [Part; 3] = [(0, "f2"), (1, "f3"), (0, "f1")];

pub static LISTENERS: [Part; 4] = [(1, "l4"), (0, "l2"), (1, "l3"), (0, "l1")];

// A context's listeners hear before its filters are initialised, and these are before its servlets; each in the order of
// declaration, and so are the contexts.
pub const STARTED: &str =
    "l1.up l2.up f1.init f2.init s1.init s2.init l3.up l4.up f3.init s3.init ";

pub fn deployment_of(rt: &impl Abort, alloc: Global, descriptor: &str) -> Deployment {
    Deployment::from_toml(alloc, descriptor).expect(rt, "a deployment")
}

/// The two applications with their objects.
pub fn start<S: Servlet, F: Filter, L: Listener>(
    rt: &impl Abort,
    alloc: Global,
    servlets: Vec<Named<S>>,
    filters: Vec<Named<F>>,
    listeners: Vec<Named<L>>,
) -> Container<S, F, L>
    requires servlets { AreNamedNew S.servlet_phase servlets.items }
    requires filters { AreNamedNew F.filter_phase filters.items }
    ensures { ⟦<Container<S, F, L> as Engine>⟧.valid result }
{
    let deployment = deployment_of(rt, alloc, DESCRIPTOR);
    match Container::start(alloc, deployment, servlets, filters, listeners) {
        Ok(container) => container,
        Err(_) => panic!(rt; "the applications don't start"),
    }
}

/// The same; the servlet or filter that is called `unable` can't be initialised.
pub fn started(rt: &impl Abort, alloc: Global, diary: &Diary, unable: &str) -> Noted
    ensures { ⟦<Noted as Engine>⟧.valid result }
{
    let servlets = servlets_of(rt, alloc, diary, &SERVLETS, unable);
    let filters = filters_of(rt, alloc, diary, &FILTERS, unable);
    let listeners = listeners_of(rt, alloc, diary, &LISTENERS);
    start(rt, alloc, servlets, filters, listeners)
}

/// The object that can't be initialised, how many servlets and filters are destroyed, and what is noted at the shutdown.
type Row = (&'static str, usize, usize, &'static str);

// The last context goes first; of each the servlets and then the filters are destroyed, the last first, but for one that
// was never initialised with success, and then its listeners hear, the last first.
static SHUTDOWNS: [Row; 3] = [
    (
        "",
        3,
        3,
        "s3.destroy f3.destroy l4.down l3.down \
         s2.destroy s1.destroy f2.destroy f1.destroy l2.down l1.down ",
    ),
    (
        "f1",
        3,
        2,
        "s3.destroy f3.destroy l4.down l3.down \
         s2.destroy s1.destroy f2.destroy l2.down l1.down ",
    ),
    (
        "s3",
        2,
        3,
        "f3.destroy l4.down l3.down \
         s2.destroy s1.destroy f2.destroy f1.destroy l2.down l1.down ",
    ),
];

/// A row's objects live from the start to the shutdown as it says.
fn is_lived(rt: &impl Abort, alloc: Global, diary: &Diary, row: &Row) -> bool {
    let (unable, servlets, filters, notes) = *row;
    let container = started(rt, alloc, diary, unable);
    let is_started = has_notes(diary, STARTED);
    let stopped = container.shutdown();
    is_started && stopped == Stopped { servlets, filters } && has_end(diary, notes)
}

/// Each object is initialised once, also where another one fails; each that is ready is destroyed once; all are dropped
/// after the last call.
pub fn lives_in_order(rt: &impl Abort, alloc: Global, input: usize) -> bool {
    match SHUTDOWNS.get(input) {
        Some(row) => is_lived(rt, alloc, &new_diary(rt, alloc), row),
        None => false,
    }
}

/// A container that is dropped drops its objects alone: without a shutdown nothing is destroyed and nothing goes down.
pub fn drop_calls_no_object(rt: &impl Abort, alloc: Global) -> bool {
    let diary = new_diary(rt, alloc);
    let container = started(rt, alloc, &diary, "");
    let is_started = has_notes(&diary, STARTED);
    drop(container);
    is_started && has_end(&diary, "")
}
