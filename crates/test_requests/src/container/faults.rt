//! Containers that are not started.

use crate::container::cast::{
    Part, filters_of, has_notes, has_so_many, listeners_of, new_diary, servlets_of,
};
use crate::container::lives::deployment_of;
use crate::container::noting::{Diary, NotingFilter, NotingListener, NotingServlet};
use std::alloc::Global;
use std::process::Abort;
use sv_container::{Container, NotStarted, StartFault};

const DESCRIPTOR: &str = r#"[[context]]
path = "/a"
servlet = [{ name = "s", patterns = [] }]
filter = [{ name = "f" }]
listener = [{ name = "l" }]
"#;

/// The servlets, filters and listeners that are handed in, and the fault.
type Row = (
    &'static [Part],
    &'static [Part],
    &'static [Part],
    StartFault,
);

const S: &[Part] = &[(0, "s")];

const F: &[Part] = &[(0, "f")];

const L: &[Part] = &[(0, "l")];

static ROWS: [Row; 12] = [
    (&[], F, L, StartFault::MissingObject),
    (S, &[], L, StartFault::MissingObject),
    (S, F, &[], StartFault::MissingObject),
    // Another name, and another context, is another object.
    (&[(0, "t")], F, L, StartFault::MissingObject),
    (S, &[(1, "f")], L, StartFault::MissingObject),
    // One is missing and one is too many: the lesser fault.
    (&[(0, "s"), (0, "t")], F, &[], StartFault::MissingObject),
    (&[(0, "s"), (0, "t")], F, L, StartFault::ExtraObject),
    (S, &[(1, "f"), (0, "f")], L, StartFault::ExtraObject),
    (S, F, &[(0, "l"), (0, "m")], StartFault::ExtraObject),
    // A second one of a name that is declared once.
    (&[(0, "s"), (0, "s")], F, L, StartFault::ExtraObject),
    (S, &[(0, "f"), (0, "f")], L, StartFault::ExtraObject),
    (S, F, &[(0, "l"), (0, "l")], StartFault::ExtraObject),
];

type Back = NotStarted<NotingServlet, NotingFilter, NotingListener>;

/// What a start with the objects of a row, which note in a diary, hands back.
fn back_from(rt: &impl Abort, alloc: Global, diary: &Diary, row: &Row) -> Option<Back> {
    let (servlets, filters, listeners, _) = *row;
    let servlets = servlets_of(rt, alloc, diary, servlets, "");
    let filters = filters_of(rt, alloc, diary, filters, "");
    let listeners = listeners_of(rt, alloc, diary, listeners);
    let deployment = deployment_of(rt, alloc, DESCRIPTOR);
    Container::start(alloc, deployment, servlets, filters, listeners).err()
}

/// The fault is that of a row, and all its objects are there.
fn is_whole(back: &Back, row: &Row) -> bool {
    let (servlets, filters, listeners, fault) = *row;
    back.fault == fault
        && back.servlets.len() == servlets.len()
        && back.filters.len() == filters.len()
        && back.listeners.len() == listeners.len()
}

/// Each object of a row has noted its drop, once, and nothing else was noted.
fn are_dropped(diary: &Diary, row: &Row) -> bool {
    let (servlets, filters, listeners, _) = *row;
    // Each note is as long as `s.drop `.
    has_so_many(
        diary,
        7 * (servlets.len() + filters.len() + listeners.len()),
    )
}

/// All objects of a row are handed back, none has been called, and each is dropped once.
fn is_handed_back(rt: &impl Abort, alloc: Global, diary: &Diary, row: &Row) -> bool {
    let Some(back) = back_from(rt, alloc, diary, row) else {
        return false;
    };
    let is_right = is_whole(&back, row) && has_notes(diary, "");
    drop(back);
    is_right && are_dropped(diary, row)
}

pub fn faults_hand_all_objects_back(rt: &impl Abort, alloc: Global, input: usize) -> bool {
    match ROWS.get(input) {
        Some(row) => is_handed_back(rt, alloc, &new_diary(rt, alloc), row),
        None => false,
    }
}
