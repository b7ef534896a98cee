//! Plain pages, fields and the plain values that contracts see as lists.

mod attributes;
mod expiry;
mod fields;
mod pages;
mod texts;

use std::alloc::Global;
use std::process::Abort;

/// What is tried, each by a table of its own.
#[derive(Clone, Copy)]
enum Case {
    Pages,
    Fields,
    Places,
    Methods,
    Blanks,
    Texts,
    Lists,
    Memory,
    Expiry,
    Put,
    Names,
    Removed,
    Copies,
    Pushed,
}

static CASES: [(&str, Case); 14] = [
    ("plain pages and bodies", Case::Pages),
    (
        "a field takes the place of the first one of its name, and is last where there is none",
        Case::Fields,
    ),
    (
        "the place of a field is that of the first one of its name",
        Case::Places,
    ),
    (
        "methods are compared with case (RFC 9110, section 9.1)",
        Case::Methods,
    ),
    ("blanks go from both ends", Case::Blanks),
    ("texts", Case::Texts),
    ("lists", Case::Lists),
    ("want of memory keeps its name on the way up", Case::Memory),
    ("sessions expire", Case::Expiry),
    ("values are put at their names", Case::Put),
    ("names are in order", Case::Names),
    ("values are removed", Case::Removed),
    ("a copy lives on by itself", Case::Copies),
    ("attributes are pushed", Case::Pushed),
];

/// The first row of a table that is otherwise.
fn other(rt: &impl Abort, alloc: Global, case: Case) -> Option<&'static str> {
    match case {
        Case::Pages => pages::other_page(rt, alloc),
        Case::Fields => fields::other_set(rt, alloc),
        Case::Places => fields::other_place(rt, alloc),
        Case::Methods => fields::other_method(rt, alloc),
        Case::Blanks => texts::other_trimmed(),
        Case::Texts => texts::other_text(rt, alloc),
        Case::Lists => texts::other_list(rt, alloc),
        Case::Memory => texts::other_fault(),
        Case::Expiry => expiry::other_moment(alloc),
        Case::Put => attributes::other_put(rt, alloc),
        Case::Names => attributes::other_names(rt, alloc),
        Case::Removed => attributes::other_removed(rt, alloc),
        Case::Copies => attributes::other_copy(rt, alloc),
        Case::Pushed => attributes::other_pushed(rt, alloc),
    }
}

#[test]
fn plain_values(rt: HostRuntime) {
    for (name, case) in &CASES {
        assert_eq!(rt; other(&rt, rt.alloc(), *case), None, "{name}");
    }
}
