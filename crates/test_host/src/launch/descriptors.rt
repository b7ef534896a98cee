//! Descriptors that nothing is served by, and those that a program has built in.

use super::answered;
use super::streams::Way;
use crate::expect::expect;
use std::alloc::Global;
use std::process::Abort;
use sv_launch::{Application, Applications};
use sv_showcase::showcase;

/// A descriptor, and its fault with the exit status.
struct Row(&'static str, &'static str);

/// The smallest ones of `docs/CONFIGURING.md`, and then those that name what the program hasn't got. A descriptor's own
/// fault is found first.
static ROWS: [Row; 12] = [
    Row("a = ", "NotToml 3"),
    Row("", "MissingField 3"),
    Row("context = 1", "WrongKind 3"),
    Row("context = [{ path = \"\", x = 1 }]", "UnknownName 3"),
    Row("context = [{ path = \"/\" }]", "BadPattern 3"),
    Row(
        "context = [{ path = \"\" }, { path = \"\" }]",
        "Duplicate 3",
    ),
    Row(
        "context = [{ path = \"\", interval = 2147483648 }]",
        "LimitExceeded 3",
    ),
    Row(
        "context = [{ path = \"\", servlet = [{ name = \"hullo\", patterns = [] }] }]",
        "MissingObject 3",
    ),
    Row(
        "context = [{ path = \"/a\" }, { path = \"/b\", servlet = [{ name = \"hello\", patterns = [] }, { name = \"stamp-a\", patterns = [] }] }]",
        "MissingObject 3",
    ),
    Row(
        "context = [{ path = \"\", filter = [{ name = \"gates\" }] }]",
        "MissingObject 3",
    ),
    Row(
        "context = [{ path = \"\", listener = [{ name = \"hello\" }] }]",
        "MissingObject 3",
    ),
    Row(
        "context = [{ path = \"/\", servlet = [{ name = \"hullo\", patterns = [] }] }]",
        "BadPattern 3",
    ),
];

/// Each descriptor has its row's fault.
pub fn expect_faults(rt: &(impl Abort + AllocGlobal)) {
    for Row(descriptor, wanted) in &ROWS {
        let text = answered(rt, rt.alloc(), descriptor, Way::Whole, "");
        expect(rt, descriptor, text.as_str(), wanted);
    }
}

const DESCRIPTOR: &str = "[[context]]\npath = \"\"\n";

/// A new application has none built in.
fn has_none(alloc: Global) -> bool {
    Application::new(alloc).built_in().is_none()
}

/// An application that is given a descriptor has it built in.
fn has_its_own(alloc: Global) -> bool {
    let bare = Application::new(alloc).descriptor(DESCRIPTOR);
    bare.built_in() == Some(DESCRIPTOR)
}

/// One that has another built in has it in the place of that one.
fn has_another(alloc: Global) -> bool {
    let samples = showcase(alloc).descriptor(DESCRIPTOR);
    samples.built_in() == Some(DESCRIPTOR)
}

/// A program has a descriptor built in where it is given one, and another in the place of its own.
pub fn are_built_in(alloc: Global) -> bool {
    has_none(alloc) && has_its_own(alloc) && has_another(alloc)
}
