//! Texts of tests. Where memory is wanting, the test ends.

use std::alloc::Global;
use std::fmt::Display;
use std::process::Abort;

/// What is written so.
pub fn text(rt: &impl Abort, alloc: Global, written: impl Display + Drop) -> String {
    format!(in alloc; "{written}").expect(rt, "memory")
}

/// Adds this after the rest.
pub fn add(rt: &impl Abort, text: &mut String, more: &str) {
    text.push_str(more).expect(rt, "memory");
}

/// Stops a test where this isn't what is wanted.
pub fn expect_text(rt: &impl Abort, what: impl Display + Drop, found: &str, wanted: &str) {
    assert_eq!(rt; found, wanted, "{what}");
}
