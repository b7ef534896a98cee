//! Bytes and texts of tests. Where memory is wanting, the test ends.
use std::alloc::Global;
use std::fmt::Display;
use std::process::Abort;

/// These bytes, in memory of their own.
pub fn bytes(rt: &impl Abort, alloc: Global, bytes: &[u8]) -> Vec<u8> {
    Vec::from_slice(alloc, bytes).expect(rt, "memory")
}

/// A byte, so many times.
pub fn repeated(rt: &impl Abort, alloc: Global, byte: u8, count: usize) -> Vec<u8> {
    Vec::from_elem(alloc, byte, count).expect(rt, "memory")
}

/// Adds these bytes after the others.
pub fn add(rt: &impl Abort, bytes: &mut Vec<u8>, more: &[u8]) {
    bytes.extend_from_slice(more).expect(rt, "memory");
}

/// What is written so.
pub fn text(rt: &impl Abort, alloc: Global, written: impl Display + Drop) -> String {
    format!(in alloc; "{written}").expect(rt, "memory")
}

/// The bytes of what is written so.
pub fn text_bytes(rt: &impl Abort, alloc: Global, written: impl Display + Drop) -> Vec<u8> {
    text(rt, alloc, written).into_bytes()
}

/// Stops a test where these bytes aren't those that are wanted. The proof of a test has one step for it, and many for an assertion of
/// its own.
pub fn expect_bytes(rt: &impl Abort, what: impl Display + Drop, found: &[u8], wanted: &[u8]) {
    assert!(rt; found == wanted, "{what}: {found:?} in place of {wanted:?}");
}
