//! What tests are made of, for which memory is ample.

use crate::expect::push_bytes;
use std::alloc::Global;
use std::process::Abort;

/// A text of its own.
pub fn text(rt: &impl Abort, alloc: Global, text: &str) -> String {
    String::from_str(alloc, text).expect(rt, "memory")
}

/// Puts a text after another.
pub fn add(rt: &impl Abort, text: &mut String, more: &str) {
    text.push_str(more).expect(rt, "memory");
}

/// Puts a letter after a text.
pub fn add_letter(rt: &impl Abort, text: &mut String, letter: char) {
    text.push(letter).expect(rt, "memory");
}

/// Puts a character for each byte after a text.
pub fn add_bytes(rt: &impl Abort, text: &mut String, bytes: &[u8]) {
    push_bytes(text, bytes).expect(rt, "memory");
}

/// Puts an item after those of a list.
pub fn push<T>(rt: &impl Abort, list: &mut Vec<T>, item: T) {
    list.push(item).expect(rt, "memory");
}

/// Bytes, so many times.
pub fn repeated(rt: &impl Abort, alloc: Global, bytes: &[u8], times: usize) -> Vec<u8> {
    bytes.repeat(alloc, times).expect(rt, "memory")
}
