//! Texts, lists of bytes, and the names of faults.

use crate::fixtures::{bytes, text};
use std::alloc::{AllocError, Global};
use std::process::Abort;
use sv_model::{EngineFault, Sequence, StepFault, Text, trim};

/// Spaces and tabs go, no other white space does, and blanks inside stay (RFC 9110, section 5.6.3).
static TRIMMED: [(&str, &[u8], &[u8]); 8] = [
    ("no byte", b"", b""),
    ("blanks alone", b" \t ", b""),
    ("no blank", b"a", b"a"),
    ("blanks in front", b"  a", b"a"),
    ("blanks behind", b"a\t\t", b"a"),
    ("blanks inside", b"\t a b\tc \t", b"a b\tc"),
    ("other white space", b"\r\na\x0b", b"\r\na\x0b"),
    ("a zero between blanks", b" \x00 ", b"\x00"),
];

pub(super) fn other_trimmed() -> Option<&'static str> {
    for (name, text, want) in &TRIMMED {
        if trim(text) != *want {
            return Some(name);
        }
    }
    None
}

/// A string as a text, and as a string again.
fn is_string_again(rt: &impl Abort, alloc: Global, string: &str) -> bool {
    let text = Text::from_string(text(rt, alloc, string));
    let is_so = text.as_str() == string;
    let again = text.into_string();
    is_so && again.as_str() == string
}

fn is_text(rt: &impl Abort, alloc: Global, string: &str) -> bool {
    let text = Text::from_str(alloc, string).expect(rt, "memory");
    text.as_str() == string
}

fn is_empty_text(alloc: Global) -> bool {
    Text::new(alloc).as_str().is_empty()
}

static STRINGS: [&str; 3] = ["", "bramble", "käg"];

pub(super) fn other_text(rt: &impl Abort, alloc: Global) -> Option<&'static str> {
    for string in &STRINGS {
        if !is_text(rt, alloc, string) || !is_string_again(rt, alloc, string) {
            return Some(string);
        }
    }
    if !is_empty_text(alloc) {
        return Some("a new text");
    }
    None
}

/// 7, 8, 9 and 10.
fn four(rt: &impl Abort, alloc: Global) -> Sequence<u8> {
    let mut bytes = Sequence::from_vec(bytes(rt, alloc, &[7, 8, 9]));
    bytes.push(10).expect(rt, "memory");
    bytes
}

/// With another one in the place of 8, and 11 and 12 after.
fn six(rt: &impl Abort, alloc: Global) -> Vec<u8> {
    let mut bytes = four(rt, alloc);
    if bytes.len() == 4 {
        bytes.replace(1, 80);
    }
    bytes.extend_from_slice(&[11, 12]).expect(rt, "memory");
    bytes.into_vec()
}

fn is_empty_list(alloc: Global) -> bool {
    let none: Sequence<u8> = Sequence::new(alloc);
    none.len() == 0
}

fn is_six(rt: &impl Abort, alloc: Global) -> bool {
    six(rt, alloc).as_slice() == [7, 80, 9, 10, 11, 12].as_slice()
}

pub(super) fn other_list(rt: &impl Abort, alloc: Global) -> Option<&'static str> {
    if !is_six(rt, alloc) {
        return Some("six bytes");
    }
    if !is_empty_list(alloc) {
        return Some("no byte");
    }
    None
}

pub(super) fn other_fault() -> Option<&'static str> {
    if EngineFault::from(AllocError) != EngineFault::Memory {
        return Some("of an engine");
    }
    if StepFault::from(AllocError) != StepFault::Memory {
        return Some("of a step");
    }
    if StepFault::from(EngineFault::Memory) != StepFault::Memory {
        return Some("of an engine in a step");
    }
    None
}
