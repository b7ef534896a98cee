//! Targets of requests and paths within a context: each byte, long ones and refused memory.

use crate::fixtures::{add, text};
use http::Method;
use std::alloc::Global;
use std::process::Abort;
use sv_target::{Target, TargetFault};

/// The path of a target and its query after a space.
fn target_text(rt: &impl Abort, alloc: Global, target: &Target) -> String {
    match &target.query {
        Some(query) => format!(in alloc; "{} {}", target.path.as_str(), query.as_str()).expect(
            rt, "memory",
        ),
        None => text(rt, alloc, target.path.as_str()),
    }
}

/// A target as a text, or the fault.
fn shown(rt: &impl Abort, alloc: Global, answer: &Result<Target, TargetFault>) -> String {
    match answer {
        Ok(target) => target_text(rt, alloc, target),
        Err(fault) => format!(in alloc; "{fault:?}").expect(rt, "memory"),
    }
}

/// What a text within a path is read as.
fn shown_within(rt: &impl Abort, alloc: Global, text: &str) -> String {
    shown(rt, alloc, &Target::read_within(alloc, text))
}

/// What the target of a request is read as.
fn shown_of(rt: &impl Abort, alloc: Global, text: &str) -> String {
    shown(rt, alloc, &Target::read(alloc, &Method::GET, text))
}

/// The letter of a byte of ASCII.
fn letter_of(byte: usize) -> Option<char> {
    match u8::try_from(byte) {
        Ok(byte) if byte < 128 => Some(char::from(byte)),
        _ => None,
    }
}

/// What the escape of one byte after a slash has to give: a character of ASCII but NUL, the slash, the backslash and
/// a dot alone.
fn unescaped(byte: usize) -> Option<char> {
    match letter_of(byte) {
        Some('\0' | '/' | '\\' | '.') => None,
        letter => letter,
    }
}

/// What the path of a slash and the escape of a byte has to be.
fn path_of(rt: &impl Abort, alloc: Global, byte: usize) -> String {
    match unescaped(byte) {
        Some(letter) => format!(in alloc; "/{letter}").expect(rt, "memory"),
        None => text(rt, alloc, "BadTarget"),
    }
}

/// Whether a text with the escape of a byte after a slash is read as it has to be.
fn is_unescaped(rt: &impl Abort, alloc: Global, text: &str, byte: usize) -> bool {
    let want = path_of(rt, alloc, byte);
    shown_within(rt, alloc, text).as_str() == want.as_str()
}

pub(super) fn every_escape_of_one_byte(rt: &impl Abort, alloc: Global, byte: usize) -> bool {
    let text = format!(in alloc; "/%{byte:02x}").expect(rt, "memory");
    is_unescaped(rt, alloc, &text, byte)
}

pub(super) fn every_escape_of_one_byte_in_capitals(
    rt: &impl Abort,
    alloc: Global,
    byte: usize,
) -> bool {
    let text = format!(in alloc; "/%{byte:02X}").expect(rt, "memory");
    is_unescaped(rt, alloc, &text, byte)
}

/// A letter between two others.
fn around(rt: &impl Abort, alloc: Global, letter: char) -> String {
    format!(in alloc; "/a{letter}b").expect(rt, "memory")
}

/// What a letter between two others has to give.
fn between(rt: &impl Abort, alloc: Global, letter: char) -> String {
    match letter {
        '\0'..=' ' | '#' | '%' | '<' | '>' | '\\' | '`' | '\x7f' => text(rt, alloc, "BadTarget"),
        '?' => text(rt, alloc, "/a b"),
        ';' => text(rt, alloc, "/a"),
        _ => around(rt, alloc, letter),
    }
}

/// Whether a letter between two others is read as it has to be.
fn is_read_between(rt: &impl Abort, alloc: Global, letter: char) -> bool {
    let want = between(rt, alloc, letter);
    shown_of(rt, alloc, &around(rt, alloc, letter)).as_str() == want.as_str()
}

pub(super) fn every_byte_of_ascii(rt: &impl Abort, alloc: Global, byte: usize) -> bool {
    match letter_of(byte) {
        Some(letter) => is_read_between(rt, alloc, letter),
        None => false,
    }
}

/// A path of so many bytes.
fn long_path(rt: &impl Abort, alloc: Global, length: usize) -> String {
    let mut path = text(rt, alloc, "/");
    for _ in 1..length {
        add(rt, &mut path, "x");
    }
    path
}

/// Whether a path is read as it stands, or the fault.
fn is_read(alloc: Global, path: &str) -> Result<bool, TargetFault> {
    match Target::read_within(alloc, path) {
        Ok(target) => Ok(target.path.as_str() == path),
        Err(fault) => Err(fault),
    }
}

/// The same of a path of so many bytes.
fn is_long_read(rt: &impl Abort, alloc: Global, length: usize) -> Result<bool, TargetFault> {
    is_read(alloc, &long_path(rt, alloc, length))
}

pub(super) fn long_paths(rt: &impl Abort, alloc: Global) -> bool {
    is_long_read(rt, alloc, 65_534) == Ok(true)
        && is_long_read(rt, alloc, 65_535) == Err(TargetFault::BadTarget)
}
