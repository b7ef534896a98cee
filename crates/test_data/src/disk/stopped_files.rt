//! Real files as a stop leaves them.
use crate::disk::fixtures::{Files, joined, shown_of};
use crate::fixtures::{add, bytes};
use std::fs;
use std::process::Abort;

// What is found where the disks are no journal.
const NONE: &[u8] = b"none";

// Makes a file anew.
fn write(rt: &impl Abort, files: &Files, path: &str, bytes: &[u8]) {
    fs::write(files.machine, path, bytes).expect(rt, "a file that is written");
}

// What is read where the files are opened, each entry with a bar after it.
fn found_at_opening(rt: &impl Abort, files: &Files) -> Vec<u8> {
    match files.opened(rt) {
        Ok(mut journal) => shown_of(rt, files.alloc(), &mut journal).expect(
            rt,
            "the entries are read",
        ),
        Err(_) => bytes(rt, files.alloc(), NONE),
    }
}

// Makes both files anew, opens them, and reads the entries, each with a bar after it.
fn found_in(rt: &impl Abort, files: &Files, a: &[u8], b: &[u8]) -> Vec<u8> {
    write(rt, files, &files.a, a);
    write(rt, files, &files.b, b);
    found_at_opening(rt, files)
}

/// What is found in 24 to 33 bytes, each with a blank after it. The files are removed.
pub(super) fn found_in_cuts(rt: &impl Abort, files: &Files, whole: &[u8]) -> Vec<u8> {
    let mut found = Vec::new(files.alloc());
    for len in 24..34usize {
        let cut = whole.get(..len).unwrap_or(whole);
        add(rt, &mut found, &found_in(rt, files, cut, b""));
        add(rt, &mut found, b" ");
    }
    files.remove(rt);
    found
}

// The current disk, of generation 2.
const CURRENT: &[u8] = b"\xA5SVJRNL\x01\0\0\0\0\0\0\0\x02\xA5\0\0\0\x03two\0";

/// The entries that are read with this on B, and those that are read once the files were compacted and have grown. They are
/// removed.
pub(super) fn found_at_a_stop(rt: &impl Abort, files: &Files, b: &[u8]) -> Vec<u8> {
    let found = found_in(rt, files, CURRENT, b);
    let behind = found_behind(rt, files);
    files.remove(rt);
    joined(rt, files.alloc(), &found, &behind)
}

fn found_behind(rt: &impl Abort, files: &Files) -> Vec<u8> {
    files.compact(rt, b"first");
    files.add(rt, b"last");
    files.found(rt)
}
