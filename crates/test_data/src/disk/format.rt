//! What is read of the bytes of two disks.
use crate::disk::fixtures::{
    Held, added, disk_of, image, journal_on, new_journal, opened, read, records_of,
};
use crate::disk::stage::found_text;
use crate::disk::stories::EMPTY;
use crate::fixtures::{add, expect_bytes, repeated, text_bytes};
use std::alloc::Global;
use std::process::Abort;
use sv_journal::{JournalFault, MemoryDisk};

/// The header of a journal of generation 1.
const HEAD: &[u8] = b"\xA5SVJRNL\x01\0\0\0\0\0\0\0\x01";

/// What disk A holds, in parts, and disk B; and the entries that are read, each with a bar after it, or the fault. Where neither disk is
/// open, at most 17 bytes on A and at most 1 on B are what a stop leaves of a first opening.
static DISKS: [(&str, &[&[u8]], &[u8], &[u8]); 22] = [
    (
        "whole",
        &[HEAD, b"\xA5\0\0\0\x0A\x02\x01\0\0\0\0\0\0\0\x01\0"],
        b"",
        b"\x02\x01\0\0\0\0\0\0\0\x01|",
    ),
    (
        "another gate",
        &[HEAD, b"\x37\0\0\0\x0A\x02\x01\0\0\0\0\0\0\0\x01\0"],
        b"",
        b"",
    ),
    (
        "another gate, cut off",
        &[HEAD, b"\x37\0\0\0\x0A\x02\x01\0"],
        b"",
        b"",
    ),
    (
        "no payload",
        &[HEAD, b"\xA5\0\0\0\0\xA5\0\0\0\x01x\0junk"],
        b"",
        b"|x|",
    ),
    (
        "cut off",
        &[HEAD, b"\xA5\0\0\0\x0A\x02\x01\0"],
        b"",
        b"Damaged",
    ),
    (
        "ends at a gate",
        &[HEAD, b"\xA5\0\0\0\x01x"],
        b"",
        b"Damaged",
    ),
    ("a length cut off", &[HEAD, b"\xA5\0\0\0"], b"", b"Damaged"),
    (
        "a payload cut off",
        &[HEAD, b"\xA5\0\0\0\x02x"],
        b"",
        b"Damaged",
    ),
    (
        "a length past the limit",
        &[HEAD, b"\xA5\0\x08\0\x01x\0"],
        b"",
        b"Damaged",
    ),
    (
        "the first gate of three is shut, and what stands behind it counts for nothing, open gates and all",
        &[
            HEAD,
            b"\xA5\0\0\0\x02ab\0\0\0\0\x01x\xA5\0\0\0\0\xA5\0\0\0\x02yz\0",
        ],
        b"",
        b"ab|",
    ),
    (
        "the first gate of three opens all",
        &[
            HEAD,
            b"\xA5\0\0\0\x02ab\xA5\0\0\0\x01x\xA5\0\0\0\0\xA5\0\0\0\x02yz\0",
        ],
        b"",
        b"ab|x||yz|",
    ),
    (
        "A closed, 17 bytes",
        &[b"\x5ASVJRNL\x01\0\0\0\0\0\0\0\x01\0"],
        b"\0",
        b"",
    ),
    (
        "A closed, 18 bytes",
        &[b"\x5ASVJRNL\x01\0\0\0\0\0\0\0\x01\0\0"],
        b"",
        b"Damaged",
    ),
    ("B of 2 bytes", &[], b"\0\0", b"Damaged"),
    ("B of 2 bytes beside a journal", &[EMPTY], b"\xA5\0", b""),
    ("one generation", &[EMPTY], EMPTY, b"Damaged"),
    ("B open, A blank", &[], EMPTY, b""),
    ("16 bytes are not open", &[HEAD], b"", b""),
    ("one open byte", &[b"\xA5"], b"\xA5", b""),
    (
        "other letters",
        &[b"\xA5SVJRNX\x01\0\0\0\0\0\0\0\x01\0"],
        b"",
        b"Damaged",
    ),
    (
        "other letters on B beside a journal",
        &[EMPTY],
        b"\xA5SVJRNX\x01\0\0\0\0\0\0\0\x01\0",
        b"Damaged",
    ),
    (
        "another number",
        &[b"\xA5SVJRNL\x02\0\0\0\0\0\0\0\x01\0"],
        b"",
        b"Damaged",
    ),
];

/// What is read of these disks.
fn found_on(rt: &impl Abort, alloc: Global, a: &[&[u8]], b: &[u8]) -> Vec<u8> {
    let mut whole = Vec::new(alloc);
    for part in a {
        add(rt, &mut whole, part);
    }
    found_text(rt, alloc, &whole, b)
}

#[test]
fn disks_are_journals_blank_or_damaged(rt: HostRuntime) {
    for (name, a, b, want) in &DISKS {
        expect_bytes(&rt, name, &found_on(&rt, rt.alloc(), a, b), want);
    }
}

/// An image with an entry of this gate and length, with so many bytes after it, and a closed gate.
fn entry_of(rt: &impl Abort, alloc: Global, front: &[u8], count: usize) -> Vec<u8> {
    let mut bytes = image(rt, alloc, front);
    add(rt, &mut bytes, &repeated(rt, alloc, 7, count));
    add(rt, &mut bytes, &[0]);
    bytes
}

/// How many bytes are read where the entry of an image has so many, the bar after it among them, or the fault.
fn len_of_entry(rt: &impl Abort, alloc: Global, front: &[u8], count: usize) -> Vec<u8> {
    match records_of(rt, alloc, &entry_of(rt, alloc, front, count), b"") {
        Ok(entries) => text_bytes(rt, alloc, entries.len()),
        Err(fault) => text_bytes(rt, alloc, format_args!("{fault:?}")),
    }
}

/// The longest payload there is.
fn longest_payload(rt: &impl Abort, alloc: Global) -> Vec<u8> {
    len_of_entry(rt, alloc, b"\xA5\0\x08\0\0", 524_288)
}

/// And one with a byte more, which stands there whole.
fn too_long_payload(rt: &impl Abort, alloc: Global) -> Vec<u8> {
    len_of_entry(rt, alloc, b"\xA5\0\x08\0\x01", 524_289)
}

/// Adds 26 payloads of 100,000 bytes and 200 short ones.
fn add_many(rt: &impl Abort, alloc: Global, journal: &mut Held<MemoryDisk>) {
    for i in 0..26u8 {
        added(journal, &repeated(rt, alloc, i, 100_000)).expect(rt, "a long entry is added");
    }
    for i in 0..200u8 {
        added(journal, &[i; 50]).expect(rt, "a short entry is added");
    }
}

/// The first of these payloads that isn't so, or their number.
fn first_other(found: &[Vec<u8>]) -> usize {
    for (i, payload) in found.iter().enumerate() {
        let (byte, len) = if i < 26 {
            (i, 100_000)
        } else {
            (i.saturating_sub(26), 50)
        };
        if payload.len() != len || !payload.iter().all(|b| usize::from(*b) == byte) {
            return i;
        }
    }
    found.len()
}

/// A journal with these payloads.
fn long_journal(rt: &impl Abort, alloc: Global) -> Held<MemoryDisk> {
    let mut journal = new_journal(rt, alloc);
    add_many(rt, alloc, &mut journal);
    journal
}

/// How many of the payloads on these disks are read as they were written.
fn read_again(rt: &impl Abort, alloc: Global, (a, b): (MemoryDisk, MemoryDisk)) -> usize {
    let mut journal = journal_on(rt, alloc, a, b);
    first_other(&read(&mut journal).expect(rt, "the entries are read"))
}

/// The length of such a journal, and how many payloads are read as they were written where its disks are opened again.
fn read_in_pieces(rt: &impl Abort, alloc: Global) -> Vec<u8> {
    let journal = long_journal(rt, alloc);
    let len = journal.len();
    let found = read_again(rt, alloc, journal.into_disks());
    text_bytes(rt, alloc, format_args!("{len} {found}"))
}

/// What is said where two disks of two bytes are opened, if they are refused.
fn text_of_refused(rt: &impl Abort, alloc: Global) -> Vec<u8> {
    let disks = (
        disk_of(rt, alloc, b"\0\0", 0),
        disk_of(rt, alloc, b"\0\0", 0),
    );
    match opened(alloc, disks.0, disks.1) {
        Ok(_) => Vec::new(alloc),
        Err(refused) => text_bytes(rt, alloc, refused),
    }
}

/// What is tried of bytes that are too many for a table, and of what faults say.
#[derive(Clone, Copy)]
enum Case {
    Longest,
    TooLong,
    Pieces,
    Damaged,
    Refused,
}

static CASES: [(&str, Case, &[u8]); 5] = [
    (
        "a payload of 524,288 bytes, and a bar",
        Case::Longest,
        b"524289",
    ),
    (
        "a payload of a byte more, whatever stands behind it",
        Case::TooLong,
        b"Damaged",
    ),
    // A disk is read in pieces of 1,048,576 bytes: 26 payloads of 100,000 bytes and 200 short ones lie across the ends of two.
    // They take 16 + 26 * 100,005 + 200 * 55 + 1 bytes.
    ("a long journal", Case::Pieces, b"2611147 226"),
    (
        "a fault",
        Case::Damaged,
        b"the disks hold no journal that can be read",
    ),
    (
        "two bytes on B",
        Case::Refused,
        b"the disks hold no journal that can be read",
    ),
];

fn told(rt: &impl Abort, alloc: Global, case: Case) -> Vec<u8> {
    match case {
        Case::Longest => longest_payload(rt, alloc),
        Case::TooLong => too_long_payload(rt, alloc),
        Case::Pieces => read_in_pieces(rt, alloc),
        Case::Damaged => text_bytes(rt, alloc, JournalFault::Damaged),
        Case::Refused => text_of_refused(rt, alloc),
    }
}

#[test]
fn long_journals_and_faults(rt: HostRuntime) {
    for (name, case, want) in &CASES {
        expect_bytes(&rt, name, &told(&rt, rt.alloc(), *case), want);
    }
}
