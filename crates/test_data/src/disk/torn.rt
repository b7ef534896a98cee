//! Images that a stop leaves of a write that was not synced.
use crate::disk::fixtures::{image, with_byte};
use crate::disk::stage::found_text;
use crate::disk::stories::EMPTY;
use crate::fixtures::{expect_bytes, repeated};
use std::alloc::Global;
use std::process::Abort;

// Writes this choice of what a stop may leave of a range: each byte is 0, an open gate or the one that was written.
fn tear(image: &mut Vec<u8>, at: usize, new: &[u8], choice: usize) {
    let mut left = choice;
    for (i, byte) in new.iter().enumerate() {
        let torn = match left % 3 {
            0 => 0,
            1 => 0xA5,
            _ => *byte,
        };
        if let Some(place) = image.get_mut(at.saturating_add(i)) {
            *place = torn;
        }
        left /= 3;
    }
}

// Until the first sync any bytes may stand after the closed gate, up to any length. So long an image of the old entry, with
// each choice of what is left of a new one, is read as the old one.
fn expect_torn_entries(rt: &impl Abort, alloc: Global, len: usize) {
    for choice in 0..729usize {
        let found = found_text(rt, alloc, &torn_entry(rt, alloc, len, choice), b"");
        expect_bytes(rt, format_args!("{len} {choice}"), &found, b"ab|");
    }
}

fn torn_entry(rt: &impl Abort, alloc: Global, len: usize, choice: usize) -> Vec<u8> {
    let mut torn = image(rt, alloc, b"\xA5\0\0\0\x02ab\0");
    torn.resize(len, 0x5A).expect(rt, "memory");
    tear(&mut torn, 24, b"\0\0\0\x01x\0", choice);
    torn
}

static TORN: [u8; 3] = [0, 0xA5, 0x37];

// The first journal while it is made, so long and all of one byte.
fn expect_torn_new(rt: &impl Abort, alloc: Global, len: usize) {
    for byte in &TORN {
        let found = found_text(rt, alloc, &repeated(rt, alloc, *byte, len), b"");
        expect_bytes(rt, format_args!("{len} {byte}"), &found, b"");
    }
}

/// Two disks with a gate at a place of one of them, and what is read where it is open, and where it is anything else.
struct Gate {
    name: &'static str,
    a: &'static [u8],
    b: &'static [u8],
    is_on_a: bool,
    at: usize,
    open: &'static [u8],
    closed: &'static [u8],
}

/// A journal, and what a compaction of it leaves on the other disk.
const OLD: &[u8] = b"\xA5SVJRNL\x01\0\0\0\0\0\0\0\x01\xA5\0\0\0\x03one\xA5\0\0\0\x03two\0";

const COMPACTED: &[u8] = b"\xA5SVJRNL\x01\0\0\0\0\0\0\0\x02\xA5\0\0\0\x01c\xA5\0\0\0\x02st\0";

static GATES: [Gate; 4] = [
    Gate {
        name: "of a second entry, which is there where its gate is open",
        a: b"\xA5SVJRNL\x01\0\0\0\0\0\0\0\x01\xA5\0\0\0\x02ab\0\0\0\0\x01x\0",
        b: b"",
        is_on_a: true,
        at: 23,
        open: b"ab|x|",
        closed: b"ab|",
    },
    Gate {
        name: "of a new journal, which has no entry either way",
        a: EMPTY,
        b: b"",
        is_on_a: true,
        at: 0,
        open: b"",
        closed: b"",
    },
    Gate {
        name: "of A behind a compaction, beside which the newer journal on B is read",
        a: OLD,
        b: COMPACTED,
        is_on_a: true,
        at: 0,
        open: b"c|st|",
        closed: b"c|st|",
    },
    Gate {
        name: "of B in a compaction, which is read where it is open, and else the journal on A",
        a: OLD,
        b: COMPACTED,
        is_on_a: false,
        at: 0,
        open: b"c|st|",
        closed: b"one|two|",
    },
];

// What is read with this byte in the place of a gate.
fn found_with(rt: &impl Abort, alloc: Global, gate: &Gate, byte: u8) -> Vec<u8> {
    if gate.is_on_a {
        let torn = with_byte(rt, alloc, gate.a, gate.at, byte);
        found_text(rt, alloc, &torn, gate.b)
    } else {
        let torn = with_byte(rt, alloc, gate.b, gate.at, byte);
        found_text(rt, alloc, gate.a, &torn)
    }
}

// Each byte in the place of a gate.
fn expect_torn_gate(rt: &impl Abort, alloc: Global, gate: &Gate) {
    for byte in 0..=255u8 {
        let wanted = if byte == 0xA5 { gate.open } else { gate.closed };
        let what = format_args!("{byte} as the gate {}", gate.name);
        expect_bytes(rt, what, &found_with(rt, alloc, gate, byte), wanted);
    }
}

#[test]
fn torn_images_open(rt: HostRuntime) {
    for len in 0..=16usize {
        expect_torn_new(&rt, rt.alloc(), len);
    }
    for len in 24..31usize {
        expect_torn_entries(&rt, rt.alloc(), len);
    }
    for gate in &GATES {
        expect_torn_gate(&rt, rt.alloc(), gate);
    }
}
