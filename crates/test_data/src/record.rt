//! Values that are written after what is there, the longest frame and the largest record, and what is said of a fault. What bytes
//! say are rows of `test_rows`.

ghost use Rattle.sv_model.specs.Ranges.{IsRecord};

use crate::fixtures::{add, bytes, expect_bytes, repeated, text_bytes};
use std::alloc::{AllocError, Global};
use std::process::Abort;
use sv_model::{Key, Packet, Record};
use sv_record::{
    Frame, RecordFault, read_frame, read_record, write_frame, write_packet, write_record,
};

const KEY: Key = Key { home: 0, serial: 1 };

/// What is tried.
#[derive(Clone, Copy)]
enum Case {
    /// A record is read of these bytes, and written.
    Record(&'static [u8]),
    Acknowledgement,
    Want,
    /// A frame whose payload has 262,144 bytes, all of them 0, of which so many are there.
    Payload(usize),
    FirstBytes,
    /// A commit whose last value has so many bytes.
    Commit(u16),
    Fault(RecordFault),
    RefusedMemory,
}

/// The version, a commit that names no session and makes one: the key of home 0 and serial 1; the secret 1, context 0, created
/// and last 1000, interval 1800, fresh; and `count` with the value `1`.
const FIRST_COUNT: &[u8] = b"\x02\x02\0\x01\0\0\0\0\0\0\0\0\x01\
\0\0\0\0\0\0\0\0\0\0\0\0\0\0\0\x01\0\0\0\0\0\0\0\x03\xE8\0\0\0\0\0\0\x03\xE8\0\0\x07\x08\x01\
\0\x01\0\x05count\0\0\0\x011";

/// What comes of each. What is written stands after a byte 0xFF.
static CASES: [(&str, Case, &[u8]); 15] = [
    (
        "the commit of a first count",
        Case::Record(FIRST_COUNT),
        b"\xFF\x02\x02\0\x01\0\0\0\0\0\0\0\0\x01\
\0\0\0\0\0\0\0\0\0\0\0\0\0\0\0\x01\0\0\0\0\0\0\0\x03\xE8\0\0\0\0\0\0\x03\xE8\0\0\x07\x08\x01\
\0\x01\0\x05count\0\0\0\x011",
    ),
    (
        "the frame of an acknowledgement",
        Case::Acknowledgement,
        b"\xFF\xE1\0\0\0\x15\x02\x03\x01\0\0\0\0\0\0\0\0\0\x01\0\0\0\0\0\0\0\x02",
    ),
    (
        "a want",
        Case::Want,
        b"\xFF\x02\x01\x07\x02\0\0\0\0\0\0\0\0\x01\0\0\0\0\0\0\0\x03\0\0\0\0\0\0\0\x04",
    ),
    (
        "a payload of which there is no byte yet",
        Case::Payload(0),
        b"none yet",
    ),
    (
        "a payload that lacks its last byte",
        Case::Payload(262_143),
        b"none yet",
    ),
    (
        "the longest payload, which is zeros, and has no version",
        Case::Payload(262_144),
        b"BadVersion",
    ),
    (
        "the first bytes of frames, and no other",
        Case::FirstBytes,
        b"\xE1\xE2",
    ),
    // 64 times 2,048 are the 131,072 bytes that names and values may have. With 6 bytes of lengths each, 40 before them, and 22
    // before the session these are 131,518.
    (
        "the largest record that a container's step leaves",
        Case::Commit(2_047),
        b"131518 Ok(())",
    ),
    (
        "a record of one byte more",
        Case::Commit(2_048),
        b"131519 Err(BadField)",
    ),
    (
        "a fault: cut",
        Case::Fault(RecordFault::Truncated),
        b"the bytes end within a field",
    ),
    (
        "a fault: another version",
        Case::Fault(RecordFault::BadVersion),
        b"the version is none that is known",
    ),
    (
        "a fault: another kind",
        Case::Fault(RecordFault::Foreign),
        b"the kind is none that is known",
    ),
    (
        "a fault: out of range",
        Case::Fault(RecordFault::BadField),
        b"a field is out of its range, or bytes are left behind",
    ),
    (
        "a fault: no memory",
        Case::Fault(RecordFault::Memory),
        b"memory was refused while bytes were read",
    ),
    (
        "a fault of what was refused",
        Case::RefusedMemory,
        b"memory was refused while bytes were read",
    ),
];

/// A byte that stands before what is written.
fn before(rt: &impl Abort, alloc: Global) -> Vec<u8> {
    bytes(rt, alloc, &[0xFF])
}

/// A record that may be written.
fn record_of(rt: &impl Abort, alloc: Global, bytes: &[u8]) -> Record
    ensures { IsRecord result }
{
    read_record(alloc, bytes).expect(rt, "a record")
}

/// Reads a record, and writes it after what is there.
fn write_again(rt: &impl Abort, alloc: Global, bytes: &[u8], out: &mut Vec<u8>) {
    write_record(&record_of(rt, alloc, bytes), out).expect(rt, "memory");
}

fn record_again(rt: &impl Abort, alloc: Global, bytes: &[u8]) -> Vec<u8> {
    let mut out = before(rt, alloc);
    write_again(rt, alloc, bytes, &mut out);
    out
}

fn acknowledgement(rt: &impl Abort, alloc: Global) -> Vec<u8> {
    let mut out = before(rt, alloc);
    let frame = Frame::Peer(Packet::Ack {
        from: 1,
        to: 0,
        key: KEY,
        epoch: 2,
    });
    write_frame(&frame, &mut out).expect(rt, "memory");
    out
}

fn want(rt: &impl Abort, alloc: Global) -> Vec<u8> {
    let mut out = before(rt, alloc);
    let packet = Packet::Want {
        from: 7,
        to: 2,
        key: KEY,
        boot: 3,
        want: 4,
    };
    write_packet(&packet, &mut out).expect(rt, "memory");
    out
}

/// The front of a stream, and so many zeros.
fn stream(rt: &impl Abort, alloc: Global, front: &[u8], count: usize) -> Vec<u8> {
    let mut all = bytes(rt, alloc, front);
    add(rt, &mut all, &repeated(rt, alloc, 0, count));
    all
}

/// Whether a frame is there whole.
fn is_frame(alloc: Global, bytes: &[u8]) -> Result<bool, RecordFault> {
    Ok(read_frame(alloc, bytes)?.is_some())
}

fn frame_text(rt: &impl Abort, alloc: Global, front: &[u8]) -> Vec<u8> {
    match is_frame(alloc, front) {
        Ok(true) => bytes(rt, alloc, b"a frame"),
        Ok(false) => bytes(rt, alloc, b"none yet"),
        Err(fault) => text_bytes(rt, alloc, format_args!("{fault:?}")),
    }
}

fn payload(rt: &impl Abort, alloc: Global, count: usize) -> Vec<u8> {
    frame_text(rt, alloc, &stream(rt, alloc, b"\xE1\0\x04\0\0", count))
}

/// How this first byte is told: by itself, unless it is refused as foreign; by a bar where it is refused otherwise.
fn first_byte(alloc: Global, first: u8) -> Option<u8> {
    match is_frame(alloc, &[first]) {
        Ok(_) => Some(first),
        Err(RecordFault::Foreign) => None,
        Err(_) => Some(b'|'),
    }
}

/// The first bytes that aren't refused as foreign; a bar for one that is refused otherwise.
fn first_bytes(rt: &impl Abort, alloc: Global) -> Vec<u8> {
    let mut known = Vec::new(alloc);
    for first in 0..=255u8 {
        if let Some(byte) = first_byte(alloc, first) {
            add(rt, &mut known, &[byte]);
        }
    }
    known
}

/// A commit by which the session that was named has ended, and another was made, up to its attributes, of which there are 64.
static HEAD: &[u8] = b"\x02\x02\x02\0\0\0\0\0\0\0\0\x01\x01\0\0\0\0\0\0\0\0\x02\
\0\0\0\0\0\0\0\0\0\0\0\0\0\0\0\x01\0\0\0\0\0\0\0\x03\xE8\0\0\0\0\0\0\x03\xE8\0\0\x07\x08\x01\0\x40";

/// Adds an attribute with a name of one byte and a value of so many bytes.
fn add_attribute(rt: &impl Abort, alloc: Global, bytes: &mut Vec<u8>, name: u8, len: u16) {
    add(rt, bytes, &[0, 1, name, 0, 0]);
    add(rt, bytes, &len.to_be_bytes());
    add(rt, bytes, &repeated(rt, alloc, b'x', usize::from(len)));
}

/// That commit, whose last value has so many bytes. Names from `0` to `n` and values of 2,047 bytes are 63 times 2,048.
fn commit(rt: &impl Abort, alloc: Global, last: u16) -> Vec<u8> {
    let mut all = bytes(rt, alloc, HEAD);
    for name in b'0'..b'o' {
        add_attribute(rt, alloc, &mut all, name, 2_047);
    }
    add_attribute(rt, alloc, &mut all, b'o', last);
    all
}

/// Whether bytes are read as a record.
fn record_answer(alloc: Global, bytes: &[u8]) -> Result<(), RecordFault> {
    match read_record(alloc, bytes).err() {
        Some(fault) => Err(fault),
        None => Ok(()),
    }
}

fn commit_text(rt: &impl Abort, alloc: Global, last: u16) -> Vec<u8> {
    let bytes = commit(rt, alloc, last);
    let answer = record_answer(alloc, &bytes);
    text_bytes(rt, alloc, format_args!("{} {answer:?}", bytes.len()))
}

/// What comes of a case.
fn told(rt: &impl Abort, alloc: Global, case: Case) -> Vec<u8> {
    match case {
        Case::Record(bytes) => record_again(rt, alloc, bytes),
        Case::Acknowledgement => acknowledgement(rt, alloc),
        Case::Want => want(rt, alloc),
        Case::Payload(count) => payload(rt, alloc, count),
        Case::FirstBytes => first_bytes(rt, alloc),
        Case::Commit(last) => commit_text(rt, alloc, last),
        Case::Fault(fault) => text_bytes(rt, alloc, fault),
        Case::RefusedMemory => text_bytes(rt, alloc, RecordFault::from(AllocError)),
    }
}

#[test]
fn records_and_frames(rt: HostRuntime) {
    for (name, case, wanted) in &CASES {
        expect_bytes(&rt, name, &told(&rt, rt.alloc(), *case), wanted);
    }
}
