//! The calls of a disk, in memory and of a file, and what each answers.
use crate::disk::fixtures::{Files, disk_of, file_bytes, file_disk, remove, shown_calls};
use crate::fixtures::{bytes, expect_bytes, repeated, text_bytes};
use std::alloc::Global;
use std::process::Abort;
use sv_journal::{Device, Disk, FileDisk, MemoryDisk};

/// A call of a disk.
#[derive(Clone, Copy)]
enum Call {
    Write(u64, &'static [u8]),
    Cut(u64),
    Sync,
    Len,
    /// So many bytes from a place on.
    Read(u64, usize),
    Failures,
}

fn answer_text(rt: &impl Abort, alloc: Global, answer: Result<(), Device>) -> Vec<u8> {
    match answer {
        Ok(()) => bytes(rt, alloc, b"ok"),
        Err(Device) => bytes(rt, alloc, b"Device"),
    }
}

fn len_text(rt: &impl Abort, alloc: Global, len: Result<u64, Device>) -> Vec<u8> {
    match len {
        Ok(len) => text_bytes(rt, alloc, len),
        Err(Device) => bytes(rt, alloc, b"Device"),
    }
}

/// A disk that answers whatever the range of a call.
trait AnyRange: Disk {
    fn read_any(&mut self, at: u64, bytes: &mut [u8]) -> Result<(), Device>;

    fn write_any(&mut self, at: u64, bytes: &[u8]) -> Result<(), Device>;

    fn cut_any(&mut self, len: u64) -> Result<(), Device>;
}

impl AnyRange for MemoryDisk {
    fn read_any(&mut self, at: u64, bytes: &mut [u8]) -> Result<(), Device> {
        let len = self.bytes().len() as u64;
        if at > len || bytes.len() as u64 > len - at {
            return Err(Device);
        }
        self.read(at, bytes)
    }

    fn write_any(&mut self, at: u64, bytes: &[u8]) -> Result<(), Device> {
        if at > self.bytes().len() as u64 {
            return Err(Device);
        }
        self.write_at(at, bytes)
    }

    fn cut_any(&mut self, len: u64) -> Result<(), Device> {
        if len > self.bytes().len() as u64 {
            return Err(Device);
        }
        self.cut(len)
    }
}

impl AnyRange for FileDisk {
    fn read_any(&mut self, at: u64, bytes: &mut [u8]) -> Result<(), Device> {
        self.read(at, bytes)
    }

    fn write_any(&mut self, at: u64, bytes: &[u8]) -> Result<(), Device> {
        self.write_at(at, bytes)
    }

    fn cut_any(&mut self, len: u64) -> Result<(), Device> {
        self.cut(len)
    }
}

/// The bytes of a range, or that they can't be read.
fn range(rt: &impl Abort, alloc: Global, disk: &mut impl AnyRange, at: u64, len: usize) -> Vec<u8> {
    let mut read = repeated(rt, alloc, 0, len);
    match disk.read_any(at, &mut read) {
        Ok(()) => read,
        Err(Device) => bytes(rt, alloc, b"Device"),
    }
}

/// What a call answers.
fn told(rt: &impl Abort, alloc: Global, disk: &mut impl AnyRange, call: Call) -> Vec<u8> {
    match call {
        Call::Write(at, bytes) => answer_text(rt, alloc, disk.write_any(at, bytes)),
        Call::Cut(len) => answer_text(rt, alloc, disk.cut_any(len)),
        Call::Sync => answer_text(rt, alloc, disk.sync()),
        Call::Len => len_text(rt, alloc, disk.len()),
        Call::Read(at, len) => range(rt, alloc, disk, at, len),
        Call::Failures => len_text(rt, alloc, Ok(disk.failures())),
    }
}

fn expect_told(
    rt: &impl Abort,
    alloc: Global,
    disk: &mut impl AnyRange,
    what: &str,
    calls: &[(Call, &[u8])],
) {
    for (call, want) in calls {
        expect_bytes(rt, what, &told(rt, alloc, disk, *call), want);
    }
}

/// Calls that are made of a disk one after the other, and which of them fails; none with 0.
struct Calls {
    what: &'static str,
    fails: u64,
    calls: &'static [(Call, &'static [u8])],
}

/// A call that fails has no effect.
static FAILING: [Calls; 3] = [
    Calls {
        what: "a write that fails",
        fails: 2,
        calls: &[
            (Call::Write(1, b"XY"), b"ok"),
            (Call::Write(1, b"ZZ"), b"Device"),
            (Call::Len, b"3"),
            (Call::Read(0, 3), b"aXY"),
            (Call::Cut(1), b"ok"),
            (Call::Len, b"1"),
            (Call::Read(0, 1), b"a"),
            (Call::Sync, b"ok"),
        ],
    },
    Calls {
        what: "a sync that fails",
        fails: 1,
        calls: &[(Call::Sync, b"Device")],
    },
    Calls {
        what: "a length that fails",
        fails: 1,
        calls: &[(Call::Len, b"Device"), (Call::Failures, b"3")],
    },
];

/// The calls that a disk of three bytes has kept after these: only what changed the disk, or what a stop may leave of it.
const KEPT: &[u8] = b"W\x01XY|C\x01|S|";

/// A write covers and lengthens: within six bytes, and across their end.
static LENGTHENING: [(Call, &[u8]); 6] = [
    (Call::Write(2, b"XY"), b"ok"),
    (Call::Read(0, 6), b"abXYef"),
    (Call::Write(5, b"12"), b"ok"),
    (Call::Len, b"7"),
    (Call::Read(0, 7), b"abXYe12"),
    (Call::Read(3, 3), b"Ye1"),
];

/// A range outside four bytes fails, and they stay as they were.
static OUTSIDE: [(Call, &[u8]); 11] = [
    (Call::Write(0, b"abc"), b"ok"),
    (Call::Write(3, b"d"), b"ok"),
    (Call::Read(2, 2), b"cd"),
    (Call::Read(3, 2), b"Device"),
    (Call::Cut(5), b"Device"),
    (Call::Write(5, b"x"), b"Device"),
    (Call::Write(u64::MAX, b"x"), b"Device"),
    (Call::Failures, b"4"),
    (Call::Len, b"4"),
    (Call::Cut(1), b"ok"),
    (Call::Sync, b"ok"),
];

fn expect_calls(rt: &impl Abort, alloc: Global, disk: &mut MemoryDisk, calls: &Calls) {
    disk.fail_at(calls.fails);
    expect_told(rt, alloc, disk, calls.what, calls.calls);
}

fn expect_failing(rt: &impl Abort, alloc: Global) {
    let mut disk = disk_of(rt, alloc, b"abc", 0);
    for calls in &FAILING {
        expect_calls(rt, alloc, &mut disk, calls);
    }
    expect_bytes(rt, "the calls", &shown_calls(rt, alloc, disk.calls()), KEPT);
}

fn expect_lengthening(rt: &impl Abort, alloc: Global) {
    let mut disk = disk_of(rt, alloc, b"abcdef", 0);
    expect_told(rt, alloc, &mut disk, "a write", &LENGTHENING);
}

/// What file A holds, which is removed.
fn left_of(rt: &impl Abort, files: &Files) -> Vec<u8> {
    let bytes = file_bytes(rt, files.machine, &files.a);
    remove(rt, files.machine, &files.a);
    bytes
}

fn expect_outside(rt: &impl Abort, files: &Files) {
    let mut disk = file_disk(rt, files.machine, &files.a);
    expect_told(rt, files.alloc(), &mut disk, "a file", &OUTSIDE);
}

#[test]
fn calls_of_disks(rt: HostRuntime) {
    expect_failing(&rt, rt.alloc());
    expect_lengthening(&rt, rt.alloc());
}

#[test]
fn calls_of_a_file(rt: HostRuntime) {
    let files = Files::new(&rt, &rt, "calls");
    expect_outside(&rt, &files);
    expect_bytes(&rt, "what is left", &left_of(&rt, &files), b"a");
}
