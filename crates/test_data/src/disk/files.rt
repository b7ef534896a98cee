//! Real files.
use crate::disk::fixtures::{Files, added, file_disk, read, remove};
use crate::disk::stopped_files::{found_at_a_stop, found_in_cuts};
use crate::fixtures::{add, expect_bytes, text_bytes};
use std::process::{Abort, Command};
use std::{env, fs};
use sv_journal::{Disk, FileDisk, FileFault, IfMissing};

/// What is done to the files of a journal, which are gone before and after it.
#[derive(Clone, Copy)]
enum Case {
    /// Two compactions, with entries between.
    Turns,
    /// A file is opened twice.
    Locked,
    /// Entries are added at the limit, and a byte past it.
    Limit,
    /// A file is cut behind the journal's back.
    Meanwhile,
    /// A file that isn't there is opened, without making it and then making it.
    Missing,
    /// A device that has no room is made longer.
    NoRoom,
    /// Files that hold the front of this are opened, from 24 bytes on.
    Cut(&'static [u8]),
    /// A compaction to `new` was stopped, and left this on B.
    Stopped(&'static [u8]),
}

/// The entries `one` and `two`, the second of which begins at byte 24.
const TWO: &[u8] = b"\xA5SVJRNL\x01\0\0\0\0\0\0\0\x01\xA5\0\0\0\x03one\xA5\0\0\0\x03two\0";

/// The same before the second gate was opened.
const ONE: &[u8] = b"\xA5SVJRNL\x01\0\0\0\0\0\0\0\x01\xA5\0\0\0\x03one\0\0\0\0\x03two\0";

/// What comes of each. After a compaction that was stopped, what is left of B is compacted over once more, and grows from there.
static CASES: [(&str, Case, &[u8]); 13] = [
    // To B, and back to A, which held the first journal. A compaction's file ends with its closing gate. B keeps what it held: 65,536
    // zeros were laid out after the 25 bytes of its compaction, and 8 of them were written over.
    (
        "files are compacted in turn",
        Case::Turns,
        b"two|four|five|\
\xA5SVJRNL\x01\0\0\0\0\0\0\0\x03\xA5\0\0\0\x04five+1|\
\xA5SVJRNL\x01\0\0\0\0\0\0\0\x02\xA5\0\0\0\x03two\xA5\0\0\0\x04four+65528",
    ),
    // Also within a process; it may be opened again once that one is let go.
    (
        "a file is one disk at a time",
        Case::Locked,
        b"Some(Locked) None",
    ),
    // A file may have 1,073,741,824 bytes, what stands after the closing gate among them. One of a byte more is opened and read.
    (
        "a file past the limit takes no entry",
        Case::Limit,
        b"Ok(()) Err(Full) one|two|",
    ),
    // No entry is made up.
    (
        "a file that is cut meanwhile is refused",
        Case::Meanwhile,
        b"Some(Device)",
    ),
    (
        "a file that isn't there is made only for who wants it made",
        Case::Missing,
        b"Some(Missing) false None true",
    ),
    // /dev/full refuses each write for want of room, and has no length.
    (
        "a file that has no room ahead is as long as before",
        Case::NoRoom,
        b"Ok(0) Ok(0) 0 failures",
    ),
    (
        "a file that ends at the place of a gate, or inside an entry whose gate is open, is no journal",
        Case::Cut(TWO),
        b"none none none none none none none none none one|two| ",
    ),
    (
        "what is cut off behind a closed gate is not missed",
        Case::Cut(ONE),
        b"none one| one| one| one| one| one| one| one| one| ",
    ),
    (
        "a compaction is stopped before its first sync",
        Case::Stopped(b"\xA5SVJRNL\x01\0\0\0\0\0\0\0\x01\xA5\0\0\0\x03one\0"),
        b"two|first|last|",
    ),
    (
        "a compaction is stopped once the gate is closed",
        Case::Stopped(b"\0SVJRNL\x01\0\0\0\0\0\0\0\x01\xA5\0\0\0\x03one\0"),
        b"two|first|last|",
    ),
    (
        "a compaction is stopped once the rest is cut",
        Case::Stopped(b"\0"),
        b"two|first|last|",
    ),
    (
        "a compaction is stopped once its entry is written",
        Case::Stopped(b"\0SVJRNL\x01\0\0\0\0\0\0\0\x03\xA5\0\0\0\x03new\0"),
        b"two|first|last|",
    ),
    (
        "a compaction is stopped once the gate is open",
        Case::Stopped(b"\xA5SVJRNL\x01\0\0\0\0\0\0\0\x03\xA5\0\0\0\x03new\0"),
        b"new|first|last|",
    ),
];

fn told(rt: &impl Abort, files: &Files, case: Case) -> Vec<u8> {
    match case {
        Case::Turns => compacted_in_turn(rt, files),
        Case::Locked => opened_twice(rt, files),
        Case::Limit => filled(rt, files),
        Case::Meanwhile => cut_meanwhile(rt, files),
        Case::Missing => made_where_wanted(rt, files),
        Case::NoRoom => extended_without_room(rt, files),
        Case::Cut(whole) => found_in_cuts(rt, files, whole),
        Case::Stopped(b) => found_at_a_stop(rt, files, b),
    }
}

#[test]
fn files_of_journals(rt: HostRuntime) {
    let files = Files::new(&rt, &rt, "files");
    for (name, case, wanted) in &CASES {
        expect_bytes(&rt, name, &told(&rt, &files, *case), wanted);
    }
}

/// Paths at which no file can be made: no folder for it, a folder, or an empty name.
static NO_FILES: [&str; 4] = ["/nowhere/at/all", ".", "/", ""];

#[test]
fn paths_that_are_no_file_are_refused(rt: HostRuntime) {
    for bad in &NO_FILES {
        assert!(rt; fault_of(&rt, bad) == Some(FileFault::Refused), "{bad}");
    }
}

fn compacted_and_grown(rt: &impl Abort, files: &Files) -> Vec<u8> {
    files.add(rt, b"one");
    files.compact(rt, b"two");
    files.add(rt, b"four");
    files.found(rt)
}

// The entries after each of two compactions, and what is left of the files.
fn compacted_in_turn(rt: &impl Abort, files: &Files) -> Vec<u8> {
    let mut found = compacted_and_grown(rt, files);
    files.compact(rt, b"five");
    add(rt, &mut found, &files.found(rt));
    add(rt, &mut found, &files.left(rt));
    found
}

// The fault with which a path is opened.
fn fault_of(machine: &HostRuntime, path: &str) -> Option<FileFault> {
    FileDisk::open(machine, path, IfMissing::Make).err()
}

// What comes of a file that isn't there, and whether it is there then: where it isn't to be made, and where it is.
fn made_where_wanted(rt: &impl Abort, files: &Files) -> Vec<u8> {
    let refused = FileDisk::open(files.machine, &files.a, IfMissing::Refuse).err();
    let before = fs::exists(files.machine, &files.a).expect(rt, "a folder that is read");
    let made = fault_of(files.machine, &files.a);
    let after = fs::exists(files.machine, &files.a).expect(rt, "a folder that is read");
    remove(rt, files.machine, &files.a);
    text_bytes(
        rt,
        files.alloc(),
        format_args!("{refused:?} {before} {made:?} {after}"),
    )
}

// What a device answers that has no room for a byte, and how many of its calls have failed.
fn extended_without_room(rt: &impl Abort, files: &Files) -> Vec<u8> {
    let mut disk = file_disk(rt, files.machine, "/dev/full");
    let longer = disk.extend(0, b"zeros");
    let len = disk.len();
    let failures = disk.failures();
    text_bytes(
        rt,
        files.alloc(),
        format_args!("{longer:?} {len:?} {failures} failures"),
    )
}

// What a second opening of a file answers while the first one has it, and once that has let it go.
fn opened_twice(rt: &impl Abort, files: &Files) -> Vec<u8> {
    let disk = file_disk(rt, files.machine, &files.a);
    let beside = fault_of(files.machine, &files.a);
    drop(disk);
    let after = fault_of(files.machine, &files.a);
    remove(rt, files.machine, &files.a);
    text_bytes(rt, files.alloc(), format_args!("{beside:?} {after:?}"))
}

// Makes file A this long, with nothing after what it holds, or cuts it; that takes no room on the disk.
fn lengthen(rt: &impl Abort, files: &Files, len: u64) {
    let file = fs::OpenOptions::new()
        .write(true)
        .open(files.machine, &files.a);
    file.expect(rt, "a file that is written")
        .set_len(len)
        .expect(rt, "a length that it may have");
}

// Adds what is answered to an entry that is added where file A is this long.
fn add_answer_at(rt: &impl Abort, files: &Files, answers: &mut Vec<u8>, len: u64) {
    lengthen(rt, files, len);
    let answer = added(&mut files.open(rt), b"two");
    add(
        rt,
        answers,
        &text_bytes(rt, files.alloc(), format_args!("{answer:?} ")),
    );
}

// What is answered to an entry that is added at the limit, and to one a byte past it; and the entries after that.
fn filled(rt: &impl Abort, files: &Files) -> Vec<u8> {
    files.add(rt, b"one");
    let mut told = Vec::new(files.alloc());
    add_answer_at(rt, files, &mut told, 1_073_741_824);
    add_answer_at(rt, files, &mut told, 1_073_741_825);
    add(rt, &mut told, &files.found(rt));
    files.remove(rt);
    told
}

// The fault of a read after which the file was cut.
fn fault_behind_a_cut(rt: &impl Abort, files: &Files) -> Vec<u8> {
    let mut journal = files.open(rt);
    lengthen(rt, files, 20);
    let fault = read(&mut journal).err();
    text_bytes(rt, files.alloc(), format_args!("{fault:?}"))
}

fn cut_meanwhile(rt: &impl Abort, files: &Files) -> Vec<u8> {
    files.add(rt, b"one");
    let fault = fault_behind_a_cut(rt, files);
    files.remove(rt);
    fault
}

const FILE: &str = "SV_JOURNAL_TEST_FILE";

// What the second process does, and what it found.
fn goes_on(rt: &impl Abort, machine: &HostRuntime, path: &str) -> Vec<u8> {
    let files = Files::at(rt, machine, path);
    let found = files.found(rt);
    files.add(rt, b"two");
    found
}

// This program, and the name of this test.
fn own_words(rt: &impl Abort, machine: &HostRuntime) -> (String, String) {
    let mut words = env::args(machine).expect(rt, "the words of this process");
    let program = words.next().expect(rt, "a program");
    let name = words.next().expect(rt, "the name of a test");
    (program, name)
}

fn prepare(rt: &impl Abort, command: &mut Command, name: &str, path: &str) {
    command.arg(name).expect(rt, "memory");
    command.env(FILE, path).expect(rt, "memory");
}

// A run of this test, with the path of a file.
fn own_run(rt: &impl Abort, machine: &HostRuntime, path: &str) -> Command {
    let (program, name) = own_words(rt, machine);
    let mut command = Command::new(machine.alloc(), &program).expect(rt, "memory");
    prepare(rt, &mut command, &name, path);
    command
}

// Starts a process, and waits until it ends.
fn has_succeeded(rt: &impl Abort, machine: &HostRuntime, command: &mut Command) -> bool {
    let status = command.status(machine);
    status.expect(rt, "a process that starts").success()
}

fn has_run_again(rt: &impl Abort, machine: &HostRuntime, path: &str) -> bool {
    has_succeeded(rt, machine, &mut own_run(rt, machine, path))
}

// Starts this test once more, and waits until that process ends.
fn start_again(rt: &impl Abort, machine: &HostRuntime, path: &str) {
    assert!(rt;
        has_run_again(rt, machine, path),
        "the second process has failed"
    );
}

// What one of the two processes finds, the first one after the second, and what is left of the files then.
fn found_by_one(rt: &impl Abort, machine: &HostRuntime) -> (Vec<u8>, &'static [u8]) {
    match env::var(machine, FILE) {
        Ok(path) => (goes_on(rt, machine, &path), b"one|"),
        Err(_) => (both(rt, machine), BOTH),
    }
}

// Two entries, file A with them, and an empty file B.
// Zeros were laid out after the 17 bytes of a first journal: 65,553 bytes, of which 32 are written over.
const BOTH: &[u8] =
    b"one|two|\xA5SVJRNL\x01\0\0\0\0\0\0\0\x01\xA5\0\0\0\x03one\xA5\0\0\0\x03two+65521|+0";

// The test starts itself a second time, and that process opens the file too.
#[test]
fn another_process_opens_the_file(rt: HostRuntime) {
    let (found, wanted) = found_by_one(&rt, &rt);
    expect_bytes(&rt, "the entries", &found, wanted);
}

// The entries after the second process, and what the files hold then.
fn both(rt: &impl Abort, machine: &HostRuntime) -> Vec<u8> {
    let files = Files::new(rt, machine, "process");
    files.add(rt, b"one");
    start_again(rt, machine, &files.a);
    let mut found = files.found(rt);
    add(rt, &mut found, &files.left(rt));
    found
}
