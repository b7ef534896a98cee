//! What journals write and read, call by call.
use crate::disk::fixtures::{Held, opened_on};
use crate::disk::stage::{Act, Row, Story, take};
use crate::fixtures::expect_bytes;
use std::alloc::Global;
use std::process::Abort;
use sv_journal::MemoryDisk;

/// The header of a journal of generation 1, and a closed gate.
pub const EMPTY: &[u8] = b"\xA5SVJRNL\x01\0\0\0\0\0\0\0\x01\0";

/// The same with an entry.
const AB: &[u8] = b"\xA5SVJRNL\x01\0\0\0\0\0\0\0\x01\xA5\0\0\0\x02ab\0";

// The worked example: what a node writes at its first start and after its first answer, 10 and 65 bytes.
const BOOT: &[u8] = b"\x02\x01\0\0\0\0\0\0\0\x01";

const COMMIT: &[u8] =
    b"\x02\x02\0\x01\0\0\0\0\0\0\0\0\x01\0\0\0\0\0\0\0\0\0\0\0\0\0\0\0\x01\0\0\0\0\0\0\0\x03\xE8\0\0\0\0\0\0\x03\xE8\0\0\x07\x08\x01\0\x01\0\x05count\0\0\0\x011";

// And what a compaction keeps of it: the node's counters, and one session, 18 and 72 bytes.
const COUNTERS: &[u8] = b"\x02\x08\0\0\0\0\0\0\0\x01\0\0\0\0\0\0\0\x02";

const STATE: &[u8] =
    b"\x02\x07\0\0\0\0\0\0\0\0\x01\x01\0\0\0\0\0\0\0\x01\0\0\0\0\0\0\0\0\0\0\0\0\0\0\0\x01\0\0\0\0\0\0\0\x03\xE8\0\0\0\0\0\0\x03\xE8\0\0\x07\x08\x01\0\x01\0\x05count\0\0\0\x011";

// Disk A with the first two: 16 bytes of header, 5 beside each entry, and a closed gate are 102.
const OLD: &[u8] = b"\xA5SVJRNL\x01\0\0\0\0\0\0\0\x01\
\xA5\0\0\0\x0A\x02\x01\0\0\0\0\0\0\0\x01\
\xA5\0\0\0\x41\x02\x02\0\x01\0\0\0\0\0\0\0\0\x01\0\0\0\0\0\0\0\0\0\0\0\0\0\0\0\x01\0\0\0\0\0\0\0\x03\xE8\0\0\0\0\0\0\x03\xE8\0\0\x07\x08\x01\0\x01\0\x05count\0\0\0\x011\0";

// Disk B then: a gate, the letters, the format's number and generation 2; two entries; a closed gate.
const COMPACTED: &[u8] = b"\xA5SVJRNL\x01\0\0\0\0\0\0\0\x02\
\xA5\0\0\0\x12\x02\x08\0\0\0\0\0\0\0\x01\0\0\0\0\0\0\0\x02\
\xA5\0\0\0\x48\x02\x07\0\0\0\0\0\0\0\0\x01\x01\0\0\0\0\0\0\0\x01\0\0\0\0\0\0\0\0\0\0\0\0\0\0\0\x01\0\0\0\0\0\0\0\x03\xE8\0\0\0\0\0\0\x03\xE8\0\0\x07\x08\x01\0\x01\0\x05count\0\0\0\x011\0";

// The greatest generation there is, and the one before it.
const LAST: &[u8] = b"\xA5SVJRNL\x01\xFF\xFF\xFF\xFF\xFF\xFF\xFF\xFF\xA5\0\0\0\x01x\0";

const BEFORE: &[u8] = b"\xA5SVJRNL\x01\xFF\xFF\xFF\xFF\xFF\xFF\xFF\xFE\0";

const THREE: &[&[u8]] = &[b"x", b"", b"yz"];

/// The worked example: an empty journal.
const NEW: [Row; 4] = [
    (Act::Entries, b""),
    (Act::Len, b"17"),
    (Act::A, EMPTY),
    (Act::B, b""),
];

/// And one with the first record that a node writes.
const FIRST_RECORD: [Row; 5] = [
    (Act::Append(BOOT), b"ok"),
    (Act::Entries, b"\x02\x01\0\0\0\0\0\0\0\x01|"),
    (Act::Len, b"32"),
    (
        Act::A,
        b"\xA5SVJRNL\x01\0\0\0\0\0\0\0\x01\xA5\0\0\0\x0A\x02\x01\0\0\0\0\0\0\0\x01\0",
    ),
    (Act::B, b""),
];

/// The calls of an append, after the sync of its opening: what is after the gate, a sync, the gate, a sync.
const APPEND: [Row; 2] = [
    (Act::Append(b"x"), b"ok"),
    (Act::CallsA, b"S|W\x11\0\0\0\x01x\0|S|W\x10\xA5|S|"),
];

const BESIDE_AN_APPEND: [Row; 2] = [(Act::Append(b"x"), b"ok"), (Act::CallsB, b"S|")];

/// The calls of three entries that are added together, after the sync of the opening: all of them after the gate, a
/// sync, the gate, a sync.
const TOGETHER: [Row; 3] = [
    (Act::Together(THREE), b"ok"),
    (
        Act::CallsA,
        b"S|W\x18\0\0\0\x01x\xA5\0\0\0\0\xA5\0\0\0\x02yz\0|S|W\x17\xA5|S|",
    ),
    (Act::Entries, b"ab|x||yz|"),
];

/// The opening takes five calls of A.
const FIFTH: [Row; 3] = [
    (Act::OpenFailing(5), b"Device"),
    (Act::OpenFailing(6), b"ok"),
    (Act::Entries, b"ab|"),
];

/// Where a call of theirs fails: Device, then Failed, and what is read again is none of the new entries or all.
const NONE_LEFT: [Row; 4] = [
    (Act::Together(THREE), b"Device"),
    (Act::Together(THREE), b"Failed"),
    (Act::Reopen, b""),
    (Act::Entries, b"ab|"),
];

const ALL_LEFT: [Row; 4] = [
    (Act::Together(THREE), b"Device"),
    (Act::Together(THREE), b"Failed"),
    (Act::Reopen, b""),
    (Act::Entries, b"ab|x||yz|"),
];

const THROUGH: [Row; 1] = [(Act::Together(THREE), b"ok")];

/// No entries are no call, and those that follow stand where they would have stood.
const NONE_TOGETHER: [Row; 4] = [
    (Act::Together(&[]), b"ok"),
    (Act::Append(b"x"), b"ok"),
    (Act::CallsA, b"S|W\x18\0\0\0\x01x\0|S|W\x17\xA5|S|"),
    (Act::Entries, b"ab|x|"),
];

/// Disk A stays as it was.
const COMPACTION: [Row; 6] = [
    (Act::Append(BOOT), b"ok"),
    (Act::Append(COMMIT), b"ok"),
    (Act::Len, b"102"),
    (Act::Compact(&[COUNTERS, STATE]), b"ok"),
    (Act::A, OLD),
    (Act::B, COMPACTED),
];

/// A second compaction makes A current, and B keeps what it held.
const GENERATIONS: [Row; 14] = [
    (Act::Append(b"one"), b"ok"),
    (Act::Append(b"two"), b"ok"),
    (Act::Compact(&[b"c", b"st"]), b"ok"),
    (Act::Reopen, b""),
    // 16 + 6 + 7 + 1
    (Act::Len, b"30"),
    (Act::Entries, b"c|st|"),
    (Act::Append(b"one"), b"ok"),
    (Act::Len, b"38"),
    (Act::Entries, b"c|st|one|"),
    (Act::Compact(&[b"st"]), b"ok"),
    (
        Act::A,
        b"\xA5SVJRNL\x01\0\0\0\0\0\0\0\x03\xA5\0\0\0\x02st\0",
    ),
    (
        Act::B,
        b"\xA5SVJRNL\x01\0\0\0\0\0\0\0\x02\xA5\0\0\0\x01c\xA5\0\0\0\x02st\xA5\0\0\0\x03one\0",
    ),
    // 16 + 7 + 1
    (Act::Len, b"24"),
    (Act::Entries, b"st|"),
];

const CLOSED: [Row; 6] = [
    (Act::Append(b"one"), b"ok"),
    (Act::Append(b"two"), b"ok"),
    (Act::Compact(&[b"c", b"st"]), b"ok"),
    (Act::CloseB, b""),
    // 16 + 8 + 8 + 1
    (Act::Len, b"33"),
    (Act::Entries, b"one|two|"),
];

/// The calls of a compaction over an older journal, after the sync of its opening: the gate is closed, the rest is cut
/// away, and what is written after the closed gate is synced before the gate is opened.
const OVER_AN_OLDER: [Row; 5] = [
    (Act::Append(b"one"), b"ok"),
    (Act::Compact(&[b"c", b"st"]), b"ok"),
    (Act::Reopen, b""),
    (Act::Compact(&[]), b"ok"),
    (
        Act::CallsA,
        b"S|W\0\0|S|C\x01|S|W\x01SVJRNL\x01\0\0\0\0\0\0\0\x03\0|S|W\0\xA5|S|",
    ),
];

const LAST_GENERATION: [Row; 4] = [
    (Act::Compact(&[]), b"Full"),
    (Act::Append(b"y"), b"ok"),
    (Act::Len, b"29"),
    (Act::Entries, b"x|y|"),
];

const BEFORE_THE_LAST: [Row; 2] = [(Act::Compact(&[]), b"ok"), (Act::Compact(&[]), b"Full")];

/// After Device all calls but two answer Failed, until the disks are opened again. Opening a new journal takes eight calls
/// of A, and the ninth is the read of its entries, which leaves it usable. Opening it again takes a sync, the length and
/// three reads, and the sixth call is the append's first write.
const DEVICE: [Row; 11] = [
    (Act::Entries, b"Device"),
    (Act::Append(b"x"), b"ok"),
    (Act::ReopenFailing(6), b""),
    (Act::Append(b"y"), b"Device"),
    (Act::IsLive, b"no"),
    (Act::Append(b"y"), b"Failed"),
    (Act::Entries, b"Failed"),
    (Act::Len, b"23"),
    (Act::A, b"\xA5SVJRNL\x01\0\0\0\0\0\0\0\x01\xA5\0\0\0\x01x\0"),
    (Act::B, b""),
    (Act::Entries, b"x|"),
];

/// After Device in a compaction all calls but two answer Failed, and the disks come back in their order. Opening takes a
/// sync, the length and two reads, and the fifth call is the compaction's first.
const DEVICE_IN_A_COMPACTION: [Row; 11] = [
    (Act::Compact(&[]), b"ok"),
    (Act::Append(b"z"), b"ok"),
    (Act::ReopenFailing(5), b""),
    (Act::Compact(&[]), b"Device"),
    (Act::Compact(&[]), b"Failed"),
    (Act::IsLive, b"no"),
    (Act::Append(b"y"), b"Failed"),
    (Act::Entries, b"Failed"),
    (Act::A, EMPTY),
    (Act::B, b"\xA5SVJRNL\x01\0\0\0\0\0\0\0\x02\xA5\0\0\0\x01z\0"),
    (Act::Entries, b"z|"),
];

/// New journals, and entries that are added.
static ADDING: [Story; 6] = [
    Story {
        name: "a new journal is the header and a closed gate",
        a: b"",
        b: b"",
        fails: 0,
        rows: &NEW,
    },
    Story {
        name: "an entry is a gate, a length and the payload",
        a: b"",
        b: b"",
        fails: 0,
        rows: &FIRST_RECORD,
    },
    Story {
        name: "an append is two writes and two syncs",
        a: EMPTY,
        b: b"",
        fails: 0,
        rows: &APPEND,
    },
    Story {
        name: "disk B is synced as it is opened, and no more",
        a: EMPTY,
        b: b"",
        fails: 0,
        rows: &BESIDE_AN_APPEND,
    },
    Story {
        name: "three together are two writes and two syncs",
        a: AB,
        b: b"",
        fails: 0,
        rows: &TOGETHER,
    },
    Story {
        name: "none together are no call",
        a: AB,
        b: b"",
        fails: 0,
        rows: &NONE_TOGETHER,
    },
];

/// Compactions, and which of two disks is read.
static COMPACTING: [Story; 6] = [
    Story {
        name: "a compaction writes the other disk",
        a: b"",
        b: b"",
        fails: 0,
        rows: &COMPACTION,
    },
    Story {
        name: "the greater generation is read",
        a: b"",
        b: b"",
        fails: 0,
        rows: &GENERATIONS,
    },
    Story {
        name: "a closed disk is not read",
        a: b"",
        b: b"",
        fails: 0,
        rows: &CLOSED,
    },
    Story {
        name: "a compaction is four changes and four syncs",
        a: b"",
        b: b"",
        fails: 0,
        rows: &OVER_AN_OLDER,
    },
    Story {
        name: "the last generation is full",
        a: BEFORE,
        b: LAST,
        fails: 0,
        rows: &LAST_GENERATION,
    },
    Story {
        name: "the generation before the last is not full",
        a: BEFORE,
        b: b"",
        fails: 0,
        rows: &BEFORE_THE_LAST,
    },
];

/// Calls of the first disk that fail.
static FAILING: [Story; 8] = [
    Story {
        name: "five calls of A open a journal",
        a: AB,
        b: b"",
        fails: 0,
        rows: &FIFTH,
    },
    Story {
        name: "the first call of three together fails",
        a: AB,
        b: b"",
        fails: 6,
        rows: &NONE_LEFT,
    },
    Story {
        name: "the second call of three together fails",
        a: AB,
        b: b"",
        fails: 7,
        rows: &NONE_LEFT,
    },
    Story {
        name: "the third call of three together fails",
        a: AB,
        b: b"",
        fails: 8,
        rows: &NONE_LEFT,
    },
    Story {
        name: "the last call of three together fails",
        a: AB,
        b: b"",
        fails: 9,
        rows: &ALL_LEFT,
    },
    Story {
        name: "three together are four calls",
        a: AB,
        b: b"",
        fails: 10,
        rows: &THROUGH,
    },
    Story {
        name: "a journal that met Device answers Failed",
        a: b"",
        b: b"",
        fails: 9,
        rows: &DEVICE,
    },
    Story {
        name: "a compaction that met Device answers Failed",
        a: b"",
        b: b"",
        fails: 0,
        rows: &DEVICE_IN_A_COMPACTION,
    },
];

/// The journal after an act of which comes what should.
fn expect_row(
    rt: &impl Abort,
    alloc: Global,
    name: &str,
    place: usize,
    journal: Held<MemoryDisk>,
    row: &Row,
) -> Held<MemoryDisk> {
    let (act, want) = row;
    let (behind, told) = take(rt, alloc, journal, *act);
    expect_bytes(rt, format_args!("{name}, act {place}"), &told, want);
    behind
}

/// The acts of a story are done in order, each with what comes of it.
fn expect_rows(rt: &impl Abort, alloc: Global, story: &Story) {
    let mut journal = opened_on(rt, alloc, story.a, story.b, story.fails);
    for (place, row) in story.rows.iter().enumerate() {
        journal = expect_row(rt, alloc, story.name, place, journal, row);
    }
}

fn expect_stories(rt: &impl Abort, alloc: Global, stories: &[Story]) {
    for story in stories {
        expect_rows(rt, alloc, story);
    }
}

#[test]
fn entries_are_added(rt: HostRuntime) {
    expect_stories(&rt, rt.alloc(), &ADDING);
}

#[test]
fn journals_are_compacted(rt: HostRuntime) {
    expect_stories(&rt, rt.alloc(), &COMPACTING);
}

#[test]
fn calls_that_fail(rt: HostRuntime) {
    expect_stories(&rt, rt.alloc(), &FAILING);
}
