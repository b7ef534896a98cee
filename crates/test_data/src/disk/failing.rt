//! Scripts of appends and compactions in which each call of either disk fails in turn.
use crate::disk::fixtures::{Held, added, compacted, disk_of, opened, records_of};
use crate::fixtures::bytes;
use std::alloc::Global;
use std::process::Abort;
use sv_journal::{JournalFault, MemoryDisk};

/// A step of the script.
#[derive(Clone, Copy)]
enum Step {
    Append(u8),
    /// So many entries of one byte, which is this one.
    Compact(u8, usize),
}

// Both disks are compacted twice: a new one, and one that holds an older journal.
static SCRIPT: [Step; 10] = [
    Step::Append(b'a'),
    Step::Append(b'b'),
    Step::Compact(b'c', 3),
    Step::Append(b'd'),
    Step::Compact(b'e', 1),
    Step::Append(b'f'),
    Step::Append(b'g'),
    Step::Compact(b'h', 0),
    Step::Append(b'i'),
    Step::Compact(b'j', 2),
];

// What is read after so many steps.
static FOUND: [&[u8]; 11] = [
    b"",
    b"a|",
    b"a|b|",
    b"c|c|c|",
    b"c|c|c|d|",
    b"e|",
    b"e|f|",
    b"e|f|g|",
    b"",
    b"i|",
    b"j|j|",
];

// The entries of a compaction.
fn alike(rt: &impl Abort, alloc: Global, byte: u8, count: usize) -> Vec<Vec<u8>> {
    let mut entries = Vec::new(alloc);
    for _ in 0..count {
        entries.push(bytes(rt, alloc, &[byte])).expect(rt, "memory");
    }
    entries
}

fn take_step(
    rt: &impl Abort,
    alloc: Global,
    journal: &mut Held<MemoryDisk>,
    step: Step,
) -> Result<(), JournalFault> {
    match step {
        Step::Append(byte) => added(journal, &[byte]),
        Step::Compact(byte, count) => compacted(journal, &alike(rt, alloc, byte, count)),
    }
}

/// How a script ended.
struct Ended {
    acknowledged: usize,
    fault: Option<JournalFault>,
    a: MemoryDisk,
    b: MemoryDisk,
}

/// By hand, so that the proof of a caller has one step for it.
impl Drop for Ended {
    fn drop(self) {
        let Ended {
            acknowledged: _,
            fault: _,
            a: _,
            b: _,
        } = self;
    }
}

// Takes the steps up to the first fault: how many were acknowledged, and the fault.
fn take_steps(
    rt: &impl Abort,
    alloc: Global,
    journal: &mut Held<MemoryDisk>,
    steps: &[Step],
) -> (usize, Option<JournalFault>) {
    let mut acknowledged: usize = 0;
    for next in steps {
        if let Err(fault) = take_step(rt, alloc, journal, *next) {
            return (acknowledged, Some(fault));
        }
        acknowledged = acknowledged.saturating_add(1);
    }
    (acknowledged, None)
}

// Takes the steps on a journal that is open.
fn script_on(rt: &impl Abort, alloc: Global, journal: Held<MemoryDisk>, steps: &[Step]) -> Ended {
    let mut journal = journal;
    let (acknowledged, fault) = take_steps(rt, alloc, &mut journal, steps);
    let (a, b) = journal.into_disks();
    Ended {
        acknowledged,
        fault,
        a,
        b,
    }
}

// Opens the disks and takes the steps.
fn script(rt: &impl Abort, alloc: Global, a: MemoryDisk, b: MemoryDisk, steps: &[Step]) -> Ended {
    match opened(alloc, a, b) {
        Ok(journal) => script_on(rt, alloc, journal, steps),
        Err(refused) => Ended {
            acknowledged: 0,
            fault: Some(refused.fault),
            a: refused.a,
            b: refused.b,
        },
    }
}

// Takes the steps on disks that hold these bytes, which grow slowly if they have room ahead. A call of each disk, by its number,
// fails; none with 0.
fn run(
    rt: &impl Abort,
    alloc: Global,
    disks: [&[u8]; 2],
    room: usize,
    fails: (u64, u64),
    steps: &[Step],
) -> Ended {
    let mut a = disk_of(rt, alloc, disks[0], fails.0);
    let mut b = disk_of(rt, alloc, disks[1], fails.1);
    a.grow_slowly(room);
    b.grow_slowly(room);
    script(rt, alloc, a, b, steps)
}

// The entries of these disks.
fn entries_of(rt: &impl Abort, alloc: Global, ended: &Ended) -> Vec<u8> {
    records_of(rt, alloc, ended.a.bytes(), ended.b.bytes()).expect(rt, "the disks open")
}

// These are the entries after so many steps, or after one more.
fn are_these(found: &[u8], acknowledged: usize) -> bool {
    let old = FOUND.get(acknowledged).copied().unwrap_or(b"");
    let new = FOUND
        .get(acknowledged.saturating_add(1))
        .copied()
        .unwrap_or(old);
    found == old || found == new
}

// The entries of these disks are those after so many steps, or after one more.
fn has_these(rt: &impl Abort, alloc: Global, ended: &Ended, acknowledged: usize) -> bool {
    are_these(&entries_of(rt, alloc, ended), acknowledged)
}

// The same entries with the k-th call of the first disk failing while the two are opened again, or a later one of the second.
fn opens_with_these(rt: &impl Abort, alloc: Global, ended: &Ended, k: u64) -> bool {
    let fails = if k < 12 {
        (k, 0)
    } else {
        (0, k.saturating_sub(11))
    };
    let again = run(rt, alloc, [ended.a.bytes(), ended.b.bytes()], 0, fails, &[]);
    let is_device = again.fault.is_none() || again.fault == Some(JournalFault::Device);
    is_device && has_these(rt, alloc, &again, ended.acknowledged)
}

// The same with each call of either disk failing in turn while the two are opened again.
fn opens_each_time(rt: &impl Abort, alloc: Global, ended: &Ended) -> bool {
    for k in 1..24u64 {
        if !opens_with_these(rt, alloc, ended, k) {
            return false;
        }
    }
    has_these(rt, alloc, ended, ended.acknowledged)
}

// What a script leaves of which a call has failed, or none. An opening makes the same calls whatever comes after the entries: with
// zeros there it is tried once, since they are long.
fn is_so(rt: &impl Abort, alloc: Global, ended: &Ended, room: usize) -> bool {
    match ended.fault {
        None => ended.acknowledged == 10 && has_these(rt, alloc, ended, 10),
        Some(JournalFault::Device) if room == 0 => opens_each_time(rt, alloc, ended),
        Some(JournalFault::Device) => has_these(rt, alloc, ended, ended.acknowledged),
        Some(_) => false,
    }
}

/// The disk of which calls fail, and how much room ahead each of the two has.
#[derive(Clone, Copy)]
struct Failing {
    is_on_a: bool,
    room: usize,
}

fn expect_so(rt: &impl Abort, alloc: Global, ended: &Ended, failing: Failing, k: u64) {
    let Failing { is_on_a, room } = failing;
    assert!(rt;
        is_so(rt, alloc, ended, room),
        "call {k} of disk A: {is_on_a}, room {room}"
    );
}

// Runs the script with the k-th call of one disk failing: whether it was through before that. All is so after it.
fn is_through(rt: &impl Abort, alloc: Global, failing: Failing, k: u64) -> bool {
    let fails = if failing.is_on_a { (k, 0) } else { (0, k) };
    let ended = run(rt, alloc, [b"", b""], failing.room, fails, &SCRIPT);
    expect_so(rt, alloc, &ended, failing, k);
    ended.fault.is_none()
}

// Runs the script with the k-th call of one disk failing, until none fails, and tells how many calls that were.
fn calls_of(rt: &impl Abort, alloc: Global, failing: Failing) -> u64 {
    for k in 1..200u64 {
        if is_through(rt, alloc, failing, k) {
            return k.saturating_sub(1);
        }
    }
    200
}

const A: Failing = Failing {
    is_on_a: true,
    room: 0,
};

const B: Failing = Failing {
    is_on_a: false,
    room: 0,
};

// For 15 times 64 KiB.
const AMPLE: usize = 1_000_000;

// Less than the first entry that is added wants: it is all used up for that one.
const SCANT: usize = 3;

// Disk A: 8 calls make the first journal, each append is 4, and each of two compactions the length, the gate and the
// 8 calls that change something. Disk B: a sync and a length, then the same, but its first compaction reads no gate.
// With room ahead, zeros are written and synced before the first append to each journal that was made or compacted: on each disk
// that is twice.
static CALLS: [(Failing, u64); 6] = [
    (A, 8 + 4 * 4 + 2 * 10),
    (B, 2 + 2 * 4 + 9 + 10),
    (Failing { room: AMPLE, ..A }, 8 + 4 * 4 + 2 * 10 + 2 * 2),
    (Failing { room: AMPLE, ..B }, 2 + 2 * 4 + 9 + 10 + 2 * 2),
    (Failing { room: SCANT, ..A }, 8 + 4 * 4 + 2 * 10 + 2),
    (Failing { room: SCANT, ..B }, 2 + 2 * 4 + 9 + 10 + 2),
];

fn expect_calls(rt: &impl Abort, alloc: Global, failing: Failing, calls: u64) {
    let found = calls_of(rt, alloc, failing);
    let Failing { is_on_a, room } = failing;
    assert!(rt;
        found == calls,
        "disk A: {is_on_a}, room {room}: {found} calls"
    );
}

#[test]
fn each_call_of_a_script_fails_in_turn(rt: HostRuntime) {
    for (failing, calls) in &CALLS {
        expect_calls(&rt, rt.alloc(), *failing, *calls);
    }
}
