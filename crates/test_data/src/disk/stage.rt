//! A journal on two disks in memory, what is done to it, and what comes of that.
use crate::disk::fixtures::{
    Held, added, added_together, compacted, disk_of, listed, opened, opened_on, records_of,
    shown_calls, shown_of, with_byte,
};
use crate::fixtures::{bytes, text_bytes};
use std::alloc::Global;
use std::process::Abort;
use sv_journal::{JournalFault, MemoryDisk};

/// What is done to a journal, or looked at.
#[derive(Clone, Copy)]
pub enum Act {
    Append(&'static [u8]),
    /// Entries are added together.
    Together(&'static [&'static [u8]]),
    /// These entries take the place of all others.
    Compact(&'static [&'static [u8]]),
    /// What is read, each entry with a bar after it.
    Entries,
    /// How many bytes the journal has.
    Len,
    /// Whether it takes entries.
    IsLive,
    /// What a disk holds. After this look, and each of the next ones, the same bytes are opened again.
    A,
    B,
    /// The calls of a disk since it was opened, each with a bar after it.
    CallsA,
    CallsB,
    /// What is answered where the call of this number of disk A fails as they are opened.
    OpenFailing(u64),
    /// From there the call of this number of disk A fails.
    ReopenFailing(u64),
    Reopen,
    /// The gate of disk B is closed.
    CloseB,
}

/// What is done, and what comes of it.
pub type Row = (Act, &'static [u8]);

/// A journal on disks that hold these bytes. The call of disk A that has the number fails; none with 0.
pub struct Story {
    pub name: &'static str,
    pub a: &'static [u8],
    pub b: &'static [u8],
    pub fails: u64,
    pub rows: &'static [Row],
}

fn answer_text(answer: Result<(), JournalFault>) -> &'static [u8] {
    match answer {
        Ok(()) => b"ok",
        Err(JournalFault::Failed) => b"Failed",
        Err(JournalFault::Damaged) => b"Damaged",
        Err(JournalFault::Full) => b"Full",
        Err(JournalFault::Device) => b"Device",
        Err(JournalFault::Memory) => b"Memory",
    }
}

/// What a call answers.
fn called(
    rt: &impl Abort,
    alloc: Global,
    journal: &mut Held<MemoryDisk>,
    act: Act,
) -> &'static [u8] {
    answer_text(match act {
        Act::Append(payload) => added(journal, payload),
        Act::Together(payloads) => added_together(rt, alloc, journal, payloads),
        Act::Compact(entries) => compacted(journal, &listed(rt, alloc, entries)),
        _ => Ok(()),
    })
}

/// The entries that were read, or why there are none.
fn read_text(rt: &impl Abort, alloc: Global, found: Result<Vec<u8>, JournalFault>) -> Vec<u8> {
    match found {
        Ok(entries) => entries,
        Err(fault) => bytes(rt, alloc, answer_text(Err(fault))),
    }
}

/// What is read where these bytes are opened, or why nothing is.
pub fn found_text(rt: &impl Abort, alloc: Global, a: &[u8], b: &[u8]) -> Vec<u8> {
    read_text(rt, alloc, records_of(rt, alloc, a, b))
}

fn live_text(journal: &Held<MemoryDisk>) -> &'static [u8] {
    if journal.is_live() { b"yes" } else { b"no" }
}

/// What comes of an act that needs the journal alone.
fn told(rt: &impl Abort, alloc: Global, journal: &mut Held<MemoryDisk>, act: Act) -> Vec<u8> {
    match act {
        Act::Entries => read_text(rt, alloc, shown_of(rt, alloc, journal)),
        Act::Len => text_bytes(rt, alloc, journal.len()),
        Act::IsLive => bytes(rt, alloc, live_text(journal)),
        _ => bytes(rt, alloc, called(rt, alloc, journal, act)),
    }
}

/// What is answered where the call of this number of disk A fails as these bytes are opened.
fn answer_of(rt: &impl Abort, alloc: Global, a: &[u8], b: &[u8], k: u64) -> &'static [u8] {
    match opened(alloc, disk_of(rt, alloc, a, k), disk_of(rt, alloc, b, 0)) {
        Ok(_) => b"ok",
        Err(refused) => answer_text(Err(refused.fault)),
    }
}

/// What is seen of the disks.
fn seen(rt: &impl Abort, alloc: Global, a: &MemoryDisk, b: &MemoryDisk, act: Act) -> Vec<u8> {
    match act {
        Act::A => bytes(rt, alloc, a.bytes()),
        Act::B => bytes(rt, alloc, b.bytes()),
        Act::CallsA => shown_calls(rt, alloc, a.calls()),
        Act::CallsB => shown_calls(rt, alloc, b.calls()),
        Act::OpenFailing(k) => bytes(rt, alloc, answer_of(rt, alloc, a.bytes(), b.bytes(), k)),
        _ => Vec::new(alloc),
    }
}

/// A journal on the bytes of these disks.
fn reopened(rt: &impl Abort, alloc: Global, a: &[u8], b: &[u8], act: Act) -> Held<MemoryDisk> {
    match act {
        Act::ReopenFailing(k) => opened_on(rt, alloc, a, b, k),
        Act::CloseB => opened_on(rt, alloc, a, &with_byte(rt, alloc, b, 0, 0), 0),
        _ => opened_on(rt, alloc, a, b, 0),
    }
}

/// A look at the disks, or another way to open them.
fn looked(
    rt: &impl Abort,
    alloc: Global,
    journal: Held<MemoryDisk>,
    act: Act,
) -> (Held<MemoryDisk>, Vec<u8>) {
    let (a, b) = journal.into_disks();
    let journal = reopened(rt, alloc, a.bytes(), b.bytes(), act);
    (journal, seen(rt, alloc, &a, &b, act))
}

fn is_look(act: Act) -> bool {
    match act {
        Act::A | Act::B | Act::CallsA | Act::CallsB => true,
        Act::Reopen | Act::OpenFailing(_) | Act::ReopenFailing(_) | Act::CloseB => true,
        _ => false,
    }
}

/// The journal after an act, and what came of it.
pub fn take(
    rt: &impl Abort,
    alloc: Global,
    journal: Held<MemoryDisk>,
    act: Act,
) -> (Held<MemoryDisk>, Vec<u8>) {
    if is_look(act) {
        return looked(rt, alloc, journal, act);
    }
    let mut journal = journal;
    let told = told(rt, alloc, &mut journal, act);
    (journal, told)
}
