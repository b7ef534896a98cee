//! A disk in memory, and a journal on two of them. A growth that is refused to the disk itself is a failed call of the device;
//! the journal is then opened anew, as its owner has to.

use crate::again::{Refusals, Unshown, again, done};
use std::alloc::{AllocError, Global};
use sv_journal::{Journal, JournalFault, MemoryDisk, PAYLOAD_LIMIT};

type Shown = Result<String, Unshown>;

type Log = Journal<MemoryDisk>;

pub fn disk(alloc: Global, refusals: &mut Refusals) -> Shown {
    let disk = again!(refusals, MemoryDisk::with(alloc, b"bytes of a disk"))?;
    done(format!(in alloc; "{:?}", disk.bytes()))
}

/// A journal on these disks; where memory is refused, on those that are handed back.
fn opened(
    alloc: Global,
    refusals: &mut Refusals,
    a: MemoryDisk,
    b: MemoryDisk,
) -> Result<Log, Unshown> {
    let refused = match Journal::open(alloc, a, b) {
        Ok(journal) => return Ok(journal),
        Err(refused) => refused,
    };
    if !matches!(refused.fault, JournalFault::Memory | JournalFault::Device) {
        return Err(Unshown::Other);
    }
    refusals.add();
    match Journal::open(alloc, refused.a, refused.b) {
        Ok(journal) => Ok(journal),
        Err(_) => Err(Unshown::Other),
    }
}

/// Adds an entry.
fn added(journal: &mut Log, payload: &[u8]) -> Result<(), JournalFault> {
    if payload.len() > PAYLOAD_LIMIT {
        return Err(JournalFault::Full);
    }
    journal.append(payload)
}

/// Puts entries in the place of all.
fn compacted(journal: &mut Log, entries: &[Vec<u8>]) -> Result<(), JournalFault> {
    if !entries.iter().all(|payload| payload.len() <= PAYLOAD_LIMIT) {
        return Err(JournalFault::Full);
    }
    journal.compact(entries)
}

fn listed(alloc: Global, payloads: &[&[u8]]) -> Result<Vec<Vec<u8>>, AllocError> {
    let mut entries = Vec::new(alloc);
    for payload in payloads {
        entries.push(Vec::from_slice(alloc, payload)?)?;
    }
    Ok(entries)
}

/// The journal's entries.
fn shown(alloc: Global, refusals: &mut Refusals, journal: &mut Log) -> Shown {
    let entries = match journal.records() {
        Ok(entries) => entries,
        Err(JournalFault::Memory) => {
            refusals.add();
            match journal.records() {
                Ok(entries) => entries,
                Err(_) => return Err(Unshown::Other),
            }
        }
        Err(_) => return Err(Unshown::Other),
    };
    done(format!(in alloc; "{entries:?}"))
}

/// A journal with an entry; where its disk has failed, made anew.
fn filled(alloc: Global) -> Result<Log, Unshown> {
    let Ok(mut journal) = Journal::open(alloc, MemoryDisk::new(alloc), MemoryDisk::new(alloc))
    else {
        return Err(Unshown::Memory);
    };
    match added(&mut journal, b"one") {
        Ok(()) => Ok(journal),
        Err(_) => Err(Unshown::Memory),
    }
}

pub fn open(alloc: Global, refusals: &mut Refusals) -> Shown {
    let (a, b) = filled(alloc)?.into_disks();
    let mut journal = opened(alloc, refusals, a, b)?;
    shown(alloc, refusals, &mut journal)
}

/// The journal after a call that was refused: as it is, or opened anew where its disk has failed.
fn mended(
    alloc: Global,
    refusals: &mut Refusals,
    journal: Log,
    fault: JournalFault,
) -> Result<Log, Unshown> {
    refusals.add();
    match fault {
        JournalFault::Memory => Ok(journal),
        JournalFault::Device => {
            let (a, b) = journal.into_disks();
            opened(alloc, refusals, a, b)
        }
        _ => Err(Unshown::Other),
    }
}

pub fn append(alloc: Global, refusals: &mut Refusals) -> Shown {
    let mut journal = filled(alloc)?;
    if let Err(fault) = added(&mut journal, b"two") {
        journal = mended(alloc, refusals, journal, fault)?;
        // A disk that has failed may have kept the entry or not.
        let found = journal.records().map_or(0, |entries| entries.len());
        if found < 2 && added(&mut journal, b"two").is_err() {
            return Err(Unshown::Other);
        }
    }
    shown(alloc, refusals, &mut journal)
}

pub fn compact(alloc: Global, refusals: &mut Refusals) -> Shown {
    let entries = listed(alloc, &[b"three", b"four"])?;
    let mut journal = filled(alloc)?;
    if let Err(fault) = compacted(&mut journal, &entries) {
        journal = mended(alloc, refusals, journal, fault)?;
        if compacted(&mut journal, &entries).is_err() {
            return Err(Unshown::Other);
        }
    }
    shown(alloc, refusals, &mut journal)
}
