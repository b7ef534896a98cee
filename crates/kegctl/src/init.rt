//! Makes the journal of a node that has none.

ghost use Rattle.std.specs.Prelude.{◌≤◌, All, length};
ghost use Rattle.sv_journal.specs.declared.limits.TheConstants.{PAYLOAD_LIMIT};

use crate::cluster::{port_of, read_cluster};
use crate::fault::Fault;
use std::alloc::Global;
use std::fs;
use std::io::ErrorKind;
use sv_client::NodeNumber;
use sv_journal::{FileDisk, IfMissing, Journal};

/// Refuses a path at which anything is.
fn refuse_existing(machine: &HostRuntime, path: &str) -> Result<(), Fault> {
    match fs::symlink_metadata(machine, path) {
        Err(refused) if refused.kind() == ErrorKind::NotFound => Ok(()),
        Err(_) => Err(Fault::Unmade),
        Ok(_) => Err(Fault::Existing),
    }
}

/// A file that is made.
fn new_file(machine: &HostRuntime, path: &str) -> Result<FileDisk, Fault> {
    match FileDisk::open(machine, path, IfMissing::Make) {
        Ok(file) => Ok(file),
        Err(_) => Err(Fault::Unmade),
    }
}

/// A journal of two new files.
fn new_journal(alloc: Global, a: FileDisk, b: FileDisk) -> Result<Journal<FileDisk>, Fault> {
    match Journal::open(alloc, a, b) {
        Ok(journal) => Ok(journal),
        Err(_) => Err(Fault::Unmade),
    }
}

/// The path of a journal's second file.
fn beside(alloc: Global, journal: &str) -> Result<String, Fault> {
    match format!(in alloc; "{journal}.b") {
        Ok(path) => Ok(path),
        Err(_) => Err(Fault::Memory),
    }
}

/// Refuses a journal of which a file is there.
pub fn refuse_journal(machine: &HostRuntime, journal: &str) -> Result<(), Fault> {
    let beside = beside(machine.alloc(), journal)?;
    refuse_existing(machine, journal)?;
    refuse_existing(machine, beside.as_str())
}

/// Makes the journal at a path, where neither of its files is.
fn journal_at(machine: &HostRuntime, journal: &str) -> Result<Journal<FileDisk>, Fault> {
    refuse_journal(machine, journal)?;
    let beside = beside(machine.alloc(), journal)?;
    let a = new_file(machine, journal)?;
    let b = new_file(machine, beside.as_str())?;
    new_journal(machine.alloc(), a, b)
}

/// Makes the journal at a path, where neither of its files is, with these entries.
pub fn make_journal(machine: &HostRuntime, journal: &str, entries: &[Vec<u8>]) -> Result<(), Fault>
    requires { All (λ payload. length payload.items ≤ PAYLOAD_LIMIT) entries.now }
{
    let mut journal = journal_at(machine, journal)?;
    match journal.compact(entries) {
        Ok(()) => Ok(()),
        Err(_) => Err(Fault::Unmade),
    }
}

/// Makes the journal of a node of a descriptor, where neither of its files is. A node has begun no start in it.
pub fn init(
    machine: &HostRuntime,
    config: &str,
    journal: &str,
    node: NodeNumber,
) -> Result<(), Fault> {
    let cluster = read_cluster(machine, config)?;
    port_of(&cluster, node)?;
    journal_at(machine, journal)?;
    let number = node.value;
    match println!(machine; "{journal} and {journal}.b are a new journal, for node {number}") {
        Ok(()) => Ok(()),
        Err(_) => Err(Fault::Output),
    }
}
