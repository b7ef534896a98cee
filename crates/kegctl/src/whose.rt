//! Says whether a journal can be a node's, and how many keys that node knows.

use crate::fault::Fault;
use crate::journal::{entries, records};
use crate::room::Keys;
use sv_client::NodeNumber;
use sv_control::{RecordPlace, ShownRecord, is_anothers, is_own, places_of, replay};
use sv_model::Record;

/// A journal, and the node whose it is said to be.
#[derive(Clone, Copy, Debug, PartialEq, Eq)]
pub struct Claim<'a> {
    /// The first of its files.
    pub journal: &'a str,
    pub node: NodeNumber,
}

/// A node, and what its descriptor says of keys.
#[derive(Clone, Copy, Debug, PartialEq, Eq)]
struct Owner {
    node: NodeNumber,
    keys: Keys,
}

/// Says by which record the journal is another node's.
fn say_not(
    machine: &HostRuntime,
    node: NodeNumber,
    place: RecordPlace,
    record: &Record,
) -> Result<(), Fault> {
    let record = ShownRecord(record);
    match println!(machine;
        "the journal is not node {}'s: {place} {record}",
        node.value
    ) {
        Ok(()) => Err(Fault::Anothers),
        Err(_) => Err(Fault::Output),
    }
}

/// Looks for a record that no journal of the node has.
fn look_for_anothers(
    machine: &HostRuntime,
    node: NodeNumber,
    places: &[RecordPlace],
    records: &[Record],
) -> Result<(), Fault> {
    for (place, record) in places.iter().zip(records) {
        if is_anothers(node.value, record) {
            return say_not(machine, node, *place, record);
        }
    }
    Ok(())
}

/// Whether the journal has a record that no other node's has.
fn has_own(node: NodeNumber, records: &[Record]) -> bool {
    for record in records {
        if is_own(node.value, record) {
            return true;
        }
    }
    false
}

/// Says that the journal is the node's, or may be.
fn say_may(machine: &HostRuntime, node: NodeNumber, records: &[Record]) -> Result<(), Fault> {
    let number = node.value;
    let said = if has_own(node, records) {
        println!(machine; "the journal is node {number}'s")
    } else {
        println!(machine; "the journal may be node {number}'s: no record says whose it is")
    };
    match said {
        Ok(()) => Ok(()),
        Err(_) => Err(Fault::Output),
    }
}

/// Says how many keys are known by records.
fn say_room(machine: &HostRuntime, keys: Keys, records: &[Record]) -> Result<(), Fault> {
    match replay(machine.alloc(), records) {
        Ok(found) => keys.say(machine, &found.kept),
        Err(fault) => Err(fault.into()),
    }
}

fn look_at(
    machine: &HostRuntime,
    owner: Owner,
    entries: &[Vec<u8>],
    records: &[Record],
) -> Result<(), Fault> {
    let places = places_of(machine.alloc(), entries)?;
    look_for_anothers(machine, owner.node, &places, records)?;
    say_may(machine, owner.node, records)?;
    say_room(machine, owner.keys, records)
}

/// The same of payloads of a journal.
fn look_through(machine: &HostRuntime, owner: Owner, entries: &[Vec<u8>]) -> Result<(), Fault> {
    match records(machine, entries) {
        Ok(records) => look_at(machine, owner, entries, &records),
        Err(fault) => Err(fault),
    }
}

/// Says whether a journal can be a node's, by its records, and how many keys the node knows then.
pub fn check_claim(machine: &HostRuntime, claim: Claim<'_>, keys: Keys) -> Result<(), Fault> {
    let node = claim.node;
    match entries(machine, claim.journal) {
        Ok(entries) => look_through(machine, Owner { node, keys }, &entries),
        Err(fault) => Err(fault),
    }
}
