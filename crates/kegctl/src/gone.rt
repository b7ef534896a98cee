//! Declares that a node is gone for good: makes the journal of one that takes its number, by the journals of the others.

ghost use Rattle.std.specs.Prelude.{◌≤◌, All, IfOk, length};
ghost use Rattle.sv_journal.specs.declared.limits.TheConstants.{PAYLOAD_LIMIT};

use crate::cluster::{port_of, read_cluster};
use crate::fault::Fault;
use crate::init::{make_journal, refuse_journal};
use crate::journal::{entries, records};
use crate::status::answers;
use std::collections::BTreeMap;
use std::rt::Clock;
use sv_client::NodeNumber;
use sv_config::Cluster;
use sv_control::{
    LastSeen, Whereabouts, is_anothers, key_text, payloads_of, recovered, remade, seen_of,
};
use sv_core::Core;
use sv_model::{Key, Record};

/// What the others know of sessions, by their keys.
type Seen = BTreeMap<Key, LastSeen>;

/// So often the journals are read at most until no session is on its way between two looks.
const LOOKS: usize = 100;

/// A node that is gone for good.
#[derive(Drop)]
pub struct Gone<'a> {
    pub config: &'a str,
    /// The first file of the journal that is to be made.
    pub journal: &'a str,
    pub node: NodeNumber,
    /// The first files of the other nodes' journals, in the order of their numbers.
    pub others: Vec<&'a str>,
    /// It is made; else it is only said what that means.
    pub makes: bool,
}

/// The number of the node whose journal stands at a place among those of the others.
fn number_at(place: usize, gone: NodeNumber) -> u8 {
    let number = u8::try_from(place).unwrap_or(u8::MAX);
    if number < gone.value {
        number
    } else {
        number.saturating_add(1)
    }
}

/// Refuses records of which one is in no journal of the node.
fn refuse_anothers(number: u8, records: &[Record]) -> Result<(), Fault> {
    for record in records {
        if is_anothers(number, record) {
            return Err(Fault::Anothers);
        }
    }
    Ok(())
}

/// A node as its journal has it.
fn read_node(machine: &HostRuntime, journal: &str, number: u8) -> Result<Core<()>, Fault> {
    let entries = entries(machine, journal)?;
    let records = records(machine, &entries)?;
    refuse_anothers(number, &records)?;
    match recovered(machine.alloc(), number, &records) {
        Ok(core) => Ok(core),
        Err(fault) => Err(fault.into()),
    }
}

/// Says which file isn't used, and why.
fn named(machine: &HostRuntime, journal: &str, number: u8, fault: Fault) -> Fault {
    let _ = eprintln!(machine; "kegctl: {journal}, for node {number}:");
    fault
}

/// The other nodes, as their journals have them.
fn read_others(machine: &HostRuntime, order: &Gone<'_>) -> Result<Vec<Core<()>>, Fault> {
    let mut nodes = Vec::new(machine.alloc());
    for (place, journal) in order.others.iter().enumerate() {
        let number = number_at(place, order.node);
        match read_node(machine, journal, number) {
            Ok(node) => nodes.push(node)?,
            Err(fault) => return Err(named(machine, journal, number, fault)),
        }
    }
    Ok(nodes)
}

/// What the others know by now.
fn look(machine: &HostRuntime, order: &Gone<'_>) -> Result<Seen, Fault> {
    let nodes = read_others(machine, order)?;
    match seen_of(machine.alloc(), order.node.value, &nodes) {
        Ok(seen) => Ok(seen),
        Err(_) => Err(Fault::Memory),
    }
}

/// The session is taken for lost with the gone node.
fn is_lost(last: LastSeen) -> bool {
    matches!(
        last.whereabouts,
        Whereabouts::Lost | Whereabouts::Unacknowledged
    )
}

/// What is lost by one look was lost by the look before, at the same epoch.
///
/// A session that a node has handed over for good is at the node that took it, whose journal has it from then on. So if that is one of the
/// others, a look that begins afterwards finds it there, or finds a greater epoch.
fn agree(before: &Seen, now: &Seen) -> bool {
    for (key, last) in now.iter() {
        if is_lost(*last) && before.get(key) != Some(last) {
            return false;
        }
    }
    true
}

/// What the others know once no session is on its way between two looks.
fn settled(machine: &HostRuntime, order: &Gone<'_>) -> Result<Seen, Fault> {
    let mut before = look(machine, order)?;
    for _ in 0..LOOKS {
        let now = look(machine, order)?;
        if agree(&before, &now) {
            return Ok(now);
        }
        before = now;
    }
    Err(Fault::Unsettled)
}

/// Says of a session that it is lost, if it is.
fn say_lost(
    machine: &HostRuntime,
    node: NodeNumber,
    key: Key,
    last: LastSeen,
) -> Result<(), Fault> {
    let text = key_text(machine.alloc(), key)?;
    let number = node.value;
    let said = match last.whereabouts {
        Whereabouts::Lost => println!(machine; "{text} was at node {number}, and is lost"),
        Whereabouts::Unacknowledged => {
            println!(machine;
                "{text} was sent to node {number}, which has not acknowledged it, and is lost"
            )
        }
        Whereabouts::Over | Whereabouts::Elsewhere => Ok(()),
    };
    match said {
        Ok(()) => Ok(()),
        Err(_) => Err(Fault::Output),
    }
}

fn say_all_lost(machine: &HostRuntime, node: NodeNumber, seen: &Seen) -> Result<(), Fault> {
    for (key, last) in seen.iter() {
        if let Err(fault) = say_lost(machine, node, *key, *last) {
            return Err(fault);
        }
    }
    Ok(())
}

/// How many sessions that the gone node made live at the others.
fn count_alive(node: NodeNumber, seen: &Seen) -> usize {
    seen.iter()
        .filter(|(key, last)| {
            key.home == node.value && matches!(last.whereabouts, Whereabouts::Elsewhere)
        })
        .count()
}

/// Says what it means that the node is gone.
fn show(machine: &HostRuntime, node: NodeNumber, seen: &Seen) -> Result<(), Fault> {
    say_all_lost(machine, node, seen)?;
    let number = node.value;
    let alive = count_alive(node, seen);
    match println!(machine;
        "{alive} sessions that node {number} made are at the other nodes, and live on\nsessions that were only ever at node {number} are lost, and nobody else knows of them"
    ) {
        Ok(()) => Ok(()),
        Err(_) => Err(Fault::Output),
    }
}

/// A number above each start and each serial that a node of this number has ever given: the seconds since 1970, times 2 to the power of 32.
fn first_number(machine: &HostRuntime) -> Result<u64, Fault> {
    match machine.since_1970() {
        Ok(time) => Ok(time.as_secs().saturating_mul(1 << 32)),
        Err(_) => Err(Fault::Clock),
    }
}

/// The entries of the new journal.
fn entries_for(machine: &HostRuntime, node: NodeNumber, seen: &Seen) -> Result<Vec<Vec<u8>>, Fault>
    ensures { IfOk result (λ all. All (λ payload. length payload.items ≤ PAYLOAD_LIMIT) all.items) }
{
    let first = first_number(machine)?;
    let records = remade(machine.alloc(), node.value, first, first, seen)?;
    match payloads_of(machine.alloc(), &records) {
        Ok(entries) => Ok(entries),
        Err(fault) => Err(fault.into()),
    }
}

/// Makes the journal.
fn make(machine: &HostRuntime, order: &Gone<'_>, seen: &Seen) -> Result<(), Fault> {
    let entries = entries_for(machine, order.node, seen)?;
    make_journal(machine, order.journal, &entries)?;
    let (journal, number) = (order.journal, order.node.value);
    match println!(machine; "{journal} and {journal}.b are the journal of a new node {number}") {
        Ok(()) => Ok(()),
        Err(_) => Err(Fault::Output),
    }
}

/// Refuses what can't be done: a node that answers, files that are there, too few journals.
fn refuse(machine: &HostRuntime, order: &Gone<'_>, cluster: &Cluster) -> Result<(), Fault> {
    let port = port_of(cluster, order.node)?;
    if order.others.len() + 1 != cluster.ports.len() {
        return Err(Fault::Arguments(
            "OTHER is the journal of each other node, in the order of their numbers",
        ));
    }
    if answers(machine, port) {
        return Err(Fault::Answers(port));
    }
    refuse_journal(machine, order.journal)
}

/// Says what it means that a node is gone for good, and makes the journal of one that takes its number, if that is asked for.
pub fn declare_gone(machine: &HostRuntime, order: &Gone<'_>) -> Result<(), Fault> {
    let cluster = read_cluster(machine, order.config)?;
    refuse(machine, order, &cluster)?;
    let seen = settled(machine, order)?;
    show(machine, order.node, &seen)?;
    if order.makes {
        return make(machine, order, &seen);
    }
    match println!(machine; "nothing was made: --make makes the journal") {
        Ok(()) => Ok(()),
        Err(_) => Err(Fault::Output),
    }
}
