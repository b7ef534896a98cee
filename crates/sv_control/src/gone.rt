//! What the other nodes know of the sessions of a node that is gone for good, and the journal of a node that takes its number.

ghost use Rattle.std.specs.Prelude.{◌≡◌, ◌≢◌, ◌≤◌, ◌∷◌, [], ◌++◌, All, None, IfErr, IfOk, IsTrue, OnOk, false, length, map, nat_lt, option_copied, true};
ghost use Rattle.std.specs.List.{list_all};
ghost use Rattle.sv_control.specs.Gone as spec;
ghost use Rattle.sv_control.specs.Kept.{Fit};
ghost use Rattle.sv_control.specs.declared.images.FoundFault.TheVariants.{Memory, Unfit};
ghost use Rattle.sv_core.specs.Core.{durable_at};
ghost use Rattle.sv_core.specs.Snapshot.{snapshot_of};
ghost use Rattle.sv_journal.specs.Format.{payloads};
ghost use Rattle.sv_journal.specs.declared.limits.TheConstants.{PAYLOAD_LIMIT};
ghost use Rattle.sv_model.specs.declared.key.TheConstants.{NODE_LIMIT as NODES};
ghost use Rattle.sv_record.specs.Record.{spelling};

use crate::images::FoundFault;
use crate::kept::recovered;
use std::alloc::{AllocError, Global};
use std::collections::BTreeMap;
use sv_core::Core;
use sv_model::{Key, KeyState, NODE_LIMIT, Record};
use sv_record::write_record;

/// Where a session is, as far as other nodes know.
#[derive(Clone, Copy, Debug, PartialEq, Eq)]
pub enum Whereabouts {
    /// It was handed over to the node that is gone, which acknowledged it.
    Lost,
    /// It was sent to the node that is gone: whether that took it over nobody knows.
    Unacknowledged,
    /// It has ended.
    Over,
    /// It is at another node, or was sent from one of them to another.
    Elsewhere,
}

impl Whereabouts {
    /// Whose word counts at one epoch: that of the greater rank.
    fn rank(self) -> u8
        ensures { result ≡ spec.rank self }
    {
        match self {
            Whereabouts::Lost => 0,
            Whereabouts::Unacknowledged => 1,
            Whereabouts::Over => 2,
            Whereabouts::Elsewhere => 3,
        }
    }
}

/// What a node tells of a session.
#[derive(Clone, Copy, Debug, PartialEq, Eq)]
struct Sighting {
    epoch: u64,
    whereabouts: Whereabouts,
}

/// What is known of a session, at the greatest epoch that a node has heard of.
#[derive(Clone, Copy, Debug, PartialEq, Eq)]
pub struct LastSeen {
    pub epoch: u64,
    pub whereabouts: Whereabouts,
    /// Another node still sends it to the one that is gone.
    pub is_sent: bool,
}

impl Sighting {
    fn new(epoch: u64, whereabouts: Whereabouts) -> Sighting
        ensures { result ≡ spec.seen_at epoch whereabouts }
    {
        Sighting { epoch, whereabouts }
    }

    /// The other is of a greater epoch, or counts more at the same.
    fn is_before(self, other: Sighting) -> bool
        ensures { result ≡ spec.is_later self other }
    {
        self.epoch < other.epoch
            || (self.epoch == other.epoch && self.whereabouts.rank() < other.whereabouts.rank())
    }
}

/// What a node tells of a session by what it knows of its key.
fn seen_as(gone: u8, state: &KeyState) -> Sighting
    ensures { result ≡ spec.seen_as gone state.now }
{
    match *state {
        KeyState::Active { epoch, .. } => Sighting::new(epoch, Whereabouts::Elsewhere),
        KeyState::Sent { epoch, to, .. } if to == gone => {
            Sighting::new(epoch, Whereabouts::Unacknowledged)
        }
        KeyState::Sent { epoch, .. } => Sighting::new(epoch, Whereabouts::Elsewhere),
        KeyState::Gone { epoch } => Sighting::new(epoch, Whereabouts::Lost),
        KeyState::Ended { epoch } => Sighting::new(epoch, Whereabouts::Over),
    }
}

fn seen_if(gone: u8, state: Option<&KeyState>) -> Option<Sighting>
    ensures { result ≡ spec.seen_if gone (option_copied state.entry) }
{
    match state {
        Some(state) => Some(seen_as(gone, state)),
        None => None,
    }
}

/// The later of the two.
fn latest(a: Option<Sighting>, b: Option<Sighting>) -> Option<Sighting>
    ensures { result ≡ spec.latest a b }
{
    match (a, b) {
        (Some(last), Some(next)) if !last.is_before(next) => Some(last),
        (last, None) => last,
        (_, next) => next,
    }
}

/// What all of these nodes know of a session.
fn latest_of(gone: u8, key: Key, nodes: &[Core<()>]) -> Option<Sighting>
    ensures { result ≡ spec.latest_of gone key None (map durable_at nodes.now) }
{
    let mut last = None;
    for node in nodes {
        last = latest(last, seen_if(gone, node.state(key)));
    }
    last
}

/// A node that knows this of a session still sends it to the gone one.
fn sends(gone: u8, state: Option<&KeyState>) -> bool
    ensures { result ≡ spec.sends gone (option_copied state.entry) }
{
    match state {
        Some(KeyState::Sent { to, .. }) => *to == gone,
        _ => false,
    }
}

/// Some node still sends a session to the gone one.
fn is_sent(gone: u8, key: Key, nodes: &[Core<()>]) -> bool
    ensures { result ≡ spec.is_sent gone key (map durable_at nodes.now) }
{
    for node in nodes {
        if sends(gone, node.state(key)) {
            return true;
        }
    }
    false
}

/// Adds what is known of a session.
fn add_seen(
    seen: &mut BTreeMap<Key, LastSeen>,
    key: Key,
    is_sent: bool,
    last: Option<Sighting>,
) -> Result<(), AllocError>
    ensures { OnOk result (seen.new.entries ≡ spec.with_seen key is_sent last seen.old.entries) }
{
    if let Some(Sighting { epoch, whereabouts }) = last {
        seen.insert(
            key,
            LastSeen {
                epoch,
                whereabouts,
                is_sent,
            },
        )?;
    }
    Ok(())
}

/// Adds what is known of the session of a record of a snapshot.
fn add_record(
    seen: &mut BTreeMap<Key, LastSeen>,
    gone: u8,
    nodes: &[Core<()>],
    entry: &Record,
) -> Result<(), AllocError>
    ensures { OnOk result (seen.new.entries ≡ spec.seen_with gone (map durable_at nodes.now) entry.now seen.old.entries) }
{
    match entry {
        Record::State { key, .. } => add_seen(
            seen,
            *key,
            is_sent(gone, *key, nodes),
            latest_of(gone, *key, nodes),
        ),
        _ => Ok(()),
    }
}

/// Adds what is known of the sessions of a snapshot.
fn add_records(
    seen: &mut BTreeMap<Key, LastSeen>,
    gone: u8,
    nodes: &[Core<()>],
    records: &[Record],
) -> Result<(), AllocError>
    ensures { OnOk result (seen.new.entries ≡ spec.seen_in gone (map durable_at nodes.now) records.now seen.old.entries) }
{
    for entry in records {
        add_record(seen, gone, nodes, entry)?;
    }
    Ok(())
}

/// Adds what is known of the sessions of a node.
fn add_node(
    seen: &mut BTreeMap<Key, LastSeen>,
    gone: u8,
    nodes: &[Core<()>],
    node: &Core<()>,
) -> Result<(), AllocError>
    ensures { OnOk result (seen.new.entries ≡ spec.seen_in gone (map durable_at nodes.now) (snapshot_of (durable_at node.now)) seen.old.entries) }
{
    match node.snapshot() {
        Ok(records) => add_records(seen, gone, nodes, &records),
        Err(_) => Err(AllocError),
    }
}

/// What the nodes but the one that is gone know of each session, in order of the keys.
pub fn seen_of(
    alloc: Global,
    gone: u8,
    nodes: &[Core<()>],
) -> Result<BTreeMap<Key, LastSeen>, AllocError>
    ensures { IfOk result (λ seen. seen.entries ≡ spec.seen_of gone (map durable_at nodes.now)) }
{
    let mut seen = BTreeMap::new(alloc);
    for node in nodes {
        add_node(&mut seen, gone, nodes, node)?;
    }
    Ok(seen)
}

/// What a node that takes the gone one's number keeps of a session of its own home.
fn own_state(last: LastSeen) -> Option<KeyState>
    ensures { result ≡ spec.own_state last last.whereabouts }
{
    match last.whereabouts {
        Whereabouts::Elsewhere => Some(KeyState::Gone { epoch: last.epoch }),
        Whereabouts::Lost | Whereabouts::Unacknowledged | Whereabouts::Over => None,
    }
}

/// What is kept of a session of another home that wasn't at the gone node, if somebody still sends it there.
fn if_sent(is_sent: bool, state: KeyState) -> Option<KeyState>
    ensures { result ≡ spec.if_sent is_sent state }
{
    if is_sent { Some(state) } else { None }
}

/// The same of a session of another home.
fn foreign_state(last: LastSeen) -> Option<KeyState>
    ensures { result ≡ spec.foreign_state last last.whereabouts }
{
    let epoch = last.epoch;
    match last.whereabouts {
        Whereabouts::Lost | Whereabouts::Unacknowledged => Some(KeyState::Ended { epoch }),
        Whereabouts::Over => if_sent(last.is_sent, KeyState::Ended { epoch }),
        Whereabouts::Elsewhere => if_sent(last.is_sent, KeyState::Gone { epoch }),
    }
}

fn state_for(node: u8, key: Key, last: LastSeen) -> Option<KeyState>
    ensures { result ≡ spec.state_for node key last }
{
    if key.home == node {
        own_state(last)
    } else {
        foreign_state(last)
    }
}

/// Adds a row of a snapshot, where there is one.
fn add_row(records: &mut Vec<Record>, key: Key, state: Option<KeyState>) -> Result<(), AllocError>
    ensures { OnOk result (records.new.items ≡ records.old.items ++ spec.row_if key state) }
{
    if let Some(state) = state {
        records.push(Record::State { key, state })?;
    }
    Ok(())
}

/// The snapshot of a node that takes the gone one's number.
fn snapshot_of_remade(
    alloc: Global,
    node: u8,
    boot: u64,
    next: u64,
    seen: &BTreeMap<Key, LastSeen>,
) -> Result<Vec<Record>, AllocError>
    ensures { IfOk result (λ records. records.items ≡ spec.remade node boot next seen.now.entries) }
{
    let mut records = Vec::new(alloc);
    records.push(Record::Counted {
        home: node,
        boot,
        next,
    })?;
    for (key, last) in seen.iter() {
        add_row(&mut records, *key, state_for(node, *key, *last))?;
    }
    Ok(records)
}

/// The records of a node that takes the gone one's number, that forgets its own keys, and that has begun so many starts and gives this
/// serial next: both have to be above all that the gone node has ever given. `Unfit` where a session is known that was made with such a
/// serial, or more sessions are than a node may know.
pub fn remade(
    alloc: Global,
    node: u8,
    boot: u64,
    next: u64,
    seen: &BTreeMap<Key, LastSeen>,
) -> Result<Vec<Record>, FoundFault>
    ensures records { IfOk result (λ records. records.items ≡ spec.remade node boot next seen.now.entries) }
    ensures fit { IfOk result (λ records. Fit node records.items) }
    ensures unfit { IfErr result (λ fault. fault ≢ Memory → (fault ≡ Unfit) × (¬ (Fit node (spec.remade node boot next seen.now.entries)))) }
{
    let Ok(records) = snapshot_of_remade(alloc, node, boot, next, seen) else {
        return Err(FoundFault::Memory);
    };
    match recovered(alloc, node, &records) {
        Ok(_) => Ok(records),
        Err(fault) => Err(fault),
    }
}

fn is_node(home: u8) -> bool
    ensures { result ≡ nat_lt home NODES }
{
    home < NODE_LIMIT
}

/// The record is a row of such a snapshot, or its head, with numbers that may be written.
fn can_be_written(entry: &Record) -> bool
    ensures { result ≡ spec.can_be_written entry.now }
{
    match entry {
        Record::Counted { home, next, .. } => is_node(*home) && *next > 0,
        Record::State {
            key,
            state: KeyState::Gone { epoch } | KeyState::Ended { epoch },
        } => is_node(key.home) && key.serial > 0 && *epoch > 0,
        _ => false,
    }
}

fn can_all_be_written(records: &[Record]) -> bool
    ensures { result ≡ list_all spec.can_be_written records.now }
{
    records.iter().all(|entry| can_be_written(entry))
}

/// A record as the payload of an entry.
fn payload_of(alloc: Global, entry: &Record) -> Result<Vec<u8>, AllocError>
    requires { IsTrue (spec.can_be_written entry.now) }
    ensures bytes { IfOk result (λ bytes. bytes.items ≡ spelling entry.now) }
    ensures size { IfOk result (λ bytes. length bytes.items ≤ PAYLOAD_LIMIT) }
{
    let mut bytes = Vec::new(alloc);
    write_record(entry, &mut bytes)?;
    Ok(bytes)
}

/// Adds the payload of an entry.
fn add_payload(alloc: Global, all: &mut Vec<Vec<u8>>, entry: &Record) -> Result<(), AllocError>
    requires { IsTrue (spec.can_be_written entry.now) }
    ensures bytes { OnOk result (payloads all.new.items ≡ payloads all.old.items ++ spelling entry.now ∷ []) }
    ensures size { All (λ payload. length payload.items ≤ PAYLOAD_LIMIT) all.old.items → OnOk result (All (λ payload. length payload.items ≤ PAYLOAD_LIMIT) all.new.items) }
{
    let payload = payload_of(alloc, entry)?;
    all.push(payload)?;
    Ok(())
}

/// The payloads of records that can be written.
fn payloads_of_all(alloc: Global, records: &[Record]) -> Result<Vec<Vec<u8>>, AllocError>
    requires { list_all spec.can_be_written records.now ≡ true }
    ensures bytes { IfOk result (λ all. payloads all.items ≡ map spelling records.now) }
    ensures size { IfOk result (λ all. All (λ payload. length payload.items ≤ PAYLOAD_LIMIT) all.items) }
{
    let mut all = Vec::new(alloc);
    for entry in records {
        add_payload(alloc, &mut all, entry)?;
    }
    Ok(all)
}

/// The records of such a snapshot as the payloads of entries. `Unfit` where one of them is none that such a snapshot has.
pub fn payloads_of(alloc: Global, records: &[Record]) -> Result<Vec<Vec<u8>>, FoundFault>
    ensures bytes { IfOk result (λ all. payloads all.items ≡ map spelling records.now) }
    ensures size { IfOk result (λ all. All (λ payload. length payload.items ≤ PAYLOAD_LIMIT) all.items) }
    ensures unfit { IfErr result (λ fault. fault ≢ Memory → (fault ≡ Unfit) × (list_all spec.can_be_written records.now ≡ false)) }
{
    if !can_all_be_written(records) {
        return Err(FoundFault::Unfit);
    }
    match payloads_of_all(alloc, records) {
        Ok(all) => Ok(all),
        Err(_) => Err(FoundFault::Memory),
    }
}
