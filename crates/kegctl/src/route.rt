//! Where the sessions of a node go that is drained.

use crate::cluster::{port_of, read_cluster, takers};
use crate::fault::Fault;
use crate::journal::kept;
use crate::limit::Limit;
use crate::room::Keys;
use crate::taker::Taker;
use crate::words::Drain;
use std::alloc::{AllocError, Global};
use sv_client::{Address, NodeNumber};
use sv_config::Cluster;
use sv_model::Key;

/// A session that was handed over: its key, and when it was last named then, in seconds since 1970.
pub type Moved = (Key, u64);

/// Where sessions go from a node.
pub struct Route {
    /// The node's port.
    pub port: u16,
    /// The nodes that take its sessions.
    pub to: Vec<Taker>,
    /// The sessions that were handed over, in order of their keys.
    pub moved: Vec<Moved>,
    /// The place in the list of nodes of the one that takes the next session.
    pub next: usize,
    /// None of them took the last one that was there to take.
    pub is_alone: bool,
    pub limit: Limit,
    pub keys: Keys,
}

impl Route {
    /// Where the node is called.
    pub fn address(&self, machine: &HostRuntime) -> Address {
        Address {
            port: self.port,
            patience: self.limit.patience(machine),
        }
    }

    /// The session was called back: it was handed over by this drain, and has been asked for since. It would be called back again.
    pub fn is_called_back(&self, key: Key, last: u64) -> bool {
        match self.moved.binary_search_by_key(&key, |moved| moved.0) {
            Ok(at) => match self.moved.get(at) {
                Some((_, then)) => *then != last,
                None => false,
            },
            Err(_) => false,
        }
    }

    /// One more has gone to the node at this place.
    pub fn give(&mut self, at: usize) {
        if let Some(taker) = self.to.get_mut(at) {
            taker.give();
        }
        self.next = at.saturating_add(1);
    }

    /// All nodes are asked again before they get more.
    pub fn doubt(&mut self) {
        self.is_alone = false;
        for taker in &mut self.to {
            taker.doubt();
        }
    }
}

/// By hand, so that letting one go is one step.
impl Drop for Route {
    fn drop(self) {
        let Route {
            port: _,
            to: _,
            moved: _,
            next: _,
            is_alone: _,
            limit: _,
            keys: _,
        } = self;
    }
}

/// The journal of another node beside that of the drained one, where their names end in their nodes' numbers, as the unit has them.
fn journal_beside(
    alloc: Global,
    drain: Drain<'_>,
    node: NodeNumber,
) -> Result<Option<String>, AllocError> {
    let number = format!(in alloc; "{}", drain.node.value)?;
    match drain.journal.strip_suffix(number.as_str()) {
        Some(stem) => Ok(Some(format!(in alloc; "{stem}{}", node.value)?)),
        None => Ok(None),
    }
}

/// How many sessions more a node has room for, by a journal; none where that can't be read.
fn room_by(machine: &HostRuntime, keys: Keys, journal: &str) -> Result<Option<u64>, Fault> {
    match kept(machine, journal) {
        Ok(found) => Ok(Some(keys.left(&found.kept))),
        Err(Fault::Memory) => Err(Fault::Memory),
        Err(_) => Ok(None),
    }
}

/// The same, by its journal beside that of the drained one.
fn room_of(
    machine: &HostRuntime,
    keys: Keys,
    drain: Drain<'_>,
    node: NodeNumber,
) -> Result<Option<u64>, Fault> {
    match journal_beside(machine.alloc(), drain, node)? {
        Some(journal) => room_by(machine, keys, journal.as_str()),
        None => Ok(None),
    }
}

/// A node that takes sessions.
fn taker_of(
    machine: &HostRuntime,
    cluster: &Cluster,
    drain: Drain<'_>,
    node: NodeNumber,
) -> Result<Taker, Fault> {
    let port = port_of(cluster, node)?;
    let room = room_of(machine, Keys::of(cluster), drain, node)?;
    Ok(Taker::new(node, port, drain.node, room))
}

/// The nodes that take the sessions.
fn takers_of(
    machine: &HostRuntime,
    cluster: &Cluster,
    drain: Drain<'_>,
) -> Result<Vec<Taker>, Fault> {
    let nodes = takers(machine.alloc(), cluster, drain.node, drain.to)?;
    let mut all = Vec::new(machine.alloc());
    for node in &nodes {
        all.push(taker_of(machine, cluster, drain, *node)?)?;
    }
    Ok(all)
}

/// Where the sessions of a node go, in a cluster.
fn route_in(
    machine: &HostRuntime,
    cluster: &Cluster,
    drain: Drain<'_>,
    limit: Limit,
) -> Result<Route, Fault> {
    let port = port_of(cluster, drain.node)?;
    Ok(Route {
        port,
        to: takers_of(machine, cluster, drain)?,
        moved: Vec::new(machine.alloc()),
        next: 0,
        is_alone: false,
        limit,
        keys: Keys::of(cluster),
    })
}

/// The same, of the cluster that the descriptor has.
pub fn route_of(machine: &HostRuntime, drain: Drain<'_>) -> Result<Route, Fault> {
    let limit = Limit::new(machine, drain.seconds);
    let cluster = read_cluster(machine, drain.config)?;
    route_in(machine, &cluster, drain, limit)
}
