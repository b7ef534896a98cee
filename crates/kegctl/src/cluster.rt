//! The nodes of a descriptor.

use crate::fault::{DescriptorFault, Fault};
use crate::words::node_of;
use std::alloc::{AllocError, Global};
use std::fs;
use std::io::ErrorKind;
use std::rt::Files;
use sv_client::NodeNumber;
use sv_config::{Cluster, ConfigFault, Deployment};
use sv_model::NODE_LIMIT;

/// The fault of the program for that of a descriptor.
pub fn config_fault(fault: ConfigFault) -> Fault {
    match fault {
        ConfigFault::Memory => Fault::Memory,
        fault => Fault::Descriptor(DescriptorFault::Refused(fault)),
    }
}

/// The text of the descriptor at a path.
pub fn read_config<R: Files + AllocGlobal>(rt: &R, path: &str) -> Result<String, Fault> {
    match fs::read_to_string(rt, path) {
        Ok(text) => Ok(text),
        Err(refused) if refused.kind() == ErrorKind::OutOfMemory => Err(Fault::Memory),
        Err(_) => Err(Fault::Descriptor(DescriptorFault::Unreadable)),
    }
}

/// What the descriptor at a path says.
pub fn read_deployment<R: Files + AllocGlobal>(rt: &R, path: &str) -> Result<Deployment, Fault> {
    let text = read_config(rt, path)?;
    match Deployment::from_toml(rt.alloc(), text.as_str()) {
        Ok(deployment) => Ok(deployment),
        Err(fault) => Err(config_fault(fault)),
    }
}

/// The nodes of the descriptor at a path; it has ports.
pub fn read_cluster<R: Files + AllocGlobal>(rt: &R, path: &str) -> Result<Cluster, Fault> {
    let cluster = read_deployment(rt, path)?.cluster;
    if cluster.ports.is_empty() {
        return Err(Fault::Descriptor(DescriptorFault::NoPorts));
    }
    Ok(cluster)
}

/// The port of a node.
pub fn port_of(cluster: &Cluster, node: NodeNumber) -> Result<u16, Fault> {
    match cluster.ports.get(usize::from(node.value)) {
        Some(port) => Ok(*port),
        None => Err(Fault::Arguments("the descriptor has no such node")),
    }
}

/// Adds a node that is to take sessions of another.
fn add(
    all: &mut Vec<NodeNumber>,
    cluster: &Cluster,
    node: NodeNumber,
    from: NodeNumber,
) -> Result<(), Fault> {
    port_of(cluster, node)?;
    if node.value != from.value {
        all.push(node)?;
    }
    Ok(())
}

/// The nodes that are listed, with commas between.
fn listed(
    alloc: Global,
    cluster: &Cluster,
    from: NodeNumber,
    words: &str,
) -> Result<Vec<NodeNumber>, Fault> {
    let mut all = Vec::new(alloc);
    for word in words.split(',') {
        add(&mut all, cluster, node_of(word)?, from)?;
    }
    Ok(all)
}

/// All nodes but one.
fn others(alloc: Global, cluster: &Cluster, from: NodeNumber) -> Result<Vec<NodeNumber>, Fault> {
    let mut all = Vec::new(alloc);
    for value in 0..NODE_LIMIT {
        if usize::from(value) < cluster.ports.len() {
            add(&mut all, cluster, NodeNumber { value }, from)?;
        }
    }
    Ok(all)
}

/// The nodes that take the sessions of one: those that are listed, or all others.
pub fn takers(
    alloc: Global,
    cluster: &Cluster,
    from: NodeNumber,
    to: Option<&str>,
) -> Result<Vec<NodeNumber>, Fault> {
    let all = match to {
        Some(words) => listed(alloc, cluster, from, words)?,
        None => others(alloc, cluster, from)?,
    };
    if all.is_empty() {
        return Err(Fault::Arguments("no other node takes the sessions"));
    }
    Ok(all)
}
