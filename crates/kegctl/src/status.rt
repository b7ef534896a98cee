//! Says how the nodes of a cluster are.

use crate::cluster::{port_of, read_cluster};
use crate::commands::{address, tick};
use crate::fault::Fault;
use crate::greetings::{Difference, TimedGreeting, said_by};
use crate::health::Health;
use crate::limit::clock;
use std::net::{Ipv4Addr, SocketAddr, TcpStream};
use sv_client::NodeNumber;

/// How a node is whose port gave no answer, by another connection to it.
fn silence_of(machine: &HostRuntime, port: u16) -> Health {
    match TcpStream::connect(machine, SocketAddr::from((Ipv4Addr::LOCALHOST, port))) {
        Ok(_) => Health::Silent,
        Err(refused) => Health::Unreached(refused),
    }
}

/// How a node is; it is asked to do what is due, which it would do by itself.
fn health_of(machine: &HostRuntime, port: u16) -> Health {
    let begun = clock(machine);
    match tick(machine, address(port)) {
        Ok(0) => Health::Well(clock(machine).saturating_sub(begun)),
        Ok(_) => Health::Short,
        Err(_) => silence_of(machine, port),
    }
}

/// The node at a port does what it is told.
pub fn answers(machine: &HostRuntime, port: u16) -> bool {
    matches!(health_of(machine, port), Health::Well(_) | Health::Short)
}

/// What each node is asked.
#[derive(Clone, Copy, Debug, PartialEq, Eq)]
pub enum Question {
    WhetherItAnswers,
    /// What it says of itself, too.
    WhatItSays,
}

/// What a node says of itself, if it is asked and says something.
fn said_of(
    machine: &HostRuntime,
    node: usize,
    port: u16,
    question: Question,
) -> Option<TimedGreeting> {
    match question {
        Question::WhetherItAnswers => None,
        Question::WhatItSays => said_by(machine, node, port),
    }
}

/// Says how a node is, and what it says of itself.
fn show_node(
    machine: &HostRuntime,
    node: usize,
    port: u16,
    question: Question,
) -> Result<(Health, Option<TimedGreeting>), Fault> {
    let health = health_of(machine, port);
    let said = match health {
        Health::Well(_) => said_of(machine, node, port, question),
        _ => None,
    };
    let printed = match &said {
        Some(said) => println!(machine; "node {node}, port {port}: {health}; {said}"),
        None => println!(machine; "node {node}, port {port}: {health}"),
    };
    match printed {
        Ok(()) => Ok((health, said)),
        Err(_) => Err(Fault::Output),
    }
}

/// Says a difference, if there is one.
fn show_difference(machine: &HostRuntime, difference: Option<Difference>) -> Result<(), Fault> {
    let Some(difference) = difference else {
        return Ok(());
    };
    match println!(machine; "{difference}") {
        Ok(()) => Ok(()),
        Err(_) => Err(Fault::Output),
    }
}

/// Says where what nodes say of themselves differs: from the descriptor, from this machine's clock, and from the first that says
/// something.
fn show_differences(
    machine: &HostRuntime,
    all: &[TimedGreeting],
    nodes: usize,
) -> Result<(), Fault> {
    for said in all {
        show_difference(machine, said.against_nodes(nodes))?;
        show_difference(machine, said.against_clock())?;
        if let Some(first) = all.first() {
            show_difference(machine, said.against(first))?;
        }
    }
    Ok(())
}

/// Says how all nodes are; whether all is well with them.
fn show_nodes(machine: &HostRuntime, ports: &[u16], question: Question) -> Result<bool, Fault> {
    let mut is_well = true;
    let mut all = Vec::new(machine.alloc());
    for (node, port) in ports.iter().enumerate() {
        let (health, said) = show_node(machine, node, *port, question)?;
        is_well = health.is_well() && is_well;
        if let Some(said) = said {
            all.push(said)?;
        }
    }
    show_differences(machine, all.as_slice(), ports.len())?;
    Ok(is_well)
}

/// Says which nodes of a cluster answer, or whether one does, how long that took, and what they say of themselves where that is asked.
pub fn show_status(
    machine: &HostRuntime,
    config: &str,
    node: Option<NodeNumber>,
    question: Question,
) -> Result<(), Fault> {
    let cluster = read_cluster(machine, config)?;
    let is_well = match node {
        Some(node) => {
            let port = port_of(&cluster, node)?;
            let (health, _) = show_node(machine, usize::from(node.value), port, question)?;
            health.is_well()
        }
        None => show_nodes(machine, &cluster.ports, question)?,
    };
    if is_well { Ok(()) } else { Err(Fault::NotDone) }
}
