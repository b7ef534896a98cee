//! Halts all nodes of a cluster at once, as where the machine is shut down: their sessions stay in their journals, where the nodes find
//! them again.

use crate::cluster::read_cluster;
use crate::commands::halt;
use crate::fault::Fault;
use sv_client::Address;

/// How long a node may take for it, in seconds: it answers at once, or hangs.
const PATIENCE: u64 = 2;

/// What came of a node that was told to halt.
fn state_of(machine: &HostRuntime, port: u16) -> &'static str {
    let address = Address {
        port,
        patience: PATIENCE,
    };
    match halt(machine, address) {
        Ok(0) => "halted",
        Ok(_) => "refuses",
        Err(_) => "doesn't answer",
    }
}

/// Halts a node, and says so; whether it was halted.
fn stop_node(machine: &HostRuntime, node: usize, port: u16) -> Result<bool, Fault> {
    let state = state_of(machine, port);
    match println!(machine; "node {node}, port {port}: {state}") {
        Ok(()) => Ok(state == "halted"),
        Err(_) => Err(Fault::Output),
    }
}

fn stop_nodes(machine: &HostRuntime, ports: &[u16]) -> Result<(), Fault> {
    let mut is_well = true;
    for (node, port) in ports.iter().enumerate() {
        is_well = stop_node(machine, node, *port)? && is_well;
    }
    if is_well { Ok(()) } else { Err(Fault::NotDone) }
}

/// Halts all nodes of the descriptor at a path.
pub fn stop(machine: &HostRuntime, config: &str) -> Result<(), Fault> {
    let cluster = read_cluster(machine, config)?;
    stop_nodes(machine, &cluster.ports)
}
