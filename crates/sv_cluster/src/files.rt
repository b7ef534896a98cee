//! The files that are read before the script runs.

use crate::fault::Fault;
use std::fs;
use sv_config::{Cluster, Deployment};

/// The text of a file.
pub fn read_text(machine: &HostRuntime, path: &str) -> Result<String, Fault> {
    match fs::read_to_string(machine, path) {
        Ok(text) => Ok(text),
        Err(_) => Err(Fault::Script),
    }
}

/// The cluster of the descriptor at a path; it has ports.
pub fn read_cluster(machine: &HostRuntime, path: &str) -> Result<Cluster, Fault> {
    let text = read_text(machine, path)?;
    let deployment = Deployment::from_toml(machine.alloc(), text.as_str())?;
    let cluster = deployment.cluster;
    if cluster.ports.is_empty() {
        return Err(Fault::Script);
    }
    Ok(cluster)
}
