//! The last line of the log of a node that ends before it is told to.

use crate::descriptor::read_config;
use crate::fault::Fault;
use crate::words::NodeWords;
use std::fs::{File, OpenOptions};
use std::io::Write;
use std::net::{Ipv4Addr, OpenListener, SocketAddr, TcpListener};
use std::rt::Clock;
use std::{fs, io};
use sv_config::Cluster;
use sv_log::{Failure, Level, Log, STANDARD_ERROR, Site, can_be_figures};

/// What the system says where a file is opened to be written and locked, as a journal is.
fn refused_file(machine: &HostRuntime, path: &str) -> io::Result<()> {
    let file = OpenOptions::new()
        .read(true)
        .write(true)
        .open(machine, path)?;
    file.try_lock()?;
    Ok(())
}

/// What the system says where so little is written and synced as a record takes.
fn refused_bytes(file: &mut File) -> io::Result<()> {
    file.write_all(&[0; 4_096])?;
    file.sync_data()
}

/// What the system says where a new file is to have room beside a journal, as on a disk that is full; it doesn't stay.
fn refused_room(machine: &HostRuntime, path: &str) -> io::Result<()> {
    let Ok(beside) = format!(in machine.alloc(); "{path}.room") else {
        return Ok(());
    };
    let mut file = OpenOptions::new()
        .write(true)
        .create_new(true)
        .open(machine, beside.as_str())?;
    let written = refused_bytes(&mut file);
    let _ = fs::remove_file(machine, beside.as_str());
    written
}

/// What the system says of a journal whose file has failed.
fn refused_journal(machine: &HostRuntime, path: &str) -> io::Result<()> {
    refused_file(machine, path)?;
    refused_room(machine, path)
}

/// What the system says of a port that is to be listened at.
fn refused_port(machine: &HostRuntime, port: u16) -> io::Result<()> {
    let addr = SocketAddr::from((Ipv4Addr::LOCALHOST, port));
    let _listener: TcpListener = TcpListener::bind(machine, addr)?;
    Ok(())
}

/// What the system says of a file that is to be read.
fn unread_file(machine: &HostRuntime, path: &str) -> io::Result<()> {
    let _file = File::open(machine, path)?;
    Ok(())
}

/// Where a fault of what the cluster's descriptor names was found, its port or its file of secrets, and what the system says there when it
/// is asked once more.
fn found_in_cluster<'a>(
    machine: &HostRuntime,
    cluster: &'a Cluster,
    number: u8,
    fault: Fault,
) -> (Site<'a>, io::Result<()>) {
    match &cluster.secrets {
        Some(path) if fault == Fault::Secrets => {
            let path = path.as_str();
            (Site::Path(path), unread_file(machine, path))
        }
        _ => {
            let port = cluster.ports.get(usize::from(number)).copied().unwrap_or(0);
            (Site::Port(port), refused_port(machine, port))
        }
    }
}

/// The same of a fault of one of the node's files, or of none.
fn found_in_files<'a>(
    machine: &HostRuntime,
    node: &NodeWords<'a>,
    fault: Fault,
) -> (Site<'a>, io::Result<()>) {
    match fault {
        Fault::Device => (
            Site::Path(node.journal),
            refused_journal(machine, node.journal),
        ),
        Fault::Locked => (
            Site::Path(node.journal),
            refused_file(machine, node.journal),
        ),
        Fault::NoJournal => (Site::Path(node.journal), unread_file(machine, node.journal)),
        Fault::OlderCopy | Fault::Damaged | Fault::Full | Fault::JournalMemory => (
            Site::Path(node.journal),
            Ok(()),
        ),
        Fault::Unreadable => (Site::Path(node.config), unread_file(machine, node.config)),
        Fault::SameFile(clash) => (Site::Path(clash.path_in(node)), Ok(())),
        Fault::Metrics => {
            let path = node.options.metrics.unwrap_or("");
            (Site::Path(path), can_be_figures(machine, path))
        }
        Fault::Input | Fault::Output | Fault::Memory => (Site::None, Ok(())),
        _ => (Site::Path(node.config), Ok(())),
    }
}

/// Puts down a fault.
fn put_down(machine: &HostRuntime, log: &mut Log, fault: Fault, found: (Site<'_>, io::Result<()>)) {
    let (site, asked) = found;
    if let Ok(name) = fault.name().to_string(machine.alloc()) {
        let failure = Failure {
            fault: name.as_str(),
            status: fault.status(),
            site,
            error: asked.as_ref().err(),
        };
        log.say(Level::Error, failure);
    }
}

/// Puts down why a node ends.
fn put_down_any(
    machine: &HostRuntime,
    log: &mut Log,
    built_in: Option<&str>,
    node: &NodeWords<'_>,
    fault: Fault,
) {
    if matches!(fault, Fault::Socket | Fault::Secrets)
        && let Ok(deployment) = read_config(machine, built_in, node.config)
    {
        let found = found_in_cluster(machine, &deployment.cluster, node.number, fault);
        put_down(machine, log, fault, found);
    } else {
        put_down(machine, log, fault, found_in_files(machine, node, fault));
    }
}

/// Adds the line to the log of a node, where it has one that can be opened.
pub fn log_failure(
    machine: &HostRuntime,
    built_in: Option<&str>,
    node: &NodeWords<'_>,
    fault: Fault,
) {
    let Some(path) = node.options.log else {
        return;
    };
    // Of two options one may name what the other one is refused for.
    if matches!(fault, Fault::SameFile(_)) && path != STANDARD_ERROR {
        return;
    }
    let Ok(mut log) = Log::open(machine.alloc(), machine, path) else {
        return;
    };
    if let Ok(now) = machine.since_1970() {
        log.at(now.as_secs());
    }
    put_down_any(machine, &mut log, built_in, node, fault);
    log.flush(machine);
}
