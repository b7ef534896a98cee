//! A script from its first line to its last.

use crate::fault::Fault;
use crate::files::{read_cluster, read_text};
use crate::nodes::Nodes;
use crate::script::{Act, Line, read_script};
use crate::words::Words;
use std::alloc::{AllocError, Global};
use std::io;
use std::io::Write;
use sv_client::NodeNumber;
use sv_config::Cluster;

/// The bytes of a text.
fn text(alloc: Global, text: &str) -> Result<Vec<u8>, AllocError> {
    Vec::from_slice(alloc, text.as_bytes())
}

/// A status and a body, without the body's last line feed.
fn page(alloc: Global, status: u16, body: &[u8]) -> Result<Vec<u8>, AllocError> {
    let status = format!(in alloc; "{status} ")?;
    let mut page = text(alloc, status.as_str())?;
    page.extend_from_slice(body.strip_suffix(b"\n").unwrap_or(body))?;
    Ok(page)
}

/// What the byte says that a node answers to a command.
fn verdict(alloc: Global, byte: u8, done: &str) -> Result<Vec<u8>, AllocError> {
    if byte == 0 {
        return text(alloc, done);
    }
    let refused = format!(in alloc; "refused {byte}")?;
    text(alloc, refused.as_str())
}

/// What is printed where memory for it is refused.
fn printed(said: Result<Vec<u8>, AllocError>) -> Result<Vec<u8>, Fault> {
    match said {
        Ok(said) => Ok(said),
        Err(_) => Err(Fault::Socket),
    }
}

/// `start N`.
fn start(alloc: Global, nodes: &mut Nodes<'_>, node: NodeNumber) -> Result<Vec<u8>, Fault> {
    nodes.start(node)?;
    printed(text(alloc, "ready"))
}

/// `ask N PATH`.
fn ask(
    alloc: Global,
    nodes: &mut Nodes<'_>,
    node: NodeNumber,
    path: &str,
) -> Result<Vec<u8>, Fault> {
    let (status, body) = nodes.ask(node, path)?;
    printed(page(alloc, status, body.as_slice()))
}

/// `move N TO`.
fn hand_over(
    alloc: Global,
    nodes: &Nodes<'_>,
    node: NodeNumber,
    to: NodeNumber,
) -> Result<Vec<u8>, Fault> {
    let byte = nodes.hand_over(node, to)?;
    printed(verdict(alloc, byte, "moved"))
}

/// `tick N`.
fn tick(alloc: Global, nodes: &Nodes<'_>, node: NodeNumber) -> Result<Vec<u8>, Fault> {
    let byte = nodes.tick(node)?;
    printed(verdict(alloc, byte, "done"))
}

/// `halt N`.
fn halt(alloc: Global, nodes: &mut Nodes<'_>, node: NodeNumber) -> Result<Vec<u8>, Fault> {
    nodes.halt(node)?;
    printed(text(alloc, "done"))
}

/// `kill N`.
fn kill(alloc: Global, nodes: &mut Nodes<'_>, node: NodeNumber) -> Result<Vec<u8>, Fault> {
    nodes.kill(node)?;
    printed(text(alloc, "killed"))
}

/// Does what a line asks for. What is to be printed of it is given.
fn perform(alloc: Global, nodes: &mut Nodes<'_>, act: Act<'_>) -> Result<Vec<u8>, Fault> {
    match act {
        Act::Start(node) => start(alloc, nodes, node),
        Act::Ask { node, path } => ask(alloc, nodes, node, path),
        Act::Move { node, to } => hand_over(alloc, nodes, node, to),
        Act::Tick(node) => tick(alloc, nodes, node),
        Act::Halt(node) => halt(alloc, nodes, node),
        Act::Kill(node) => kill(alloc, nodes, node),
    }
}

/// A line of the script, and what came of it.
fn report(alloc: Global, line: &str, said: &[u8]) -> Result<Vec<u8>, AllocError> {
    let mut report = text(alloc, line)?;
    report.extend_from_slice(b": ")?;
    report.extend_from_slice(said)?;
    report.extend_from_slice(b"\n")?;
    Ok(report)
}

/// Prints a line of the script, and what came of it.
fn print_report(machine: &HostRuntime, line: &str, said: &[u8]) -> Result<(), Fault> {
    let report = printed(report(machine.alloc(), line, said))?;
    match io::writer(machine).write_all(report.as_slice()) {
        Ok(()) => Ok(()),
        Err(_) => Err(Fault::Socket),
    }
}

/// Runs the lines of a script in order, and prints each with what came of it, up to the first fault.
fn run_lines(
    machine: &HostRuntime,
    nodes: &mut Nodes<'_>,
    lines: &[Line<'_>],
) -> Result<(), Fault> {
    for line in lines {
        let said = perform(machine.alloc(), nodes, line.act)?;
        print_report(machine, line.text, said.as_slice())?;
    }
    Ok(())
}

/// Runs these lines over a cluster. Nodes that still run after the last line, or after a fault, are halted.
fn run_over(
    machine: &HostRuntime,
    words: Words<'_>,
    described: Cluster,
    lines: &[Line<'_>],
) -> Result<(), Fault> {
    let mut nodes = Nodes::new(machine, words, described);
    let ran = run_lines(machine, &mut nodes, lines);
    let halted = nodes.halt_all();
    ran.and(halted)
}

/// What CONFIG describes, and the text of SCRIPT.
fn read_files(machine: &HostRuntime, words: Words<'_>) -> Result<(Cluster, String), Fault> {
    let described = read_cluster(machine, words.config)?;
    let text = read_text(machine, words.script)?;
    Ok((described, text))
}

/// Runs a script over the cluster of a descriptor.
pub fn run_script(machine: &HostRuntime, words: Words<'_>) -> Result<(), Fault> {
    let (described, text) = read_files(machine, words)?;
    let lines = read_script(machine.alloc(), text.as_str())?;
    run_over(machine, words, described, lines.as_slice())
}
