//! The processes of nodes.

use crate::fault::Fault;
use crate::words::Words;
use std::alloc::Global;
use std::io;
use std::io::{ErrorKind, Read};
use std::process::{Child, Command, Processes, Stdio};
use sv_client::NodeNumber;

/// A node that was started.
pub type Process = Child<<HostRuntime as Processes>::Started>;

/// Adds words after those of a command.
fn add_words(command: &mut Command, words: &[&str]) -> io::Result<()> {
    for word in words {
        command.arg(word)?;
    }
    Ok(())
}

/// The program with these words.
fn command_of(alloc: Global, program: &str, words: &[&str]) -> io::Result<Command> {
    let mut command = Command::new(alloc, program)?;
    match add_words(&mut command, words) {
        Ok(()) => Ok(command),
        Err(error) => Err(error),
    }
}

/// Starts a command, with nothing to read; what it prints is heard.
fn launch(machine: &HostRuntime, mut command: Command) -> io::Result<Process> {
    command
        .stdin(Stdio::null())
        .stdout(Stdio::piped())
        .spawn(machine)
}

/// Starts the program as a node.
fn spawn(machine: &HostRuntime, words: Words<'_>, node: NodeNumber) -> io::Result<Process> {
    let alloc = machine.alloc();
    let number = node.value;
    let journal = format!(in alloc; "{}/j{number}", words.folder)?;
    let number = format!(in alloc; "{number}")?;
    let command = command_of(
        alloc,
        words.node,
        &[words.config, journal.as_str(), number.as_str()],
    )?;
    launch(machine, command)
}

/// Waits for the line `ready` with the node's number.
fn hear_ready(process: &mut Process, node: NodeNumber) -> io::Result<()> {
    let Some(output) = process.stdout.as_mut() else {
        return Err(ErrorKind::NotFound.into());
    };
    let mut said = [0u8; 8];
    output.read_exact(&mut said)?;
    let ready = [b'r', b'e', b'a', b'd', b'y', b' ', b'0' + node.value, b'\n'];
    if said != ready {
        return Err(ErrorKind::InvalidData.into());
    }
    Ok(())
}

/// Ends a process that goes on by itself.
pub fn kill(process: &mut Process) {
    let _ = process.kill();
    let _ = process.wait();
}

/// Starts a node, and waits until it is ready. Its standard output stays open as long as the answer is kept.
pub fn start(machine: &HostRuntime, words: Words<'_>, node: NodeNumber) -> Result<Process, Fault> {
    let Ok(mut process) = spawn(machine, words, node) else {
        return Err(Fault::Process);
    };
    if hear_ready(&mut process, node).is_err() {
        kill(&mut process);
        return Err(Fault::Process);
    }
    Ok(process)
}

/// Waits for the end of a node that was told to halt.
pub fn await_end(process: &mut Process) -> Result<(), Fault> {
    match process.wait() {
        Ok(status) if status.success() => Ok(()),
        _ => Err(Fault::Process),
    }
}
