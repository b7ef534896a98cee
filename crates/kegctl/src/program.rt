//! Asks a node's program whether it would start with a descriptor: it alone knows which servlets, filters and listeners it has.

use crate::fault::{DescriptorFault, Fault};
use std::alloc::Global;
use std::io;
use std::io::Write;
use std::process::{Child, Command, OpenProcess, Output, Processes, Stdio};

/// No request that is served, so that no servlet is called; whoever answers it is a node.
const NO_REQUEST: &[u8] = b"?\r\n\r\n";

/// How each answer of a node begins.
const ANSWER: &[u8] = b"HTTP/1.1 400 ";

/// The program, which is to serve one stream by a descriptor: so it opens no journal and no port.
fn command_of(alloc: Global, program: &str, config: &str) -> io::Result<Command> {
    let mut command = Command::new(alloc, program)?;
    for word in ["--once", config, "0"] {
        command.arg(word)?;
    }
    Ok(command)
}

fn start(
    machine: &HostRuntime,
    mut command: Command,
) -> io::Result<Child<<HostRuntime as Processes>::Started>> {
    command
        .stdin(Stdio::piped())
        .stdout(Stdio::piped())
        .stderr(Stdio::piped())
        .spawn(machine)
}

/// What the program answers to that, and how it ends. One that refuses the descriptor doesn't wait for what it is asked.
fn hear<P: OpenProcess + Drop>(alloc: Global, mut child: Child<P>) -> io::Result<Output> {
    if let Some(mut input) = child.stdin.take() {
        let _ = input.write_all(NO_REQUEST);
    }
    child.wait_with_output(alloc)
}

fn asked(machine: &HostRuntime, program: &str, config: &str) -> io::Result<Output> {
    let command = command_of(machine.alloc(), program, config)?;
    let child = start(machine, command)?;
    hear(machine.alloc(), child)
}

/// Says why the program refuses the descriptor, in its words.
fn say_refusal(machine: &HostRuntime, said: &[u8]) -> Result<(), Fault> {
    let Ok(text) = str::from_utf8(said) else {
        return Err(Fault::Program);
    };
    match println!(machine; "{}", text.trim_end()) {
        Ok(()) => Err(Fault::Descriptor(DescriptorFault::Program)),
        Err(_) => Err(Fault::Output),
    }
}

/// Says what came of it.
fn tell(machine: &HostRuntime, output: &Output) -> Result<(), Fault> {
    if output.stdout.starts_with(ANSWER) {
        return match println!(machine; "the program has all that it names") {
            Ok(()) => Ok(()),
            Err(_) => Err(Fault::Output),
        };
    }
    match output.status.code() {
        Some(3) => say_refusal(machine, &output.stderr),
        _ => Err(Fault::Program),
    }
}

/// Says whether a node's program would start with the descriptor at a path.
pub fn ask_program(machine: &HostRuntime, program: &str, config: &str) -> Result<(), Fault> {
    match asked(machine, program, config) {
        Ok(output) => tell(machine, &output),
        Err(_) => Err(Fault::Program),
    }
}
