//! Runs of this program in which one growth of memory is refused.
//!
//! What refuses it is a library in the C language, `refuse.c`, which stands before the C library's own calls.

use std::io;
use std::process::{Command, Output, Processes};
use test_engine::Own;

/// Processes, and memory.
pub trait Machine: Processes + AllocGlobal {}

impl<R> Machine for R
where
    R: Processes + AllocGlobal,
{}

/// The library, from the folder of the run.
const LIBRARY: &str = "./refuse.so";

/// What one run of a case has left.
#[derive(Drop)]
pub struct Ran {
    /// What it has written.
    pub said: Vec<u8>,
    /// The growth was there, and was refused.
    pub is_refused: bool,
}

fn add_words(command: &mut Command, words: &[&str]) -> io::Result<()> {
    for word in words {
        command.arg(word)?;
    }
    Ok(())
}

fn compiler<M: Machine>(machine: &M) -> io::Result<Own<Command>> {
    let mut command = Own::new(Command::new(machine.alloc(), "cc")?);
    add_words(
        &mut command.value,
        &["-O2", "-shared", "-fPIC", "-o", LIBRARY, "refuse.c"],
    )?;
    Ok(command)
}

/// Makes the library; whether the compiler could.
pub fn compile<M: Machine>(machine: &M) -> io::Result<bool> {
    let mut command = compiler(machine)?;
    Ok(command.value.status(machine)?.success())
}

fn prepare(command: &mut Command, name: &str, growth: &str) -> io::Result<()> {
    add_words(command, &[name])?;
    command.env("LD_PRELOAD", LIBRARY)?;
    command.env("REFUSE", growth)?;
    Ok(())
}

/// The run of a case with a growth refused.
fn case<M: Machine>(
    machine: &M,
    program: &str,
    name: &str,
    growth: &str,
) -> io::Result<Own<Command>> {
    let mut command = Own::new(Command::new(machine.alloc(), program)?);
    prepare(&mut command.value, name, growth)?;
    Ok(command)
}

fn left_by(output: Output) -> Ran {
    let Output {
        status: _,
        stdout,
        stderr,
    } = output;
    Ran {
        said: stdout,
        is_refused: stderr.as_slice() == b"!".as_slice(),
    }
}

/// What a command leaves.
fn left<M: Machine>(machine: &M, command: &mut Command) -> io::Result<Ran> {
    match command.output(machine) {
        Ok(output) => Ok(left_by(output)),
        Err(fault) => Err(fault),
    }
}

/// Runs a case with a growth refused, counted from 1; 0 refuses none.
pub fn run<M: Machine>(machine: &M, program: &str, name: &str, growth: u64) -> io::Result<Ran> {
    let growth = format!(in machine.alloc(); "{growth}")?;
    let mut command = case(machine, program, name, growth.as_str())?;
    left(machine, &mut command.value)
}
