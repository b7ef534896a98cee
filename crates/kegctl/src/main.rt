//! The program `kegctl`: what an operator of nodes has in hand. `kegctl --help` says what it does.
//!
//! Journals are read and never written, also beside a node that runs; those that it makes are new. Commands go to a node's port on the loopback address. A fault
//! prints a line on standard error, and the exit status tells of what kind it is.
#![tactic(auto)]

mod cluster;
mod commands;
mod draining;
mod fault;
mod gone;
mod greetings;
mod health;
mod init;
mod journal;
mod limit;
mod offered;
mod orders;
mod program;
mod room;
mod route;
mod status;
mod stopping;
mod taker;
mod watching;
mod whose;
mod words;

use fault::Fault;
use std::env;
use std::process::ExitCode;
use words::{Asked, read_words};

/// The words, with the program's name in front.
fn words_of(rt: &HostRuntime) -> Result<Vec<String>, Fault> {
    let Ok(args) = env::args(rt) else {
        return Err(Fault::Arguments("a word is no UTF-8"));
    };
    let mut words = Vec::new(rt.alloc());
    for word in args {
        words.push(word)?;
    }
    Ok(words)
}

/// Does what the words ask for; the exit status.
fn run(rt: &HostRuntime) -> Result<u8, Fault> {
    let words = words_of(rt)?;
    match read_words(rt.alloc(), &words)? {
        Asked::Order(order) => {
            orders::carry_out(rt, order)?;
            Ok(0)
        }
        Asked::Said(said) => match said.print(rt) {
            Ok(()) => Ok(if said.exit_code() == 0 { 0 } else { 2 }),
            Err(_) => Err(Fault::Output),
        },
    }
}

fn main(rt: HostRuntime) -> ExitCode {
    match run(&rt) {
        Ok(status) => ExitCode::from(status),
        Err(fault) => {
            let _ = eprintln!(rt; "kegctl: {fault}");
            ExitCode::from(fault.status())
        }
    }
}
