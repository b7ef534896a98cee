//! Refused memory: of each call that takes memory each growth is refused in turn, as the C library would refuse it.
//!
//! `test_memory NAME` runs one case: it makes what a call needs, makes the call, once more where memory is refused to it, and
//! writes how often memory was refused by name and what stands in the end. `test_memory` alone makes the library of `refuse.c`,
//! runs each case without a refusal and then with each growth refused, and writes a line for each: whether each refusal was
//! answered by name, and whether all then was as if nothing had been refused.
#![tactic(auto)]

mod again;
mod cases;
mod given;
mod judge;
mod refusing;
mod shown;

use again::{Refusals, Unshown};
use std::rt::Env;
use std::{env, io};

/// Runs one case. The line `begin` says that growths count from here on.
fn run_case(rt: &HostRuntime, name: &str) -> io::Result<()> {
    println!(rt; "begin")?;
    let mut refusals = Refusals { count: 0 };
    let shown = cases::shown(rt.alloc(), &mut refusals, name);
    let count = refusals.count;
    match shown {
        Ok(text) => println!(rt; "{count} {text}"),
        Err(Unshown::Memory) => println!(rt; "{count} unprepared"),
        Err(Unshown::Other) => println!(rt;
            "{count} unprepared: another answer than any that a call may give"
        ),
    }
}

/// Runs a case with each growth refused, and tells what came of it.
fn judge_case(rt: &HostRuntime, program: &str, name: &str) -> io::Result<()> {
    let verdict = judge::judge(rt, program, name)?;
    println!(rt; "{name}: {verdict}")
}

/// Runs these cases as processes of this program.
fn judge_all(rt: &HostRuntime, program: &str, names: &[&str]) -> io::Result<()> {
    for name in names {
        judge_case(rt, program, name)?;
    }
    Ok(())
}

/// Runs all cases.
fn run_all(rt: &HostRuntime) -> io::Result<()> {
    if !refusing::compile(rt)? {
        return println!(rt; "refuse.c is not compiled");
    }
    let program = env::current_exe(rt)?;
    judge_all(rt, program.to_str().unwrap_or(""), &cases::NAMES)
}

fn main(rt: HostRuntime) -> io::Result<()> {
    match env::args(&rt)?.skip(1).next() {
        Some(name) => run_case(&rt, name.as_str()),
        None => run_all(&rt),
    }
}
