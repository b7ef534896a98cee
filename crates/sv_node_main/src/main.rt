//! The program `node`: serves servlets over HTTP/1.1.
//!
//! `node --once CONFIG NOW` serves standard input to its end on one node that stands alone, at the moment NOW in
//! whole seconds since 1970, and writes the responses to standard output. CONFIG is the path of a descriptor, whose
//! names stand for the samples of `sv_samples`, or `-` for the built-in one: the context `/shop` with each sample
//! servlet.
//!
//! `node [OPTION ..] CONFIG JOURNAL NUMBER` runs the node of that number in the cluster of the descriptor: it listens at its
//! port on the loopback address, keeps its sessions in the files JOURNAL and JOURNAL with `.b`, and serves until a command stops
//! it. With `--keep-alive` a client's connection brings many requests, else one. With `--log FILE` it tells there what happens, and
//! with `--metrics FILE` how often.
//!
//! A fault prints one line `node: ` and its name on standard error and ends the program with its status.
#![tactic(auto)]

use std::process::ExitCode;
use sv_launch::launch;
use sv_showcase::showcase;

fn main(rt: HostRuntime) -> ExitCode {
    launch(&rt, "node", &showcase(rt.alloc()))
}
