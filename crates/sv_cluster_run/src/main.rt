//! The program `cluster_run`: a cluster of nodes from one script.
//!
//! `cluster_run NODE CONFIG DIR SCRIPT` runs the lines of the file SCRIPT one after the other, and prints each with what
//! came of it. NODE is the program that a node runs, CONFIG the path of a descriptor with the ports of the cluster, and the
//! journal of node N is `DIR/jN`. Lines are
//!
//! - `start N`: starts the node's process, and waits until it says that it is ready; prints `ready`;
//! - `ask N PATH`: asks the node for the path, with the session cookie that was set last; prints the status and the body;
//! - `move N TO`: has the node hand over the session of that cookie to the node TO; prints `moved`, or `refused` and why;
//! - `tick N`: has the node look at the time; prints `done`, or `refused 5`;
//! - `halt N`: halts the node, and waits for the end of its process; prints `done`;
//! - `kill N`: ends the node's process by `kill -9`; prints `killed`.
//!
//! CONFIG and SCRIPT are read whole before the first line is run. Nodes that still run at the end are halted, also after a
//! fault. A fault prints one line `cluster_run: ` and its name on standard error and ends the program with its status.
#![tactic(auto)]

use std::env;
use std::process::ExitCode;
use std::rt::Env;
use sv_cluster::{Fault, read_words, run_script};
use sv_version::version;

const HELP: &str = "\
cluster_run runs a cluster of nodes from a script, and prints each line with what came of it.

    cluster_run NODE CONFIG DIR SCRIPT
    cluster_run --help | --version

    NODE    the program of a node
    CONFIG  the descriptor of the nodes, with their ports
    DIR     the folder of their journals: that of node N is DIR/jN
    SCRIPT  the file of the script, whose lines are

    start N      starts the node, and waits until it is ready
    ask N PATH   asks the node for the path, with the session cookie that was set last; prints the status and the body
    move N TO    has the node hand the session of that cookie over to the node TO
    tick N       has the node do what is due
    halt N       halts the node, and waits for its end
    kill N       ends the node by kill -9

Nodes that still run at the end are halted. Status 0: all lines were run. 2: words. 3: the script or the descriptor.
4: a node didn't start, or didn't end well. 5: a node doesn't answer, or standard output can't be written.
";

/// The words after the program's name.
fn words_of<R: Env + AllocGlobal>(rt: &R) -> Result<Vec<String>, Fault> {
    let mut words = Vec::new(rt.alloc());
    let Ok(args) = env::args(rt) else {
        return Err(Fault::Arguments);
    };
    for word in args.skip(1) {
        if words.push(word).is_err() {
            return Err(Fault::Arguments);
        }
    }
    Ok(words)
}

/// Prints a text.
fn say(rt: &HostRuntime, text: &str) -> Result<(), Fault> {
    match print!(rt; "{text}") {
        Ok(()) => Ok(()),
        Err(_) => Err(Fault::Socket),
    }
}

/// Prints which version the program is.
fn say_version(rt: &HostRuntime) -> Result<(), Fault> {
    let version = version();
    match println!(rt; "cluster_run {version}") {
        Ok(()) => Ok(()),
        Err(_) => Err(Fault::Socket),
    }
}

/// Says what one word asks of the program itself, or runs a script.
fn run(rt: &HostRuntime) -> Result<(), Fault> {
    let words = words_of(rt)?;
    if let [word] = words.as_slice() {
        match word.as_str() {
            "--help" | "-h" => return say(rt, HELP),
            "--version" | "-V" => return say_version(rt),
            _ => {}
        }
    }
    let words = read_words(words.as_slice())?;
    run_script(rt, words)
}

fn main(rt: HostRuntime) -> ExitCode {
    match run(&rt) {
        Ok(()) => ExitCode::SUCCESS,
        Err(fault) => {
            let _ = eprintln!(rt; "cluster_run: {fault}");
            ExitCode::from(fault.status())
        }
    }
}
