//! A node that is stopped, and runs again over the disks that it left.

use crate::fixtures::add_letter;
use crate::town::{HALT, Town, host_of, letter_of, live};
use std::net::TcpStream;
use std::process::Abort;
use sv_host::Ended;
use sv_journal::MemoryDisk;
use sv_net::Persistence;
use test_engine::Counter;

/// A client that asks for the session of these two bytes, and one who has the node stop.
fn client_of(rt: &impl Abort, machine: &HostRuntime, town: &Town, named: [u8; 2]) -> TcpStream {
    let client = town.ask(rt, machine, named);
    town.call(rt, machine, HALT);
    client
}

/// A life in which the session of these two bytes is asked for once: the letter of the answer, and what has come of the node.
fn life(
    rt: &impl Abort,
    machine: &HostRuntime,
    town: &Town,
    disks: (MemoryDisk, MemoryDisk),
    named: [u8; 2],
) -> (char, Ended<Counter, MemoryDisk>) {
    let host = host_of(rt, machine, town, Persistence::Single);
    let client = client_of(rt, machine, town, named);
    let (a, b) = disks;
    let ended = live(rt, machine, host, a, b);
    (letter_of(machine.alloc(), &client), ended)
}

/// The disks of a node that was told to stop.
fn disks_of(rt: &impl Abort, ended: Ended<Counter, MemoryDisk>) -> (MemoryDisk, MemoryDisk) {
    assert_eq!(rt; ended.stop.fault(), None, "ended by a fault");
    let Ended { a, b, .. } = ended;
    (a, b)
}

/// The disks of such a life, whose letter is added.
fn push_life(
    rt: &impl Abort,
    machine: &HostRuntime,
    town: &Town,
    text: &mut String,
    disks: (MemoryDisk, MemoryDisk),
    named: [u8; 2],
) -> (MemoryDisk, MemoryDisk) {
    let (letter, ended) = life(rt, machine, town, disks, named);
    add_letter(rt, text, letter);
    disks_of(rt, ended)
}

/// The answers of two lives, whose port can be listened at again at once. The first makes a session, which the second is asked for.
pub fn told(rt: &impl Abort, machine: &HostRuntime) -> String {
    let town = Town::new(rt, machine);
    let mut text = String::new(machine.alloc());
    let disks = (
        MemoryDisk::new(machine.alloc()),
        MemoryDisk::new(machine.alloc()),
    );
    let disks = push_life(rt, machine, &town, &mut text, disks, [0, 9]);
    push_life(rt, machine, &town, &mut text, disks, [0, 1]);
    text
}
