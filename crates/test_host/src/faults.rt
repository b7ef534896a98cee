//! Why a node ends before it is told to.

use crate::files::own_path;
use crate::fixtures::{add, add_letter, push, repeated, text};
use crate::peers::GRANT_AND_WANT;
use crate::town::{Town, host_at, letter_of, serve_all};
use std::fs;
use std::net::TcpStream;
use std::process::Abort;
use sv_host::{HostFault, Place};
use sv_net::Persistence;

/// The first and the second want of node 0 for the first session of node 1, what it says once that has come at epoch 2, and the head of
/// what it sends when it hands the session on, at epoch 3.
const WANT_1: &[u8] = b"\xE1\0\0\0\x1D\x02\x01\0\x01\x01\0\0\0\0\0\0\0\x01\
    \0\0\0\0\0\0\0\x01\0\0\0\0\0\0\0\x01";

const WANT_2: &[u8] = b"\xE1\0\0\0\x1D\x02\x01\0\x01\x01\0\0\0\0\0\0\0\x01\
    \0\0\0\0\0\0\0\x01\0\0\0\0\0\0\0\x02";

const ACK: &[u8] = b"\xE1\0\0\0\x15\x02\x03\0\x01\x01\0\0\0\0\0\0\0\x01\0\0\0\0\0\0\0\x02";

const GIVEN: &[u8] = b"\xE1\0\0\0\x3D\x02\x02\0\x01\x01\0\0\0\0\0\0\0\x01\0\0\0\0\0\0\0\x03";

/// A file of so many secrets.
fn secrets_in(rt: &impl Abort, machine: &HostRuntime, secrets: usize) -> String {
    let path = own_path(rt, machine, "secrets");
    let bytes = repeated(rt, machine.alloc(), b"0123456789abcdef", secrets);
    fs::write(machine, &path, bytes.as_slice()).expect(rt, "a file of secrets");
    path
}

/// The place of node 0, with a deadline in seconds and a file of so many secrets.
fn place_of(
    rt: &impl Abort,
    machine: &HostRuntime,
    town: &Town,
    deadline: u32,
    secrets: usize,
) -> Place {
    let path = secrets_in(rt, machine, secrets);
    town.place_with(rt, machine, deadline, Some(path))
}

/// The clients who ask for the sessions of these two bytes.
fn clients_of(
    rt: &impl Abort,
    machine: &HostRuntime,
    town: &Town,
    named: &[[u8; 2]],
) -> Vec<TcpStream> {
    let mut clients = Vec::new(machine.alloc());
    for bytes in named {
        push(rt, &mut clients, town.ask(rt, machine, *bytes));
    }
    clients
}

/// The name of what has ended a node.
fn name_of(fault: Option<HostFault>) -> &'static str {
    match fault {
        Some(HostFault::Secrets) => "Secrets",
        Some(_) => "another fault",
        None => "no fault",
    }
}

/// Why a node with a deadline in seconds and so many secrets has ended, and the clients who had asked for the sessions of these two
/// bytes.
fn ended(
    rt: &impl Abort,
    machine: &HostRuntime,
    deadline: u32,
    secrets: usize,
    named: &[[u8; 2]],
) -> (Option<HostFault>, Vec<TcpStream>) {
    let town = Town::new(rt, machine);
    let place = place_of(rt, machine, &town, deadline, secrets);
    let host = host_at(rt, machine, place, Persistence::Single);
    let clients = clients_of(rt, machine, &town, named);
    let fault = serve_all(rt, machine, host);
    (fault, clients)
}

/// What has ended such a node, and the letter of each answer.
fn told(
    rt: &impl Abort,
    machine: &HostRuntime,
    deadline: u32,
    secrets: usize,
    named: &[[u8; 2]],
) -> String {
    let (fault, clients) = ended(rt, machine, deadline, secrets, named);
    let mut told = text(rt, machine.alloc(), name_of(fault));
    add(rt, &mut told, " ");
    for client in &clients {
        add_letter(rt, &mut told, letter_of(machine.alloc(), client));
    }
    told
}

/// A node that has one secret serves one request, and ends where it needs another secret, be it for the second request or for the
/// tick where a second has passed. Then the connection of the second may be reset, unread.
pub fn secrets_told(rt: &impl Abort, machine: &HostRuntime) -> String {
    told(rt, machine, 30, 1, &[[0, 9], [0, 9]])
}

/// Nobody calls, and the request that waits is refused once a second has passed. Fourteen secrets are more than the request takes till
/// then: two for itself and a look for its session; as many each time that its session is asked for again, which is four times, after
/// 50, 150, 350 and 750 milliseconds; and two for a look at the time. Then they come to an end, one a second, and the node stops.
pub fn deadline_told(rt: &impl Abort, machine: &HostRuntime) -> String {
    told(rt, machine, 1, 14, &[[1, 1]])
}

/// Adds a star where node 1 was told this next, and else a dash.
fn push_if_told(
    rt: &impl Abort,
    machine: &HostRuntime,
    town: &Town,
    text: &mut String,
    wanted: &[u8],
) {
    let letter = match town.asked(machine.alloc()) {
        Ok(told) if told.starts_with(wanted) => '*',
        _ => '-',
    };
    add_letter(rt, text, letter);
}

/// A node serves two who wait for the first session of node 1, which brings it in the same turn, and wants it back at once. Of 73 secrets
/// four are for these, 65 for looks for whom it can serve, one and then 64, and one is for the want, which is given to the node in a later
/// turn. With the other three it looks at the time, once a second, and then it stops.
pub fn want_told(rt: &impl Abort, machine: &HostRuntime) -> String {
    let town = Town::new(rt, machine);
    let host = host_at(
        rt,
        machine,
        place_of(rt, machine, &town, 30, 73),
        Persistence::Single,
    );
    let clients = clients_of(rt, machine, &town, &[[1, 1], [1, 1]]);
    let _node = town.call(rt, machine, GRANT_AND_WANT);
    let mut text = text(rt, machine.alloc(), name_of(serve_all(rt, machine, host)));
    for client in &clients {
        add_letter(rt, &mut text, letter_of(machine.alloc(), client));
    }
    for wanted in [WANT_1, WANT_2, ACK, GIVEN] {
        push_if_told(rt, machine, &town, &mut text, wanted);
    }
    text
}
