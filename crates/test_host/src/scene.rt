//! Callers of a node, and what each of them is told.

use crate::expect::expect;
use crate::fixtures::{add, add_bytes, add_letter, push, repeated};
use crate::town::{Town, heard, host_of, say, serve_all};
use crate::{callers, kept, peers};
use std::alloc::Global;
use std::net::{OpenStream, Shutdown, TcpStream};
use std::process::Abort;
use std::rt::Clock;
use std::time::Duration;
use sv_host::Host;
use sv_net::Persistence;

/// Callers of a node, in the order in which they connect, the last of whom has it stop.
pub struct Scene {
    /// What it shows.
    pub name: &'static str,
    pub persistence: Persistence,
    pub all: &'static [Said],
    /// So many connections of the node to the other one are looked at.
    pub connections: u32,
    /// It takes less than so many milliseconds, on a machine that doesn't stand still meanwhile.
    pub most: u64,
    /// What each caller is told, and then what comes on each of those connections, with a bar after.
    pub told: &'static str,
}

/// However long it takes.
pub const LONG: u64 = u64::MAX;

/// How often a scene is tried, which a machine that stands still meanwhile can spoil: a packet isn't sent before the node stops, say.
const TRIES: usize = 20;

/// So many callers are let in in a turn, at most.
const LET_IN: usize = 64;

/// The head of a request that is counted, and whose body of 20,000 bytes names no session: one is made.
const LARGE: &[u8] = b"POST /count HTTP/1.1\r\nHost: h\r\nContent-Length: 20000\r\n\r\n";

/// Node 1 has no session that this node has asked for.
const NO: &[u8] = b"\xE1\0\0\0\x1D\x02\x04\x01\0\x01\0\0\0\0\0\0\0\x02\
    \0\0\0\0\0\0\0\x01\0\0\0\0\0\0\0\x09";

/// Its first session comes at epoch 2, with secret 1, a count of 5, and kept for ever.
pub const GRANT: &[u8] = b"\xE1\0\0\0\x3D\x02\x02\x01\0\x01\0\0\0\0\0\0\0\x01\0\0\0\0\0\0\0\x02\
    \0\0\0\0\0\0\0\0\0\0\0\0\0\0\0\x01\0\0\0\0\0\0\0\0\x05\0\0\0\0\0\0\0\0\xFF\xFF\xFF\xFF\0\0\0";

/// What a caller says.
#[derive(Clone, Copy)]
pub enum Said {
    /// Nothing, and doesn't go away.
    Nothing,
    /// Nothing, and goes away, so many turns' worth of callers: whoever connects after them is let in so many turns later.
    Turns(usize),
    /// A frame or a part of one, and no more.
    Frame(&'static [u8]),
    /// So many packets of node 1 on one connection that change nothing, and then its first session with a count of 5.
    Packets(usize),
    /// Requests that are counted, one after the other.
    Counts(&'static [[u8; 2]]),
    /// One such request, and goes away.
    Gone([u8; 2]),
    /// Three times a large request and one that is counted, of the first session of the node.
    Pieces,
}

/// A large request and one that is counted, three times.
fn say_pieces(rt: &impl Abort, machine: &HostRuntime, town: &Town) -> TcpStream {
    let body = repeated(rt, machine.alloc(), b"x", 20_000);
    let caller = town.call(rt, machine, b"");
    for _ in 0..3 {
        say(rt, &caller, LARGE);
        say(rt, &caller, body.as_slice());
        town.count(rt, &caller, &[[0, 1]]);
    }
    caller
}

/// Has somebody say no more.
fn end(rt: &impl Abort, caller: &TcpStream) {
    caller
        .shutdown(Shutdown::Write)
        .expect(rt, "a connection to close");
}

/// A frame, after which nothing is said.
fn say_frame(rt: &impl Abort, machine: &HostRuntime, town: &Town, frame: &[u8]) -> TcpStream {
    let caller = town.call(rt, machine, frame);
    end(rt, &caller);
    caller
}

/// Packets that change nothing, and one that brings a session.
fn say_packets(rt: &impl Abort, machine: &HostRuntime, town: &Town, count: usize) -> TcpStream {
    let caller = town.call(rt, machine, &repeated(rt, machine.alloc(), NO, count));
    say(rt, &caller, GRANT);
    end(rt, &caller);
    caller
}

/// Somebody who has said that; none who has gone away.
fn caller_of(rt: &impl Abort, machine: &HostRuntime, town: &Town, said: Said) -> Option<TcpStream> {
    match said {
        Said::Nothing => Some(town.call(rt, machine, b"")),
        Said::Turns(count) => {
            town.pass_by(rt, machine, count.saturating_mul(LET_IN));
            None
        }
        Said::Frame(frame) => Some(say_frame(rt, machine, town, frame)),
        Said::Packets(count) => Some(say_packets(rt, machine, town, count)),
        Said::Counts(named) => Some(town.ask_all(rt, machine, named)),
        Said::Gone(named) => {
            town.ask_all(rt, machine, &[named]);
            None
        }
        Said::Pieces => Some(say_pieces(rt, machine, town)),
    }
}

/// Adds the first byte of each body among these bytes.
fn push_answers(rt: &impl Abort, text: &mut String, bytes: &[u8]) {
    for window in bytes.windows(5) {
        if let [b'\r', b'\n', b'\r', b'\n', byte] = window {
            add_letter(rt, text, char::from(*byte));
        }
    }
}

/// Adds what a caller was told: the first byte of each answer, or all bytes where no request was said.
fn push_told(rt: &impl Abort, text: &mut String, said: Said, bytes: &[u8]) {
    match said {
        Said::Nothing | Said::Turns(_) | Said::Frame(_) | Said::Packets(_) => {
            add_bytes(rt, text, bytes)
        }
        Said::Counts(_) | Said::Gone(_) | Said::Pieces => push_answers(rt, text, bytes),
    }
}

/// The same, read of the caller's connection.
fn push_heard(rt: &impl Abort, alloc: Global, text: &mut String, said: Said, caller: &TcpStream) {
    let bytes = heard(alloc, caller).expect(rt, "what the caller is told");
    push_told(rt, text, said, bytes.as_slice());
}

/// Adds what each caller was told, with a bar after.
fn push_all(
    rt: &impl Abort,
    alloc: Global,
    text: &mut String,
    all: &[Said],
    callers: &[Option<TcpStream>],
) {
    for (said, caller) in all.iter().zip(callers) {
        if let Some(caller) = caller {
            push_heard(rt, alloc, text, *said, caller);
        }
        add(rt, text, "|");
    }
}

/// Adds what came on the connections that the node has made to the other one, with a bar after each.
fn push_sent(rt: &impl Abort, alloc: Global, text: &mut String, town: &Town, connections: u32) {
    for _ in 0..connections {
        if let Ok(bytes) = town.asked(alloc) {
            add_bytes(rt, text, &bytes);
        }
        add(rt, text, "|");
    }
}

/// All who have said that, in this order.
fn callers_of(
    rt: &impl Abort,
    machine: &HostRuntime,
    town: &Town,
    all: &[Said],
) -> Vec<Option<TcpStream>> {
    let mut callers = Vec::new(machine.alloc());
    for said in all {
        push(rt, &mut callers, caller_of(rt, machine, town, *said));
    }
    callers
}

/// Has a node serve until it is told to stop.
fn serve_to_the_end(rt: &impl Abort, machine: &HostRuntime, host: Host) {
    let fault = serve_all(rt, machine, host);
    assert_eq!(rt; fault, None, "ended by a fault");
}

/// The same, once the node has run.
fn run(
    rt: &impl Abort,
    machine: &HostRuntime,
    town: &Town,
    persistence: Persistence,
    all: &[Said],
) -> Vec<Option<TcpStream>> {
    let host = host_of(rt, machine, town, persistence);
    let callers = callers_of(rt, machine, town, all);
    serve_to_the_end(rt, machine, host);
    callers
}

/// What each caller was told, and what the node has sent.
fn play(rt: &impl Abort, machine: &HostRuntime, scene: &Scene) -> String {
    let town = Town::new(rt, machine);
    let mut text = String::new(machine.alloc());
    let callers = run(rt, machine, &town, scene.persistence, scene.all);
    push_all(
        rt,
        machine.alloc(),
        &mut text,
        scene.all,
        callers.as_slice(),
    );
    push_sent(rt, machine.alloc(), &mut text, &town, scene.connections);
    text
}

/// What is read of the clock that nobody sets.
fn read_clock(rt: &impl Abort, machine: &HostRuntime) -> Duration {
    machine.monotonic().expect(rt, "a clock")
}

/// The same, with a word more where that took too long.
fn timed(rt: &impl Abort, machine: &HostRuntime, scene: &Scene) -> String {
    let begun = read_clock(rt, machine);
    let mut text = play(rt, machine, scene);
    let taken = read_clock(rt, machine).saturating_sub(begun);
    if taken >= Duration::from_millis(scene.most) {
        add(rt, &mut text, "late");
    }
    text
}

/// The same, tried again where it isn't what it should be.
fn tried(rt: &impl Abort, machine: &HostRuntime, scene: &Scene) -> String {
    for _ in 1..TRIES {
        let text = timed(rt, machine, scene);
        if text.as_str() == scene.told {
            return text;
        }
    }
    timed(rt, machine, scene)
}

/// In each scene callers are told what they should be.
fn expect_scenes(rt: &impl Abort, machine: &HostRuntime, scenes: &[Scene]) {
    for scene in scenes {
        let text = tried(rt, machine, scene);
        expect(rt, scene.name, text.as_str(), scene.told);
    }
}

#[test]
fn callers_are_told_what_they_should_be(rt: HostRuntime) {
    expect_scenes(&rt, &rt, &callers::SCENES);
    expect_scenes(&rt, &rt, &peers::SCENES);
    expect_scenes(&rt, &rt, &kept::SCENES);
}
