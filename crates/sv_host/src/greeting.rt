//! Greetings on their way: before a node serves, while it does, and the answers to those of others.

ghost use Rattle.std.specs.Prelude.{◌≡◌, IfSome};
ghost use Rattle.sv_host.specs.Serve.{StaysVacant};
ghost use Rattle.sv_host.specs.Stories.{CarryOn};
ghost use Rattle.sv_net.specs.Places.{elsewhere};
ghost use Rattle.sv_model.specs.Keys.{IsNode};
ghost use Rattle.sv_record.specs.Greeting.{IsGreeting};

use crate::fault::HostFault;
use crate::intake::Lifted;
use crate::server::Server;
use std::alloc::AllocFailed;
use std::io::{Read, Write};
use std::net::{OpenStream, SocketAddr, TcpStream};
use std::time::Duration;
use sv_journal::Disk;
use sv_model::NODE_LIMIT;
use sv_net::{Socket, address_of};
use sv_node::Node;
use sv_record::{GREETING_LEN, Greeting, read_greeting, write_greeting};

/// In seconds: so long a node waits for the answer of another before it serves.
const PATIENCE: u64 = 2;

/// A greeting as bytes; none where memory is refused.
fn spelled(server: &Server, greeting: &Greeting) -> Option<Vec<u8>>
    requires { IsGreeting greeting.now }
{
    let mut text = Vec::new(server.alloc);
    write_greeting(greeting, &mut text).ok()?;
    Some(text)
}

/// Takes a greeting that has come, and answers it where it asks. Its connection then ends.
pub fn greeted(server: &mut Server, from: Lifted, said: &Greeting)
    requires { IsGreeting said.now }
    ensures clients { server.new.parked ≡ server.old.parked }
    ensures vacant { StaysVacant from.place server.old.connections server.new.connections }
    ensures others { elsewhere from.place server.new.connections ≡ elsewhere from.place server.old.connections }
{
    let Lifted { place, socket } = from;
    let mut socket = socket;
    let time = server.time;
    if let Some(answer) = server
        .peers
        .hear(said, time, &mut server.connections.report)
        && let Some(mut text) = spelled(server, &answer)
    {
        let _ = socket.write(&mut text);
    }
    server.connections.leave(place);
}

/// The homes of the sessions that a node has: they are below this number.
fn homes_of<E, D: Disk>(node: &Node<E, D>) -> u8 {
    u8::try_from(node.census().homes).unwrap_or(u8::MAX)
}

/// Greets another node.
fn greet(machine: &HostRuntime, server: &mut Server, to: u8, addr: SocketAddr)
    requires { IsNode to }
    ensures clients { server.new.parked ≡ server.old.parked }
    ensures carried { CarryOn server.old.connections server.new.connections }
{
    let time = server.time;
    if let Some(greeting) = server.peers.greeting(to, time) {
        server.connections.greet(machine, addr, &greeting);
    }
}

/// Where a node listens that is to be greeted.
fn other(server: &Server, to: u8) -> Option<SocketAddr> {
    if !server.peers.greets(to) {
        return None;
    }
    address_of(server.ports.as_slice(), to)
}

/// Greets the others where it is time, and says why the node may not go on, if it may not.
pub fn greet_in_time<E, D: Disk>(
    machine: &HostRuntime,
    server: &mut Server,
    node: &Node<E, D>,
) -> Option<HostFault>
    ensures clients { server.new.parked ≡ server.old.parked }
    ensures carried { CarryOn server.old.connections server.new.connections }
{
    if server.peers.is_due(server.time.steady_seconds()) {
        server.peers.serve(homes_of(node));
        for to in 0..NODE_LIMIT {
            if let Some(addr) = other(server, to) {
                greet(machine, server, to, addr);
            }
        }
    }
    server.peers.fault()
}

/// Asks a node; none where it can't be reached.
fn ask(machine: &HostRuntime, addr: SocketAddr, text: &[u8]) -> Option<TcpStream> {
    let patience = Duration::from_secs(PATIENCE);
    let mut stream = TcpStream::connect_timeout(machine, &addr, patience).ok()?;
    stream.set_read_timeout(Some(patience)).ok()?;
    stream.write_all(text).ok()?;
    Some(stream)
}

/// What it answers; none where it says nothing in time, or nothing that nodes say.
fn answer(stream: &mut TcpStream) -> Option<Greeting>
    ensures { IfSome result IsGreeting }
{
    let mut text = [0; GREETING_LEN];
    if stream.read_exact(&mut text).is_err() {
        return None;
    }
    match read_greeting(&text) {
        Ok(said) => Some(said),
        Err(_) => None,
    }
}

/// Asks each of the others; those that were reached.
fn ask_each(machine: &HostRuntime, server: &Server) -> Vec<TcpStream> {
    let time = server.time;
    let mut streams = Vec::new(server.alloc);
    for to in 0..NODE_LIMIT {
        if let Some(addr) = other(server, to)
            && let Some(greeting) = server.peers.greeting(to, time)
            && let Some(text) = spelled(server, &greeting)
            && let Some(stream) = ask(machine, addr, text.as_slice())
        {
            let _: Result<(), AllocFailed<TcpStream>> = streams.push(stream);
        }
    }
    streams
}

/// Takes what each has answered.
fn hear_each(server: &mut Server, streams: Vec<TcpStream>) {
    let time = server.time;
    for stream in streams {
        let mut stream = stream;
        if let Some(said) = answer(&mut stream) {
            let _none = server
                .peers
                .hear(&said, time, &mut server.connections.report);
        }
    }
}

/// Asks the others before the node serves, where it greets them: first all of them, and then each for its answer. Why it may not go
/// on, if it may not. Of one that doesn't answer nothing is known.
pub fn ask_all<E, D: Disk>(
    machine: &HostRuntime,
    server: &mut Server,
    node: &Node<E, D>,
) -> Option<HostFault> {
    if !server.peers.is_greeting() {
        return None;
    }
    // The journal may have taken a while to be read.
    let _now = server.now(machine);
    server.peers.open(node.boot(), homes_of(node));
    server.connections.take_greetings();
    let streams = ask_each(machine, server);
    hear_each(server, streams);
    server.peers.fault()
}
