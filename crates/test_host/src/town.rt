//! A cluster of two nodes, of which one runs in a test; the other is a port at which the test listens.

use crate::fixtures::push;
use std::alloc::Global;
use std::io;
use std::io::{Read, Write};
use std::net::{Ipv4Addr, OpenListener, OpenStream, SocketAddr, TcpListener, TcpStream};
use std::os::fd::OwnedFd;
use std::process::Abort;
use std::time::Duration;
use sv_config::Cluster;
use sv_host::{Ended, Host, HostFault, Place, secret_of};
use sv_journal::MemoryDisk;
use sv_net::Persistence;
use test_engine::Counter;

/// How long a test waits for what should be there already, in seconds.
const PATIENCE: u64 = 10;

/// Command 3: the node is to stop.
pub const HALT: &[u8] = b"\xE2\0\0\0\x01\x03";

/// A request that is counted: a session is named by the two bytes of the body.
const COUNT: &[u8] = b"POST /count HTTP/1.1\r\nHost: h\r\nContent-Length: 2\r\n\r\n";

/// The ports of the two nodes.
pub struct Town {
    port: u16,
    pub peer: TcpListener,
}

/// By hand, so that the proof of a test has one step for it.
impl Drop for Town {
    fn drop(self) {
        let Town { port: _, peer: _ } = self;
    }
}

fn local(port: u16) -> SocketAddr {
    SocketAddr::from((Ipv4Addr::LOCALHOST, port))
}

fn listen(rt: &impl Abort, machine: &HostRuntime, port: u16) -> TcpListener {
    TcpListener::bind(machine, local(port)).expect(rt, "a port to listen at")
}

/// One at which nobody is waited for who doesn't come in time.
fn patient(listener: TcpListener) -> io::Result<TcpListener> {
    let socket = TcpStream::from(OwnedFd::from(listener));
    socket.set_read_timeout(Some(Duration::from_secs(PATIENCE)))?;
    Ok(TcpListener::from(OwnedFd::from(socket)))
}

fn port_of(rt: &impl Abort, listener: &TcpListener) -> u16 {
    listener.local_addr().expect(rt, "an address").port()
}

/// All that comes on a connection until its other end is closed.
pub fn heard(alloc: Global, stream: &TcpStream) -> io::Result<Vec<u8>> {
    let mut bytes = Vec::new(alloc);
    let mut reader = stream;
    reader.read_to_end(&mut bytes)?;
    Ok(bytes)
}

/// The engine of a node whose first session has the first secret.
pub fn counter(alloc: Global) -> Counter {
    Counter {
        alloc,
        secret: secret_of(1),
    }
}

/// The last byte of an answer with status 200 and a body of one byte, `D` of the refusal of a request whose deadline has passed, and a
/// dash of anything else.
fn letter_in(bytes: &[u8]) -> char {
    if bytes.starts_with(b"HTTP/1.1 503 ") && bytes.ends_with(b"\r\n\r\n503 Deadline\n") {
        return 'D';
    }
    match bytes.strip_prefix(b"HTTP/1.1 200 OK\r\n") {
        Some([.., b'\r', b'\n', b'\r', b'\n', byte]) => char::from(*byte),
        _ => '-',
    }
}

/// The letter of the answer on a connection; a dash where it was reset.
pub fn letter_of(alloc: Global, client: &TcpStream) -> char {
    match heard(alloc, client) {
        Ok(bytes) => letter_in(bytes.as_slice()),
        Err(_) => '-',
    }
}

/// A node that listens.
pub fn host_at(
    rt: &impl Abort,
    machine: &HostRuntime,
    place: Place,
    persistence: Persistence,
) -> Host {
    Host::at(machine, place, persistence).expect(rt, "a node that listens")
}

/// Node 0, listening.
pub fn host_of(
    rt: &impl Abort,
    machine: &HostRuntime,
    town: &Town,
    persistence: Persistence,
) -> Host {
    host_at(rt, machine, town.place(rt, machine), persistence)
}

/// Has a node on two disks serve all who have connected, the last of whom has it stop.
pub fn live(
    rt: &impl Abort,
    machine: &HostRuntime,
    host: Host,
    a: MemoryDisk,
    b: MemoryDisk,
) -> Ended<Counter, MemoryDisk> {
    match host.run(machine, counter(machine.alloc()), a, b) {
        Ok(ended) => ended,
        Err(_) => panic!(rt; "not opened"),
    }
}

/// The same on two empty disks.
pub fn live_anew(rt: &impl Abort, machine: &HostRuntime, host: Host) -> Ended<Counter, MemoryDisk> {
    let (a, b) = (
        MemoryDisk::new(machine.alloc()),
        MemoryDisk::new(machine.alloc()),
    );
    live(rt, machine, host, a, b)
}

/// The same: why the node has ended.
pub fn serve_all(rt: &impl Abort, machine: &HostRuntime, host: Host) -> Option<HostFault> {
    live_anew(rt, machine, host).stop.fault()
}

/// Has somebody who has connected say this.
pub fn say(rt: &impl Abort, mut stream: &TcpStream, said: &[u8]) {
    stream
        .write_all(said)
        .expect(rt, "a connection to write on");
}

impl Town {
    /// The node's port is one that was free a moment ago.
    pub fn new(rt: &impl Abort, machine: &HostRuntime) -> Town {
        Town {
            port: port_of(rt, &listen(rt, machine, 0)),
            peer: patient(listen(rt, machine, 0)).expect(rt, "a time limit"),
        }
    }

    /// The place of node 0.
    pub fn place(&self, rt: &impl Abort, machine: &HostRuntime) -> Place {
        self.place_with(rt, machine, 30, None)
    }

    /// The ports of both nodes.
    fn ports(&self, rt: &impl Abort, alloc: Global) -> Vec<u16> {
        let mut ports = Vec::new(alloc);
        push(rt, &mut ports, self.port);
        push(rt, &mut ports, port_of(rt, &self.peer));
        ports
    }

    /// The place of node 0, with a deadline in seconds, and with secrets of a file.
    pub fn place_with(
        &self,
        rt: &impl Abort,
        machine: &HostRuntime,
        deadline: u32,
        secrets: Option<String>,
    ) -> Place {
        let cluster = Cluster {
            ports: self.ports(rt, machine.alloc()),
            deadline,
            secrets,
            keys: 65_536,
            forget: false,
        };
        Place::new(machine.alloc(), &cluster, 0).expect(rt, "a place")
    }

    /// Somebody who has connected to the node.
    fn connect(&self, rt: &impl Abort, machine: &HostRuntime) -> TcpStream {
        TcpStream::connect(machine, local(self.port)).expect(rt, "a connection")
    }

    /// Somebody who has connected to the node, and said this.
    pub fn call(&self, rt: &impl Abort, machine: &HostRuntime, said: &[u8]) -> TcpStream {
        let stream = self.connect(rt, machine);
        let patience = Some(Duration::from_secs(PATIENCE));
        stream.set_read_timeout(patience).expect(rt, "a time limit");
        say(rt, &stream, said);
        stream
    }

    /// So many callers who say nothing, and have gone away.
    pub fn pass_by(&self, rt: &impl Abort, machine: &HostRuntime, count: usize) {
        for _ in 0..count {
            let _gone = self.call(rt, machine, b"");
        }
    }

    /// What node 1 was asked first. A fault where nobody asks it in time.
    pub fn asked(&self, alloc: Global) -> io::Result<Vec<u8>> {
        let (caller, _) = self.peer.accept()?;
        caller.set_read_timeout(Some(Duration::from_secs(PATIENCE)))?;
        heard(alloc, &caller)
    }

    /// Has a client ask for the sessions of these two bytes each.
    pub fn count(&self, rt: &impl Abort, client: &TcpStream, named: &[[u8; 2]]) {
        for bytes in named {
            say(rt, client, COUNT);
            say(rt, client, bytes);
        }
    }

    /// A client that asks for the sessions of these two bytes each.
    pub fn ask_all(&self, rt: &impl Abort, machine: &HostRuntime, named: &[[u8; 2]]) -> TcpStream {
        let client = self.call(rt, machine, b"");
        self.count(rt, &client, named);
        client
    }

    /// A client that asks for the session of these two bytes.
    pub fn ask(&self, rt: &impl Abort, machine: &HostRuntime, named: [u8; 2]) -> TcpStream {
        self.ask_all(rt, machine, &[named])
    }
}
