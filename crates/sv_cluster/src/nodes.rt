//! The nodes that a script runs, and the session that it follows.

ghost use Rattle.std.specs.Prelude.{◌<◌, IfSome, vec_len};

use crate::fault::Fault;
use crate::process::{Process, await_end, kill, start};
use crate::reply::read_reply;
use crate::request::write_request;
use crate::words::Words;
use sv_client::{Address, NodeNumber, Session, command, exchange};
use sv_config::Cluster as Described;
use sv_record::Frame;

/// So many seconds beyond its deadline a node may take for an answer.
const SLACK: u64 = 10;

/// A node that runs.
#[derive(Drop)]
struct Running {
    node: NodeNumber,
    process: Process,
}

/// The nodes that a script runs, and the session that it follows.
#[derive(Drop)]
pub struct Nodes<'a> {
    machine: &'a HostRuntime,
    words: Words<'a>,
    described: Described,
    running: Vec<Running>,
    session: Option<Session>,
}

/// Where a node of the cluster is called.
fn address_of(described: &Described, node: NodeNumber) -> Result<Address, Fault> {
    match described.ports.get(usize::from(node.value)) {
        Some(port) => Ok(Address {
            port: *port,
            patience: u64::from(described.deadline) + SLACK,
        }),
        None => Err(Fault::Socket),
    }
}

/// Tells a node to halt.
fn tell_to_halt(
    machine: &HostRuntime,
    described: &Described,
    node: NodeNumber,
) -> Result<(), Fault> {
    match command(machine, address_of(described, node)?, &Frame::Halt)? {
        0 => Ok(()),
        _ => Err(Fault::Socket),
    }
}

impl<'a> Nodes<'a> {
    /// The cluster that is described, of which no node runs yet.
    pub fn new(machine: &'a HostRuntime, words: Words<'a>, described: Described) -> Nodes<'a> {
        Nodes {
            machine,
            words,
            described,
            running: Vec::new(machine.alloc()),
            session: None,
        }
    }

    /// The place of a node among those that run.
    fn place_of(&self, node: NodeNumber) -> Option<usize>
        ensures { IfSome result (λ place. place < vec_len self.now.running) }
    {
        self.running
            .iter()
            .position(|running| running.node.value == node.value)
    }

    /// Where a node that runs is called.
    fn address_of(&self, node: NodeNumber) -> Result<Address, Fault> {
        match self.place_of(node) {
            Some(_) => address_of(&self.described, node),
            None => Err(Fault::Socket),
        }
    }

    /// Starts a node that doesn't run, and waits until it is ready.
    pub fn start(&mut self, node: NodeNumber) -> Result<(), Fault> {
        if self.place_of(node).is_some() {
            return Err(Fault::Process);
        }
        let process = start(self.machine, self.words, node)?;
        match self.running.push(Running { node, process }) {
            Ok(()) => Ok(()),
            Err(mut refused) => {
                kill(&mut refused.value.process);
                Err(Fault::Process)
            }
        }
    }

    /// The request for a path, with the cookie of the session.
    fn request_for(&self, path: &str) -> Result<Vec<u8>, Fault> {
        let mut request = Vec::new(self.machine.alloc());
        match write_request(path, self.session.as_ref(), &mut request) {
            Ok(()) => Ok(request),
            Err(_) => Err(Fault::Socket),
        }
    }

    /// The status and the body of an answer, whose session is the one that is followed from now on.
    fn heard(&mut self, answer: &[u8]) -> Result<(u16, Vec<u8>), Fault> {
        let alloc = self.machine.alloc();
        let Some(reply) = read_reply(alloc, answer) else {
            return Err(Fault::Socket);
        };
        self.session = reply.session.or(self.session);
        match Vec::from_slice(alloc, reply.body) {
            Ok(body) => Ok((reply.status, body)),
            Err(_) => Err(Fault::Socket),
        }
    }

    /// Asks a node for a path, with the cookie of the session. The answer's status and body are given.
    pub fn ask(&mut self, node: NodeNumber, path: &str) -> Result<(u16, Vec<u8>), Fault> {
        let address = self.address_of(node)?;
        let request = self.request_for(path)?;
        let answer = exchange(self.machine, address, request.as_slice())?;
        self.heard(answer.as_slice())
    }

    /// Has a node hand the session over to another. The node's answer is given: 0, or why it refuses.
    pub fn hand_over(&self, node: NodeNumber, to: NodeNumber) -> Result<u8, Fault> {
        let Some(session) = self.session else {
            return Err(Fault::Script);
        };
        let frame = Frame::Move {
            key: session.key,
            to: to.value,
        };
        Ok(command(self.machine, self.address_of(node)?, &frame)?)
    }

    /// Has a node look at the time. The node's answer is given: 0, or why it refuses.
    pub fn tick(&self, node: NodeNumber) -> Result<u8, Fault> {
        Ok(command(self.machine, self.address_of(node)?, &Frame::Tick)?)
    }

    /// Halts a node, and waits for its end.
    pub fn halt(&mut self, node: NodeNumber) -> Result<(), Fault> {
        let Some(place) = self.place_of(node) else {
            return Err(Fault::Socket);
        };
        tell_to_halt(self.machine, &self.described, node)?;
        let mut stopped = self.running.swap_remove(place);
        await_end(&mut stopped.process)
    }

    /// Ends a node by `kill -9`.
    pub fn kill(&mut self, node: NodeNumber) -> Result<(), Fault> {
        let Some(place) = self.place_of(node) else {
            return Err(Fault::Socket);
        };
        let mut ended = self.running.swap_remove(place);
        kill(&mut ended.process);
        Ok(())
    }

    /// Halts each node that still runs; one that can't be told is killed. The first fault is given.
    pub fn halt_all(&mut self) -> Result<(), Fault> {
        let mut ended = Ok(());
        for running in self.running.iter_mut() {
            let halted = match tell_to_halt(self.machine, &self.described, running.node) {
                Ok(()) => await_end(&mut running.process),
                Err(fault) => {
                    kill(&mut running.process);
                    Err(fault)
                }
            };
            ended = ended.and(halted);
        }
        self.running.clear();
        ended
    }
}
