//! Connections to other nodes that are kept.

ghost use Rattle.std.specs.Prelude.{◌≡◌, ◌⊎◌, ◌<◌, [], All, Contains, IfSome, length, position};
ghost use Rattle.sv_net.specs.Bytes.{went_of};
ghost use Rattle.sv_net.specs.Sending.{AreAmong, IsLinkTo, is_to, links_in};

use crate::persistence::Persistence;
use crate::socket::{Sign, Socket};
use mio::net::TcpStream;
use std::alloc::{AllocFailed, Global};
use std::net::SocketAddr;
use std::time::Duration;

/// In seconds: so long a connection is used, and then another is made. So where a program between the nodes is told to do
/// otherwise, the connections of before come to their end.
const AGE: u64 = 10;

/// A connection to a node.
#[derive(Drop)]
pub struct Link {
    pub node: u8,
    pub socket: Socket,
    /// When it was made, by the clock that never goes back.
    since: Duration,
}

/// The connections to other nodes that are kept for what is sent next, at most one a node.
pub struct Links {
    persistence: Persistence,
    links: Vec<Link>,
}

/// By hand, so that the proof of a caller has one step for it.
impl Drop for Links {
    fn drop(self) {
        let Links {
            persistence: _,
            links: _,
        } = self;
    }
}

/// It is to the node of a number.
fn is_to(node: u8, link: &Link) -> bool
    ensures { result ≡ is_to node link.now }
{
    link.node == node
}

/// Where the one to a node stands.
fn position(links: &[Link], node: u8) -> Option<usize>
    ensures position { result ≡ position (is_to node) links.now }
    ensures within { IfSome result (λ at. at < length links.now) }
{
    links.iter().position(|link| is_to(node, link))
}

impl Links {
    pub fn new(alloc: Global, persistence: Persistence) -> Links
        ensures { result.persistence ≡ persistence }
    {
        Links {
            persistence,
            links: Vec::new(alloc),
        }
    }

    /// How many requests a client's connection brings, and whether one to a node is kept.
    pub fn persistence(&self) -> Persistence
        ensures { result ≡ self.now.persistence }
    {
        self.persistence
    }

    /// The connection to a node, whose address this is: the one that is kept, or a new one; none where none can be had.
    pub fn link_to(
        &mut self,
        machine: &HostRuntime,
        node: u8,
        addr: SocketAddr,
        clock: Duration,
    ) -> Option<Link>
        ensures link { IfSome result (IsLinkTo node (links_in self.old)) }
        ensures others { AreAmong (links_in self.old) (links_in self.new) }
    {
        match self.take(node, clock) {
            Some(link) => Some(link),
            None => Some(Link {
                node,
                socket: self.connect(machine, addr)?,
                since: clock,
            }),
        }
    }

    /// A new connection. What is sent on one that is kept doesn't wait for the other end to have acknowledged what was sent before.
    fn connect(&self, machine: &HostRuntime, addr: SocketAddr) -> Option<Socket>
        ensures { IfSome result (λ socket. went_of socket ≡ []) }
    {
        let stream = TcpStream::connect(machine, addr).ok()?;
        if self.persistence == Persistence::Kept {
            stream.set_nodelay(true).ok()?;
        }
        Some(Socket::from(stream))
    }

    /// Takes the connection to a node, where one is kept that isn't too old, and whose other end is still there.
    fn take(&mut self, node: u8, clock: Duration) -> Option<Link>
        ensures link { IfSome result (IsLinkTo node (links_in self.old)) }
        ensures others { AreAmong (links_in self.old) (links_in self.new) }
    {
        let at = position(self.links.as_slice(), node)?;
        let mut link = self.links.swap_remove(at);
        if clock >= link.since.saturating_add(Duration::from_secs(AGE)) {
            return None;
        }
        match link.socket.sign() {
            Sign::Open => Some(link),
            Sign::Ended | Sign::Broken => None,
        }
    }

    /// Keeps a connection on which a packet was sent whole. Where none is to be kept, or there is no memory for it, it is closed.
    pub fn keep(&mut self, link: Link)
        ensures { All (λ other. Contains (links_in self.old) other ⊎ (other ≡ link)) (links_in self.new) }
    {
        let node = link.node;
        let has_one = position(self.links.as_slice(), node).is_some();
        if self.persistence == Persistence::Kept && !has_one {
            let _: Result<(), AllocFailed<Link>> = self.links.push(link);
        }
    }
}
