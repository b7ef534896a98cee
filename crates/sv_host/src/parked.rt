//! Clients whose requests are the node's, and that aren't answered yet.

ghost use Rattle.std.specs.Prelude.{◌≡◌, ◌++◌, [], ◌∷◌, ◌<◌, IsTrue, IsFalse, IfSome, length, position};
ghost use Rattle.sv_host.specs.Parked.{clients_of, is_under, may_wait, place_under, without, IsFull};

use std::alloc::{AllocFailed, Global};

/// A client that waits for the answer to its request.
#[derive(Clone, Copy, Debug, PartialEq, Eq)]
pub struct ParkedClient {
    /// The number under which the node was asked.
    pub token: u64,
    /// Where its connection stands.
    pub place: usize,
}

/// The clients that wait for their answers: those of the group that is gathered, and those whose requests wait at the node for their
/// sessions. One that has gone away is among them until its request is answered.
#[derive(Drop)]
pub struct ParkedClients {
    clients: Vec<ParkedClient>,
}

/// A client waits under this number.
fn is_under(token: u64, client: &ParkedClient) -> bool
    ensures { result ≡ is_under token client.now }
{
    client.token == token
}

/// Where the first one stands that waits under this number.
fn position(clients: &[ParkedClient], token: u64) -> Option<usize>
    ensures position { result ≡ position (is_under token) clients.now }
    ensures within { IfSome result (λ at. at < length clients.now) }
{
    clients.iter().position(|client| is_under(token, client))
}

impl ParkedClients {
    pub fn new(alloc: Global) -> ParkedClients
        ensures { clients_of result ≡ [] }
    {
        ParkedClients {
            clients: Vec::new(alloc),
        }
    }

    /// Keeps a client until its answer is there; false if memory is refused: then the node isn't to be given its request.
    pub fn add(&mut self, client: ParkedClient) -> bool
        ensures kept { IsTrue result → clients_of self.new ≡ clients_of self.old ++ client ∷ [] }
        ensures refused { IsFalse result → clients_of self.new ≡ clients_of self.old }
        ensures full { IsFalse result → IsFull self.old }
    {
        let kept: Result<(), AllocFailed<ParkedClient>> = self.clients.push(client);
        kept.is_ok()
    }

    /// How many clients wait.
    pub fn len(&self) -> usize
        ensures { result ≡ length (clients_of self.now) }
    {
        self.clients.len()
    }

    /// A request may be waiting at the node.
    pub fn may_wait(&self) -> bool
        ensures { result ≡ may_wait self.now }
    {
        !self.clients.is_empty()
    }

    /// The place of the client that waits under a token, which waits no longer.
    pub fn take(&mut self, token: u64) -> Option<usize>
        ensures place { result ≡ place_under token (clients_of self.old) }
        ensures others { clients_of self.new ≡ without token (clients_of self.old) }
    {
        let at = position(self.clients.as_slice(), token)?;
        Some(self.clients.swap_remove(at).place)
    }
}
