//! What has come on a connection: a request, a frame, or a part of one.

ghost use Rattle.std.specs.Prelude.{◌≡◌, ◌++◌};
ghost use Rattle.sv_net.specs.Hearing.{is_of, Finds, HearsAt, HearsClient, HearsFramer, HearsGreeter, HearsPeer, IsHeard, IsOfPeer};

use crate::client::Client;
use crate::connections::Connections;
use crate::frames::take_in;
use crate::open::Open;
use crate::socket::Socket;
use crate::state::{Peer, State};
use std::alloc::Global;
use std::time::Duration;
use sv_connection::{Received, RequestFault};
use sv_model::Request;
use sv_record::{Frame, GREETING_LEN, Greeting, read_greeting};

/// So many bytes of a connection are read at once: more than most requests and packets have.
pub const PIECE: usize = 16_384;

/// What has come on a connection.
#[derive(Drop)]
pub enum Heard {
    /// Less than a request or a frame.
    More(State),
    /// A request.
    Request {
        client: Client,
        request: Request,
    },
    /// A fault, whose page is to be written.
    Refused {
        client: Client,
        fault: RequestFault,
        head_only: bool,
    },
    /// A frame, and what has come after it.
    Frame {
        frame: Frame,
        rest: Vec<u8>,
    },
    /// A greeting.
    Greeting(Greeting),
    /// Nothing that is served: it is closed.
    Nothing,
}

/// Takes what stands at the front of a client's bytes.
fn hear_client(client: Client, piece: &[u8]) -> Heard
    ensures heard { IsHeard result }
    ensures client { HearsClient client piece.now result }
{
    let mut client = client;
    if client.connection.waiting() {
        return Heard::Nothing;
    }
    match client.connection.receive(piece) {
        Received::Request(request) => Heard::Request {
            client: client.with_piece(piece.len() == PIECE),
            request,
        },
        Received::Refused { fault, head_only } => Heard::Refused {
            client,
            fault,
            head_only,
        },
        Received::More if client.connection.is_empty() => {
            Heard::More(State::Resting(client.at_rest()))
        }
        Received::More => Heard::More(State::Asking(client)),
        Received::Closed => Heard::Nothing,
    }
}

/// Puts a piece after what came before it of a connection's first frame, and takes the frame that is then whole.
fn hear_framer(alloc: Global, bytes: Vec<u8>, piece: &[u8]) -> Heard
    ensures heard { IsHeard result }
    ensures framer { HearsFramer (bytes.items ++ piece.now) result }
{
    let mut bytes = bytes;
    match take_in(alloc, &mut bytes, piece) {
        Ok(Some(frame)) => Heard::Frame { frame, rest: bytes },
        Ok(None) => Heard::More(State::Framing(bytes)),
        Err(_) => Heard::Nothing,
    }
}

/// Puts a piece after what came before it of a greeting, which is all that its connection brings.
fn hear_greeter(bytes: Vec<u8>, piece: &[u8]) -> Heard
    ensures heard { IsHeard result }
    ensures greeter { HearsGreeter (bytes.items ++ piece.now) result }
{
    let mut bytes = bytes;
    if bytes.extend_from_slice(piece).is_err() {
        return Heard::Nothing;
    }
    if bytes.len() < GREETING_LEN {
        return Heard::More(State::Greeting(bytes));
    }
    match read_greeting(bytes.as_slice()) {
        Ok(greeting) => Heard::Greeting(greeting),
        Err(_) => Heard::Nothing,
    }
}

/// It is a packet of the node of this number.
fn is_of(frame: &Frame, node: u8) -> bool
    ensures { result ≡ is_of frame.now node }
{
    match frame {
        Frame::Peer(packet) => packet.sender() == node,
        Frame::Move { .. } | Frame::Tick | Frame::Halt => false,
    }
}

/// The same of a connection that has brought a packet: what else it brings is of the same node, or it is closed.
fn hear_peer(alloc: Global, peer: Peer, piece: &[u8]) -> Heard
    ensures heard { IsHeard result }
    ensures own { IsOfPeer peer.node result }
    ensures peer { HearsPeer (peer.bytes.items ++ piece.now) result }
{
    let Peer { node, mut bytes } = peer;
    match take_in(alloc, &mut bytes, piece) {
        Ok(Some(frame)) if is_of(&frame, node) => Heard::Frame { frame, rest: bytes },
        Ok(None) => Heard::More(State::Peer(Peer { node, bytes })),
        Ok(Some(_)) | Err(_) => Heard::Nothing,
    }
}

impl Connections {
    /// Takes what has come on a connection that is at a state.
    pub fn hear(&self, state: State, piece: &[u8]) -> Heard
        ensures heard { IsHeard result }
        ensures at { HearsAt state piece.now result }
    {
        match state {
            State::Asking(client) | State::Asked(client) | State::Resting(client) => {
                hear_client(client, piece)
            }
            State::Framing(bytes) => hear_framer(self.alloc, bytes, piece),
            State::Greeting(bytes) => hear_greeter(bytes, piece),
            State::Taken(peer) | State::Peer(peer) => hear_peer(self.alloc, peer, piece),
            other => Heard::More(other),
        }
    }

    /// The state of a connection on which this comes.
    fn state_at(&self, state: State, piece: &[u8]) -> State
        ensures { Finds self.now.greets state piece.now result }
    {
        match (state, piece) {
            (State::New, [first, ..]) => {
                State::begin(self.alloc, self.links.persistence(), self.greets, *first)
            }
            (other, _) => other,
        }
    }

    /// A connection on which this comes: its socket, its state, and when that began.
    pub fn begun(&self, open: Open, piece: &[u8]) -> (Socket, State, Duration)
        ensures socket { result.0 ≡ «open».socket }
        ensures state { Finds self.now.greets «open».state piece.now result.1 }
    {
        let (socket, state, since, _) = open.into_parts();
        let since = self.since(&state, since);
        (socket, self.state_at(state, piece), since)
    }
}
