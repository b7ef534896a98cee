//! How far a connection has come.

ghost use Rattle.std.specs.Prelude.{◌≡◌, []};
ghost use Rattle.sv_net.specs.Exchange.{IsLike, turn_of, unread, unsent};
ghost use Rattle.sv_net.specs.Hearing.{BeginsBy};

use crate::client::Client;
use crate::persistence::Persistence;
use crate::socket::Socket;
use mio::Interest;
use std::alloc::Global;
use sv_log::Phase;
use sv_record::{CONTROL, GREETING, PEER};

/// What is done with a connection once a text is written.
#[derive(Drop)]
pub enum Next {
    Close,
    /// It is closed once the client has sent what it is still sending.
    Part,
    /// Its next request is read.
    Listen(Client),
}

/// A node that has sent a packet, and may send more.
#[derive(Drop)]
pub struct Peer {
    /// Its number: what comes next is of the same node, or the connection is closed.
    pub node: u8,
    /// What has come after its last packet.
    pub bytes: Vec<u8>,
}

/// How far a connection has come.
#[derive(Drop)]
pub enum State {
    /// Nothing has come yet.
    New,
    /// A client whose request isn't whole yet.
    Asking(Client),
    /// A client whose request was answered, and which may have sent the next one along.
    Asked(Client),
    /// A client whose requests were answered, and of whose next one nothing has come since.
    Resting(Client),
    /// The first frame, which isn't whole yet.
    Framing(Vec<u8>),
    /// A greeting, which isn't whole yet.
    Greeting(Vec<u8>),
    /// A node whose packet was taken, and which has sent more along.
    Taken(Peer),
    /// A node whose packets were taken, and of whose next one not all has come.
    Peer(Peer),
    /// A client whose request waits at the node.
    Waiting {
        client: Client,
        head_only: bool,
        /// Its request says that the connection closes after the answer.
        close: bool,
        /// The number under which the node was asked.
        token: u64,
        /// It sends no more, and so may have gone away.
        silent: bool,
    },
    /// A command that the node is given.
    Ordering,
    /// A command that is answered by this byte once its packet is sent or lost.
    Holding(u8),
    /// The rest of a text.
    Saying {
        text: Vec<u8>,
        next: Next,
    },
    /// What a client still sends is read and forgotten, up to so many bytes.
    Parting {
        bytes: usize,
    },
    /// The rest of a packet to a peer, and the place of the command that waits until it is sent or lost.
    Calling {
        to: u8,
        frame: Vec<u8>,
        holder: Option<usize>,
    },
}

/// In seconds: so long a client or a peer may say nothing while it is to say something.
const SILENCE: u64 = 2;

/// In seconds: so long may a request or a frame take to be whole.
const ASKING: u64 = 10;

/// In seconds: so long may a client take to read its answer.
const SAYING: u64 = 30;

/// In seconds: so long may a connection that is kept bring no request.
const RESTING: u64 = 30;

/// In seconds: so long is read what a client goes on sending after its last answer.
const PARTING: u64 = 1;

/// In seconds. A peer is on the same machine: it answers at once, or is not there.
const CALLING: u64 = 1;

/// For ever, as far as a node goes.
const UNBOUNDED: u64 = u64::MAX;

/// Whether a connection is closed where there is no room for another.
#[derive(Clone, Copy, Debug, PartialEq, Eq)]
pub enum Yielding {
    Never,
    /// Where it has been silent for longest.
    BySilence,
    /// Before all others.
    First,
}

/// How a connection is gone on with.
#[derive(Clone, Copy, Debug, PartialEq, Eq)]
pub enum Turn {
    /// By what has come already.
    Serve,
    /// By what is read.
    Read,
    /// By its socket alone.
    Socket,
}

impl Peer {
    /// It has sent a packet, with these bytes after it.
    pub fn taken(self) -> State
        ensures unread { unread result ≡ self.bytes.items }
        ensures unsent { unsent result ≡ [] }
    {
        if self.is_resting() {
            State::Peer(self)
        } else {
            State::Taken(self)
        }
    }

    /// Nothing has come after its last packet.
    pub(crate) fn is_resting(&self) -> bool {
        self.bytes.is_empty()
    }
}

impl State {
    /// How a connection at this state is gone on with.
    pub fn turn(&self) -> Turn
        ensures { result ≡ turn_of self.now }
    {
        match self {
            State::Asked(_) | State::Taken(_) => Turn::Serve,
            State::New
            | State::Asking(_)
            | State::Resting(_)
            | State::Framing(_)
            | State::Greeting(_)
            | State::Peer(_) => Turn::Read,
            State::Waiting { .. }
            | State::Ordering
            | State::Holding(_)
            | State::Saying { .. }
            | State::Parting { .. }
            | State::Calling { .. } => Turn::Socket,
        }
    }

    /// Who sends this byte first is a peer or gives a command, greets, where greetings are taken, or is a client.
    pub(crate) fn begin(alloc: Global, persistence: Persistence, greets: bool, first: u8) -> State
        ensures { BeginsBy greets first result }
    {
        match first {
            PEER | CONTROL => State::Framing(Vec::new(alloc)),
            GREETING if greets => State::Greeting(Vec::new(alloc)),
            _ => State::Asking(Client::new(alloc, persistence)),
        }
    }

    /// A client whose next request is read.
    pub(crate) fn is_heard(&self) -> bool {
        matches!(self, State::Asking(_) | State::Asked(_) | State::Resting(_))
    }

    /// A node whose packets were taken.
    pub(crate) fn is_peer(&self) -> bool {
        matches!(self, State::Taken(_) | State::Peer(_))
    }

    /// What it goes on with may have come already: a client's next request, or a node's next packet.
    pub(crate) fn has_come(&self) -> bool {
        matches!(self, State::Asked(_) | State::Taken(_) | State::Peer(_))
    }

    /// Between two requests or packets: what comes next begins when it comes.
    pub(crate) fn is_between(&self) -> bool {
        match self {
            State::Resting(_) => true,
            State::Peer(peer) => peer.is_resting(),
            _ => false,
        }
    }

    /// Whether it is closed where there is no room for another: its other end is to say or to take something, has been told all, or
    /// may have gone away.
    pub(crate) fn yielding(&self) -> Yielding {
        match self {
            State::New
            | State::Asking(_)
            | State::Asked(_)
            | State::Resting(_)
            | State::Framing(_)
            | State::Greeting(_)
            | State::Taken(_)
            | State::Peer(_)
            | State::Saying { .. }
            | State::Parting { .. }
            | State::Waiting { silent: true, .. } => Yielding::BySilence,
            State::Waiting { silent: false, .. } | State::Ordering | State::Holding(_) => {
                Yielding::Never
            }
            State::Calling { .. } => Yielding::First,
        }
    }

    /// What the poll is to report, if anything.
    pub(crate) fn interest(&self) -> Option<Interest> {
        match self {
            State::New
            | State::Asking(_)
            | State::Asked(_)
            | State::Resting(_)
            | State::Framing(_)
            | State::Greeting(_)
            | State::Taken(_)
            | State::Peer(_)
            | State::Waiting { .. }
            | State::Parting { .. } => Some(Interest::READABLE),
            State::Saying { .. } | State::Calling { .. } => Some(Interest::WRITABLE),
            State::Ordering | State::Holding(_) => None,
        }
    }

    /// How far it has come, as the log has it.
    pub(crate) fn phase(&self) -> Phase {
        match self {
            State::New => Phase::New,
            State::Asking(_) | State::Asked(_) => Phase::Asking,
            State::Resting(_) => Phase::Resting,
            State::Peer(peer) if peer.is_resting() => Phase::Resting,
            State::Framing(_)
            | State::Greeting(_)
            | State::Taken(_)
            | State::Peer(_)
            | State::Ordering
            | State::Holding(_)
            | State::Calling { .. } => { Phase::Framing }
            State::Waiting { .. } => Phase::Waiting,
            State::Saying { .. } => Phase::Saying,
            State::Parting { .. } => Phase::Parting,
        }
    }

    /// A client's request is the node's, and isn't answered.
    pub(crate) fn is_waiting(&self) -> bool {
        matches!(self, State::Waiting { .. })
    }

    /// The state of a client whose request waits, once it sends no more.
    pub(crate) fn silenced(self) -> State
        ensures { IsLike self result }
    {
        match self {
            State::Waiting {
                client,
                head_only,
                close,
                token,
                silent: _,
            } => State::Waiting {
                client,
                head_only,
                close,
                token,
                silent: true,
            },
            other => other,
        }
    }

    /// The state of a packet on its way, once the command at a place waits for it.
    pub(crate) fn held_for(self, place: usize) -> State
        ensures { IsLike self result }
    {
        match self {
            State::Calling {
                to,
                frame,
                holder: _,
            } => State::Calling {
                to,
                frame,
                holder: Some(place),
            },
            other => other,
        }
    }

    /// How many seconds it may take, and how many of them in silence.
    pub(crate) fn patience(&self) -> (u64, u64) {
        match self {
            State::Resting(_) => (RESTING, RESTING),
            State::Peer(peer) if peer.is_resting() => (RESTING, RESTING),
            State::New
            | State::Asking(_)
            | State::Asked(_)
            | State::Framing(_)
            | State::Greeting(_)
            | State::Taken(_)
            | State::Peer(_) => (ASKING, SILENCE),
            State::Waiting { .. } | State::Ordering | State::Holding(_) => (UNBOUNDED, UNBOUNDED),
            State::Saying { .. } => (SAYING, SAYING),
            State::Parting { .. } => (PARTING, PARTING),
            State::Calling { .. } => (CALLING, CALLING),
        }
    }
}
