//! What happens at a node that an operator may ask about afterwards.

use crate::level::Level;
use crate::loss::Loss;
use crate::phase::Phase;
use std::fmt;
use sv_model::{Cause, Key, MoveRefusal};

/// A request that is answered 503.
#[derive(Clone, Copy)]
pub struct Refusal {
    pub cause: Cause,
    /// Its number, counted from the start.
    pub number: u64,
    /// The session that it has waited for, if it has waited.
    pub session: Option<Key>,
}

/// What happens at a node. It has no text but names of this repository's own.
#[derive(Clone, Copy)]
pub enum Event {
    /// Somebody was accepted.
    Accepted,
    /// A text was said to a client, whose status is of this class, 1 to 5 (RFC 9110, section 15).
    Answered { class: u8 },
    /// A request is answered 503.
    Refused(Refusal),
    /// What a client has sent is no request that is served; it is answered with a page of this fault's name.
    BadRequest { fault: &'static str },
    /// A connection was closed for somebody who has come.
    GaveWay { phase: Phase },
    /// A connection was closed which took too long.
    Late { phase: Phase },
    /// Somebody who has come can't be accepted: no file is left to the process, or no connection gives way.
    NoRoom,
    /// A packet was sent.
    PacketSent { to: u8 },
    /// A packet was lost, and is sent again.
    PacketLost { to: u8, why: Loss },
    /// A node that was reached before can't be reached.
    PeerSilent { node: u8 },
    /// It is reached again.
    PeerAnswers { node: u8 },
    /// A session is to be handed to a node.
    MoveOrdered { key: Key, to: u8 },
    /// It was.
    Moved,
    /// It wasn't.
    MoveRefused { why: MoveRefusal },
    /// The node is to stop.
    HaltOrdered,
    /// A packet of a peer, or what the node was to do by itself, was left out; it comes again.
    LeftOut { cause: Cause },
    /// A command was left out; who gave it was told so.
    OrderRefused { cause: Cause },
    /// So many steps were taken together.
    Group { steps: u64 },
    /// The journal was written anew; its lengths in bytes.
    Compacted { before: u64, after: u64 },
    /// The journal couldn't be written anew, and goes on as it is.
    NotCompacted { bytes: u64 },
    /// The figures couldn't be written.
    NoFigures,
    /// Another node says that it was started: it is its start of this number.
    PeerStarted { node: u8, start: u64 },
    /// Packets of another node aren't taken.
    PeerRefused { node: u8, why: &'static str },
    /// A packet of it wasn't.
    PacketRefused { from: u8 },
    /// Another node has heard of a later start of this one than this is: the journal is an older copy.
    OlderCopy { node: u8, heard: u64 },
    /// Another node has sessions of nodes below `homes`, and this one was told of fewer nodes.
    Untold { node: u8, homes: u8 },
    /// Another node was told of so few nodes that this one isn't among them.
    Unannounced { node: u8, told: u8 },
    /// The clock of another node's machine differs by so many seconds from this one's.
    ClockDiffers { node: u8, seconds: u64 },
    /// This machine's clock was set ahead, or back.
    ClockSet { way: &'static str, seconds: u64 },
}

/// The name of a reason for which a session isn't moved.
fn refusal_name(why: MoveRefusal) -> &'static str {
    match why {
        MoveRefusal::UnknownKey => "UnknownKey",
        MoveRefusal::NotActive => "NotActive",
        MoveRefusal::BadPeer => "BadPeer",
        MoveRefusal::EpochsSpent => "EpochsSpent",
    }
}

/// A key and its value, with a blank before it.
#[derive(Clone, Copy)]
enum Field {
    None,
    Word(&'static str, &'static str),
    Number(&'static str, u64),
    Session(Key),
}

impl fmt::Display for Field {
    fn fmt<W: fmt::Write>(&self, f: &mut fmt::Formatter<W>) -> fmt::Result {
        match *self {
            Field::None => Ok(()),
            Field::Word(key, value) => write!(f, " {key}={value}"),
            Field::Number(key, value) => write!(f, " {key}={value}"),
            Field::Session(Key { home, serial }) => write!(f, " key={home}.{serial}"),
        }
    }
}

/// A node that something is said of.
fn of(node: u8) -> Field {
    Field::Number("node", u64::from(node))
}

fn to(node: u8) -> Field {
    Field::Number("to", u64::from(node))
}

/// What lines of a second are equal by.
#[derive(Clone, Copy, PartialEq, Eq)]
pub struct Sort {
    what: &'static str,
    word: &'static str,
    node: u8,
}

/// In seconds: a line that may be written each second.
const OFTEN: u64 = 1;

/// The same of what a node does again and again by itself.
const SELDOM: u64 = 60;

impl Event {
    /// How many seconds pass, at least, between two lines of its like.
    pub fn pause(self) -> u64 {
        match self {
            Event::PacketLost { .. } | Event::PacketRefused { .. } | Event::LeftOut { .. } =>
                SELDOM,
            _ => OFTEN,
        }
    }

    /// It may say that something happens no more.
    pub fn ends_something(self) -> bool {
        matches!(self, Event::PeerAnswers { .. })
    }

    /// It says that another event happens no more: no packet is lost on its way to a node that is reached again.
    pub fn ends(self, other: Event) -> bool {
        match (self, other) {
            (Event::PeerAnswers { node }, Event::PacketLost { to, .. }) => node == to,
            _ => false,
        }
    }

    /// How much it matters; none where the log has no line for it, as it happens all the time.
    pub fn level(self) -> Option<Level> {
        match self {
            Event::Accepted
            | Event::Answered { .. }
            | Event::PacketSent { .. }
            | Event::Group { .. } => None,
            Event::PeerAnswers { .. }
            | Event::MoveOrdered { .. }
            | Event::Moved
            | Event::HaltOrdered
            | Event::PeerStarted { .. }
            | Event::Compacted { .. } => Some(Level::Info),
            Event::OlderCopy { .. } | Event::Untold { .. } | Event::Unannounced { .. } => {
                Some(Level::Error)
            }
            _ => Some(Level::Warn),
        }
    }

    /// What the line says that has happened.
    fn what(self) -> &'static str {
        match self {
            Event::Accepted => "accepted",
            Event::Answered { .. } => "answered",
            Event::Refused(_) => "request_refused",
            Event::BadRequest { .. } => "bad_request",
            Event::GaveWay { .. } => "client_gave_way",
            Event::Late { .. } => "client_late",
            Event::NoRoom => "no_room",
            Event::PacketSent { .. } => "packet_sent",
            Event::PacketLost { .. } => "packet_lost",
            Event::PeerSilent { .. } => "peer_silent",
            Event::PeerAnswers { .. } => "peer_answers",
            Event::MoveOrdered { .. } => "move_ordered",
            Event::Moved => "moved",
            Event::MoveRefused { .. } => "move_refused",
            Event::HaltOrdered => "halt_ordered",
            Event::LeftOut { .. } => "input_left_out",
            Event::OrderRefused { .. } => "order_refused",
            Event::Group { .. } => "group",
            Event::Compacted { .. } => "compacted",
            Event::NotCompacted { .. } => "not_compacted",
            Event::NoFigures => "figures_unwritten",
            Event::PeerStarted { .. } => "peer_started",
            Event::PeerRefused { .. } => "peer_refused",
            Event::PacketRefused { .. } => "packet_refused",
            Event::OlderCopy { .. } => "older_copy",
            Event::Untold { .. } => "untold_nodes",
            Event::Unannounced { .. } => "unannounced",
            Event::ClockDiffers { .. } => "clock_differs",
            Event::ClockSet { .. } => "clock_set",
        }
    }

    /// The session that the line says last of it.
    fn session(self) -> Field {
        match self {
            Event::Refused(
                Refusal {
                    session: Some(key),
                    ..
                },
            ) => Field::Session(key),
            _ => Field::None,
        }
    }

    /// What the line says of it before that.
    fn fields(self) -> (Field, Field) {
        match self {
            Event::Refused(Refusal { cause, number, .. }) => (
                Field::Word("cause", cause.name()),
                Field::Number("number", number),
            ),
            Event::LeftOut { cause } | Event::OrderRefused { cause } => {
                (Field::Word("cause", cause.name()), Field::None)
            }
            Event::BadRequest { fault } => (Field::Word("fault", fault), Field::None),
            Event::GaveWay { phase } | Event::Late { phase } => {
                (Field::Word("phase", phase.name()), Field::None)
            }
            Event::PacketSent { to: node } => (to(node), Field::None),
            Event::PacketLost { to: node, why } => (to(node), Field::Word("why", why.name())),
            Event::PeerSilent { node } | Event::PeerAnswers { node } => (of(node), Field::None),
            Event::MoveOrdered { key, to: node } => (Field::Session(key), to(node)),
            Event::MoveRefused { why } => (Field::Word("why", refusal_name(why)), Field::None),
            Event::Compacted { before, after } => (
                Field::Number("before", before),
                Field::Number("after", after),
            ),
            Event::NotCompacted { bytes } => (Field::Number("bytes", bytes), Field::None),
            Event::Answered { class } => { (Field::Number("class", u64::from(class)), Field::None) }
            Event::Group { steps } => (Field::Number("steps", steps), Field::None),
            Event::PeerStarted { node, start } => (of(node), Field::Number("start", start)),
            Event::PeerRefused { node, why } => (of(node), Field::Word("why", why)),
            Event::PacketRefused { from } => (Field::Number("from", u64::from(from)), Field::None),
            Event::OlderCopy { node, heard } => (of(node), Field::Number("heard", heard)),
            Event::Untold { node, homes } => (of(node), Field::Number("homes", u64::from(homes))),
            Event::Unannounced { node, told } => (of(node), Field::Number("told", u64::from(told))),
            Event::ClockDiffers { node, seconds } => (of(node), Field::Number("seconds", seconds)),
            Event::ClockSet { way, seconds } => {
                (Field::Word("way", way), Field::Number("seconds", seconds))
            }
            Event::Accepted
            | Event::NoRoom
            | Event::Moved
            | Event::HaltOrdered
            | Event::NoFigures => { (Field::None, Field::None) }
        }
    }

    /// What its line is known again by.
    pub fn sort(self) -> Sort {
        let (word, node) = self.known_by();
        Sort {
            what: self.what(),
            word,
            node,
        }
    }

    /// What its line is known again by beside what has happened: the event without the numbers that differ each time.
    fn known_by(self) -> (&'static str, u8) {
        match self {
            Event::Refused(Refusal { cause, .. })
            | Event::LeftOut { cause }
            | Event::OrderRefused { cause } => (cause.name(), 0),
            Event::BadRequest { fault } => (fault, 0),
            Event::GaveWay { phase } | Event::Late { phase } => (phase.name(), 0),
            Event::PacketLost { to, why } => (why.name(), to),
            Event::PeerSilent { node }
            | Event::PeerAnswers { node }
            | Event::PeerStarted { node, .. }
            | Event::OlderCopy { node, .. }
            | Event::Untold { node, .. }
            | Event::Unannounced { node, .. }
            | Event::ClockDiffers { node, .. } => ("", node),
            Event::PeerRefused { node, why } => (why, node),
            Event::PacketRefused { from } => ("", from),
            Event::ClockSet { way, .. } => (way, 0),
            Event::MoveOrdered { to, .. } => ("", to),
            Event::MoveRefused { why } => (refusal_name(why), 0),
            _ => ("", 0),
        }
    }
}

impl fmt::Display for Event {
    fn fmt<W: fmt::Write>(&self, f: &mut fmt::Formatter<W>) -> fmt::Result {
        let what = self.what();
        let (first, second) = self.fields();
        let session = self.session();
        write!(f, "{what}{first}{second}{session}")
    }
}
