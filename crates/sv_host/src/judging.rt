//! What is found by what another node says of itself: an older copy of a journal, a node that was told of too few, and applications
//! that don't have the same contexts.

ghost use Rattle.std.specs.Prelude.{◌≡◌};
ghost use Rattle.sv_host.specs.Judging as spec;
ghost use Rattle.sv_host.specs.Judging.{is_trusted};

use crate::fault::HostFault;
use sv_log::Event;
use sv_record::{CONTEXTS_LEN, Errand, Greeting};

/// In seconds: so long what a node has said of its sessions is passed on to others, three times as long as it takes to say it again. One
/// that is gone says nothing any more.
const PASSED_ON: u64 = 30;

/// In seconds: so long after a start of it was first heard of, the question that a node asks before it serves may come. It may have waited
/// at the door of this one while this one asked it, say, or stood still.
const LATE: u64 = 30;

/// In seconds: the clocks of two machines that differ by more than that are told of.
const APART: u64 = 5;

/// Why packets of a node aren't taken.
#[derive(Clone, Copy, Debug, PartialEq, Eq)]
pub enum Doubt {
    None,
    /// Its contexts aren't those of this one.
    Contexts,
    /// It says that this is a start of it before one that was heard of, or the next of the copy that said so.
    OlderStart,
}

/// What is known of another node.
#[derive(Clone, Copy, Debug, PartialEq, Eq)]
pub struct Known {
    /// The latest start of it that was heard of, and was none of an older copy's; 0 for none.
    pub start: u64,
    /// When that was first heard of, in seconds by the clock that nobody sets.
    pub since: u64,
    /// That start has asked, as each does before it serves.
    pub has_asked: bool,
    /// The latest start that was one of an older copy's; 0 for none, and once a later start was heard of that was the right one's.
    pub refused: u64,
    pub doubt: Doubt,
    /// Its machine's clock differs from this one's.
    pub is_apart: bool,
    /// It has sessions of nodes below this number, as it said last.
    pub homes: u8,
    /// When it said so, in seconds by the clock that nobody sets.
    pub at: u64,
}

/// Nothing is known yet.
pub const UNKNOWN: Known = Known {
    start: 0,
    since: 0,
    has_asked: false,
    refused: 0,
    doubt: Doubt::None,
    is_apart: false,
    homes: 0,
    at: 0,
};

/// What a node says of itself.
#[derive(Clone, Copy, Debug, PartialEq, Eq)]
pub struct Own {
    pub errand: Errand,
    /// Of how many nodes it was told.
    pub nodes: u8,
    /// It has sessions, or may make some, that are of nodes below this number, and of no others.
    pub homes: u8,
    /// Which start of it this is.
    pub start: u64,
    pub contexts: [u8; CONTEXTS_LEN],
}

impl Doubt {
    pub fn is_none(self) -> bool
        ensures { result ≡ is_trusted self }
    {
        match self {
            Doubt::None => true,
            Doubt::Contexts | Doubt::OlderStart => false,
        }
    }

    pub fn name(self) -> &'static str {
        match self {
            Doubt::None => "None",
            Doubt::Contexts => "Contexts",
            Doubt::OlderStart => "OlderStart",
        }
    }
}

/// There is a context here and another one there.
fn is_clash(one: u8, other: u8) -> bool
    ensures { result ≡ spec.clash one other }
{
    one != other && one != 0 && other != 0
}

/// So it is at one place.
fn differ(here: &[u8; CONTEXTS_LEN], there: &[u8; CONTEXTS_LEN]) -> bool
    ensures { result ≡ spec.differ here.now there.now }
{
    here.iter()
        .zip(there)
        .any(|(one, other)| is_clash(*one, *other))
}

impl Known {
    /// Its latest start may ask yet, though it was heard of by what it has said since.
    fn may_ask(&self, steady: u64) -> bool
        ensures { result ≡ spec.may_ask self.now steady }
    {
        !self.has_asked && steady < self.since.saturating_add(LATE)
    }

    /// A node that asks this before it serves runs over an older copy of its journal: of a start of it nobody has heard yet.
    fn has_begun(&self, start: u64, steady: u64) -> bool
        ensures { result ≡ spec.has_begun self.now start steady }
    {
        start < self.start || (start == self.start && !self.may_ask(steady))
    }

    /// It is the next start of a copy that was refused: each counts one more than the last, until it has overtaken what was heard.
    fn is_next_copy(&self, start: u64) -> bool
        ensures { result ≡ spec.is_next_copy self.now start }
    {
        self.refused != 0 && self.start < start && start == self.refused.saturating_add(1)
    }

    /// A node that says this runs over an older copy of its journal.
    fn is_older(&self, said: &Greeting, steady: u64) -> bool
        ensures { result ≡ spec.is_older self.now said.now steady }
    {
        let is_before = match said.errand {
            Errand::Opening => self.has_begun(said.start, steady),
            Errand::Serving | Errand::Answer | Errand::Look => said.start < self.start,
        };
        is_before || self.is_next_copy(said.start)
    }

    /// What is known of it once it has said this: whether its packets are taken.
    pub fn doubted(self, own: &Own, said: &Greeting, steady: u64) -> Known
        ensures { result ≡ spec.doubted own.now said.now steady self }
    {
        let doubt = doubt_of(own, said, &self, steady);
        Known {
            refused: if doubt == Doubt::OlderStart {
                said.start
            } else {
                self.refused
            },
            doubt,
            ..self
        }
    }

    /// The same of the latest start of it that was none of an older copy's, at this time by the clock that nobody sets.
    fn begun(self, said: &Greeting, steady: u64) -> Known
        ensures { result ≡ spec.begun said.now steady self }
    {
        let asks = said.errand == Errand::Opening;
        if self.start < said.start {
            Known {
                start: said.start,
                since: steady,
                has_asked: asks,
                refused: 0,
                ..self
            }
        } else {
            Known {
                has_asked: self.has_asked || (asks && said.start == self.start),
                ..self
            }
        }
    }

    /// The same, unless it is an older copy.
    fn started(self, said: &Greeting, steady: u64) -> Known
        ensures { result ≡ spec.started said.now steady self }
    {
        match self.doubt {
            Doubt::OlderStart => self,
            Doubt::None | Doubt::Contexts => self.begun(said, steady),
        }
    }

    /// And what else, at these times by its machine's clock and by the one that nobody sets.
    pub fn knew(self, said: &Greeting, seconds: u64, steady: u64) -> Known
        ensures { result ≡ spec.knew said.now seconds steady self }
    {
        Known {
            is_apart: seconds.abs_diff(said.clock) > APART,
            homes: said.homes,
            at: steady,
            ..self.started(said, steady)
        }
    }

    /// The highest of this number and of the homes that it has said of late.
    pub fn with_homes(&self, all: u8, steady: u64) -> u8
        ensures { result ≡ spec.with_homes steady all self.now }
    {
        if steady < self.at.saturating_add(PASSED_ON) {
            all.max(self.homes)
        } else {
            all
        }
    }

    /// The latest start that was heard of, as the node is told: one of an older copy's learns of a later one.
    pub fn heard(&self) -> u64
        ensures { result ≡ spec.heard self.now }
    {
        match self.doubt {
            Doubt::OlderStart => self.start.max(self.refused.saturating_add(1)),
            Doubt::None | Doubt::Contexts => self.start,
        }
    }
}

/// Why packets of a node aren't taken that says this.
fn doubt_of(own: &Own, said: &Greeting, known: &Known, steady: u64) -> Doubt
    ensures { result ≡ spec.doubt_of own.now said.now known.now steady }
{
    if known.is_older(said, steady) {
        Doubt::OlderStart
    } else if differ(&own.contexts, &said.contexts) {
        Doubt::Contexts
    } else {
        Doubt::None
    }
}

/// A later start of this node was heard of than is running: its journal is an older copy. While it isn't ready nobody can have heard
/// of this one.
fn is_older(own: &Own, said: &Greeting) -> bool
    ensures { result ≡ spec.own_is_older own.now said.now }
{
    match said.errand {
        Errand::Answer => said.heard >= own.start,
        Errand::Opening | Errand::Serving | Errand::Look => said.heard > own.start,
    }
}

/// Why the node of this number may not go on to which this is said.
pub fn fault_of(node: u8, own: &Own, said: &Greeting) -> Option<HostFault>
    ensures { result ≡ spec.fault_of node own.now said.now }
{
    if is_older(own, said) {
        Some(HostFault::OlderCopy)
    } else if said.homes > own.nodes || said.all_homes > own.nodes {
        Some(HostFault::Untold)
    } else if said.errand == Errand::Answer && said.nodes <= node {
        Some(HostFault::Unannounced)
    } else {
        None
    }
}

/// The event of a fault that was found by what a node said.
pub fn event_of(said: &Greeting, fault: HostFault) -> Event {
    let node = said.from;
    match fault {
        HostFault::OlderCopy => Event::OlderCopy {
            node,
            heard: said.heard,
        },
        HostFault::Untold => Event::Untold {
            node,
            homes: said.all_homes.max(said.homes),
        },
        _ => Event::Unannounced {
            node,
            told: said.nodes,
        },
    }
}
