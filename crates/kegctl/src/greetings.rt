//! What nodes say of themselves, and where they differ.

ghost use Rattle.sv_model.specs.Keys.{IsNode};
ghost use Rattle.sv_record.specs.Greeting.{IsGreeting};

use crate::commands::address;
use std::fmt;
use std::rt::Clock;
use sv_client::{Address, exchange};
use sv_model::NODE_LIMIT;
use sv_record::{CONTEXTS_LEN, Errand, Greeting, read_greeting, write_greeting};

/// In seconds: clocks that differ by more are told of.
const APART: u64 = 5;

/// What a node says of itself, at a moment of this machine's clock in seconds since 1970.
#[derive(Clone, Copy, Debug)]
pub struct TimedGreeting {
    greeting: Greeting,
    clock: u64,
}

/// Where what nodes say doesn't go together.
#[derive(Clone, Copy, Debug)]
pub enum Difference {
    /// A node was told of another number of nodes than the descriptor has.
    Nodes { node: u8, told: u8, nodes: usize },
    /// Two nodes have other contexts than each other at some place.
    Contexts { node: u8, other: u8 },
    /// A node's clock differs from this machine's, in seconds.
    Clock { node: u8, seconds: u64 },
}

impl fmt::Display for TimedGreeting {
    fn fmt<W: fmt::Write>(&self, f: &mut fmt::Formatter<W>) -> fmt::Result {
        let Greeting { start, nodes, .. } = self.greeting;
        write!(f, "start {start}, told of {nodes} nodes")
    }
}

impl fmt::Display for Difference {
    fn fmt<W: fmt::Write>(&self, f: &mut fmt::Formatter<W>) -> fmt::Result {
        match *self {
            Difference::Nodes { node, told, nodes } => write!(
                f,
                "node {node} was told of {told} nodes, and the descriptor has {nodes}"
            ),
            Difference::Contexts { node, other } => {
                write!(f, "node {node} has other contexts than node {other}")
            }
            Difference::Clock { node, seconds } => write!(
                f,
                "the clock of node {node} differs from this machine's by {seconds} seconds"
            ),
        }
    }
}

/// What somebody asks a node, in the name of another or of itself: it takes nothing of it for said by that one.
fn question(from: u8, to: u8) -> Greeting
    requires in_the_name { IsNode from }
    requires asked { IsNode to }
    ensures { IsGreeting result }
{
    Greeting {
        errand: Errand::Look,
        from,
        to,
        nodes: 0,
        homes: 0,
        all_homes: 0,
        start: 0,
        heard: 0,
        clock: 0,
        contexts: [0; CONTEXTS_LEN],
    }
}

/// What a node says of itself; none where it doesn't greet.
pub fn said_by(machine: &HostRuntime, node: usize, port: u16) -> Option<TimedGreeting> {
    let node = u8::try_from(node).ok()?;
    if node >= NODE_LIMIT {
        return None;
    }
    let mut bytes = Vec::new(machine.alloc());
    write_greeting(&question(node, node), &mut bytes).ok()?;
    let answer = exchange(machine, address(port), bytes.as_slice()).ok()?;
    let greeting = read_greeting(answer.as_slice()).ok()?;
    let clock = match machine.since_1970() {
        Ok(time) => time.as_secs(),
        Err(_) => greeting.clock,
    };
    Some(TimedGreeting { greeting, clock })
}

/// Whether a node answers a question that is asked in the name of another: what joins machines lets that through, and no command.
pub fn hears(machine: &HostRuntime, address: Address, from: u8, to: u8) -> bool {
    if from >= NODE_LIMIT || to >= NODE_LIMIT {
        return false;
    }
    let mut bytes = Vec::new(machine.alloc());
    if write_greeting(&question(from, to), &mut bytes).is_err() {
        return false;
    }
    match exchange(machine, address, bytes.as_slice()) {
        Ok(answer) => read_greeting(answer.as_slice()).is_ok(),
        Err(_) => false,
    }
}

impl TimedGreeting {
    /// Where what it says doesn't go with a descriptor of so many nodes.
    pub fn against_nodes(&self, nodes: usize) -> Option<Difference> {
        let Greeting {
            from,
            nodes: told,
            ..
        } = self.greeting;
        if usize::from(told) == nodes {
            return None;
        }
        Some(Difference::Nodes {
            node: from,
            told,
            nodes,
        })
    }

    /// Where its clock is not this machine's.
    pub fn against_clock(&self) -> Option<Difference> {
        let seconds = self.clock.abs_diff(self.greeting.clock);
        if seconds <= APART {
            return None;
        }
        Some(Difference::Clock {
            node: self.greeting.from,
            seconds,
        })
    }

    /// Where it has another context than another node, at a place where both have one.
    pub fn against(&self, other: &TimedGreeting) -> Option<Difference> {
        let (here, there) = (&self.greeting.contexts, &other.greeting.contexts);
        for place in 0..CONTEXTS_LEN {
            if here[place] != there[place] && here[place] != 0 && there[place] != 0 {
                return Some(Difference::Contexts {
                    node: self.greeting.from,
                    other: other.greeting.from,
                });
            }
        }
        None
    }
}
