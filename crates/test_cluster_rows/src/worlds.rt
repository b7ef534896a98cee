//! What happens to a world, a line each: an event (`event`), or one of these.
//!
//! - `at SECOND SECRET`: in which second, and with which secret, what follows happens.
//! - `fill NODE COUNT`: so many requests at a node, for the first session of node 0, the second and so on; and what they have put out,
//!   counted.
//! - `counted EVENT`: an event, and what it has put out, counted.
//! - `install NODE COUNT SHOP RULES`: what a node that is stopped is started with from its next start on: these applications and
//!   rules, and told of so many nodes.

ghost use Rattle.sv_world.specs.Worlds.{IsWorld};

use crate::clock;
use crate::event::event;
use crate::fault::RowFault;
use crate::nodes::{four_nodes, three_nodes};
use crate::rules::rules;
use crate::said::{said, sent};
use crate::shop::ByName;
use crate::words::{number, small, word};
use std::alloc::{AllocError, Global};
use sv_model::{Cause, Engine, Moment, Output};
use sv_world::{Line, World};

/// How many packets, answers and refusals for the time stand among outputs.
#[derive(Clone, Copy)]
struct Counts {
    sent: usize,
    answered: usize,
    late: usize,
}

impl Counts {
    fn with(self, output: &Output) -> Counts {
        let Counts {
            sent,
            answered,
            late,
        } = self;
        match output {
            Output::Send(_) => Counts {
                sent: sent.saturating_add(1),
                answered,
                late,
            },
            Output::Answer { .. } => Counts {
                sent,
                answered: answered.saturating_add(1),
                late,
            },
            Output::Refuse {
                cause: Cause::Deadline,
                ..
            } => Counts {
                sent,
                answered,
                late: late.saturating_add(1),
            },
            _ => self,
        }
    }

    fn with_all(self, outputs: &[Output]) -> Counts {
        let mut counts = self;
        for output in outputs {
            counts = counts.with(output);
        }
        counts
    }
}

/// What these lines have put out, counted, and how many of them have a commit.
fn counted(alloc: Global, trace: &[Line]) -> Result<String, AllocError> {
    let mut counts = Counts {
        sent: 0,
        answered: 0,
        late: 0,
    };
    let mut commits = 0usize;
    for line in trace {
        counts = counts.with_all(line.outputs.as_slice());
        commits = commits.saturating_add(usize::from(line.commit.is_some()));
    }
    let Counts {
        sent,
        answered,
        late,
    } = counts;
    format!(in alloc; "{sent} sent, {answered} answered, {late} late, {commits} commits")
}

/// What the lines from a place on have put out, counted.
fn counted_from<E>(alloc: Global, world: &World<E>, from: usize) -> Result<String, AllocError> {
    match world.trace().get(from..) {
        Some(lines) => counted(alloc, lines),
        None => String::from_str(alloc, "no such lines"),
    }
}

/// What the line at a place says.
fn said_at<E>(alloc: Global, world: &World<E>, place: usize) -> Result<String, AllocError> {
    let trace = world.trace();
    match trace.get(place) {
        Some(line) => said(alloc, sent(&trace[..place]), line),
        None => String::from_str(alloc, "no such line"),
    }
}

/// An event; what it has done, or its fault's name. A request's token is the number of lines before it.
fn happen<E: Engine + Drop>(
    alloc: Global,
    world: &mut World<E>,
    moment: Moment,
    line: &str,
) -> Result<String, RowFault>
    requires { IsWorld E.valid world.old }
    ensures { IsWorld E.valid world.new }
{
    let place = world.trace().len();
    let event = event(alloc, moment, place as u64, line)?;
    match world.step(event) {
        Ok(()) => Ok(said_at(alloc, world, place)?),
        Err(fault) => Ok(format!(in alloc; "{fault:?}")?),
    }
}

/// A request at a node for a session of node 0.
fn ask<E: Engine + Drop>(
    alloc: Global,
    world: &mut World<E>,
    moment: Moment,
    node: &str,
    serial: u64,
) -> Result<(), RowFault>
    requires { IsWorld E.valid world.old }
    ensures { IsWorld E.valid world.new }
{
    let line = format!(in alloc;
        "{node} ask /shop/count 0000{serial:016x}00000000000000000000000000000001"
    )?;
    happen(alloc, world, moment, line.as_str())?;
    Ok(())
}

/// So many requests at a node, each for another session of node 0.
fn fill<E: Engine + Drop>(
    alloc: Global,
    world: &mut World<E>,
    moment: Moment,
    words: &str,
) -> Result<String, RowFault>
    requires { IsWorld E.valid world.old }
    ensures { IsWorld E.valid world.new }
{
    let (node, count) = word(words);
    let count = number(count)?;
    let place = world.trace().len();
    for before in 0..count {
        ask(alloc, world, moment, node, before.saturating_add(1))?;
    }
    Ok(counted_from(alloc, world, place)?)
}

/// A node gets other applications, other rules or another number of nodes; the fault's name, where it doesn't.
fn install<E: ByName + Drop>(
    alloc: Global,
    world: &mut World<E>,
    words: &str,
) -> Result<String, RowFault>
    requires { IsWorld E.valid world.old }
    ensures { IsWorld E.valid world.new }
{
    let (node, words) = word(words);
    let (count, words) = word(words);
    let (name, words) = word(words);
    let engine = E::by_name(alloc, name)?;
    match world.install(small(node)?, engine, rules(words)?, small(count)?) {
        Ok(_) => Ok(String::new(alloc)),
        Err(uninstalled) => Ok(format!(in alloc; "{:?}", uninstalled.fault)?),
    }
}

/// What happens by a line at a moment.
fn happen_at<E: ByName + Drop>(
    alloc: Global,
    world: &mut World<E>,
    moment: Moment,
    line: &str,
) -> Result<String, RowFault>
    requires { IsWorld E.valid world.old }
    ensures { IsWorld E.valid world.new }
{
    let place = world.trace().len();
    match word(line) {
        ("at", _) => Ok(String::new(alloc)),
        ("fill", words) => fill(alloc, world, moment, words),
        ("install", words) => install(alloc, world, words),
        ("counted", words) => {
            happen(alloc, world, moment, words)?;
            Ok(counted_from(alloc, world, place)?)
        }
        _ => happen(alloc, world, moment, line),
    }
}

/// Adds a line, and what came of it.
pub fn push_row(told: &mut String, line: &str, said: &str) -> Result<(), AllocError> {
    told.push('\n')?;
    told.push_str(line)?;
    told.push(':')?;
    if !said.is_empty() {
        told.push(' ')?;
        told.push_str(said)?;
    }
    Ok(())
}

/// What happens by a line, told; the moment of what follows.
fn take<E: ByName + Drop>(
    alloc: Global,
    world: &mut World<E>,
    moment: Moment,
    line: &str,
    told: &mut String,
) -> Result<Moment, RowFault>
    requires { IsWorld E.valid world.old }
    ensures { IsWorld E.valid world.new }
{
    let moment = clock::behind(moment, line)?;
    let said = happen_at(alloc, world, moment, line)?;
    push_row(told, line, said.as_str())?;
    Ok(moment)
}

/// What happens by these lines.
fn happen_all<E: ByName + Drop>(
    alloc: Global,
    world: &mut World<E>,
    lines: &str,
    told: &mut String,
) -> Result<(), RowFault>
    requires { IsWorld E.valid world.old }
{
    let mut moment = clock::start();
    for line in lines.lines() {
        moment = take(alloc, world, moment, line, told)?;
    }
    Ok(())
}

/// A world of three nodes with the applications of a name, and what happens to it: `NAME RULES`.
pub fn play(alloc: Global, words: &str, lines: &str, told: &mut String) -> Result<(), RowFault> {
    let (name, rest) = word(words);
    let mut world = three_nodes(alloc, name, rules(rest)?)?;
    happen_all(alloc, &mut world, lines, told)
}

/// A world of four nodes, none of which was ever started: `NAME RULES`.
pub fn play_unstarted(
    alloc: Global,
    words: &str,
    lines: &str,
    told: &mut String,
) -> Result<(), RowFault> {
    let (name, rest) = word(words);
    let mut world = four_nodes(alloc, name, rules(rest)?)?;
    happen_all(alloc, &mut world, lines, told)
}
