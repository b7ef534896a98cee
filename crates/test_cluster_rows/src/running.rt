//! One node of three, over two disks: its number is 0. A line is an input (`input`) after that number, several with ` & ` between them,
//! which are made durable together (`group`), or one of these.
//!
//! - `at SECOND SECRET`, as for a world.
//! - `compact`, and the length of the journal after it.
//! - `reopen`: the node is stopped, what stands on its disks is told, and it is opened over them.
//! - `reopen-without-b`: the same, with the first byte of the disk B closed between.
//! - `reopen-as NODE RULES`: the node is stopped, and opened over its disks as this one (`rules`). Where it isn't opened, why, and what
//!   stands on its disks then, is told, and it is opened as it was at first.
//!
//! At the end what stands on the disks is told.

ghost use Rattle.std.specs.Prelude.{IfOk};

use crate::fault::RowFault;
use crate::group::{is_group, stepped_together};
use crate::input::input;
use crate::outputs::push_output;
use crate::reopening::{opened_as, reopened, tell_disks};
use crate::rules::setting;
use crate::said::next_part;
use crate::shop::shop;
use crate::words::word;
use crate::worlds::push_row;
use crate::{clock, digits};
use std::alloc::{AllocError, Global};
use sv_journal::MemoryDisk;
use sv_model::{Engine, Moment, Output, Setting, Site};
use sv_node::{Node, NotOpened, OpenFault};
use test_engine::Own;

const SETTING: Setting = Setting {
    node: 0,
    nodes: 3,
    deadline: 30,
    keys: 65_536,
    forget: false,
};

/// The node that runs.
pub type Running<E> = Own<Node<E, MemoryDisk>>;

/// The node over its disks, started once more.
pub fn open<E: Engine + Drop>(
    alloc: Global,
    engine: E,
    a: MemoryDisk,
    b: MemoryDisk,
) -> Result<Running<E>, NotOpened<E, MemoryDisk>>
    requires { E.valid engine }
    ensures { IfOk result (λ n. ⟦<Node<E, MemoryDisk> as Site>⟧.site_valid n.value) }
{
    match Node::open(alloc, engine, a, b, SETTING) {
        Ok(node) => Ok(Own::new(node)),
        Err(refused) => Err(refused),
    }
}

/// What was put out.
pub fn put_out(alloc: Global, outputs: &[Output]) -> Result<String, AllocError> {
    let mut text = String::new(alloc);
    for output in outputs {
        next_part(&mut text)?;
        push_output(&mut text, output)?;
    }
    Ok(text)
}

/// What came of an act: what was put out, or the fault's name.
#[derive(Drop)]
pub enum Deed {
    Done(String),
    Refused(String),
}

/// A node is given an input.
fn stepped<S: Site>(
    alloc: Global,
    site: &mut S,
    moment: Moment,
    token: u64,
    words: &str,
) -> Result<Deed, RowFault>
    requires { S.site_valid site.old }
    ensures { S.site_valid site.new }
{
    let input = input(alloc, token, words)?;
    match site.step(moment, input) {
        Ok(outputs) => Ok(Deed::Done(put_out(alloc, outputs.as_slice())?)),
        Err(fault) => Ok(Deed::Refused(format!(in alloc; "{fault:?}")?)),
    }
}

/// A node is compacted.
fn compacted<E: Engine + Drop>(
    alloc: Global,
    node: &mut Node<E, MemoryDisk>,
) -> Result<Deed, RowFault>
    requires { ⟦<Node<E, MemoryDisk> as Site>⟧.site_valid node.old }
    ensures { ⟦<Node<E, MemoryDisk> as Site>⟧.site_valid node.new }
{
    match node.compact() {
        Ok(()) => Ok(Deed::Done(format!(in alloc; "{} bytes", node.journal_len())?)),
        Err(fault) => Ok(Deed::Refused(format!(in alloc; "{fault:?}")?)),
    }
}

/// An act of a node that runs on.
pub fn acted<E: Engine + Drop>(
    alloc: Global,
    node: &mut Node<E, MemoryDisk>,
    moment: Moment,
    token: u64,
    line: &str,
) -> Result<Deed, RowFault>
    requires { ⟦<Node<E, MemoryDisk> as Site>⟧.site_valid node.old }
    ensures { ⟦<Node<E, MemoryDisk> as Site>⟧.site_valid node.new }
{
    match word(line) {
        ("0", words) if is_group(words) => stepped_together(alloc, node, moment, token, words),
        ("0", words) => stepped(alloc, node, moment, token, words),
        ("compact", _) => compacted(alloc, node),
        _ => Err(RowFault::Kind),
    }
}

/// The same, told.
fn act<E: Engine + Drop>(
    alloc: Global,
    node: Running<E>,
    moment: Moment,
    token: u64,
    line: &str,
    told: &mut String,
) -> Result<Running<E>, RowFault>
    requires { ⟦<Node<E, MemoryDisk> as Site>⟧.site_valid node.value }
    ensures { IfOk result (λ n. ⟦<Node<E, MemoryDisk> as Site>⟧.site_valid n.value) }
{
    let mut node = node;
    match acted(alloc, &mut node.value, moment, token, line)? {
        Deed::Done(said) | Deed::Refused(said) => push_row(told, line, said.as_str())?,
    }
    Ok(node)
}

/// What happens to a node by a line.
fn take<E: Engine + Drop>(
    alloc: Global,
    node: Running<E>,
    moment: Moment,
    token: u64,
    line: &str,
    told: &mut String,
) -> Result<Running<E>, RowFault>
    requires { ⟦<Node<E, MemoryDisk> as Site>⟧.site_valid node.value }
    ensures { IfOk result (λ n. ⟦<Node<E, MemoryDisk> as Site>⟧.site_valid n.value) }
{
    match word(line) {
        ("at", _) => {
            push_row(told, line, "")?;
            Ok(node)
        }
        ("reopen" | "reopen-without-b", _) => reopened(alloc, node, line, told),
        ("reopen-as", words) => opened_as(alloc, node, setting(words)?, line, told),
        _ => act(alloc, node, moment, token, line, told),
    }
}

/// The same, at a moment that the line may change.
fn go_on<E: Engine + Drop>(
    alloc: Global,
    node: Running<E>,
    moment: &mut Moment,
    token: u64,
    line: &str,
    told: &mut String,
) -> Result<Running<E>, RowFault>
    requires { ⟦<Node<E, MemoryDisk> as Site>⟧.site_valid node.value }
    ensures { IfOk result (λ n. ⟦<Node<E, MemoryDisk> as Site>⟧.site_valid n.value) }
{
    *moment = clock::behind(*moment, line)?;
    take(alloc, node, *moment, token, line, told)
}

/// What happens to a node by these lines.
fn live<E: Engine + Drop>(
    alloc: Global,
    node: Running<E>,
    lines: &str,
    told: &mut String,
) -> Result<Running<E>, RowFault>
    requires { ⟦<Node<E, MemoryDisk> as Site>⟧.site_valid node.value }
{
    let mut node = node;
    let mut moment = clock::start();
    for (place, line) in lines.lines().enumerate() {
        node = go_on(alloc, node, &mut moment, place as u64, line, told)?;
    }
    Ok(node)
}

/// What happens to a node by these lines, and what stands on its disks then.
fn live_and_stop<E: Engine + Drop>(
    alloc: Global,
    node: Running<E>,
    lines: &str,
    told: &mut String,
) -> Result<(), RowFault>
    requires { ⟦<Node<E, MemoryDisk> as Site>⟧.site_valid node.value }
{
    let (_, a, b) = live(alloc, node, lines, told)?.into_value().stop();
    Ok(tell_disks(told, alloc, "stop", &a, &b)?)
}

/// A disk with the bytes that digits say.
fn disk(alloc: Global, words: &str) -> Result<MemoryDisk, RowFault> {
    let bytes = digits::bytes(alloc, words)?;
    Ok(MemoryDisk::with(alloc, bytes.as_slice())?)
}

/// Tells why a node was not opened.
fn tell_fault(told: &mut String, alloc: Global, fault: OpenFault) -> Result<(), RowFault> {
    let fault = format!(in alloc; "{fault:?}")?;
    Ok(push_row(told, "open", fault.as_str())?)
}

/// A node with the applications of a name, over a disk A with the bytes of some digits, and what happens to it: `NAME DIGITS`.
pub fn play(alloc: Global, words: &str, lines: &str, told: &mut String) -> Result<(), RowFault> {
    let (name, words) = word(words);
    let a = disk(alloc, words)?;
    let shop = shop(alloc, name)?;
    match open(alloc, shop, a, MemoryDisk::new(alloc)) {
        Ok(node) => live_and_stop(alloc, node, lines, told),
        Err(refused) => tell_fault(told, alloc, refused.fault),
    }
}
