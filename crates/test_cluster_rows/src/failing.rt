//! A node's life on two disks, each call of one of which fails in turn.
//!
//! The lines are acts of one node (`running`). For each call of the disk one line is told: which act was refused and how, how it is
//! refused when it is tried once more, and what the node keeps once its disks are opened again, as the records of a snapshot. Where
//! calls that follow one another come to the same, they are counted. At the end no call fails.

ghost use Rattle.std.specs.Prelude.{IfOk};

use crate::clock;
use crate::disks::{generation, records};
use crate::fault::RowFault;
use crate::running::{Deed, Running, acted, open};
use crate::shop::{Shop, shop};
use crate::worlds::push_row;
use std::alloc::{AllocError, Global};
use sv_journal::MemoryDisk;
use sv_model::{Engine, Site};
use sv_node::{Node, NotOpened};

/// The disks are given up after so many calls.
const MANY: u64 = 1000;

/// The name of an act's fault; none where it is done.
fn fault_of<E: Engine + Drop>(
    alloc: Global,
    node: &mut Node<E, MemoryDisk>,
    token: u64,
    line: &str,
) -> Result<Option<String>, RowFault>
    requires { ⟦<Node<E, MemoryDisk> as Site>⟧.site_valid node.old }
    ensures { ⟦<Node<E, MemoryDisk> as Site>⟧.site_valid node.new }
{
    match acted(alloc, node, clock::start(), token, line)? {
        Deed::Done(_) => Ok(None),
        Deed::Refused(fault) => Ok(Some(fault)),
    }
}

/// How an act that was refused is refused when it is tried once more.
fn again<E: Engine + Drop>(
    alloc: Global,
    node: &mut Node<E, MemoryDisk>,
    token: u64,
    line: &str,
    fault: &str,
) -> Result<String, RowFault>
    requires { ⟦<Node<E, MemoryDisk> as Site>⟧.site_valid node.old }
    ensures { ⟦<Node<E, MemoryDisk> as Site>⟧.site_valid node.new }
{
    match fault_of(alloc, node, token, line)? {
        Some(then) => Ok(format!(in alloc; "{line}: {fault}, then {then}")?),
        None => Ok(format!(in alloc; "{line}: {fault}, then done")?),
    }
}

/// Which act is refused first, and how.
fn refusal<E: Engine + Drop>(
    alloc: Global,
    node: &mut Node<E, MemoryDisk>,
    lines: &str,
) -> Result<Option<String>, RowFault>
    requires { ⟦<Node<E, MemoryDisk> as Site>⟧.site_valid node.old }
    ensures { ⟦<Node<E, MemoryDisk> as Site>⟧.site_valid node.new }
{
    for (place, line) in lines.lines().enumerate() {
        if let Some(fault) = fault_of(alloc, node, place as u64, line)? {
            return Ok(Some(again(alloc, node, place as u64, line, fault.as_str())?));
        }
    }
    Ok(None)
}

/// What came of a life: which act was refused first, if one was, and the disks.
#[derive(Drop)]
struct Life {
    refusal: Option<String>,
    a: MemoryDisk,
    b: MemoryDisk,
}

/// A node's life.
fn lived<E: Engine + Drop>(alloc: Global, node: Running<E>, lines: &str) -> Result<Life, RowFault>
    requires { ⟦<Node<E, MemoryDisk> as Site>⟧.site_valid node.value }
{
    let mut node = node;
    let refusal = refusal(alloc, &mut node.value, lines)?;
    let (_, a, b) = node.into_value().stop();
    Ok(Life { refusal, a, b })
}

/// The life of a node that was not opened.
fn unopened<E: Drop>(alloc: Global, refused: NotOpened<E, MemoryDisk>) -> Result<Life, RowFault> {
    let refusal = format!(in alloc; "open: {:?}", refused.fault)?;
    Ok(Life {
        refusal: Some(refusal),
        a: refused.a,
        b: refused.b,
    })
}

/// A life over two disks.
fn live(alloc: Global, a: MemoryDisk, b: MemoryDisk, lines: &str) -> Result<Life, RowFault> {
    match open(alloc, shop(alloc, "built-in")?, a, b) {
        Ok(node) => lived(alloc, node, lines),
        Err(refused) => unopened(alloc, refused),
    }
}

/// A node over disks that work.
fn opened(alloc: Global, a: MemoryDisk, b: MemoryDisk) -> Result<Running<Shop>, RowFault>
    ensures { IfOk result (λ n. ⟦<Node<Shop, MemoryDisk> as Site>⟧.site_valid n.value) }
{
    let (mut a, mut b) = (a, b);
    a.fail_at(0);
    b.fail_at(0);
    match open(alloc, shop(alloc, "built-in")?, a, b) {
        Ok(node) => Ok(node),
        Err(_) => Err(RowFault::Start),
    }
}

/// The disk whose journal has the greater generation.
fn current<'a>(a: &'a MemoryDisk, b: &'a MemoryDisk) -> &'a MemoryDisk {
    if generation(a.bytes()) > generation(b.bytes()) {
        a
    } else {
        b
    }
}

/// What a node keeps, as the records of a snapshot.
fn kept(alloc: Global, node: Running<Shop>) -> Result<String, RowFault>
    requires { ⟦<Node<Shop, MemoryDisk> as Site>⟧.site_valid node.value }
{
    let mut node = node;
    if node.value.compact().is_err() {
        return Err(RowFault::Start);
    }
    let (_, a, b) = node.into_value().stop();
    Ok(records(alloc, current(&a, &b).bytes())?)
}

/// Blank disks, of which one fails at its `k`-th call.
fn disks(alloc: Global, failing: &str, k: u64) -> Result<(MemoryDisk, MemoryDisk), RowFault> {
    let mut a = MemoryDisk::new(alloc);
    let mut b = MemoryDisk::new(alloc);
    match failing {
        "A" => a.fail_at(k),
        "B" => b.fail_at(k),
        _ => return Err(RowFault::Word),
    }
    Ok((a, b))
}

/// What came of a life in which a call of a disk was to fail.
#[derive(Drop)]
enum Tried {
    /// Which act was refused, and what the node keeps then.
    Refused(String),
    /// The call was never made: what the node keeps.
    Done(String),
}

/// A life in which a disk fails at its `k`-th call.
fn with_failure(alloc: Global, failing: &str, k: u64, lines: &str) -> Result<Tried, RowFault> {
    let (a, b) = disks(alloc, failing, k)?;
    let Life { refusal, a, b } = live(alloc, a, b, lines)?;
    let kept = kept(alloc, opened(alloc, a, b)?)?;
    match refusal {
        Some(refusal) => Ok(Tried::Refused(format!(in alloc; "{refusal}; kept {kept}")?)),
        None => Ok(Tried::Done(kept)),
    }
}

/// Calls that follow one another and come to the same.
#[derive(Drop)]
struct Alike {
    calls: u64,
    row: String,
}

/// Tells of calls that came to the same.
fn tell(told: &mut String, alloc: Global, alike: &Alike) -> Result<(), AllocError> {
    if alike.calls == 0 {
        return Ok(());
    }
    let calls = format!(in alloc; "{} calls", alike.calls)?;
    push_row(told, calls.as_str(), alike.row.as_str())
}

/// One more call, which has come to this.
fn with_one(
    told: &mut String,
    alloc: Global,
    alike: Alike,
    row: String,
) -> Result<Alike, AllocError> {
    if alike.row == row {
        let calls = alike.calls.saturating_add(1);
        return Ok(Alike { calls, row });
    }
    tell(told, alloc, &alike)?;
    Ok(Alike { calls: 1, row })
}

/// Tells of the last calls, and of the life in which none failed.
fn tell_end(told: &mut String, alloc: Global, alike: &Alike, kept: &str) -> Result<(), RowFault> {
    tell(told, alloc, alike)?;
    Ok(push_row(told, "no call", kept)?)
}

/// Each call of a disk fails in turn, until all acts are done.
pub fn play(alloc: Global, failing: &str, lines: &str, told: &mut String) -> Result<(), RowFault> {
    let mut alike = Alike {
        calls: 0,
        row: String::new(alloc),
    };
    for k in 1..MANY {
        match with_failure(alloc, failing, k, lines)? {
            Tried::Refused(row) => alike = with_one(told, alloc, alike, row)?,
            Tried::Done(kept) => return tell_end(told, alloc, &alike, kept.as_str()),
        }
    }
    Err(RowFault::Start)
}
