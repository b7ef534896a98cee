//! A node of three that is stopped, and opened over what it has left on its disks.

ghost use Rattle.std.specs.Prelude.{IfOk};
ghost use Rattle.sv_model.specs.Ranges.{IsSetting};

use crate::disks::{both, closed};
use crate::fault::RowFault;
use crate::running::{Running, open};
use crate::worlds::push_row;
use std::alloc::{AllocError, Global};
use sv_journal::MemoryDisk;
use sv_model::{Engine, Setting, Site};
use sv_node::{Node, NotOpened};
use test_engine::Own;

/// Tells what stands on both disks.
pub fn tell_disks(
    told: &mut String,
    alloc: Global,
    line: &str,
    a: &MemoryDisk,
    b: &MemoryDisk,
) -> Result<(), AllocError> {
    let said = both(alloc, a, b)?;
    push_row(told, line, said.as_str())
}

/// A node that is stopped, and opened over what it left; a disk B whose first byte is closed before isn't read.
pub fn reopened<E: Engine + Drop>(
    alloc: Global,
    node: Running<E>,
    line: &str,
    told: &mut String,
) -> Result<Running<E>, RowFault>
    requires { ⟦<Node<E, MemoryDisk> as Site>⟧.site_valid node.value }
    ensures { IfOk result (λ n. ⟦<Node<E, MemoryDisk> as Site>⟧.site_valid n.value) }
{
    let (engine, a, b) = node.into_value().stop();
    tell_disks(told, alloc, line, &a, &b)?;
    let b = match line {
        "reopen-without-b" => closed(alloc, &b)?,
        _ => b,
    };
    match open(alloc, engine, a, b) {
        Ok(node) => Ok(node),
        Err(_) => Err(RowFault::Start),
    }
}

/// A node that wasn't opened: why, and what stands on its disks.
fn tell_unopened<E: Drop>(
    told: &mut String,
    alloc: Global,
    line: &str,
    refused: &NotOpened<E, MemoryDisk>,
) -> Result<(), AllocError> {
    let fault = refused.fault;
    let disks = both(alloc, &refused.a, &refused.b)?;
    let said = format!(in alloc; "{fault:?}, {disks}")?;
    push_row(told, line, said.as_str())
}

/// A node that was opened.
fn tell_opened<E: Engine + Drop>(
    node: Running<E>,
    line: &str,
    told: &mut String,
) -> Result<Running<E>, RowFault>
    requires { ⟦<Node<E, MemoryDisk> as Site>⟧.site_valid node.value }
    ensures { IfOk result (λ n. ⟦<Node<E, MemoryDisk> as Site>⟧.site_valid n.value) }
{
    push_row(told, line, "opened")?;
    Ok(node)
}

/// A node that wasn't opened is told of, and opened as it was at first.
fn opened_at_last<E: Engine + Drop>(
    alloc: Global,
    refused: NotOpened<E, MemoryDisk>,
    line: &str,
    told: &mut String,
) -> Result<Running<E>, RowFault>
    requires { E.valid refused.engine }
    ensures { IfOk result (λ n. ⟦<Node<E, MemoryDisk> as Site>⟧.site_valid n.value) }
{
    tell_unopened(told, alloc, line, &refused)?;
    match open(alloc, refused.engine, refused.a, refused.b) {
        Ok(node) => Ok(node),
        Err(_) => Err(RowFault::Start),
    }
}

/// A node that is opened over what another setting of it has left.
pub fn opened_as<E: Engine + Drop>(
    alloc: Global,
    node: Running<E>,
    setting: Setting,
    line: &str,
    told: &mut String,
) -> Result<Running<E>, RowFault>
    requires valid { ⟦<Node<E, MemoryDisk> as Site>⟧.site_valid node.value }
    requires setting { IsSetting setting }
    ensures { IfOk result (λ n. ⟦<Node<E, MemoryDisk> as Site>⟧.site_valid n.value) }
{
    let (engine, a, b) = node.into_value().stop();
    match Node::open(alloc, engine, a, b, setting) {
        Ok(node) => tell_opened(Own::new(node), line, told),
        Err(refused) => opened_at_last(alloc, refused, line, told),
    }
}
