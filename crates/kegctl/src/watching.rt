//! Shows figures of nodes as a table, again and again.

use crate::cluster::read_cluster;
use crate::fault::Fault;
use crate::words::Watch;
use std::alloc::Global;
use std::io::{ErrorKind, IsTerminal};
use std::rt::Files;
use std::time::{Duration, SystemTime, UNIX_EPOCH};
use std::{fs, thread};
use sv_watch::{Column, Figures, FiguresFault, Medium, screen_of, table_of};

/// Between two tables, in seconds.
const PAUSE: u64 = 1;

/// What the file at a path says.
fn figures_at<R: Files + AllocGlobal>(rt: &R, path: &str) -> Result<Figures, FiguresFault> {
    match fs::read_to_string(rt, path) {
        Ok(text) => Figures::read(text),
        Err(refused) if refused.kind() == ErrorKind::NotFound => Err(FiguresFault::Missing),
        Err(_) => Err(FiguresFault::Unreadable),
    }
}

/// The same, of one of so many nodes.
fn figures_of<R: Files + AllocGlobal>(
    rt: &R,
    path: &str,
    nodes: usize,
) -> Result<Figures, FiguresFault> {
    match figures_at(rt, path) {
        Ok(figures) if usize::from(figures.node) >= nodes => {
            Err(FiguresFault::Stranger(figures.node))
        }
        found => found,
    }
}

/// Reads each file once more.
fn look(machine: &HostRuntime, columns: &mut [Column<'_>], nodes: usize) {
    for column in columns {
        let found = figures_of(machine, column.path, nodes);
        column.look(found);
    }
}

/// The time in seconds since 1970; the first where the clock can't be read.
fn now(machine: &HostRuntime) -> u64 {
    match SystemTime::now(machine) {
        Ok(now) => match now.duration_since(UNIX_EPOCH) {
            Ok(now) => now.as_secs(),
            Err(_) => 0,
        },
        Err(_) => 0,
    }
}

/// The text of a table as it is written.
fn text_of(machine: &HostRuntime, columns: &[Column<'_>], medium: Medium) -> Result<String, Fault> {
    let table = table_of(machine.alloc(), columns, now(machine), medium)?;
    match medium {
        Medium::Plain => Ok(table),
        Medium::Terminal => Ok(screen_of(machine.alloc(), table.as_str())?),
    }
}

fn draw(machine: &HostRuntime, columns: &[Column<'_>], medium: Medium) -> Result<(), Fault> {
    let text = text_of(machine, columns, medium)?;
    match print!(machine; "{text}") {
        Ok(()) => Ok(()),
        Err(_) => Err(Fault::Output),
    }
}

/// Draws so many tables.
fn draw_all(
    machine: &HostRuntime,
    columns: &mut [Column<'_>],
    nodes: usize,
    count: u64,
) -> Result<(), Fault> {
    let medium = if machine.stdout().is_terminal() {
        Medium::Terminal
    } else {
        Medium::Plain
    };
    for number in 0..count {
        if number > 0 {
            thread::sleep(machine, Duration::from_secs(PAUSE));
        }
        look(machine, columns, nodes);
        draw(machine, columns, medium)?;
    }
    Ok(())
}

/// Why a file wasn't read the last time, if one wasn't.
fn fault_in(columns: &[Column<'_>]) -> Result<(), Fault> {
    for column in columns {
        if let Some(fault) = column.fault {
            return Err(Fault::Figures(fault));
        }
    }
    Ok(())
}

/// A column for each file.
fn columns_of<'a>(alloc: Global, files: &[&'a str]) -> Result<Vec<Column<'a>>, Fault> {
    let mut columns = Vec::new(alloc);
    for path in files {
        columns.push(Column::new(path))?;
    }
    Ok(columns)
}

/// Shows the figures of so many nodes in files, so many times.
fn watch_files(
    machine: &HostRuntime,
    files: &[&str],
    nodes: usize,
    count: u64,
) -> Result<(), Fault> {
    let mut columns = columns_of(machine.alloc(), files)?;
    match draw_all(machine, &mut columns, nodes, count) {
        Ok(()) => fault_in(&columns),
        Err(fault) => Err(fault),
    }
}

/// How many nodes the descriptor at a path has.
fn nodes_in(machine: &HostRuntime, config: &str) -> Result<usize, Fault> {
    match read_cluster(machine, config) {
        Ok(cluster) => Ok(cluster.ports.len()),
        Err(fault) => Err(fault),
    }
}

/// Shows figures of nodes: on a terminal without end, else once, where it isn't said how often.
pub fn watch(machine: &HostRuntime, order: Watch<'_>) -> Result<(), Fault> {
    let often = if machine.stdout().is_terminal() {
        u64::MAX
    } else {
        1
    };
    match nodes_in(machine, order.config) {
        Ok(nodes) => watch_files(machine, &order.files, nodes, order.count.unwrap_or(often)),
        Err(fault) => Err(fault),
    }
}
