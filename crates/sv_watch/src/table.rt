//! A table of several nodes.

use crate::column::Column;
use crate::row::{ROWS, Row};
use crate::strip::Strip;
use std::alloc::{AllocError, Global};

/// So many columns of the screen a title takes.
const TITLE: usize = 18;

/// How what stands out begins and ends on a terminal: bold, and plain again (ECMA-48, SGR).
const BOLD: &str = "\x1b[1m";

const PLAIN: &str = "\x1b[0m";

/// The terminal's way home, what clears the rest of a line, and what clears the rest of the screen (ECMA-48: CUP, EL, ED).
const HOME: &str = "\x1b[H";

const LINE: &str = "\x1b[K\n";

const REST: &str = "\x1b[J";

/// Where a table is drawn.
#[derive(Clone, Copy, Debug, PartialEq, Eq)]
pub enum Medium {
    /// Lines of text.
    Plain,
    /// What moves is bold.
    Terminal,
}

fn add_blanks(text: &mut String, count: usize) -> Result<(), AllocError> {
    for _ in 0..count {
        text.push_str(" ")?;
    }
    Ok(())
}

/// Adds a text, as one that stands out or not.
fn add_text(out: &mut String, text: &str, stands_out: bool) -> Result<(), AllocError> {
    if !stands_out {
        return out.push_str(text);
    }
    out.push_str(BOLD)?;
    out.push_str(text)?;
    out.push_str(PLAIN)
}

/// Adds a title at the left end of its columns of the screen.
fn add_title(out: &mut String, title: &str) -> Result<(), AllocError> {
    out.push_str(title)?;
    add_blanks(out, TITLE.saturating_sub(title.len()))
}

/// Adds the blanks before a text at the right end of a column of this width.
fn add_gap(out: &mut String, width: usize, text: &str) -> Result<(), AllocError> {
    add_blanks(out, width.saturating_sub(text.len()).saturating_add(2))
}

/// Adds the heading of each column.
fn add_headings(out: &mut String, strips: &[Strip]) -> Result<(), AllocError> {
    add_title(out, "")?;
    for strip in strips {
        let heading = strip.heading.as_str();
        add_gap(out, strip.width, heading)?;
        out.push_str(heading)?;
    }
    out.push_str("\n")
}

/// Adds the cell of a column in the row at this place.
fn add_cell(out: &mut String, strip: &Strip, at: usize, medium: Medium) -> Result<(), AllocError> {
    let Some(cell) = strip.cells.get(at) else {
        return Ok(());
    };
    let text = cell.text.as_str();
    add_gap(out, strip.width, text)?;
    add_text(out, text, cell.stands_out && medium == Medium::Terminal)
}

/// Adds the row at this place.
fn add_row(
    out: &mut String,
    title: &str,
    strips: &[Strip],
    at: usize,
    medium: Medium,
) -> Result<(), AllocError> {
    add_title(out, title)?;
    for strip in strips {
        add_cell(out, strip, at, medium)?;
    }
    out.push_str("\n")
}

fn add_rows(
    out: &mut String,
    rows: &[Row],
    strips: &[Strip],
    medium: Medium,
) -> Result<(), AllocError> {
    for (at, row) in rows.iter().enumerate() {
        add_row(out, row.title, strips, at, medium)?;
    }
    Ok(())
}

/// The columns of the nodes whose figures are known.
fn strips_of(
    alloc: Global,
    rows: &[Row],
    columns: &[Column<'_>],
    now: u64,
) -> Result<Vec<Strip>, AllocError> {
    let mut strips = Vec::new(alloc);
    for column in columns {
        if let Some(figures) = &column.latest {
            strips.push(Strip::new(alloc, rows, column, figures.node, now)?)?;
        }
    }
    Ok(strips)
}

/// Adds why a file wasn't read the last time.
fn add_fault(out: &mut String, column: &Column<'_>) -> Result<(), AllocError> {
    match column.fault {
        Some(fault) => writeln!(out, "{}: {fault}", column.path),
        None => Ok(()),
    }
}

/// Adds why files weren't read the last time, a line each.
fn add_faults(out: &mut String, columns: &[Column<'_>]) -> Result<(), AllocError> {
    for column in columns {
        add_fault(out, column)?;
    }
    Ok(())
}

/// A table of nodes at this moment, in seconds since 1970; below it each file that wasn't read, and why.
pub fn table_of(
    alloc: Global,
    columns: &[Column<'_>],
    now: u64,
    medium: Medium,
) -> Result<String, AllocError> {
    table_in(alloc, &ROWS, columns, now, medium)
}

/// A table of these rows.
fn table_in(
    alloc: Global,
    rows: &[Row],
    columns: &[Column<'_>],
    now: u64,
    medium: Medium,
) -> Result<String, AllocError> {
    let strips = strips_of(alloc, rows, columns, now)?;
    let mut out = String::new(alloc);
    if !strips.is_empty() {
        add_headings(&mut out, &strips)?;
        add_rows(&mut out, rows, &strips, medium)?;
    }
    add_faults(&mut out, columns)?;
    Ok(out)
}

/// A text that takes the place of what a terminal shows.
pub fn screen_of(alloc: Global, text: &str) -> Result<String, AllocError> {
    let mut out = String::from_str(alloc, HOME)?;
    for line in text.lines() {
        out.push_str(line)?;
        out.push_str(LINE)?;
    }
    out.push_str(REST)?;
    Ok(out)
}
