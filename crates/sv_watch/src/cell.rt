//! A cell of a table.

use crate::column::Column;
use crate::figures::Figures;
use crate::number::{percent_of, rate_of};
use crate::row::{Measure, Row};
use std::alloc::{AllocError, Global};
use sv_log::names::{KNOWN, KNOWN_LIMIT, WRITE_SECONDS, WRITES};

/// Figures that are older than this, in seconds, are old: a node writes them every 5.
const OLD: u64 = 15;

/// From so many in a hundred on there is little room.
const SCARCE: u64 = 80;

/// A cell of a table.
#[derive(Drop)]
pub struct Cell {
    pub text: String,
    /// It moves, or is to be looked at.
    pub stands_out: bool,
}

fn nothing(alloc: Global) -> Result<Cell, AllocError> {
    Ok(Cell {
        text: String::from_str(alloc, "-")?,
        stands_out: false,
    })
}

/// The age of figures.
fn age(alloc: Global, figures: &Figures, now: u64) -> Result<Cell, AllocError> {
    let age = now.saturating_sub(figures.seconds);
    let stands_out = age > OLD;
    let text = if stands_out {
        format!(in alloc; "OLD: {age} s ago")?
    } else {
        format!(in alloc; "{age} s ago")?
    };
    Ok(Cell { text, stands_out })
}

/// A number, and whether it is another one than before.
fn level(alloc: Global, number: u64, before: Option<u64>) -> Result<Cell, AllocError> {
    Ok(Cell {
        text: format!(in alloc; "{number}")?,
        stands_out: before.is_some_and(|before| before != number),
    })
}

/// A number, and of how many; marked if there is little room, or none.
fn limited(alloc: Global, number: u64, limit: u64) -> Result<Cell, AllocError> {
    let percent = percent_of(number, limit);
    let text = if number >= limit {
        format!(in alloc; "FULL: {number} of {limit}")?
    } else if percent >= SCARCE {
        format!(in alloc; "{percent}%: {number} of {limit}")?
    } else {
        format!(in alloc; "{number} of {limit}")?
    };
    Ok(Cell {
        text,
        stands_out: percent >= SCARCE,
    })
}

/// A number since the start, and how often a second it has risen of late.
fn counter(
    alloc: Global,
    number: u64,
    before: Option<u64>,
    passed: Option<u64>,
) -> Result<Cell, AllocError> {
    let rate = match (before, passed) {
        (Some(before), Some(seconds)) => rate_of(before, number, seconds),
        _ => None,
    };
    match rate {
        Some(rate) if rate.tenths > 0 => Ok(Cell {
            text: format!(in alloc; "{number} {rate}")?,
            stands_out: true,
        }),
        _ => level(alloc, number, None),
    }
}

/// A time in billionths of a second, in thousandths.
fn mean(alloc: Global, nanoseconds: u64) -> Result<Cell, AllocError> {
    let (whole, rest) = (nanoseconds / 1_000_000, nanoseconds / 10_000 % 100);
    Ok(Cell {
        text: format!(in alloc; "{whole}.{rest:02}")?,
        stands_out: false,
    })
}

/// What has been written and how long that took, or how much more than before.
fn writes_of(figures: &Figures) -> Option<(u64, u64)> {
    Some((
        figures.count(WRITES.name, None)?,
        figures.nanoseconds(WRITE_SECONDS.name)?,
    ))
}

/// What a write took, in billionths of a second: of late, or since the start where nothing was written of late.
fn write_time(column: &Column<'_>) -> Option<u64> {
    let (writes, time) = writes_of(column.latest.as_ref()?)?;
    if let Some(before) = &column.before
        && let Some((writes_before, time_before)) = writes_of(before)
        && writes > writes_before
    {
        let time = time.saturating_sub(time_before);
        return time.checked_div(writes - writes_before);
    }
    time.checked_div(writes)
}

/// A cell that shows a number.
fn number_cell(
    alloc: Global,
    column: &Column<'_>,
    row: Row,
    number: u64,
) -> Result<Cell, AllocError> {
    let before = match &column.before {
        Some(before) => before.count(row.figure.name, row.label),
        None => None,
    };
    match row.measure {
        Measure::Counter => counter(alloc, number, before, column.passed()),
        _ => level(alloc, number, before),
    }
}

/// A cell of a node's figures.
fn cell_in(
    alloc: Global,
    column: &Column<'_>,
    figures: &Figures,
    row: Row,
) -> Result<Cell, AllocError> {
    let number = figures.count(row.figure.name, row.label);
    match number {
        Some(number) => number_cell(alloc, column, row, number),
        None => nothing(alloc),
    }
}

/// How many keys are known, of how many.
fn limited_in(alloc: Global, figures: &Figures) -> Result<Cell, AllocError> {
    match (
        figures.count(KNOWN.name, None),
        figures.count(KNOWN_LIMIT.name, None),
    ) {
        (Some(number), Some(limit)) => limited(alloc, number, limit),
        _ => nothing(alloc),
    }
}

impl Cell {
    /// What a row shows of a node at this moment, in seconds since 1970.
    pub fn new(alloc: Global, column: &Column<'_>, row: Row, now: u64) -> Result<Cell, AllocError> {
        let Some(figures) = &column.latest else {
            return nothing(alloc);
        };
        match row.measure {
            Measure::Age => age(alloc, figures, now),
            Measure::Limited => limited_in(alloc, figures),
            Measure::Mean => match write_time(column) {
                Some(nanoseconds) => mean(alloc, nanoseconds),
                None => nothing(alloc),
            },
            Measure::Level | Measure::Counter => cell_in(alloc, column, figures, row),
        }
    }
}
