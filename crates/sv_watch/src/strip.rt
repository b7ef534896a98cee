//! A column of a table, as it is drawn.

use crate::cell::Cell;
use crate::column::Column;
use crate::row::Row;
use std::alloc::{AllocError, Global};

/// So many columns of the screen a node takes, where its cells aren't longer.
const WIDTH: usize = 10;

/// A column of a table, as it is drawn.
pub struct Strip {
    pub heading: String,
    /// By the place of their rows.
    pub cells: Vec<Cell>,
    /// In columns of the screen.
    pub width: usize,
}

/// By hand, so that letting one go is one step.
impl Drop for Strip {
    fn drop(self) {
        let Strip {
            heading: _,
            cells: _,
            width: _,
        } = self;
    }
}

/// The cells of a node's column in these rows, the first of them on top.
fn cells_of(
    alloc: Global,
    rows: &[Row],
    column: &Column<'_>,
    now: u64,
) -> Result<Vec<Cell>, AllocError> {
    let mut cells = Vec::new(alloc);
    for row in rows {
        cells.push(Cell::new(alloc, column, *row, now)?)?;
    }
    Ok(cells)
}

/// The length of the longest.
fn width_of(cells: &[Cell]) -> usize {
    let mut width = WIDTH;
    for cell in cells {
        width = width.max(cell.text.len());
    }
    width
}

impl Strip {
    /// The column of the node with this number.
    pub fn new(
        alloc: Global,
        rows: &[Row],
        column: &Column<'_>,
        node: u8,
        now: u64,
    ) -> Result<Strip, AllocError> {
        let cells = cells_of(alloc, rows, column, now)?;
        let width = width_of(&cells);
        Ok(Strip {
            heading: format!(in alloc; "node {node}")?,
            cells,
            width,
        })
    }
}
