//! Files of figures, as an operator looks at them. What is expected is that of Prometheus's text format, version 0.0.4, and of
//! `docs/OPERATING.md`.

use crate::escape::{shown, text_of};
use crate::fault::RowFault;
use crate::row::{first, number};
use std::alloc::{AllocError, Global};
use sv_watch::{Column, Figures, FiguresFault, Medium, rate_of, screen_of, table_of};

/// What a text of figures says, or why it isn't taken.
fn read(alloc: Global, text: &str) -> Result<Figures, FiguresFault> {
    Figures::read(String::from_str(alloc, text)?)
}

/// Whose figures a text has, and when they were written.
pub fn figures(alloc: Global, parts: &str) -> Result<String, RowFault> {
    match Figures::read(text_of(alloc, parts)?) {
        Ok(figures) => Ok(format!(in alloc; "node {} at {}", figures.node, figures.seconds)?),
        Err(fault) => Ok(format!(in alloc; "{fault}")?),
    }
}

/// Of a text that is cut anywhere, where it is taken all the same.
pub fn cut(alloc: Global, parts: &str) -> Result<String, RowFault> {
    let text = text_of(alloc, parts)?;
    let mut taken = String::new(alloc);
    for end in 0..text.len() {
        if let Some(front) = text.as_str().get(0..end)
            && read(alloc, front).is_ok()
        {
            taken.push_str(format!(in alloc; "{end} ")?.as_str())?;
        }
    }
    Ok(taken)
}

/// The sum of the figures of a name with a label, or of all of a name; the text comes last.
pub fn figure(alloc: Global, parts: &str) -> Result<String, RowFault> {
    let (name, rest) = first(parts);
    let (label, text) = first(rest);
    let Ok(figures) = Figures::read(text_of(alloc, text)?) else {
        return Err(RowFault::Part);
    };
    let label = if label.is_empty() { None } else { Some(label) };
    match figures.count(name, label) {
        Some(number) => Ok(format!(in alloc; "{number}")?),
        None => Ok(String::from_str(alloc, "none")?),
    }
}

/// How often a second a number has risen: before, now, and within how many seconds.
pub fn rate(alloc: Global, parts: &str) -> Result<String, RowFault> {
    let (before, rest) = first(parts);
    let (now, seconds) = first(rest);
    match rate_of(number(before)?, number(now)?, number(seconds)?) {
        Some(rate) => Ok(format!(in alloc; "{rate}")?),
        None => Ok(String::from_str(alloc, "none")?),
    }
}

/// Has a file looked at that says one text after the other.
fn look(alloc: Global, column: &mut Column<'_>, parts: &str) -> Result<(), RowFault> {
    for part in parts.split('|') {
        let text = text_of(alloc, part)?;
        column.look(Figures::read(text));
    }
    Ok(())
}

/// The table of a node at a moment, on a medium, whose file has said one text after the other.
fn table_on(alloc: Global, parts: &str, medium: Medium) -> Result<String, RowFault> {
    let (now, texts) = first(parts);
    let now = number(now)?;
    let mut columns = vec![in alloc; Column::new("FILE")]?;
    if let Some(column) = columns.first_mut() {
        look(alloc, column, texts)?;
    }
    Ok(table_of(alloc, &columns, now, medium)?)
}

/// Figures of a node that knows so many keys, of so many.
fn keys_text(alloc: Global, known: &str, limit: &str) -> Result<String, AllocError> {
    format!(in alloc;
        "kegbramble_known_keys{{node=\"0\"}} {known}\nkegbramble_known_keys_limit{{node=\"0\"}} {limit}\nkegbramble_time_seconds{{node=\"0\"}} 5\n"
    )
}

/// What a table says of known keys.
fn keys_in(table: &str) -> Option<&str> {
    for line in table.lines() {
        if let Some(cell) = line.strip_prefix("known keys") {
            return Some(cell.trim());
        }
    }
    None
}

/// The known keys of a node in the table that a terminal draws: how many, and of how many.
pub fn keys(alloc: Global, parts: &str) -> Result<String, RowFault> {
    let (known, limit) = first(parts);
    let mut columns = vec![in alloc; Column::new("FILE")]?;
    if let Some(column) = columns.first_mut() {
        column.look(Figures::read(keys_text(alloc, known, limit)?));
    }
    let table = table_of(alloc, &columns, 5, Medium::Terminal)?;
    match keys_in(table.as_str()) {
        Some(cell) => Ok(shown(alloc, cell.as_bytes())?),
        None => Err(RowFault::Part),
    }
}

/// Such a table as lines of text.
pub fn plain(alloc: Global, parts: &str) -> Result<String, RowFault> {
    let table = table_on(alloc, parts, Medium::Plain)?;
    Ok(shown(alloc, table.as_bytes())?)
}

/// Such a table as a terminal draws it.
pub fn drawn(alloc: Global, parts: &str) -> Result<String, RowFault> {
    let table = table_on(alloc, parts, Medium::Terminal)?;
    let screen = screen_of(alloc, table.as_str())?;
    Ok(shown(alloc, screen.as_bytes())?)
}
