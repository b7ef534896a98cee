//! What a node's file of figures says.

use crate::fault::FiguresFault;
use crate::figure::{Figure, figure_of};
use crate::number::{nanoseconds_of, whole_of};
use sv_log::names::TIME;

/// Each name begins so.
const OURS: &str = "kegbramble_";

/// All figures of a node, as it wrote them at a moment.
#[derive(Drop)]
pub struct Figures {
    text: String,
    /// The node's number.
    pub node: u8,
    /// When it wrote them, in seconds since 1970.
    pub seconds: u64,
}

/// The number of the node whose figure it is, and the labels after that.
fn node_of<'a>(labels: &'a str) -> Option<(u8, &'a str)> {
    let (number, rest) = labels.strip_prefix("node=\"")?.split_once('"')?;
    let node = number.parse::<u8>().ok()?;
    match rest {
        "" => Some((node, "")),
        rest => Some((node, rest.strip_prefix(',')?)),
    }
}

/// A name of ours, without what each begins with.
fn name_of<'a>(figure: Figure<'a>) -> Option<&'a str> {
    figure.name.strip_prefix(OURS)
}

fn has_number(figure: Figure<'_>) -> bool {
    whole_of(figure.value).is_some() || nanoseconds_of(figure.value).is_some()
}

/// The number of the node whose figure a line has, if it has one.
fn node_in(line: &str) -> Option<u8> {
    let figure = figure_of(line)?;
    let (node, _) = node_of(figure.labels)?;
    if name_of(figure).is_some() && has_number(figure) {
        Some(node)
    } else {
        None
    }
}

fn is_comment(line: &str) -> bool {
    line.starts_with("# HELP ") || line.starts_with("# TYPE ")
}

/// A line that is neither a comment nor a figure of the node.
fn is_wrong(line: &str, node: Option<u8>) -> bool {
    if is_comment(line) {
        return false;
    }
    match node_in(line) {
        Some(found) => node != Some(found),
        None => true,
    }
}

/// The first such line, counted from 1.
fn wrong_line(text: &str, node: Option<u8>) -> Option<usize> {
    for (at, line) in text.lines().enumerate() {
        if is_wrong(line, node) {
            return at.checked_add(1);
        }
    }
    None
}

/// The number of the node in the first figure of a text.
fn first_node(text: &str) -> Option<u8> {
    for line in text.lines() {
        if !is_comment(line) {
            return node_in(line);
        }
    }
    None
}

/// The value of the last line, if that is of the figure that a node writes last, the time.
fn last_value(text: &str) -> Option<u64> {
    let mut value = None;
    for line in text.lines() {
        value = value_in(line, TIME.name, None);
    }
    whole_of(value?)
}

/// The value of a line, if it has a figure of this name, without what each begins with, and with this label, if any.
fn value_in<'a>(line: &'a str, name: &str, label: Option<&str>) -> Option<&'a str> {
    let figure = figure_of(line)?;
    let (_, rest) = node_of(figure.labels)?;
    let is_it = name_of(figure) == Some(name) && label.unwrap_or(rest) == rest;
    if is_it { Some(figure.value) } else { None }
}

/// Adds a value to a sum that there may be.
fn added(sum: Option<u64>, value: u64) -> Option<u64> {
    Some(sum.unwrap_or(0).saturating_add(value))
}

/// Whose figures a text has, and when they were written.
fn moment_of(text: &str) -> Result<(u8, u64), FiguresFault> {
    if !text.ends_with('\n') {
        return Err(FiguresFault::Cut);
    }
    let node = first_node(text);
    if let Some(line) = wrong_line(text, node) {
        return Err(FiguresFault::Line(line));
    }
    match (node, last_value(text)) {
        (Some(node), Some(seconds)) => Ok((node, seconds)),
        _ => Err(FiguresFault::Cut),
    }
}

impl Figures {
    /// What a text says, if it is whole and has figures of one node alone.
    pub fn read(text: String) -> Result<Figures, FiguresFault> {
        match moment_of(text.as_str()) {
            Ok((node, seconds)) => Ok(Figures {
                text,
                node,
                seconds,
            }),
            Err(fault) => Err(fault),
        }
    }

    /// The number of a figure whose name begins with `kegbramble_` and goes on so: the one with a label, such as `class="2xx"`, or
    /// the sum of all.
    pub fn count(&self, name: &str, label: Option<&str>) -> Option<u64> {
        let mut sum = None;
        for line in self.text.as_str().lines() {
            if let Some(value) = value_in(line, name, label) {
                sum = added(sum, whole_of(value)?);
            }
        }
        sum
    }

    /// The time of such a figure, in billionths of a second.
    pub fn nanoseconds(&self, name: &str) -> Option<u64> {
        for line in self.text.as_str().lines() {
            if let Some(value) = value_in(line, name, None) {
                return nanoseconds_of(value);
            }
        }
        None
    }
}
