//! A line of a world's trace as a text: its record, its commit, what was told, and what was put out.

use crate::outputs::push_output;
use crate::records::push_record;
use crate::told::push_told;
use std::alloc::{AllocError, Global};
use sv_model::{Commit, Output};
use sv_world::Line;

/// How many packets were put out.
fn sends(outputs: &[Output]) -> usize {
    outputs
        .iter()
        .filter(|output| matches!(output, Output::Send(_)))
        .count()
}

/// How many packets these lines have sent.
pub fn sent(trace: &[Line]) -> usize {
    let mut count = 0usize;
    for line in trace {
        count = count.saturating_add(sends(line.outputs.as_slice()));
    }
    count
}

/// Goes on to the next part of a text.
pub fn next_part(text: &mut String) -> Result<(), AllocError> {
    if text.is_empty() {
        Ok(())
    } else {
        text.push_str(", ")
    }
}

/// Adds what became durable, and what happened to the one container that all nodes make up.
fn push_done(text: &mut String, line: &Line) -> Result<(), AllocError> {
    if let Some(record) = &line.entry {
        next_part(text)?;
        push_record(text, record)?;
    }
    if let Some(commit) = &line.commit {
        next_part(text)?;
        text.push_str(match commit {
            Commit::Served { .. } => "served",
            Commit::Expired { .. } => "expired",
        })?;
    }
    Ok(())
}

/// Adds what was told: the events of the commit, then that a session has come or gone.
fn push_events(text: &mut String, line: &Line) -> Result<(), AllocError> {
    for told in line.events.as_slice() {
        next_part(text)?;
        push_told(text, &told.event)?;
    }
    if let Some(mark) = &line.mark {
        next_part(text)?;
        push_told(text, &mark.event)?;
    }
    Ok(())
}

/// Adds what was put out, where so many packets were sent before; each packet has its number in front.
fn push_outputs(text: &mut String, before: usize, outputs: &[Output]) -> Result<(), AllocError> {
    let mut number = before;
    for output in outputs {
        next_part(text)?;
        if let Output::Send(_) = output {
            write!(text, "p{number} ")?;
            number = number.saturating_add(1);
        }
        push_output(text, output)?;
    }
    Ok(())
}

/// What an event has done, where so many packets were sent before.
pub fn said(alloc: Global, before: usize, line: &Line) -> Result<String, AllocError> {
    let mut text = String::new(alloc);
    push_done(&mut text, line)?;
    push_events(&mut text, line)?;
    push_outputs(&mut text, before, line.outputs.as_slice())?;
    Ok(text)
}
