//! A story: its heading, what it happens to, and what happens.

use crate::fault::RowFault;
use crate::words::{line, word};
use crate::{client, failing, running, worlds};
use std::alloc::{AllocError, Global};

/// What happens by the lines after that which says to what.
fn play(alloc: Global, stage: &str, lines: &str, told: &mut String) -> Result<(), RowFault> {
    match word(stage) {
        ("world", words) => worlds::play(alloc, words, lines, told),
        ("unstarted", words) => worlds::play_unstarted(alloc, words, lines, told),
        ("node", words) => running::play(alloc, words, lines, told),
        ("fails", disk) => failing::play(alloc, disk, lines, told),
        ("client", words) => client::play(alloc, words, told),
        _ => Err(RowFault::Kind),
    }
}

/// What is printed of a story: its heading, each line with what came of it, and the fault where one isn't tried.
pub fn played(alloc: Global, story: &str) -> Result<String, AllocError> {
    let (heading, rest) = line(story);
    let (stage, lines) = line(rest);
    let mut told = String::from_str(alloc, heading)?;
    told.push('\n')?;
    told.push_str(stage)?;
    if let Err(fault) = play(alloc, stage, lines, &mut told) {
        write!(&mut told, "\n{fault}")?;
    }
    told.push('\n')?;
    Ok(told)
}
