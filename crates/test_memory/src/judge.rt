//! What each growth of a case has come to, where it is refused.

use crate::refusing::{Machine, Ran, run};
use std::{fmt, io};

/// How many growths are refused at most; a case that grows more often is told as endless.
const GROWTHS: u64 = 5_000;

/// What comes of a case.
#[derive(Clone, Copy, PartialEq, Eq)]
pub enum Verdict {
    /// Each refusal was answered by name, and then all was as if nothing had been refused.
    Named,
    /// Without a refusal the case doesn't get to its end.
    Broken,
    /// No call of the case takes memory.
    Unmet,
    /// After a growth something else stands.
    Other,
    Endless,
}

impl fmt::Display for Verdict {
    fn fmt<W: fmt::Write>(&self, f: &mut fmt::Formatter<W>) -> fmt::Result {
        match self {
            Verdict::Named => f.write_str("each growth is refused by name, and all is as before"),
            Verdict::Broken => f.write_str("doesn't get to its end, with nothing refused"),
            Verdict::Unmet => f.write_str("takes no memory"),
            Verdict::Other => f.write_str(
                "a growth is not refused by name, or leaves something else",
            ),
            Verdict::Endless => f.write_str("grows without an end"),
        }
    }
}

/// What one refused growth shows.
#[derive(Clone, Copy, PartialEq, Eq)]
enum Growth {
    /// None was refused: there is no such growth.
    None,
    /// It was one of the case's own, or one that the call can do without, as where a list asks for more room than it needs at once:
    /// then nobody is told, and all is as if nothing had been refused.
    Spared,
    Named,
    Other,
}

/// A run that was refused a growth, beside one that wasn't.
fn growth_of(ran: &Ran, whole: &Ran) -> Growth {
    if !ran.is_refused {
        return Growth::None;
    }
    if ran.said.as_slice() == b"begin\n0 unprepared\n".as_slice() || ran.said == whole.said {
        return Growth::Spared;
    }
    // The first digit after `begin` says how often memory was refused by name.
    match (
        ran.said.strip_prefix(b"begin\n1 "),
        whole.said.strip_prefix(b"begin\n0 "),
    ) {
        (Some(said), Some(whole)) if said == whole => Growth::Named,
        _ => Growth::Other,
    }
}

/// The run without a refusal gets to its end.
fn is_whole(whole: &Ran) -> bool {
    whole.said.starts_with(b"begin\n0 ") && !whole.said.starts_with(b"begin\n0 unprepared")
}

/// What a growth that is refused shows beside the run in which none was.
fn tried<M: Machine>(
    machine: &M,
    program: &str,
    name: &str,
    number: u64,
    whole: &Ran,
) -> io::Result<Growth> {
    let ran = run(machine, program, name, number)?;
    Ok(growth_of(&ran, whole))
}

/// Each growth is refused in turn, beside the run in which none was.
fn judge_growths<M: Machine>(
    machine: &M,
    program: &str,
    name: &str,
    whole: &Ran,
) -> io::Result<Verdict> {
    let mut found = Verdict::Unmet;
    for number in 1..GROWTHS {
        match tried(machine, program, name, number, whole)? {
            Growth::None => return Ok(found),
            Growth::Spared => {}
            Growth::Named => found = Verdict::Named,
            Growth::Other => return Ok(Verdict::Other),
        }
    }
    Ok(Verdict::Endless)
}

/// Each growth of a case is refused in turn.
pub fn judge<M: Machine>(machine: &M, program: &str, name: &str) -> io::Result<Verdict> {
    let whole = run(machine, program, name, 0)?;
    if is_whole(&whole) {
        judge_growths(machine, program, name, &whole)
    } else {
        Ok(Verdict::Broken)
    }
}
