//! What the trace keeps of a step.

ghost use Rattle.std.specs.Prelude.{◌≡◌, IfOk, option_copied};
ghost use Rattle.sv_world.specs.Traced.{traced_in, parted};

use std::alloc::{AllocError, Global};
use sv_core::Decision;
use sv_model::{Commit, Copied, Record, Sequence, Told};

/// Of a step: its record, its commit, and what it tells.
#[derive(Drop)]
pub struct Traced {
    pub entry: Option<Record>,
    pub commit: Option<Commit>,
    pub events: Sequence<Told>,
    pub mark: Option<Told>,
}

/// An equal record, where there is one.
pub fn copied_record(alloc: Global, entry: Option<&Record>) -> Result<Option<Record>, AllocError>
    ensures { IfOk result (λ copy. copy ≡ option_copied entry.entry) }
{
    match entry {
        Some(entry) => Ok(Some(entry.copy(alloc)?)),
        None => Ok(None),
    }
}

/// An equal commit, where there is one.
fn copied_commit(alloc: Global, commit: Option<&Commit>) -> Result<Option<Commit>, AllocError>
    ensures { IfOk result (λ copy. copy ≡ option_copied commit.entry) }
{
    match commit {
        Some(commit) => Ok(Some(commit.copy(alloc)?)),
        None => Ok(None),
    }
}

/// Equal events, in order.
fn copied_told(alloc: Global, told: &[Told]) -> Result<Vec<Told>, AllocError>
    ensures { IfOk result (λ copy. copy.items ≡ told.now) }
{
    let mut copy = Vec::with_capacity(alloc, told.len())?;
    for event in told {
        copy.push(event.copy(alloc)?)?;
    }
    Ok(copy)
}

/// What is told with a commit are its events; with none the last is that a session has come or gone.
fn parted(is_commit: bool, mut told: Vec<Told>) -> (Sequence<Told>, Option<Told>)
    ensures { result ≡ parted is_commit told.items }
{
    if is_commit {
        return (Sequence::from_vec(told), None);
    }
    let mark = told.pop();
    (Sequence::from_vec(told), mark)
}

/// What the trace keeps of a decision.
pub fn trace_of(alloc: Global, decision: &Decision) -> Result<Traced, AllocError>
    ensures { IfOk result (λ t. t ≡ traced_in decision.now) }
{
    let told = copied_told(alloc, decision.told())?;
    let entry = copied_record(alloc, decision.entry())?;
    let commit = copied_commit(alloc, decision.commit())?;
    let (events, mark) = parted(commit.is_some(), told);
    Ok(Traced {
        entry,
        commit,
        events,
        mark,
    })
}
