//! What a step does, as plain data, before anything of it is done.

ghost use Rattle.std.specs.Prelude.{◌≡◌, ◌∷◌, [], IfOk, Some, None, option_copied};
ghost use Rattle.sv_model.specs.declared.node.Setting.{Setting};
ghost use Rattle.sv_model.specs.NodeState.{Node};
ghost use Rattle.sv_model.specs.Step.{told};

use crate::fault::Memory;
use std::alloc::{AllocError, Global};
use sv_model::{Commit, Key, Output, Record, Request, Sequence, Told};

/// A request that is to wait, before it is given its want.
#[derive(Drop)]
pub struct Arrival {
    pub token: u64,
    pub request: Request,
    /// The key of the session that it waits for.
    pub key: Key,
    /// When it came, in whole seconds.
    pub since: u64,
}

/// What becomes of the requests that wait.
#[derive(Drop)]
pub enum Waiting {
    /// They go on waiting.
    Stays,
    /// One joins them, with the next want.
    Joins(Arrival),
    /// The one at this place leaves.
    Leaves(usize),
    /// Those leave that have waited long enough at this time, in whole seconds.
    Late(u64),
}

/// What a step does.
pub struct Decision {
    pub(crate) entry: Option<Record>,
    pub(crate) commit: Option<Commit>,
    pub(crate) told: Sequence<Told>,
    pub(crate) outputs: Sequence<Output>,
    pub(crate) waiting: Waiting,
}

/// By hand, so that the proof of a caller has one step for it and not one for each variant of its parts.
impl Drop for Decision {
    fn drop(self) {
        let Decision {
            entry: _,
            commit: _,
            told: _,
            outputs: _,
            waiting: _,
        } = self;
    }
}

/// What is still to be done of a decision that was taken: listeners are told, and outputs are put out.
pub struct Held {
    pub(crate) told: Sequence<Told>,
    pub(crate) outputs: Sequence<Output>,
}

/// By hand, as that of a decision.
impl Drop for Held {
    fn drop(self) {
        let Held {
            told: _,
            outputs: _,
        } = self;
    }
}

impl Held {
    /// What listeners are told, and what is put out.
    pub(crate) fn into_parts(self) -> (Sequence<Told>, Sequence<Output>)
        ensures told { result.0 ≡ self.told }
        ensures outputs { result.1 ≡ self.outputs }
    {
        let Held { told, outputs } = self;
        (told, outputs)
    }
}

/// What others may read of it.
impl Decision {
    ghost use Rattle.sv_core.specs.Decision.{decision_of, entry_in, commit_in, told_in, outputs_in};

    /// The record that has to be durable before the decision is accepted, if there is one.
    pub fn entry(&self) -> Option<&Record>
        ensures { option_copied result ≡ entry_in self.now }
    {
        self.entry.as_ref()
    }

    /// The commit that the step is, if it is one.
    pub fn commit(&self) -> Option<&Commit>
        ensures { option_copied result ≡ commit_in self.now }
    {
        self.commit.as_ref()
    }

    /// What listeners are told once the decision is accepted, in order: the commit's events, or that a session has come or
    /// gone.
    #[tactic(auto, using(crate::proofs::CoreLemmas::tells))]
    pub fn told(&self) -> &[Told]
        ensures list { result.now ≡ told_in self.now }
        ensures told { (set : Setting) (n : Node) → told (decision_of set n self.now) ≡ told_in self.now }
    {
        self.told.as_slice()
    }

    /// What is put out once the decision is accepted, in order.
    pub fn outputs(&self) -> &[Output]
        ensures { result.now ≡ outputs_in self.now }
    {
        self.outputs.as_slice()
    }

    /// The record, what becomes of the requests that wait, and what is held until the record is durable.
    pub(crate) fn into_parts(self) -> (Option<Record>, Waiting, Held)
        ensures entry { result.0 ≡ self.entry }
        ensures waiting { result.1 ≡ self.waiting }
        ensures told { result.2.told ≡ self.told }
        ensures outputs { result.2.outputs ≡ self.outputs }
    {
        let Decision {
            entry,
            commit: _,
            told,
            outputs,
            waiting,
        } = self;
        (entry, waiting, Held { told, outputs })
    }
}

/// A list of one output.
pub(crate) fn one_output(alloc: Global, output: Output) -> Result<Vec<Output>, AllocError>
    ensures { IfOk result (λ v. v.items ≡ output ∷ []) }
{
    let mut outputs = Vec::with_capacity(alloc, 1)?;
    outputs.push_reserved(output);
    Ok(outputs)
}

impl Decision {
    ghost use Rattle.sv_core.specs.Plain.{put_out, recorded};

    /// Nothing changes.
    pub(crate) fn put_out(alloc: Global, outputs: Vec<Output>) -> Decision
        ensures { result ≡ put_out outputs.items }
    {
        Decision {
            entry: None,
            commit: None,
            told: Sequence::new(alloc),
            outputs: Sequence::from_vec(outputs),
            waiting: Waiting::Stays,
        }
    }

    /// Nothing changes, and nothing is put out.
    pub(crate) fn nothing(alloc: Global) -> Decision
        ensures { result ≡ put_out [] }
    {
        Decision::put_out(alloc, Vec::new(alloc))
    }

    /// Nothing changes, and this is put out.
    pub(crate) fn says(alloc: Global, output: Output) -> Result<Decision, Memory>
        ensures { IfOk result (λ d. d ≡ put_out (output ∷ [])) }
    {
        Ok(Decision::put_out(alloc, one_output(alloc, output)?))
    }

    /// One key changes, by a record, with no commit.
    pub(crate) fn recorded(
        alloc: Global,
        entry: Record,
        mark: Told,
        outputs: Vec<Output>,
    ) -> Result<Decision, Memory>
        ensures { IfOk result (λ d. d ≡ recorded entry (Some mark) outputs.items) }
    {
        let mut told = Sequence::new(alloc);
        told.push(mark)?;
        Ok(Decision {
            entry: Some(entry),
            commit: None,
            told,
            outputs: Sequence::from_vec(outputs),
            waiting: Waiting::Stays,
        })
    }

    /// One key changes, by a record, with no commit and nothing put out or told.
    pub(crate) fn noted(alloc: Global, entry: Record) -> Decision
        ensures { result ≡ recorded entry None [] }
    {
        Decision {
            entry: Some(entry),
            commit: None,
            told: Sequence::new(alloc),
            outputs: Sequence::new(alloc),
            waiting: Waiting::Stays,
        }
    }
}
