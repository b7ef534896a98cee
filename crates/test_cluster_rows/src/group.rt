//! Inputs of a node that are made durable together: they stand in a line with ` & ` between them, and a number before one says how
//! often it comes.

ghost use Rattle.std.specs.List.{AllByRecursion};
ghost use Rattle.std.specs.Prelude.{IfOk, OnOk};
ghost use Rattle.sv_model.specs.Ranges.{IsInput};

use crate::fault::RowFault;
use crate::input::input;
use crate::running::{Deed, put_out};
use crate::words::word;
use std::alloc::{AllocError, Global};
use sv_journal::MemoryDisk;
use sv_model::{Engine, Input, Moment, Output, Site, StepFault};
use sv_node::Node;

const BETWEEN: &str = " & ";

/// Whether some words are those of several inputs.
pub fn is_group(words: &str) -> bool {
    words.contains(BETWEEN) || times(words).0 > 1
}

/// How often an input comes, and its words.
fn times(words: &str) -> (u64, &str) {
    let (first, rest) = word(words);
    match first.parse::<u64>() {
        Ok(count) => (count, rest),
        Err(_) => (1, words),
    }
}

/// Adds an input after the others.
fn push_input(
    inputs: &mut Vec<(Moment, Input)>,
    moment: Moment,
    input: Input,
) -> Result<(), AllocError>
    requires before { AllByRecursion (λ i. IsInput i.1) inputs.old.items }
    requires this { IsInput input }
    ensures { OnOk result (AllByRecursion (λ i. IsInput i.1) inputs.new.items) }
{
    inputs.push((moment, input))?;
    Ok(())
}

/// Adds an input so often as its words say. The requests come under the token and those after it.
fn add(
    alloc: Global,
    inputs: &mut Vec<(Moment, Input)>,
    moment: Moment,
    token: u64,
    words: &str,
) -> Result<(), RowFault>
    requires { AllByRecursion (λ i. IsInput i.1) inputs.old.items }
    ensures { OnOk result (AllByRecursion (λ i. IsInput i.1) inputs.new.items) }
{
    let (count, words) = times(words);
    for _ in 0..count {
        let token = token.saturating_add(inputs.len() as u64);
        push_input(inputs, moment, input(alloc, token, words)?)?;
    }
    Ok(())
}

/// The inputs of a line.
fn inputs(
    alloc: Global,
    moment: Moment,
    token: u64,
    words: &str,
) -> Result<Vec<(Moment, Input)>, RowFault>
    ensures { IfOk result (λ inputs. AllByRecursion (λ i. IsInput i.1) inputs.items) }
{
    let mut inputs = Vec::new(alloc);
    for part in words.split(BETWEEN) {
        add(alloc, &mut inputs, moment, token, part)?;
    }
    Ok(inputs)
}

/// What one of them was answered.
fn answered(alloc: Global, answer: &Result<Vec<Output>, StepFault>) -> Result<String, AllocError> {
    match answer {
        Ok(outputs) => put_out(alloc, outputs.as_slice()),
        Err(fault) => format!(in alloc; "{fault:?}"),
    }
}

/// What all of them were answered, with ` & ` between.
fn answers(
    alloc: Global,
    answers: &[Result<Vec<Output>, StepFault>],
) -> Result<String, AllocError> {
    let mut text = String::new(alloc);
    for (place, answer) in answers.iter().enumerate() {
        if place > 0 {
            text.push_str(BETWEEN)?;
        }
        let said = answered(alloc, answer)?;
        text.push_str(said.as_str())?;
    }
    Ok(text)
}

/// A node is given the inputs of a line together.
pub fn stepped_together<E: Engine + Drop>(
    alloc: Global,
    node: &mut Node<E, MemoryDisk>,
    moment: Moment,
    token: u64,
    words: &str,
) -> Result<Deed, RowFault>
    requires { ⟦<Node<E, MemoryDisk> as Site>⟧.site_valid node.old }
    ensures { ⟦<Node<E, MemoryDisk> as Site>⟧.site_valid node.new }
{
    let inputs = inputs(alloc, moment, token, words)?;
    match node.step_all(inputs) {
        Ok(said) => Ok(Deed::Done(answers(alloc, said.as_slice())?)),
        Err(fault) => Ok(Deed::Refused(format!(in alloc; "{fault:?}")?)),
    }
}
