//! Which sessions a changed descriptor loses.
//!
//! A session's cookie has the number of its context, which is the context's place in the descriptor, and a session lies in the journal of
//! a node, whose number is a place among the ports. So who puts a context in front of others, takes one away or takes a node away loses
//! sessions: nobody is told, but their clients find them gone.

ghost use Rattle.std.specs.Prelude.{◌≡◌, ◌++◌, IfOk, OnOk};
ghost use Rattle.sv_control.specs.Losing as spec;

use std::alloc::{AllocError, Global};
use sv_config::{Cluster, Context, Deployment};

/// A context whose sessions are lost.
#[derive(Clone, Copy, Debug, PartialEq, Eq)]
pub struct Moved {
    /// The number that it had.
    pub number: usize,
    /// The number that it has now; none where no context has its path.
    pub now: Option<usize>,
}

/// Where the context with this path stands.
fn place_of(path: &str, contexts: &[Context]) -> Option<usize>
    ensures { result ≡ spec.place_of path.now contexts.now }
{
    contexts
        .iter()
        .position(|context| context.path.as_str() == path)
}

/// Adds a context that had this number, if it has another one now or none.
fn add_moved(moved: &mut Vec<Moved>, number: usize, now: Option<usize>) -> Result<(), AllocError>
    ensures { OnOk result (moved.new.items ≡ moved.old.items ++ spec.if_elsewhere number now) }
{
    if now == Some(number) {
        return Ok(());
    }
    Ok(moved.push(Moved { number, now })?)
}

/// The contexts of a descriptor whose sessions another one loses, by their numbers.
pub fn moved_contexts(
    alloc: Global,
    old: &[Context],
    new: &[Context],
) -> Result<Vec<Moved>, AllocError>
    ensures { IfOk result (λ moved. moved.items ≡ spec.moved_from 0 old.now new.now) }
{
    let mut moved = Vec::new(alloc);
    for (number, context) in old.iter().enumerate() {
        add_moved(&mut moved, number, place_of(context.path.as_str(), new))?;
    }
    Ok(moved)
}

/// How many nodes a cluster has.
fn nodes_of(cluster: &Cluster) -> usize {
    cluster.ports.len().max(1)
}

/// A line for a context whose sessions are lost.
fn context_text(alloc: Global, path: &str, moved: Moved) -> Result<String, AllocError> {
    let number = moved.number;
    match moved.now {
        Some(now) => {
            format!(in alloc;
                "context {number} {path:?} is number {now} now: its sessions are lost\n"
            )
        }
        None => format!(in alloc; "context {number} {path:?} is gone: its sessions are lost\n"),
    }
}

fn contexts_text(
    alloc: Global,
    contexts: &[Context],
    moved: &[Moved],
) -> Result<String, AllocError> {
    let mut text = String::new(alloc);
    for one in moved {
        if let Some(context) = contexts.get(one.number) {
            let line = context_text(alloc, context.path.as_str(), *one)?;
            text.push_str(line.as_str())?;
        }
    }
    Ok(text)
}

fn nodes_text(alloc: Global, old: usize, new: usize) -> Result<String, AllocError> {
    let mut text = String::new(alloc);
    for node in new..old {
        let line = format!(in alloc;
            "node {node} is gone: the sessions that were made or lie there are lost\n"
        )?;
        text.push_str(line.as_str())?;
    }
    Ok(text)
}

/// What another descriptor loses of the sessions that nodes have under this one: a line for each context and each node whose sessions
/// are lost; empty where none are.
pub fn losses(alloc: Global, old: &Deployment, new: &Deployment) -> Result<String, AllocError> {
    let moved = moved_contexts(alloc, &old.contexts, &new.contexts)?;
    let mut text = contexts_text(alloc, &old.contexts, &moved)?;
    let nodes = nodes_text(alloc, nodes_of(&old.cluster), nodes_of(&new.cluster))?;
    text.push_str(nodes.as_str())?;
    Ok(text)
}
