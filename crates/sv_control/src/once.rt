//! What the sessions of a context remember of requests that may be sent again, as a line for an operator, and what to say where a
//! node that is started again takes longer than the others wait for it.

use std::alloc::{AllocError, Global};
use sv_config::{Deployment, Once};

/// So many seconds may pass from a node's crash until it serves its sessions again: a tenth until it is started, some six to open a
/// large journal on a busy machine, and up to one until the other nodes ask for what they want.
const RESTART: u32 = 10;

/// How many answers are remembered, and by what keys.
fn once_text(alloc: Global, once: &Once) -> Result<String, AllocError> {
    let answers = once.answers;
    match &once.parameter {
        Some(parameter) => {
            format!(in alloc;
                "\n  once: answers {answers}, by the parameter {parameter:?} or Idempotency-Key"
            )
        }
        None => format!(in alloc; "\n  once: answers {answers}, by Idempotency-Key"),
    }
}

/// Adds a line of what the sessions of a context remember, where they remember anything.
pub(crate) fn push_once(
    alloc: Global,
    text: &mut String,
    once: Option<&Once>,
) -> Result<(), AllocError> {
    match once {
        Some(once) => text.push_str(once_text(alloc, once)?.as_str()),
        None => Ok(()),
    }
}

/// A request that is sent again while its session's node is started anew may be refused.
fn is_short(deployment: &Deployment) -> bool {
    deployment.cluster.deadline < RESTART
        && deployment
            .contexts
            .iter()
            .any(|context| context.once.is_some())
}

/// What to warn of, if anything: a context has `once`, and requests wait for less time than a restart may take.
pub(crate) fn warning_of(
    alloc: Global,
    deployment: &Deployment,
) -> Result<Option<String>, AllocError> {
    if !is_short(deployment) {
        return Ok(None);
    }
    let deadline = deployment.cluster.deadline;
    let warning = format!(in alloc;
        "requests wait for {deadline} seconds, and a node that crashes may take {RESTART} to serve again: with once, give deadline {RESTART} or more"
    )?;
    Ok(Some(warning))
}
