//! Which context, servlet and filters a deployment gives a path.

use crate::application::contexts::context_text;
use crate::application::descriptors::deployment_of;
use crate::application::filters::{chain_text, dispatcher_of};
use crate::application::servlets::servlet_text;
use crate::fault::RowFault;
use crate::row::first;
use std::alloc::{AllocError, Global};
use sv_config::{Context, Deployment};
use sv_mapping::Dispatcher;

fn chosen_text(alloc: Global, deployment: &Deployment, path: &str) -> Result<String, AllocError> {
    let paths = deployment.context_paths(alloc)?;
    context_text(alloc, &paths, path)
}

/// The number of the context that a path has in a descriptor's deployment.
pub fn context(alloc: Global, parts: &str) -> Result<String, RowFault> {
    let (path, text) = first(parts);
    match deployment_of(alloc, text) {
        Ok(deployment) => Ok(chosen_text(alloc, &deployment, path)?),
        Err(fault) => Ok(format!(in alloc; "{fault:?}")?),
    }
}

/// The servlets that a path within a context has, for each context.
fn servlets_text(alloc: Global, contexts: &[Context], path: &str) -> Result<String, AllocError> {
    let mut text = String::new(alloc);
    for context in contexts {
        text.push_str(&servlet_text(alloc, &context.mappings, path)?)?;
    }
    Ok(text)
}

/// The servlet that a path within the context of a descriptor has.
pub fn servlet(alloc: Global, parts: &str) -> Result<String, RowFault> {
    let (path, text) = first(parts);
    match deployment_of(alloc, text) {
        Ok(deployment) => Ok(servlets_text(alloc, &deployment.contexts, path)?),
        Err(fault) => Ok(format!(in alloc; "{fault:?}")?),
    }
}

/// The number of the servlet that a path within a context has.
fn servlet_at(context: &Context, path: &str) -> Option<usize> {
    match context.mappings.find(path) {
        Some(found) => Some(found.servlet),
        None => None,
    }
}

/// The filters of a dispatch to a path within a context, for each context.
fn chains_text(
    alloc: Global,
    contexts: &[Context],
    path: &str,
    dispatcher: Dispatcher,
) -> Result<String, AllocError> {
    let mut text = String::new(alloc);
    for context in contexts {
        let servlet = servlet_at(context, path);
        let chain = chain_text(alloc, &context.filter_mappings, path, servlet, dispatcher)?;
        text.push_str(&chain)?;
    }
    Ok(text)
}

/// The filters of a dispatch to a path within the context of a descriptor.
pub fn filters(alloc: Global, parts: &str) -> Result<String, RowFault> {
    let (path, rest) = first(parts);
    let (word, text) = first(rest);
    let dispatcher = dispatcher_of(word)?;
    match deployment_of(alloc, text) {
        Ok(deployment) => Ok(chains_text(alloc, &deployment.contexts, path, dispatcher)?),
        Err(fault) => Ok(format!(in alloc; "{fault:?}")?),
    }
}
