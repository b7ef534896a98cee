//! What a dispatch path names (Jakarta Servlet 6.0, section 9.1).

ghost use Rattle.std.specs.Prelude.{◌≡◌, IfOk};
ghost use Rattle.sv_dispatch.specs.Destination as spec;

use std::alloc::{AllocError, Global};
use sv_model::{Param, Sequence, Text};
use sv_target::{Target, TargetFault, params};

/// What a dispatch path names, as the dispatch shows it.
pub struct Destination {
    /// The context path and the dispatch path before its first `?`, as written.
    pub request_uri: Text,
    /// The canonical path within the context, decoded.
    pub path: Text,
    /// What stands after the first `?`, as written; empty where nothing does.
    pub query: Option<Text>,
    /// The parameters of the query.
    pub params: Sequence<Param>,
}

impl Destination {
    /// The path as written, and the query.
    pub fn into_shown(self) -> (Text, Option<Text>)
        ensures request_uri { result.0 ≡ self.request_uri }
        ensures query { result.1 ≡ self.query }
    {
        let Destination {
            request_uri,
            path: _,
            query,
            params: _,
        } = self;
        (request_uri, query)
    }
}

/// By hand, so that the proof of a caller has one step for it and not one for each part that may be there.
impl Drop for Destination {
    fn drop(self) {
        let Destination {
            request_uri: _,
            path: _,
            query: _,
            params: _,
        } = self;
    }
}

/// The parameters of a query, if there is one.
fn query_params(alloc: Global, query: &Option<Text>) -> Result<Sequence<Param>, AllocError>
    ensures { IfOk result (λ all. all ≡ spec.query_params query.now) }
{
    match query {
        Some(query) => params(alloc, query.as_str().as_bytes(), &[]),
        None => Ok(Sequence::new(alloc)),
    }
}

/// A context path and the path of a target after it.
fn uri_of(alloc: Global, context_path: &str, raw_path: &Text) -> Result<Text, AllocError>
    ensures { IfOk result (λ uri. uri ≡ spec.uri_of context_path.now raw_path.now) }
{
    let mut uri = String::from_str(alloc, context_path)?;
    uri.push_str(raw_path.as_str())?;
    Ok(Text::from_string(uri))
}

/// What a target within a context shows.
fn shown_target(
    alloc: Global,
    context_path: &str,
    target: Target,
) -> Result<Destination, AllocError>
    ensures { IfOk result (λ shown. shown ≡ spec.shown_target context_path.now target) }
{
    let Target {
        raw_path,
        path,
        query,
    } = target;
    Ok(Destination {
        request_uri: uri_of(alloc, context_path, &raw_path)?,
        path,
        params: query_params(alloc, &query)?,
        query,
    })
}

/// What a dispatch path of a context names, or none where it is refused: it doesn't begin with `/`, or no target of a
/// request has such a path.
#[tactic(auto, unfolding(crate::specs::Destination::destination_of))]
pub fn destination_of(
    alloc: Global,
    context_path: &str,
    text: &str,
) -> Result<Option<Destination>, AllocError>
    ensures { IfOk result (λ found. found ≡ spec.destination_of context_path.now text.now) }
{
    match Target::read_within(alloc, text) {
        Ok(target) => Ok(Some(shown_target(alloc, context_path, target)?)),
        Err(TargetFault::BadTarget) => Ok(None),
        Err(TargetFault::Connect) => unreachable!(),
        Err(TargetFault::Memory) => Err(AllocError),
    }
}
