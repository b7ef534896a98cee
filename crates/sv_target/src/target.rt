//! The target of a request (RFC 9112, section 3.2), and a path within a context.

ghost use Rattle.std.specs.Prelude.{◌≡◌, ◌⊎◌, ◌↔◌, Some, None, codes, option_map, true, false, IfOk, IsErrOf, IsTrue};
ghost use Rattle.std.specs.List.{list_all, list_any, slice_split};
ghost use Rattle.http_uri.specs.declared.uri.Uri.{Uri as UriValue};
ghost use Rattle.http_uri.specs.Uri.{Spells, SpellsNone, uri_authority, uri_path, uri_query, uri_scheme};
ghost use Rattle.sv_target.specs.Path.{is_plain_segment, is_slash};
ghost use Rattle.sv_target.specs.Target as spec;
ghost use Rattle.sv_target.specs.Target.{IsBadTarget, IsCommon, IsTarget};

use crate::fault::TargetFault;
use crate::path::canonical_path;
use http::Method;
use http_uri::{Uri, UriError};
use std::alloc::{AllocError, Global};
use sv_model::Text;

/// The bytes of a target, at most, as `http_uri` reads them.
const TARGET_LIMIT: usize = 65_534;

/// What a target names.
#[derive(Drop)]
pub struct Target {
    /// The path as it was sent, up to the first `?`.
    pub raw_path: Text,
    /// The path without dot segments, decoded once; it begins with `/`.
    pub path: Text,
    /// What stands after the first `?`, as it was sent; empty where nothing does.
    pub query: Option<Text>,
}

/// Whether a byte that no target has stands in the text.
fn has_refused_byte(raw: &str) -> bool
    ensures { result ≡ list_any spec.is_refused_byte raw.now }
{
    raw.as_bytes()
        .iter()
        .any(|byte| *byte == b'#' || *byte == b'\\')
}

/// Whether the form of a target is served.
fn is_served_form(uri: &Uri) -> bool
    ensures { result ≡ spec.is_served_form (uri_scheme uri.now) (uri_authority uri.now) }
{
    match uri.scheme_str() {
        Some(scheme) => scheme == "http" || scheme == "https",
        None => uri.authority().is_none(),
    }
}

fn copied_query(alloc: Global, uri: &Uri) -> Result<Option<Text>, AllocError>
    ensures { IfOk result (λ query. query ≡ uri_query uri.now) }
{
    match uri.query() {
        Some(query) => Ok(Some(Text::from_str(alloc, query)?)),
        None => Ok(None),
    }
}

/// The target that the path and the query of a URI name.
#[tactic(auto, unfolding(crate::specs::Target::target_of))]
fn read_uri(alloc: Global, uri: &Uri) -> Result<Target, TargetFault>
    ensures ok { IfOk result (λ target. spec.target_of uri.now ≡ Some target) }
    ensures bad { IsErrOf result TargetFault.BadTarget → spec.target_of uri.now ≡ None }
    ensures other { IsErrOf result TargetFault.Connect → ⊥ }
{
    if !is_served_form(uri) {
        return Err(TargetFault::BadTarget);
    }
    read_parts(alloc, uri)
}

/// The target that a URI names whose form is served.
#[tactic(auto, unfolding(crate::specs::Target::target_at))]
fn read_parts(alloc: Global, uri: &Uri) -> Result<Target, TargetFault>
    ensures ok { IfOk result (λ target. spec.target_at (uri_path uri.now) (uri_query uri.now) ≡ Some target) }
    ensures bad { IsErrOf result TargetFault.BadTarget
        → spec.target_at (uri_path uri.now) (uri_query uri.now) ≡ None }
    ensures other { IsErrOf result TargetFault.Connect → ⊥ }
{
    let path = canonical_path(alloc, uri.path())?;
    let raw_path = Text::from_str(alloc, uri.path())?;
    let query = copied_query(alloc, uri)?;
    Ok(Target {
        raw_path,
        path: Text::from_string(path),
        query,
    })
}

/// The target that a text without a refused byte spells.
fn read_form(alloc: Global, raw: &str) -> Result<Target, TargetFault>
    ensures ok { IfOk result (λ target. (uri : UriValue) × Spells raw.now uri × (spec.target_of uri ≡ Some target)) }
    ensures bad { IsErrOf result TargetFault.BadTarget
        → SpellsNone raw.now ⊎ ((uri : UriValue) × Spells raw.now uri × (spec.target_of uri ≡ None)) }
    ensures other { IsErrOf result TargetFault.Connect → ⊥ }
{
    match Uri::from_bytes(alloc, raw.as_bytes()) {
        Ok(uri) => read_uri(alloc, &uri),
        Err(UriError::Invalid(_)) => Err(TargetFault::BadTarget),
        Err(UriError::OutOfMemory) => Err(TargetFault::Memory),
    }
}

/// Whether each byte is a letter, a digit, or one of `-._~/`.
static COMMON_BYTES: [bool; 256] = [
    false, false, false, false, false, false, false, false, false, false, false, false, false,
    false, false, false, false, false, false, false, false, false, false, false, false, false,
    false, false, false, false, false, false, false, false, false, false, false, false, false,
    false, false, false, false, false, false, true, true, true, true, true, true, true, true, true,
    true, true, true, true, false, false, false, false, false, false, false, true, true, true,
    true, true, true, true, true, true, true, true, true, true, true, true, true, true, true, true,
    true, true, true, true, true, true, true, false, false, false, false, true, false, true, true,
    true, true, true, true, true, true, true, true, true, true, true, true, true, true, true, true,
    true, true, true, true, true, true, true, true, false, false, false, true, false, false, false,
    false, false, false, false, false, false, false, false, false, false, false, false, false,
    false, false, false, false, false, false, false, false, false, false, false, false, false,
    false, false, false, false, false, false, false, false, false, false, false, false, false,
    false, false, false, false, false, false, false, false, false, false, false, false, false,
    false, false, false, false, false, false, false, false, false, false, false, false, false,
    false, false, false, false, false, false, false, false, false, false, false, false, false,
    false, false, false, false, false, false, false, false, false, false, false, false, false,
    false, false, false, false, false, false, false, false, false, false, false, false, false,
    false, false, false, false, false, false, false, false, false, false, false, false, false,
    false, false, false, false, false, false, false, false, false,
];

fn is_common_byte(byte: u8) -> bool
    ensures { result ≡ spec.is_common_byte byte }
{
    COMMON_BYTES[byte as usize]
}

/// Whether each byte after the first slash is such a one, and no segment begins with a dot.
fn is_undotted(text: &[u8]) -> bool
    ensures { result ≡ spec.common_from true text.now }
{
    let mut begins = true;
    let mut left = text;
    while let [byte, rest @ ..] = left {
        if !is_common_byte(*byte) || (begins && *byte == b'.') {
            return false;
        }
        begins = *byte == b'/';
        left = rest;
    }
    true
}

fn has_common_segments(text: &[u8]) -> bool
    ensures bytes { IsTrue result → list_all spec.is_common_byte text.now ≡ true }
    ensures segments { IsTrue result → list_all is_plain_segment (slice_split is_slash text.now) ≡ true }
{
    is_undotted(text)
}

/// Whether a text is the target of most requests: a path without a query that stands for itself.
fn is_common(raw: &str) -> bool
    ensures { IsTrue result → IsCommon raw.now }
{
    if raw.len() > TARGET_LIMIT {
        return false;
    }
    match raw.strip_prefix('/') {
        Some(rest) => has_common_segments(rest.as_bytes()),
        None => false,
    }
}

/// The target that such a text is.
fn common_target(alloc: Global, raw: &str) -> Result<Target, AllocError>
    requires { IsCommon raw.now }
    ensures { IfOk result (IsTarget raw.now) }
{
    Ok(Target {
        raw_path: Text::from_str(alloc, raw)?,
        path: Text::from_str(alloc, raw)?,
        query: None,
    })
}

/// The target that a text is.
fn read_target(alloc: Global, raw: &str) -> Result<Target, TargetFault>
    ensures ok { IfOk result (IsTarget raw.now) }
    ensures bad { IsErrOf result TargetFault.BadTarget → IsBadTarget raw.now }
    ensures other { IsErrOf result TargetFault.Connect → ⊥ }
{
    if is_common(raw) {
        return Ok(common_target(alloc, raw)?);
    }
    if has_refused_byte(raw) {
        return Err(TargetFault::BadTarget);
    }
    read_form(alloc, raw)
}

impl Target {
    /// Reads the target of a request.
    ///
    /// `CONNECT` is `Connect`, whatever its target. Served are origin-form and absolute-form with `http` or `https`
    /// (RFC 9112, sections 3.2.1 and 3.2.2); the host of an absolute target isn't looked at. `BadTarget` is any other
    /// form; a `#` or a backslash; a `..` above the root; a `%` without two hexadecimal digits; an escape of NUL, `/`
    /// or a backslash; a segment that decodes to `.`, to `..` or to what is no UTF-8. What stands after a `;` in a
    /// segment is cut off before the segment is looked at.
    pub fn read(alloc: Global, method: &Method, raw: &str) -> Result<Target, TargetFault>
        ensures ok { IfOk result (IsTarget raw.now) }
        ensures connect { IsErrOf result TargetFault.Connect ↔ (method.now ≡ codes "CONNECT") }
        ensures bad { IsErrOf result TargetFault.BadTarget → IsBadTarget raw.now }
    {
        if method.as_str() == "CONNECT" {
            return Err(TargetFault::Connect);
        }
        read_target(alloc, raw)
    }

    /// Reads a path within a context, with the query after its first `?`, as a target in origin-form is read.
    ///
    /// `BadTarget` is what doesn't begin with `/` and what `read` refuses; `Connect` isn't answered.
    pub fn read_within(alloc: Global, text: &str) -> Result<Target, TargetFault>
        ensures ok { IfOk result (λ target. spec.target_within text.now ≡ Some target) }
        ensures bad { IsErrOf result TargetFault.BadTarget → spec.target_within text.now ≡ None }
        ensures other { IsErrOf result TargetFault.Connect → ⊥ }
    {
        match text.strip_prefix('/') {
            Some(_rest) => read_target(alloc, text),
            None => Err(TargetFault::BadTarget),
        }
    }
}
