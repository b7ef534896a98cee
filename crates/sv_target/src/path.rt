//! The canonical path: without dot segments, decoded once (RFC 3986, sections 2.4 and 5.2.4).

ghost use Rattle.std.specs.Prelude.{◌≡◌, [], Some, None, fold, map, string_bytes, IfOk, OnOk, IsErrOf};
ghost use Rattle.std.specs.Cow.{cow_str_bytes};
ghost use Rattle.std.specs.List.{list_all, slice_split};
ghost use Rattle.sv_target.specs.Path as spec;
ghost use Rattle.sv_target.specs.Path.{step};
ghost use Rattle.sv_target.specs.Segment.{cut as cut_of};

use crate::fault::TargetFault;
use crate::segment::{cut, decoded, is_dots};
use std::alloc::{AllocError, Global};
use std::borrow::CowStr;

/// The parts of a path after its first slash.
fn split_path(alloc: Global, rest: &str) -> Result<Vec<&str>, AllocError>
    ensures { IfOk result (λ parts. map (λ part. part.now) parts.items
        ≡ slice_split spec.is_slash rest.now) }
{
    rest.split('/').collect(alloc)
}

/// Takes one more segment.
fn take_segment<'a>(
    alloc: Global,
    kept: &mut Vec<CowStr<'a, Global>>,
    segment: &'a str,
) -> Result<(), TargetFault>
    ensures ok { OnOk result (step (Some (map cow_str_bytes kept.old.items)) segment.now
        ≡ Some (map cow_str_bytes kept.new.items)) }
    ensures bad { IsErrOf result TargetFault.BadTarget
        → step (Some (map cow_str_bytes kept.old.items)) segment.now ≡ None }
    ensures other { IsErrOf result TargetFault.Connect → ⊥ }
{
    let text = decoded(alloc, segment)?;
    if segment == "." {
        return Ok(());
    }
    if segment == ".." {
        return match kept.pop() {
            Some(_) => Ok(()),
            None => Err(TargetFault::BadTarget),
        };
    }
    kept.push(text)?;
    Ok(())
}

/// The segments that are kept of the parts of a path.
fn keep_segments<'a>(
    alloc: Global,
    parts: &[&'a str],
) -> Result<Vec<CowStr<'a, Global>>, TargetFault>
    ensures ok { IfOk result (λ kept. fold step (Some []) (map (λ part. cut_of part.now) parts.now)
        ≡ Some (map cow_str_bytes kept.items)) }
    ensures bad { IsErrOf result TargetFault.BadTarget
        → fold step (Some []) (map (λ part. cut_of part.now) parts.now) ≡ None }
    ensures other { IsErrOf result TargetFault.Connect → ⊥ }
{
    let mut kept = Vec::with_capacity(alloc, parts.len())?;
    for part in parts {
        take_segment(alloc, &mut kept, cut(part))?;
    }
    Ok(kept)
}

/// Whether the last segment is `.` or `..`.
#[tactic(auto, unfolding(crate::specs::Segment::is_dots))]
fn ends_in_dots(parts: &[&str]) -> bool
    ensures { result ≡ spec.ends_in_dots (map (λ part. cut_of part.now) parts.now) }
{
    match parts.last() {
        Some(last) => is_dots(cut(last)),
        None => false,
    }
}

/// The segments of a path, with the one that stands after a last `.` or `..`.
fn resolve<'a>(alloc: Global, parts: &[&'a str]) -> Result<Vec<CowStr<'a, Global>>, TargetFault>
    ensures ok { IfOk result (λ kept. spec.resolved (map (λ part. cut_of part.now) parts.now)
        ≡ Some (map cow_str_bytes kept.items)) }
    ensures bad { IsErrOf result TargetFault.BadTarget
        → spec.resolved (map (λ part. cut_of part.now) parts.now) ≡ None }
    ensures other { IsErrOf result TargetFault.Connect → ⊥ }
{
    let mut kept = keep_segments(alloc, parts)?;
    if !ends_in_dots(parts) {
        return Ok(kept);
    }
    kept.push(CowStr::Borrowed(""))?;
    Ok(kept)
}

/// The text of a path with these segments.
fn path_text(alloc: Global, kept: &[CowStr<'_, Global>]) -> Result<String, AllocError>
    ensures { IfOk result (λ text. string_bytes text ≡ spec.path_text (map cow_str_bytes kept.now)) }
{
    let mut text = String::new(alloc);
    for segment in kept {
        text.push('/')?;
        text.push_str(segment.as_str())?;
    }
    Ok(text)
}

/// The segments of a path after its first slash.
#[tactic(auto, unfolding(crate::specs::Path::segments))]
fn kept_segments(alloc: Global, rest: &str) -> Result<Vec<CowStr<'_, Global>>, TargetFault>
    ensures ok { IfOk result (λ kept. spec.resolved (spec.segments rest.now)
        ≡ Some (map cow_str_bytes kept.items)) }
    ensures bad { IsErrOf result TargetFault.BadTarget
        → spec.resolved (spec.segments rest.now) ≡ None }
    ensures other { IsErrOf result TargetFault.Connect → ⊥ }
{
    let parts = split_path(alloc, rest)?;
    resolve(alloc, &parts)
}

/// A byte of ASCII that neither begins an escape nor ends a segment's text.
fn is_plain_byte(byte: u8) -> bool
    ensures { result ≡ spec.is_plain_byte byte }
{
    byte < 128 && (byte != b'%' && byte != b';')
}

fn begins_with_dot(segment: &[u8]) -> bool
    ensures { result ≡ spec.begins_with_dot segment.now }
{
    segment.len() > 0 && segment[0] == b'.'
}

fn has_plain_bytes(segment: &[u8]) -> bool
    ensures { result ≡ list_all spec.is_plain_byte segment.now }
{
    segment.iter().all(|byte| is_plain_byte(*byte))
}

/// Whether a segment stands for itself.
fn is_plain_segment(segment: &[u8]) -> bool
    ensures { result ≡ spec.is_plain_segment segment.now }
{
    !begins_with_dot(segment) && has_plain_bytes(segment)
}

/// Whether each segment of a path after its first slash stands for itself, as most do: the path is its own canonical one then.
fn is_plain(rest: &str) -> bool
    ensures { result ≡ list_all spec.is_plain_segment (slice_split spec.is_slash rest.now) }
{
    rest.as_bytes()
        .split(|byte| *byte == b'/')
        .all(|segment| is_plain_segment(segment))
}

/// The canonical path of a path; `BadTarget` where it has none.
#[tactic(auto, unfolding(crate::specs::Path::canonical_path))]
pub(crate) fn canonical_path(alloc: Global, path: &str) -> Result<String, TargetFault>
    ensures ok { IfOk result (λ text. spec.canonical_path path.now ≡ Some (string_bytes text)) }
    ensures bad { IsErrOf result TargetFault.BadTarget → spec.canonical_path path.now ≡ None }
    ensures other { IsErrOf result TargetFault.Connect → ⊥ }
{
    let Some(rest) = path.strip_prefix('/') else {
        return Err(TargetFault::BadTarget);
    };
    if is_plain(rest) {
        return Ok(String::from_str(alloc, path)?);
    }
    let kept = kept_segments(alloc, rest)?;
    Ok(path_text(alloc, &kept)?)
}
