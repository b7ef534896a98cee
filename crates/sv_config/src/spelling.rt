//! Texts that are badly spelled.

ghost use Rattle.std.specs.Prelude.{◌≡◌, ◌==◌, IfOk, map, codes};
ghost use Rattle.std.specs.List.{list_all, slice_split};
ghost use Rattle.toml.specs.View.{table_view};
ghost use Rattle.sv_mapping.specs.Pattern.{is_pattern, form_of};
ghost use Rattle.sv_config.specs.Document.{has as spec_has};
ghost use Rattle.sv_config.specs.Spelling as spec;

use crate::document::{has, text_at};
use std::alloc::{AllocError, Global};
use sv_mapping::Pattern;
use toml::Table;

/// The most bytes that the path of an error page has.
const MAX_PAGE_PATH_BYTES: usize = 256;

/// The most bytes that the path of a file or folder has.
const MAX_FILE_PATH_BYTES: usize = 256;

/// The most bytes that a value of Cache-Control has.
const MAX_CACHE_BYTES: usize = 256;

pub(crate) fn has_bad_context_path(alloc: Global, context: &Table) -> Result<bool, AllocError>
    ensures { IfOk result (λ b. b ≡ spec.fails_at spec.is_context_path (codes "path") (table_view context.now)) }
{
    match text_at(context, "path") {
        Some(path) => Ok(!is_context_path(alloc, path)?),
        None => Ok(false),
    }
}

pub(crate) fn has_bad_name(table: &Table) -> bool
    ensures { result ≡ spec.fails_at spec.is_name (codes "name") (table_view table.now) }
{
    match text_at(table, "name") {
        Some(name) => !is_name(name),
        None => false,
    }
}

pub(crate) fn has_bad_target(mapping: &Table) -> bool
    ensures { result ≡ spec.fails_at is_pattern (codes "pattern") (table_view mapping.now) }
{
    match text_at(mapping, "pattern") {
        Some(pattern) => !Pattern::is_valid(pattern),
        None => false,
    }
}

pub(crate) fn has_bad_page_path(page: &Table) -> bool
    ensures { result ≡ spec.fails_at spec.is_page_path (codes "path") (table_view page.now) }
{
    match text_at(page, "path") {
        Some(path) => !is_page_path(path),
        None => false,
    }
}

pub(crate) fn has_bad_cookie_name(cookie: &Table) -> bool
    ensures { result ≡ spec.fails_at spec.is_token (codes "name") (table_view cookie.now) }
{
    match text_at(cookie, "name") {
        Some(name) => !is_token(name),
        None => false,
    }
}

/// Whether the path of a file mapping is no pattern, or no prefix pattern where it has a folder.
pub(crate) fn has_bad_file_pattern(file: &Table) -> bool
    ensures { result ≡ spec.fails_at (spec.is_file_pattern (spec_has (codes "folder") (table_view file.now))) (codes "path") (table_view file.now) }
{
    match text_at(file, "path") {
        Some(path) => !is_file_pattern(has(file, "folder"), path),
        None => false,
    }
}

pub(crate) fn has_bad_file_path(alloc: Global, file: &Table, key: &str) -> Result<bool, AllocError>
    ensures { IfOk result (λ b. b ≡ spec.fails_at spec.is_file_path key.now (table_view file.now)) }
{
    match text_at(file, key) {
        Some(path) => Ok(!is_file_path(alloc, path)?),
        None => Ok(false),
    }
}

pub(crate) fn has_bad_cache_control(file: &Table) -> bool
    ensures { result ≡ spec.fails_at spec.is_cache_control (codes "cache") (table_view file.now) }
{
    match text_at(file, "cache") {
        Some(cache) => !is_cache_control(cache),
        None => false,
    }
}

/// A token (RFC 9110, section 5.6.2), or nothing.
fn is_token(text: &str) -> bool
    ensures { result ≡ spec.is_token text.now }
{
    text.bytes().all(|byte| is_token_char(byte))
}

fn is_token_char(byte: u8) -> bool
    ensures { result ≡ spec.is_token_char byte }
{
    byte.is_ascii_alphanumeric() || b"!#$%&'*+-.^_`|~".contains(&byte)
}

fn is_file_pattern(for_folder: bool, text: &str) -> bool
    ensures { result ≡ spec.is_file_pattern for_folder text.now }
{
    Pattern::is_valid(text) && has_file_form(for_folder, text)
}

fn has_file_form(for_folder: bool, text: &str) -> bool
    ensures { result ≡ spec.has_file_form for_folder text.now }
{
    if for_folder {
        is_prefix(text)
    } else {
        is_path_pattern(text)
    }
}

/// Whether a path can match it; a servlet of its name is none that is declared.
fn is_path_pattern(text: &str) -> bool
    ensures { result ≡ spec.is_path_pattern text.now }
{
    text.is_empty() || text.starts_with("/") || text.starts_with("*.")
}

/// Whether it begins with `/` and ends in `/*`.
#[tactic(auto, unfolding(sv_mapping::specs::Pattern::form_of))]
fn is_prefix(text: &str) -> bool
    ensures { result ≡ spec.is_prefix_form (form_of text.now) }
{
    text.starts_with("/") && text.ends_with("/*")
}

/// Segments with `/` between them, of which none begins with a dot.
#[tactic(auto, unfolding(crate::specs::Spelling::is_file_path))]
fn is_file_path(alloc: Global, text: &str) -> Result<bool, AllocError>
    ensures { IfOk result (λ b. b ≡ spec.is_file_path text.now) }
{
    if text.len() > MAX_FILE_PATH_BYTES {
        return Ok(false);
    }
    let segments = segments_of(alloc, text)?;
    Ok(are_file_segments(&segments))
}

fn are_file_segments(segments: &[&str]) -> bool
    ensures { result ≡ list_all spec.is_file_segment (map (λ segment. segment.now) segments.now) }
{
    for segment in segments {
        if !is_file_segment(segment) {
            return false;
        }
    }
    true
}

/// A segment that doesn't begin with a dot.
fn is_file_segment(text: &str) -> bool
    ensures { result ≡ spec.is_file_segment text.now }
{
    is_segment(text) && !text.starts_with(".")
}

/// Visible characters, and spaces that stand neither first nor last.
fn is_cache_control(text: &str) -> bool
    ensures { result ≡ spec.is_cache_control text.now }
{
    has_field_length(text) && are_field_chars(text) && !has_outer_space(text)
}

fn has_field_length(text: &str) -> bool
    ensures { result ≡ spec.has_field_length text.now }
{
    !text.is_empty() && text.len() <= MAX_CACHE_BYTES
}

fn has_outer_space(text: &str) -> bool
    ensures { result ≡ spec.has_outer_space text.now }
{
    let bytes = text.as_bytes();
    bytes.starts_with(b" ") || bytes.ends_with(b" ")
}

fn are_field_chars(text: &str) -> bool
    ensures { result ≡ list_all spec.is_field_char text.now }
{
    text.bytes().all(|byte| byte >= b' ' && byte <= b'~')
}

/// Letters, digits, `-` and `_`.
fn is_name(text: &str) -> bool
    ensures { result ≡ spec.is_name text.now }
{
    text.bytes().all(|byte| byte.is_ascii_alphanumeric() || byte == b'-' || byte == b'_')
}

/// It begins with `/` and is not too long.
fn is_page_path(text: &str) -> bool
    ensures { result ≡ spec.is_page_path text.now }
{
    text.starts_with('/') && text.len() <= MAX_PAGE_PATH_BYTES
}

/// Nothing, or `/` with a segment, once or more.
#[tactic(auto, unfolding(crate::specs::Spelling::is_context_path))]
fn is_context_path(alloc: Global, text: &str) -> Result<bool, AllocError>
    ensures { IfOk result (λ b. b ≡ spec.is_context_path text.now) }
{
    if text.is_empty() {
        return Ok(true);
    }
    if !text.starts_with("/") {
        return Ok(false);
    }
    let segments = segments_of(alloc, &text[1..])?;
    Ok(are_segments(&segments))
}

fn segments_of<'a>(alloc: Global, rest: &'a str) -> Result<Vec<&'a str>, AllocError>
    ensures { IfOk result (λ segments. map (λ segment. segment.now) segments.items ≡ slice_split (λ c. c == 47) rest.now) }
{
    rest.split('/').collect(alloc)
}

fn are_segments(segments: &[&str]) -> bool
    ensures { result ≡ list_all spec.is_segment (map (λ segment. segment.now) segments.now) }
{
    for segment in segments {
        if !is_segment(segment) {
            return false;
        }
    }
    true
}

/// Letters, digits and `-._~`, but neither `.` nor `..`.
fn is_segment(text: &str) -> bool
    ensures { result ≡ spec.is_segment text.now }
{
    !text.is_empty() && are_path_chars(text) && !(text == "." || text == "..")
}

fn are_path_chars(text: &str) -> bool
    ensures { result ≡ list_all spec.is_path_char text.now }
{
    text.bytes().all(|byte| is_path_char(byte))
}

fn is_path_char(byte: u8) -> bool
    ensures { result ≡ spec.is_path_char byte }
{
    byte.is_ascii_alphanumeric() || byte == b'-' || byte == b'.' || byte == b'_' || byte == b'~'
}
