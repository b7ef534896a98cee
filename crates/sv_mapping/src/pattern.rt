//! URL patterns: their five forms, and which paths they match (Jakarta Servlet 6.0, sections 12.1 and 12.2).

ghost use Rattle.std.specs.Prelude.{◌≡◌, ℕ, List, IfOk, IfErr, OnOk, IsTrue, string_bytes, if◌then◌else◌, Some};
ghost use Rattle.sv_mapping.specs.Pattern as spec;
ghost use Rattle.sv_mapping.specs.declared.fault.MappingFault.TheVariants.{BadPattern, Memory};

use crate::fault::MappingFault;
use crate::path::{extension_of, is_at_or_below};
use std::alloc::Global;
use std::fmt;
use std::marker::Model;

/// The most bytes that a pattern has.
pub const MAX_PATTERN_BYTES: usize = 256;

/// How a pattern matches (section 12.2).
#[derive(Clone, Copy, Debug, PartialEq, Eq)]
pub enum PatternForm {
    /// A text of none of the other forms: it matches the path that equals it.
    Exact,
    /// The empty text: it matches the path `/` alone.
    ContextRoot,
    /// `/q/*`, and `/*` where q is empty: it matches `/q` and every path below it.
    Prefix,
    /// `*.x`: it matches paths whose last segment ends in `.x`.
    Extension,
    /// `/`: it matches every path.
    Default,
}

/// A URL pattern, seen by contracts as its text.
///
/// The text is never decoded, and its case counts.
#[derive(Debug, Drop)]
pub struct Pattern {
    text: String,
}

impl Model for Pattern {
    ghost Value = { List ℕ };

    ghost view = { λ p. string_bytes p.text };

    ghost invariant = { λ p. IsTrue (spec.is_pattern (string_bytes p.text)) };
}

impl Pattern {
    /// Reads a pattern. It has at most [`MAX_PATTERN_BYTES`] bytes, and neither one below 0x20 nor 0x7F; every
    /// such text is a pattern of one of the five forms.
    pub fn read(alloc: Global, text: &str) -> Result<Pattern, MappingFault>
        ensures read { IfOk result (λ pattern. pattern ≡ text.now) }
        ensures good { OnOk result (IsTrue (spec.is_pattern text.now)) }
        ensures fault { IfErr result (λ fault. fault ≡ (if spec.is_pattern text.now then Memory else BadPattern)) }
    {
        if !is_pattern(text) {
            return Err(MappingFault::BadPattern);
        }
        let text = String::from_str(alloc, text)?;
        Ok(Pattern { text })
    }

    /// Whether a text can be read as a pattern.
    pub fn is_valid(text: &str) -> bool
        ensures { result ≡ spec.is_pattern text.now }
    {
        is_pattern(text)
    }

    /// The text that was read.
    pub fn as_str(&self) -> &str
        ensures text { result.now ≡ self.now }
        ensures good { IsTrue (spec.is_pattern self.now) }
    {
        self.text.as_str()
    }

    /// Which of the five forms it has.
    pub fn form(&self) -> PatternForm
        ensures { result ≡ spec.form_of self.now }
    {
        form_of(self.text.as_str())
    }

    /// Whether it matches a path within its context. Case counts.
    #[tactic(auto, unfolding(crate::specs::Pattern::matches))]
    pub fn matches(&self, path: &str) -> bool
        ensures { result ≡ spec.matches self.now path.now }
    {
        let text = self.text.as_str();
        match form_of(text) {
            PatternForm::Exact => path == text,
            PatternForm::ContextRoot => path == "/",
            PatternForm::Prefix => is_at_or_below(prefix_of(text), path),
            PatternForm::Extension => ends_in(suffix_of(text), path),
            PatternForm::Default => true,
        }
    }
}

impl fmt::Display for Pattern {
    ghost output = { λ p. Some p };

    fn fmt<W: fmt::Write>(&self, f: &mut fmt::Formatter<W>) -> fmt::Result {
        f.write_str(self.text.as_str())
    }
}

/// The form of a pattern's text.
#[tactic(auto, unfolding(crate::specs::Pattern::form_of))]
pub(crate) fn form_of(text: &str) -> PatternForm
    ensures { result ≡ spec.form_of text.now }
{
    if text.is_empty() {
        PatternForm::ContextRoot
    } else if text == "/" {
        PatternForm::Default
    } else if text.starts_with("/") && text.ends_with("/*") {
        PatternForm::Prefix
    } else if text.starts_with("*.") {
        PatternForm::Extension
    } else {
        PatternForm::Exact
    }
}

#[tactic(auto, unfolding(crate::specs::Pattern::is_pattern))]
fn is_pattern(text: &str) -> bool
    ensures { result ≡ spec.is_pattern text.now }
{
    text.len() <= MAX_PATTERN_BYTES && text.bytes().all(|byte| byte >= b' ' && byte != 0x7f)
}

/// What a prefix pattern has before its `/*`.
fn prefix_of(pattern: &str) -> &str
    requires { spec.form_of pattern.now ≡ PatternForm.Prefix }
    ensures { result.now ≡ spec.prefix_of pattern.now }
{
    &pattern[..pattern.len() - 2]
}

/// What an extension pattern has after its `*.`.
fn suffix_of(pattern: &str) -> &str
    requires { spec.form_of pattern.now ≡ PatternForm.Extension }
    ensures { result.now ≡ spec.suffix_of pattern.now }
{
    &pattern[2..]
}

/// Whether a path's last segment has this extension.
fn ends_in(extension: &str, path: &str) -> bool
    ensures { result ≡ spec.has_extension extension.now path.now }
{
    match extension_of(path) {
        Some(found) => found == extension,
        None => false,
    }
}
