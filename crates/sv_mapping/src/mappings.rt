//! The servlet patterns of a context, and the servlet of a path (Jakarta Servlet 6.0, section 12.1).

ghost use Rattle.std.specs.Prelude.{◌≡◌, ◌↔◌, ◌<◌, ◌≤◌, ◌++◌, ℕ, IsTrue, IsNone, IfSome, OnOk, OnErr, IfErr, None, unwrap_or, option_map, length};
ghost use Rattle.std.specs.FinMap as map;
ghost use Rattle.std.specs.Coded.{coded_ℕ, coded_list};
ghost use Rattle.std.specs.Str.{IsCharBoundary};
ghost use Rattle.sv_mapping.specs.Search.{text_cmp, are_short};
ghost use Rattle.sv_mapping.specs.ServletMatch.{shown};
ghost use Rattle.sv_mapping.specs.Mappings.{refusal, HasNoMatch, IsBestMatch, AnswersByRule, mapped};

use crate::fault::MappingFault;
use crate::path::extension_of;
use crate::pattern::{MAX_PATTERN_BYTES, Pattern, PatternForm, form_of};
use crate::search::search;
use crate::servlet_match::Match;
use std::alloc::Global;
use std::marker::Model;

/// The most patterns that the servlets of a context have in all.
pub const MAX_PATTERNS: usize = 256;

/// The servlet patterns of one context, each with the number of its servlet.
///
/// Contracts see it as a finite map from the texts of the patterns to the numbers.
#[derive(Debug, Drop)]
pub struct Mappings {
    // in the order of the patterns' bytes
    entries: Vec<(Pattern, usize)>,
}

impl Model for Mappings {
    ghost Value = { map.FinMap text_cmp ℕ };

    ghost coded = { map.code (coded_list coded_ℕ) coded_ℕ };

    ghost view = { λ m. map.from_sorted m.entries.items };

    ghost invariant = { λ m. IsTrue (map.is_sorted text_cmp m.entries.items) × (length m.entries.items ≤ 256) × IsTrue (are_short m.entries.items) };
}

impl Mappings {
    /// The mappings of a context without servlets.
    pub fn new(alloc: Global) -> Mappings
        ensures { result ≡ map.empty }
    {
        Mappings {
            entries: Vec::new(alloc),
        }
    }

    /// How many patterns are mapped.
    pub fn len(&self) -> usize
        ensures len { result ≡ map.len self.now }
        ensures small { result ≤ MAX_PATTERNS }
    {
        self.entries.len()
    }

    /// Whether no pattern is mapped.
    pub fn is_empty(&self) -> bool
        ensures { IsTrue result ↔ (map.len self.now ≡ 0) }
    {
        self.len() == 0
    }

    /// Maps a pattern to a servlet, by the servlet's number.
    ///
    /// The pattern is dropped where it is refused.
    pub fn add(&mut self, pattern: Pattern, servlet: usize) -> Result<(), MappingFault>
        ensures ok { OnOk result ((refusal self.old pattern ≡ None) × (self.new ≡ map.insert self.old pattern servlet)) }
        ensures err { OnErr result (self.new ≡ self.old) }
        ensures fault { IfErr result (λ fault. fault ≡ unwrap_or (refusal self.old pattern) MappingFault.Memory) }
    {
        match search(&self.entries, pattern.as_str(), "") {
            Ok(_) => Err(MappingFault::DuplicatePattern),
            Err(_) if self.entries.len() >= MAX_PATTERNS => Err(MappingFault::TooMany),
            Err(place) => Ok(self.entries.insert(place, (pattern, servlet))?),
        }
    }

    /// The servlet of a path within the context, by the best pattern that matches it. Takes no memory.
    ///
    /// The path is decoded and begins with `/`; an empty one is handed in as `/`.
    pub fn find(&self, path: &str) -> Option<Match>
        ensures best { IfSome result (IsBestMatch self.now path.now) }
        ensures none { IsNone result ↔ HasNoMatch self.now path.now }
        ensures mapped { option_map (shown path.now) result ≡ mapped self.now path.now }
        ensures boundary { IfSome result (λ found. IsCharBoundary path.now found.split) }
    {
        self.by_exact(path)
            .or_else(|| self.by_prefix(path))
            .or_else(|| self.by_extension(path))
            .or_else(|| self.by_default(path))
    }

    /// By an exact pattern, or by the empty one.
    fn by_exact(&self, path: &str) -> Option<Match>
        ensures { AnswersByRule self.now path.now 1 result }
    {
        if path == "/" {
            let servlet = self.servlet_of("", "")?;
            return Some(Match {
                servlet,
                split: 0,
                info: true,
            });
        }
        let PatternForm::Exact = form_of(path) else {
            return None;
        };
        let servlet = self.servlet_of(path, "")?;
        Some(Match::whole(servlet, path))
    }

    /// By the longest prefix: the path is cut at its slashes, from the last to the first.
    fn by_prefix(&self, path: &str) -> Option<Match>
        ensures { AnswersByRule self.now path.now 2 result }
    {
        if !path.is_empty() && !path.starts_with('/') {
            return None;
        }
        let mut front = path;
        loop {
            if let Some(servlet) = self.servlet_of(front, "/*") {
                return Some(Match {
                    servlet,
                    split: front.len(),
                    info: front.len() < path.len(),
                });
            }
            let slash = front.rfind('/')?;
            front = &front[..slash];
        }
    }

    fn by_extension(&self, path: &str) -> Option<Match>
        ensures { AnswersByRule self.now path.now 3 result }
    {
        let extension = extension_of(path)?;
        let servlet = self.servlet_of("*.", extension)?;
        Some(Match::whole(servlet, path))
    }

    fn by_default(&self, path: &str) -> Option<Match>
        ensures { AnswersByRule self.now path.now 4 result }
    {
        let servlet = self.servlet_of("/", "")?;
        Some(Match::whole(servlet, path))
    }

    /// The servlet of a pattern that is written as `front` followed by `back`. What is longer than any pattern is not
    /// looked for.
    fn servlet_of(&self, front: &str, back: &str) -> Option<usize>
        ensures { result ≡ map.get self.now (front.now ++ back.now) }
    {
        let entries = &self.entries;
        if front.len() > MAX_PATTERN_BYTES {
            return None;
        }
        match search(entries, front, back) {
            Ok(place) => Some(entries[place].1),
            Err(_) => None,
        }
    }
}
