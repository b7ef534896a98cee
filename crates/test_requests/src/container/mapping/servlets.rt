//! As many patterns as a context may have, and memory that is refused.

use std::alloc::Global;
use std::process::Abort;
use sv_mapping::{MAX_PATTERNS, MappingFault, Mappings, Match, Pattern};

/// The path of a number.
fn path_of(rt: &impl Abort, alloc: Global, n: usize) -> String {
    format!(in alloc; "/{n}").expect(rt, "memory")
}

fn pattern_of(rt: &impl Abort, alloc: Global, text: &str) -> Pattern {
    Pattern::read(alloc, text).expect(rt, "a pattern")
}

/// Adds the pattern of a number, of the servlet of that number.
fn add(rt: &impl Abort, alloc: Global, mappings: &mut Mappings, n: usize) {
    let pattern = pattern_of(rt, alloc, &path_of(rt, alloc, n));
    mappings.add(pattern, n).expect(rt, "room for a pattern");
}

/// As many patterns as there may be: the numbers from 0 on, each of the servlet of that number.
fn full(rt: &impl Abort, alloc: Global) -> Mappings {
    let mut mappings = Mappings::new(alloc);
    for n in 0..MAX_PATTERNS {
        add(rt, alloc, &mut mappings, n);
    }
    mappings
}

fn has_all(rt: &impl Abort, alloc: Global) -> bool {
    full(rt, alloc).len() == MAX_PATTERNS
}

/// What one pattern more comes to.
fn added(rt: &impl Abort, alloc: Global, pattern: &str) -> Result<(), MappingFault> {
    let mut mappings = full(rt, alloc);
    mappings.add(pattern_of(rt, alloc, pattern), 1)
}

pub fn refuses_patterns_past_the_limit(rt: &impl Abort, alloc: Global) -> bool {
    Mappings::new(alloc).len() == 0
        && has_all(rt, alloc)
        && added(rt, alloc, "/more") == Err(MappingFault::TooMany)
        && added(rt, alloc, "/7") == Err(MappingFault::DuplicatePattern)
}

/// A path is found as its own pattern.
fn is_found(rt: &impl Abort, alloc: Global, mappings: &Mappings, n: usize) -> bool {
    let path = path_of(rt, alloc, n);
    let whole = Match {
        servlet: n,
        split: path.len(),
        info: false,
    };
    mappings.find(&path) == Some(whole)
}

/// Each path is found, and no other.
fn are_found(rt: &impl Abort, alloc: Global, mappings: &Mappings) -> bool {
    for n in 0..MAX_PATTERNS {
        if !is_found(rt, alloc, mappings, n) {
            return false;
        }
    }
    mappings.find("/more") == None
}

pub fn finds_each_of_as_many_patterns_as_there_may_be(rt: &impl Abort, alloc: Global) -> bool {
    are_found(rt, alloc, &full(rt, alloc))
}
