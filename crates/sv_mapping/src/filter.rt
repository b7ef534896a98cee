//! The filters of a dispatch (Jakarta Servlet 6.0, section 6.2.4).

ghost use Rattle.std.specs.Prelude.{◌≡◌};

use crate::dispatcher::Dispatchers;
use crate::pattern::Pattern;

/// What a filter is mapped to.
#[derive(Debug, Drop)]
pub enum FilterTarget {
    /// The paths that a pattern matches.
    Pattern(Pattern),
    /// A servlet, by its number.
    Servlet(usize),
}

/// A filter mapping of a context.
#[derive(Debug, Drop)]
pub struct FilterMapping {
    /// The number of the filter.
    pub filter: usize,
    /// What the filter is mapped to.
    pub target: FilterTarget,
    /// The dispatchers that the mapping is for.
    pub dispatchers: Dispatchers,
}

impl FilterTarget {
    ghost use Rattle.sv_mapping.specs.Filter.{matches_path, names_servlet};

    /// Whether it is a pattern that matches a path.
    pub fn matches_path(&self, path: &str) -> bool
        ensures { result ≡ matches_path path.now self.now }
    {
        match self {
            FilterTarget::Pattern(pattern) => pattern.matches(path),
            FilterTarget::Servlet(_) => false,
        }
    }

    /// Whether it names a servlet.
    pub fn names_servlet(&self, servlet: Option<usize>) -> bool
        ensures { result ≡ names_servlet servlet self.now }
    {
        match self {
            FilterTarget::Pattern(_) => false,
            FilterTarget::Servlet(named) => match servlet {
                Some(servlet) => servlet == *named,
                None => false,
            },
        }
    }
}
