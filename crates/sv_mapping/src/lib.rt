//! Mapping of requests: the context of a path, the servlet of a path within its context, and the filters of a
//! dispatch.
//!
//! A floor of its own below the descriptor and the dispatcher; it stands on no other crate of the container. The
//! rules are those of Jakarta Servlet 6.0: sections 12.1 and 12.2 (patterns, and which of them is best), 3.5 (servlet
//! path and path info) and 6.2.4 and 6.2.5 (filter mappings and dispatchers). Contracts cite `Pattern.matches`,
//! `Mappings.IsBest` and `Mappings.mapped`, `Context.IsChosen` and `Filter.chain`. Paths come in decoded; nothing here
//! decodes a path, calls a filter or a servlet, or knows a servlet by anything but its number.
#![tactic(auto)]

mod chain;
mod context;
mod dispatcher;
mod fault;
mod filter;
pub mod laws;
mod mappings;
mod path;
mod pattern;
mod search;
mod servlet_match;

pub use chain::filters_for;
pub use context::{choose_context, path_in_context};
pub use dispatcher::{Dispatcher, Dispatchers, UnknownDispatcher};
pub use fault::MappingFault;
pub use filter::{FilterMapping, FilterTarget};
pub use mappings::{MAX_PATTERNS, Mappings};
pub use path::is_at_or_below;
pub use pattern::{MAX_PATTERN_BYTES, Pattern, PatternForm};
pub use servlet_match::Match;
