//! The context of a path, and the path within it (Jakarta Servlet 6.0, section 12.1).

ghost use Rattle.std.specs.Prelude.{◌≡◌, ◌↔◌, ◌<◌, ◌&&◌, length, map, string_bytes, IsTrue, IsNone, IfSome};
ghost use Rattle.std.specs.Option.{ForSome};
ghost use Rattle.sv_mapping.specs.Path as paths;
ghost use Rattle.sv_mapping.specs.Context as spec;
ghost use Rattle.sv_mapping.specs.Context.{IsChosen, HasNoContext};

use crate::path::is_at_or_below;

/// The place of the context of a path: of the context paths that the path equals, or begins with before a `/`, the
/// longest. Takes no memory.
///
/// The empty context path is that of the root context, which has every path.
pub fn choose_context(contexts: &[String], path: &str) -> Option<usize>
    ensures chosen { IfSome result (IsChosen (map string_bytes contexts.now) path.now) }
    ensures none { IsNone result ↔ HasNoContext (map string_bytes contexts.now) path.now }
    ensures value { result ≡ spec.chosen_context (map string_bytes contexts.now) path.now }
{
    let mut chosen = None;
    for place in (0..contexts.len()).rev() {
        if is_preferred(contexts, path, place, chosen) {
            chosen = Some(place);
        }
    }
    chosen
}

/// Whether the context at a place has the path, and is chosen before one that stands after it.
fn is_preferred(contexts: &[String], path: &str, place: usize, later: Option<usize>) -> bool
    requires place_in { place < length contexts.now }
    requires later_in { ForSome later (λ k. k < length contexts.now) }
    ensures { result ≡ (paths.is_at_or_below (spec.context_at (map string_bytes contexts.now) place) path.now && spec.is_as_long
        (map string_bytes contexts.now) place later) }
{
    let context = contexts[place].as_str();
    let is_as_long = match later {
        Some(later) => contexts[later].len() <= context.len(),
        None => true,
    };
    is_as_long && is_at_or_below(context, path)
}

/// The path within its context: what stands after the context path, and `/` where that is nothing.
pub fn path_in_context<'a>(context: &str, path: &'a str) -> &'a str
    requires { IsTrue (paths.is_at_or_below context.now path.now) }
    ensures { result.now ≡ spec.path_in_context context.now path.now }
{
    let rest = &path[context.len()..];
    if rest.is_empty() { "/" } else { rest }
}
