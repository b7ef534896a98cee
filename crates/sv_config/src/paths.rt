//! The context paths of a deployment.

ghost use Rattle.std.specs.Prelude.{◌≡◌, IfOk, map, string_bytes};

use crate::deployment::{Context, Deployment};
use std::alloc::{AllocError, Global};

impl Deployment {
    /// The paths of the contexts, in order, as [`sv_mapping::choose_context`] takes them.
    pub fn context_paths(&self, alloc: Global) -> Result<Vec<String>, AllocError>
        ensures { IfOk result (λ paths. map string_bytes paths.items ≡ map (λ context. string_bytes context.path) self.now.contexts.items) }
    {
        paths_of(alloc, &self.contexts)
    }
}

fn paths_of(alloc: Global, contexts: &[Context]) -> Result<Vec<String>, AllocError>
    ensures { IfOk result (λ paths. map string_bytes paths.items ≡ map (λ context. string_bytes context.path) contexts.now) }
{
    let mut paths = Vec::new(alloc);
    for context in contexts {
        paths.push(String::from_str(alloc, &context.path)?)?;
    }
    Ok(paths)
}
