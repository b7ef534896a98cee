//! What a filter hands on.

ghost use Rattle.std.specs.Prelude.{◌≡◌, IfOk};
ghost use Rattle.sv_servlet.specs.declared.filter.Before.TheVariants.{PassWith};

use std::alloc::{AllocError, Global};
use sv_model::Text;
use sv_servlet::Before;

/// What a filter answers that passes, and has the request have an attribute for what stands after it, which reads it by
/// `call.attributes.get(name)` (Jakarta Servlet 6.0, section 3.3).
pub fn pass_with(alloc: Global, name: &str, value: &str) -> Result<Before, AllocError>
    ensures { IfOk result (λ before. before ≡ PassWith name.now value.now) }
{
    Ok(Before::PassWith {
        name: Text::from_str(alloc, name)?,
        value: Text::from_str(alloc, value)?,
    })
}
