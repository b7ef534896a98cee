//! The fields of a reply, of which several may have one name (RFC 9110, section 5.3).

ghost use Rattle.std.specs.Prelude.{◌≡◌, ◌<◌, ◌+◌, ◌++◌, ◌∷◌, [], take, drop, length, OnOk, OnErr};
ghost use Rattle.std.specs.List.{filter};
ghost use Rattle.sv_servlet.specs.Fields.{has_other_name, with_only};

use std::alloc::AllocError;
use sv_model::{Field, place_of_field};

/// Takes the fields of a name away that stand after a place. Each moves those after it, which are few.
fn clear_behind(fields: &mut Vec<Field>, at: usize, name: &[u8])
    requires { at < length fields.old.items }
    ensures { fields.new.items ≡ take (at + 1) fields.old.items ++ filter (has_other_name name.now) (drop (at + 1) fields.old.items) }
{
    let mut next = fields.len();
    while next > at + 1 {
        next -= 1;
        if fields[next].name.as_bytes() == name {
            let _ = fields.remove(next);
        }
    }
}

/// Adds a field last.
pub fn add_last(fields: &mut Vec<Field>, field: Field) -> Result<(), AllocError>
    ensures ok { OnOk result (fields.new.items ≡ fields.old.items ++ field ∷ []) }
    ensures err { OnErr result (fields.new.items ≡ fields.old.items) }
{
    fields.push(field)?;
    Ok(())
}

/// Puts a field in the place of the first of its name, of which no other stays, or adds it last.
#[tactic(auto, unfolding(crate::specs::Fields::with_only))]
pub fn set_only(fields: &mut Vec<Field>, field: Field) -> Result<(), AllocError>
    ensures ok { OnOk result (fields.new.items ≡ with_only fields.old.items field) }
    ensures err { OnErr result (fields.new.items ≡ fields.old.items) }
{
    match place_of_field(fields.as_slice(), &field.name) {
        Some(at) => {
            clear_behind(fields, at, field.name.as_bytes());
            fields[at] = field;
            Ok(())
        }
        None => add_last(fields, field),
    }
}
