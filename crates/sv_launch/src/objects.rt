//! The objects that a descriptor declares.

ghost use Rattle.std.specs.Prelude.{◌≡◌, ◌≢◌, ◌++◌, All, IfErr, IfOk, IsTrue, OnOk, map, string_bytes};
ghost use Rattle.std.specs.List.{list_any};
ghost use Rattle.sv_config.specs.Values.{context_data};
ghost use Rattle.sv_launch.specs.Objects.{object_data, is_missing, looked_up, lookups};
ghost use Rattle.sv_launch.specs.declared.fault.Fault.TheVariants.{Memory, MissingObject};

use crate::fault::Fault;
use crate::kind::NamedObjects;
use std::alloc::Global;
use sv_config::Context;
use sv_container::Named;

/// The objects of one kind that these contexts declare, in order: each new, and what its name stands for.
///
/// A name that stands for nothing of the kind is [`Fault::MissingObject`].
pub fn objects_of<K: NamedObjects>(
    alloc: Global,
    kind: &K,
    contexts: &[Context],
) -> Result<Vec<Named<K::Object>>, Fault>
    ensures new { IfOk result (λ objects. All (λ n. K.is_new n.object) objects.items) }
    ensures objects { IfOk result (λ objects. map (object_data K.meant) objects.items
        ≡ lookups (K.named kind.now) K.names_in 0 (map context_data contexts.now)) }
    ensures missing { IfErr result (λ fault. fault ≢ Memory → (fault ≡ MissingObject)
        × IsTrue (list_any is_missing (lookups (K.named kind.now) K.names_in 0 (map context_data contexts.now)))) }
{
    let mut objects = Vec::new(alloc);
    for (number, context) in contexts.iter().enumerate() {
        add_objects(alloc, kind, &mut objects, number, K::names(context))?;
    }
    Ok(objects)
}

/// Adds the objects that a context declares.
fn add_objects<K: NamedObjects>(
    alloc: Global,
    kind: &K,
    objects: &mut Vec<Named<K::Object>>,
    context: usize,
    names: &[String],
) -> Result<(), Fault>
    requires { All (λ n. K.is_new n.object) objects.old.items }
    ensures new { All (λ n. K.is_new n.object) objects.new.items }
    ensures objects { OnOk result (map (object_data K.meant) objects.new.items ≡ map (object_data K.meant) objects.old.items
        ++ looked_up (K.named kind.now) context (map string_bytes names.now)) }
    ensures missing { IfErr result (λ fault. fault ≢ Memory → (fault ≡ MissingObject)
        × IsTrue (list_any is_missing (looked_up (K.named kind.now) context (map string_bytes names.now)))) }
{
    for name in names {
        let Some(object) = kind.object(alloc, context, name.as_str())? else {
            return Err(Fault::MissingObject);
        };
        let name = String::from_str(alloc, name.as_str())?;
        objects.push(Named {
            context,
            name,
            object,
        })?;
    }
    Ok(())
}
