//! Which object is meant by which name of a deployment.

ghost use Rattle.std.specs.Prelude.{◌≡◌, ◌≤◌, ◌<◌, ◌++◌, IfErr, IfNone, IfOk, IfSome, length, take, map, string_bytes};
ghost use Rattle.std.specs.List.Sorted.{IsPermutation};
ghost use Rattle.sv_container.specs.Deployment as spec;
ghost use Rattle.sv_container.specs.Starting.{HasAll, IsFaultFor, Lacks, filter_labels, listener_labels, servlet_labels, times};
ghost use Rattle.sv_container.specs.declared.arrange.Kind.TheVariants as kinds;

use crate::named::{Named, StartFault};
use sv_config::Context;

/// A kind of objects.
#[derive(Clone, Copy, Debug, PartialEq, Eq)]
pub enum Kind {
    Servlet,
    Filter,
    Listener,
}

/// The names of a kind that a context declares, in order.
fn names_of(kind: Kind, context: &Context) -> &[String]
    ensures { map string_bytes result.now ≡ spec.names_of kind context.now }
{
    match kind {
        Kind::Servlet => context.servlets.as_slice(),
        Kind::Filter => context.filters.as_slice(),
        Kind::Listener => context.listeners.as_slice(),
    }
}

/// The first place, from `from` on, of an object of a context and a name.
fn find<O>(objects: &[Named<O>], from: usize, context: usize, name: &str) -> Option<usize>
    ensures found { IfSome result (spec.IsFoundAt objects.now from (spec.label context name.now)) }
    ensures missing { IfNone result (times (spec.label context name.now) (spec.labels_of objects.now)
        ≡ times (spec.label context name.now) (spec.labels_of (take from objects.now))) }
{
    for at in from..objects.len() {
        let object = &objects[at];
        if object.context == context && object.name.as_str() == name {
            return Some(at);
        }
    }
    None
}

/// Brings the objects of a context into the order of its names, from a place on; the place after them, or none where
/// one is missing.
fn arrange_context<O>(
    objects: &mut Vec<Named<O>>,
    from: usize,
    context: usize,
    names: &[String],
) -> Option<usize>
    requires { from ≤ length objects.old.items }
    ensures same { IsPermutation objects.old.items objects.new.items }
    ensures within { IfSome result (λ at. at ≤ length objects.new.items) }
    ensures named { IfSome result (λ at. spec.labels_of (take at objects.new.items) ≡ spec.labels_of (take from objects.old.items)
        ++ map (spec.label context) (map string_bytes names.now)) }
    ensures missing { IfNone result (Lacks (spec.labels_of objects.old.items) (spec.labels_of (take from objects.old.items)
        ++ map (spec.label context) (map string_bytes names.now))) }
{
    for count in 0..names.len() {
        let at = from + count;
        let place = find(objects.as_slice(), at, context, names[count].as_str())?;
        objects.swap(at, place);
    }
    Some(from + names.len())
}

/// Brings objects into the order of what the contexts declare; how many are declared, or none where one is missing.
fn arrange_kind<O>(objects: &mut Vec<Named<O>>, kind: Kind, contexts: &[Context]) -> Option<usize>
    ensures same { IsPermutation objects.old.items objects.new.items }
    ensures named { IfSome result (λ at. spec.labels_of (take at objects.new.items) ≡ spec.declared kind contexts.now) }
    ensures missing { IfNone result (Lacks (spec.labels_of objects.old.items) (spec.declared kind contexts.now)) }
    ensures complete { IfSome result (λ at. HasAll (spec.labels_of objects.old.items) (spec.declared kind contexts.now)) }
    ensures extra { IfSome result (λ at. at < length objects.new.items → Lacks (spec.declared kind contexts.now) (spec.labels_of objects.old.items)) }
    ensures within { IfSome result (λ at. at ≤ length objects.new.items) }
{
    let mut at = 0;
    for number in 0..contexts.len() {
        at = arrange_context(objects, at, number, names_of(kind, &contexts[number]))?;
    }
    Some(at)
}

/// Brings all objects into the order of what is declared.
pub fn arrange<S, F, L>(
    contexts: &[Context],
    servlets: &mut Vec<Named<S>>,
    filters: &mut Vec<Named<F>>,
    listeners: &mut Vec<Named<L>>,
) -> Result<(), StartFault>
    ensures servlets { IsPermutation servlets.old.items servlets.new.items }
    ensures filters { IsPermutation filters.old.items filters.new.items }
    ensures listeners { IsPermutation listeners.old.items listeners.new.items }
    ensures named_servlets { IfOk result (λ _. spec.labels_of servlets.new.items ≡ spec.declared kinds.Servlet contexts.now) }
    ensures named_filters { IfOk result (λ _. spec.labels_of filters.new.items ≡ spec.declared kinds.Filter contexts.now) }
    ensures fault { IfErr result (λ fault. IsFaultFor fault (servlet_labels contexts.now servlets.old.items) (filter_labels contexts.now filters.old.items)
        (listener_labels contexts.now listeners.old.items)) }
    ensures named_listeners { IfOk result (λ _. spec.labels_of listeners.new.items ≡ spec.declared kinds.Listener contexts.now) }
{
    let Some(servlet_count) = arrange_kind(servlets, Kind::Servlet, contexts) else {
        return Err(StartFault::MissingObject);
    };
    let Some(filter_count) = arrange_kind(filters, Kind::Filter, contexts) else {
        return Err(StartFault::MissingObject);
    };
    let Some(listener_count) = arrange_kind(listeners, Kind::Listener, contexts) else {
        return Err(StartFault::MissingObject);
    };
    if servlet_count < servlets.len() {
        return Err(StartFault::ExtraObject);
    }
    if filter_count < filters.len() {
        return Err(StartFault::ExtraObject);
    }
    if listener_count < listeners.len() {
        return Err(StartFault::ExtraObject);
    }
    Ok(())
}
