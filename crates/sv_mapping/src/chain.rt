//! The chain of a dispatch: which filters are called, and in which order (Jakarta Servlet 6.0, section 6.2.4).

ghost use Rattle.std.specs.Prelude.{◌≡◌, ◌&&◌, IfOk, IfErr, OnOk, filter};
ghost use Rattle.sv_mapping.specs.Dispatcher.{carries};
ghost use Rattle.sv_mapping.specs.Filter.{chain, matches_path, names_servlet};
ghost use Rattle.sv_mapping.specs.Chain.{added, added_where};
ghost use Rattle.sv_mapping.specs.declared.fault.MappingFault.TheVariants.{Memory};

use crate::dispatcher::Dispatcher;
use crate::fault::MappingFault;
use crate::filter::FilterMapping;
use std::alloc::Global;

/// The filters of a dispatch, by their numbers, in the order in which they are called.
///
/// `path` is the path within the context, and `servlet` the number of the servlet that it is mapped to, if any.
/// Filters that are mapped by a pattern come first, in the order of their mappings; a filter that is mapped twice
/// stands at its first place. The one fault is [`MappingFault::Memory`].
pub fn filters_for(
    alloc: Global,
    mappings: &[FilterMapping],
    path: &str,
    servlet: Option<usize>,
    dispatcher: Dispatcher,
) -> Result<Vec<usize>, MappingFault>
    ensures chain { IfOk result (λ filters. filters.items ≡ chain mappings.now path.now servlet dispatcher) }
    ensures memory { IfErr result (λ fault. fault ≡ Memory) }
{
    let mut filters = Vec::new(alloc);
    add_by_pattern(&mut filters, mappings, path, dispatcher)?;
    add_by_servlet(&mut filters, mappings, servlet, dispatcher)?;
    Ok(filters)
}

fn add_by_pattern(
    filters: &mut Vec<usize>,
    mappings: &[FilterMapping],
    path: &str,
    dispatcher: Dispatcher,
) -> Result<(), MappingFault>
    ensures ok { OnOk result (filters.new.items ≡ added_where (λ m.
        carries m.dispatchers dispatcher && matches_path path.now m.target) filters.old.items mappings.now) }
    ensures memory { IfErr result (λ fault. fault ≡ Memory) }
{
    for mapping in mappings {
        if mapping.dispatchers.contains(dispatcher) && mapping.target.matches_path(path) {
            add(filters, mapping.filter)?;
        }
    }
    Ok(())
}

fn add_by_servlet(
    filters: &mut Vec<usize>,
    mappings: &[FilterMapping],
    servlet: Option<usize>,
    dispatcher: Dispatcher,
) -> Result<(), MappingFault>
    ensures ok { OnOk result (filters.new.items ≡ added_where (λ m.
        carries m.dispatchers dispatcher && names_servlet servlet m.target) filters.old.items mappings.now) }
    ensures memory { IfErr result (λ fault. fault ≡ Memory) }
{
    for mapping in mappings {
        if mapping.dispatchers.contains(dispatcher) && mapping.target.names_servlet(servlet) {
            add(filters, mapping.filter)?;
        }
    }
    Ok(())
}

/// Adds a filter that is not there yet.
fn add(filters: &mut Vec<usize>, filter: usize) -> Result<(), MappingFault>
    ensures ok { OnOk result (filters.new.items ≡ added filters.old.items filter) }
    ensures memory { IfErr result (λ fault. fault ≡ Memory) }
{
    if !filters.contains(&filter) {
        filters.push(filter)?;
    }
    Ok(())
}
