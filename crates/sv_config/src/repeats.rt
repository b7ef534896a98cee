//! Where something stands again that may stand once.

ghost use Rattle.std.specs.Prelude.{◌≡◌, ◌++◌, map, drop, IfOk, OnOk, codes, bytes_eq, if◌then◌else◌, List, [], ◌∷◌};
ghost use Rattle.std.specs.List.{flat_map};
ghost use Rattle.std.specs.Ordering.{eq_by_cmp, int_eq};
ghost use Rattle.sv_config.specs.Place.{kind_of, spot, placed, child};
ghost use Rattle.sv_config.specs.Repeats as spec;

use crate::document::has_both;
use crate::items::{default_pages, integer_items, pattern_items, port_items, text_items};
use crate::members::add_field;
use crate::place::{FaultPlace, kind_of};
use crate::placed::Placed;
use crate::rules::TableKind;
use std::alloc::{AllocError, Global};
use std::collections::BTreeSet;

/// Adds what stands again in a table.
pub(crate) fn add_repeated<'a>(
    alloc: Global,
    places: &mut Vec<FaultPlace<'a>>,
    at: Placed<'a>,
) -> Result<(), AllocError>
    ensures { OnOk result (map spot places.new.items ≡ map spot places.old.items ++ spec.repeated_in (kind_of at.entry.place) (placed at.entry)) }
{
    match kind_of(at.place) {
        TableKind::Top => add_texts(alloc, places, at, TableKind::Context, "context", "path"),
        TableKind::Cluster => add_ports(alloc, places, at),
        TableKind::Context => add_in_context(alloc, places, at),
        TableKind::Servlet
        | TableKind::Filter
        | TableKind::Listener
        | TableKind::Once
        | TableKind::Cookie
        | TableKind::Settings => Ok(()),
        TableKind::Mapping => {
            let has_two = has_both(at.table, "pattern", "servlet");
            add_field(places, has_two, at, "servlet")
        }
        TableKind::Page => {
            let has_two = has_both(at.table, "status", "fault");
            add_field(places, has_two, at, "fault")
        }
        TableKind::File => {
            let has_two = has_both(at.table, "file", "folder");
            add_field(places, has_two, at, "folder")
        }
    }
}

#[tactic(auto, unfolding(crate::specs::Repeats::repeated_in_context))]
fn add_in_context<'a>(
    alloc: Global,
    places: &mut Vec<FaultPlace<'a>>,
    at: Placed<'a>,
) -> Result<(), AllocError>
    ensures { OnOk result (map spot places.new.items ≡ map spot places.old.items ++ spec.repeated_in_context (placed at.entry)) }
{
    add_texts(alloc, places, at, TableKind::Servlet, "servlet", "name")?;
    add_texts(alloc, places, at, TableKind::Filter, "filter", "name")?;
    add_texts(alloc, places, at, TableKind::Listener, "listener", "name")?;
    add_patterns(alloc, places, at)?;
    add_statuses(alloc, places, at)?;
    add_texts(alloc, places, at, TableKind::Page, "error-page", "fault")?;
    add_defaults(alloc, places, at)?;
    Ok(())
}

/// Adds each table of an array that has the text of one before it at the key.
fn add_texts<'a>(
    alloc: Global,
    places: &mut Vec<FaultPlace<'a>>,
    at: Placed<'a>,
    kind: TableKind,
    array: &'a str,
    key: &'a str,
) -> Result<(), AllocError>
    ensures { OnOk result (map spot places.new.items ≡ map spot places.old.items ++ spec.repeated_texts kind array.now key.now (placed at.entry)) }
{
    let items = text_items(alloc, at, kind, array, key)?;
    add_repeated_texts(alloc, places, &items)
}

fn add_patterns<'a>(
    alloc: Global,
    places: &mut Vec<FaultPlace<'a>>,
    at: Placed<'a>,
) -> Result<(), AllocError>
    ensures { OnOk result (map spot places.new.items ≡ map spot places.old.items ++ spec.repeated bytes_eq (spec.pattern_items (placed at.entry))) }
{
    let items = pattern_items(alloc, at)?;
    add_repeated_texts(alloc, places, &items)
}

fn add_ports<'a>(
    alloc: Global,
    places: &mut Vec<FaultPlace<'a>>,
    at: Placed<'a>,
) -> Result<(), AllocError>
    ensures { OnOk result (map spot places.new.items ≡ map spot places.old.items ++ spec.repeated int_eq (spec.port_items (placed at.entry))) }
{
    let items = port_items(alloc, at)?;
    add_repeated_integers(alloc, places, &items)
}

fn add_statuses<'a>(
    alloc: Global,
    places: &mut Vec<FaultPlace<'a>>,
    at: Placed<'a>,
) -> Result<(), AllocError>
    ensures { OnOk result (map spot places.new.items ≡ map spot places.old.items
        ++ spec.repeated int_eq (spec.integer_items TableKind.Page (codes "error-page") (codes "status") (placed at.entry))) }
{
    let items = integer_items(alloc, at, TableKind::Page, "error-page", "status")?;
    add_repeated_integers(alloc, places, &items)
}

/// Adds each error page that is for all else, but for the first.
fn add_defaults<'a>(
    alloc: Global,
    places: &mut Vec<FaultPlace<'a>>,
    at: Placed<'a>,
) -> Result<(), AllocError>
    ensures { OnOk result (map spot places.new.items ≡ map spot places.old.items ++ drop 1 (spec.default_pages (placed at.entry))) }
{
    let pages = default_pages(alloc, at)?;
    add_all_but_first(places, &pages)
}

fn add_all_but_first<'a>(
    places: &mut Vec<FaultPlace<'a>>,
    all: &[FaultPlace<'a>],
) -> Result<(), AllocError>
    ensures { OnOk result (map spot places.new.items ≡ map spot places.old.items ++ drop 1 (map spot all.now)) }
{
    if all.is_empty() {
        return Ok(());
    }
    places.extend_from_slice(&all[1..])?;
    Ok(())
}

/// Adds each text that is equal to one before it.
fn add_repeated_texts<'a>(
    alloc: Global,
    places: &mut Vec<FaultPlace<'a>>,
    items: &[(&'a str, FaultPlace<'a>)],
) -> Result<(), AllocError>
    ensures { OnOk result (map spot places.new.items ≡ map spot places.old.items ++ spec.repeated bytes_eq (map (λ i. (i.0.now, spot i.1)) items.now)) }
{
    add_again(alloc, places, items)?;
    Ok(())
}

/// Adds each integer that is equal to one before it.
fn add_repeated_integers<'a>(
    alloc: Global,
    places: &mut Vec<FaultPlace<'a>>,
    items: &[(i64, FaultPlace<'a>)],
) -> Result<(), AllocError>
    ensures { OnOk result (map spot places.new.items ≡ map spot places.old.items ++ spec.repeated int_eq (map (λ i. (i.0, spot i.1)) items.now)) }
{
    add_again(alloc, places, items)?;
    Ok(())
}

/// Adds the place of each key that is equal to one before it.
fn add_again<'a, K: Ord + Copy + Drop>(
    alloc: Global,
    places: &mut Vec<FaultPlace<'a>>,
    items: &[(K, FaultPlace<'a>)],
) -> Result<(), AllocError>
    ensures { OnOk result (map spot places.new.items ≡ map spot places.old.items ++ spec.repeated (eq_by_cmp K.cmp) (map (λ i. (i.0, spot i.1)) items.now)) }
{
    let mut passed = BTreeSet::new(alloc);
    for (key, place) in items {
        let is_new = passed.insert(*key)?;
        add_where(places, !is_new, *place)?;
    }
    Ok(())
}

fn add_where<'a>(
    places: &mut Vec<FaultPlace<'a>>,
    holds: bool,
    place: FaultPlace<'a>,
) -> Result<(), AllocError>
    ensures { OnOk result (map spot places.new.items ≡ map spot places.old.items ++ (if holds then spot place.entry ∷ [] else [])) }
{
    if holds {
        places.push(place)?;
    }
    Ok(())
}
