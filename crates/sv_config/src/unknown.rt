//! Where names stand that nothing declares.

ghost use Rattle.std.specs.Prelude.{◌≡◌, ◌++◌, map, IfOk, OnOk, bytes_eq};
ghost use Rattle.std.specs.BTreeSet.{contains_by};
ghost use Rattle.std.specs.Cmp.Lexicographic.{slice_cmp};
ghost use Rattle.std.specs.List.{flat_map, list_any};
ghost use Rattle.std.specs.Ordering.{nat_cmp};
ghost use Rattle.sv_mapping.specs.Path.{Text};
ghost use Rattle.toml.specs.View.{table_view};
ghost use Rattle.sv_config.specs.Place.{kind_of, spot, placed, child};
ghost use Rattle.sv_config.specs.Unknown as spec;
ghost use Rattle.sv_config.specs.Spelling.{fails_at};

use crate::columns::column;
use crate::cookie::has_bad_same_site;
use crate::document::text_at;
use crate::keys::{OddKey, add_odd_keys};
use crate::members::{Unfit, add_field, add_members};
use crate::place::{FaultPlace, TablePlace, kind_of, number_of};
use crate::placed::{Placed, children};
use crate::rules::TableKind;
use std::alloc::{AllocError, Global};
use std::collections::BTreeSet;
use toml::Table;

/// Adds each key, dispatcher, filter and servlet of a table that nothing declares.
pub(crate) fn add_unknown<'a>(
    alloc: Global,
    places: &mut Vec<FaultPlace<'a>>,
    at: Placed<'a>,
) -> Result<(), AllocError>
    ensures { OnOk result (map spot places.new.items ≡ map spot places.old.items ++ spec.unknown_in (placed at.entry)) }
{
    add_odd_keys(places, OddKey::NotListed(kind_of(at.place)), at)?;
    add_strange(alloc, places, at)
}

fn add_strange<'a>(
    alloc: Global,
    places: &mut Vec<FaultPlace<'a>>,
    at: Placed<'a>,
) -> Result<(), AllocError>
    ensures { OnOk result (map spot places.new.items ≡ map spot places.old.items ++ spec.strange_in (kind_of at.entry.place) (placed at.entry)) }
{
    match kind_of(at.place) {
        TableKind::Context => {
            add_undeclared(alloc, places, at, "filter")?;
            add_undeclared(alloc, places, at, "servlet")
        }
        TableKind::Mapping => add_members(places, Unfit::NoDispatcher, at, "dispatch"),
        TableKind::Cookie => add_field(places, has_bad_same_site(at.table), at, "same-site"),
        _ => Ok(()),
    }
}

/// Adds each filter mapping of a context that names at a key what the array at that key does not declare.
fn add_undeclared<'a>(
    alloc: Global,
    places: &mut Vec<FaultPlace<'a>>,
    at: Placed<'a>,
    key: &'a str,
) -> Result<(), AllocError>
    ensures { OnOk result (map spot places.new.items ≡ map spot places.old.items ++ spec.undeclared_at key.now (placed at.entry)) }
{
    let declared = column(alloc, at.table, key, "name")?;
    let mappings = children(alloc, at.table, "filter-mapping")?;
    let context = number_of(at.place);
    add_strangers(alloc, places, context, key, &declared, &mappings)
}

/// Adds each of these filter mappings of a context that names at the key what is not declared.
fn add_strangers<'a>(
    alloc: Global,
    places: &mut Vec<FaultPlace<'a>>,
    context: usize,
    key: &'a str,
    declared: &[&str],
    mappings: &[(usize, &'a Table)],
) -> Result<(), AllocError>
    ensures { OnOk result (map spot places.new.items ≡ map spot places.old.items
        ++ flat_map (spec.stranger_at context key.now (map (λ name. name.now) declared.now)) (map child mappings.now)) }
{
    let names = names_of(alloc, declared)?;
    for (index, table) in mappings {
        let at = Placed {
            place: TablePlace::Within {
                context,
                kind: TableKind::Mapping,
                index: *index,
            },
            table,
        };
        add_field(places, is_undeclared(&names, table, key), at, key)?;
    }
    Ok(())
}

/// Names as a set, in which one is found without looking at each.
fn names_of<'a>(alloc: Global, names: &[&'a str]) -> Result<BTreeSet<&'a str>, AllocError>
    ensures { IfOk result (λ set. (text : Text) → contains_by (λ name. slice_cmp nat_cmp text name.now) set
        ≡ list_any (λ name. bytes_eq name text) (map (λ name. name.now) names.now)) }
{
    let mut set = BTreeSet::new(alloc);
    for name in names {
        set.insert(*name)?;
    }
    Ok(set)
}

/// Whether the text at a key is none of the names.
fn is_undeclared(names: &BTreeSet<&str>, table: &Table, key: &str) -> bool
    ensures { result ≡ fails_at (λ text. contains_by (λ name. slice_cmp nat_cmp text name.now) names.now) key.now (table_view table.now) }
{
    match text_at(table, key) {
        Some(text) => !names.contains(text),
        None => false,
    }
}
