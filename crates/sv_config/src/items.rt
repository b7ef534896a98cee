//! What a table has that may stand once, each item with its place.

ghost use Rattle.std.specs.Prelude.{◌≡◌, ◌++◌, map, IfOk, OnOk, codes};
ghost use Rattle.std.specs.List.{flat_map};
ghost use Rattle.toml.specs.View.{table_view};
ghost use Rattle.sv_config.specs.Document.{values_at};
ghost use Rattle.sv_config.specs.Place.{spot, placed, child};
ghost use Rattle.sv_config.specs.Repeats as spec;

use crate::document::{has_neither, integer_at, text_at, values_at};
use crate::members::add_table;
use crate::place::{FaultPlace, Found, TablePlace, inner_place};
use crate::placed::{Placed, children};
use crate::rules::TableKind;
use std::alloc::{AllocError, Global};
use toml::Table;

/// The text that each table of an array has at a key.
pub(crate) fn text_items<'a>(
    alloc: Global,
    at: Placed<'a>,
    kind: TableKind,
    array: &str,
    key: &'a str,
) -> Result<Vec<(&'a str, FaultPlace<'a>)>, AllocError>
    ensures { IfOk result (λ items. map (λ i. (i.0.now, spot i.1)) items.items ≡ spec.text_items kind array.now key.now (placed at.entry)) }
{
    let tables = children(alloc, at.table, array)?;
    texts_of(alloc, at.place, kind, key, &tables)
}

fn texts_of<'a>(
    alloc: Global,
    place: TablePlace,
    kind: TableKind,
    key: &'a str,
    tables: &[(usize, &'a Table)],
) -> Result<Vec<(&'a str, FaultPlace<'a>)>, AllocError>
    ensures { IfOk result (λ items. map (λ i. (i.0.now, spot i.1)) items.items ≡ flat_map (spec.text_item place kind key.now) (map child tables.now)) }
{
    let mut items = Vec::new(alloc);
    for (index, table) in tables {
        if let Some(text) = text_at(table, key) {
            let place = FaultPlace {
                table: inner_place(place, kind, *index),
                key,
                index: None,
                found: Found::Words(text),
            };
            items.push((text, place))?;
        }
    }
    Ok(items)
}

/// The integer that each table of an array has at a key.
pub(crate) fn integer_items<'a>(
    alloc: Global,
    at: Placed<'a>,
    kind: TableKind,
    array: &str,
    key: &'a str,
) -> Result<Vec<(i64, FaultPlace<'a>)>, AllocError>
    ensures { IfOk result (λ items. map (λ i. (i.0, spot i.1)) items.items ≡ spec.integer_items kind array.now key.now (placed at.entry)) }
{
    let tables = children(alloc, at.table, array)?;
    integers_of(alloc, at.place, kind, key, &tables)
}

fn integers_of<'a>(
    alloc: Global,
    place: TablePlace,
    kind: TableKind,
    key: &'a str,
    tables: &[(usize, &'a Table)],
) -> Result<Vec<(i64, FaultPlace<'a>)>, AllocError>
    ensures { IfOk result (λ items. map (λ i. (i.0, spot i.1)) items.items ≡ flat_map (spec.integer_item place kind key.now) (map child tables.now)) }
{
    let mut items = Vec::new(alloc);
    for (index, table) in tables {
        if let Some(integer) = integer_at(table, key) {
            let place = FaultPlace {
                table: inner_place(place, kind, *index),
                key,
                index: None,
                found: Found::Number(integer),
            };
            items.push((integer, place))?;
        }
    }
    Ok(items)
}

/// The ports of a cluster.
pub(crate) fn port_items<'a>(
    alloc: Global,
    at: Placed<'a>,
) -> Result<Vec<(i64, FaultPlace<'a>)>, AllocError>
    ensures { IfOk result (λ items. map (λ i. (i.0, spot i.1)) items.items ≡ spec.port_items (placed at.entry)) }
{
    let mut items = Vec::new(alloc);
    for (index, value) in values_at(at.table, "ports").iter().enumerate() {
        if let Some(port) = value.as_integer() {
            let place = FaultPlace {
                table: at.place,
                key: "ports",
                index: Some(index),
                found: Found::Number(port),
            };
            items.push((port, place))?;
        }
    }
    Ok(items)
}

/// The patterns of a context's servlets, and the paths of its files.
pub(crate) fn pattern_items<'a>(
    alloc: Global,
    at: Placed<'a>,
) -> Result<Vec<(&'a str, FaultPlace<'a>)>, AllocError>
    ensures { IfOk result (λ items. map (λ i. (i.0.now, spot i.1)) items.items ≡ spec.pattern_items (placed at.entry)) }
{
    let mut items = servlet_patterns(alloc, at)?;
    let paths = text_items(alloc, at, TableKind::File, "file", "path")?;
    items.extend_from_slice(&paths)?;
    Ok(items)
}

fn servlet_patterns<'a>(
    alloc: Global,
    at: Placed<'a>,
) -> Result<Vec<(&'a str, FaultPlace<'a>)>, AllocError>
    ensures { IfOk result (λ items. map (λ i. (i.0.now, spot i.1)) items.items ≡ spec.servlet_patterns (placed at.entry)) }
{
    let servlets = children(alloc, at.table, "servlet")?;
    patterns_of(alloc, at.place, &servlets)
}

fn patterns_of<'a>(
    alloc: Global,
    place: TablePlace,
    servlets: &[(usize, &'a Table)],
) -> Result<Vec<(&'a str, FaultPlace<'a>)>, AllocError>
    ensures { IfOk result (λ items. map (λ i. (i.0.now, spot i.1)) items.items ≡ flat_map (spec.patterns_in place) (map child servlets.now)) }
{
    let mut items = Vec::new(alloc);
    for (index, servlet) in servlets {
        let inner = inner_place(place, TableKind::Servlet, *index);
        add_patterns(&mut items, inner, servlet)?;
    }
    Ok(items)
}

fn add_patterns<'a>(
    items: &mut Vec<(&'a str, FaultPlace<'a>)>,
    place: TablePlace,
    servlet: &'a Table,
) -> Result<(), AllocError>
    ensures { OnOk result (map (λ i. (i.0.now, spot i.1)) items.new.items ≡ map (λ i. (i.0.now, spot i.1)) items.old.items
        ++ spec.texts_from place (codes "patterns") 0 (values_at (codes "patterns") (table_view servlet.now))) }
{
    for (index, value) in values_at(servlet, "patterns").iter().enumerate() {
        if let Some(text) = value.as_str() {
            let place = FaultPlace {
                table: place,
                key: "patterns",
                index: Some(index),
                found: Found::Words(text),
            };
            items.push((text, place))?;
        }
    }
    Ok(())
}

/// The error pages of a context that are for all else.
pub(crate) fn default_pages<'a>(
    alloc: Global,
    at: Placed<'a>,
) -> Result<Vec<FaultPlace<'a>>, AllocError>
    ensures { IfOk result (λ pages. map spot pages.items ≡ spec.default_pages (placed at.entry)) }
{
    let tables = children(alloc, at.table, "error-page")?;
    defaults_of(alloc, at.place, &tables)
}

fn defaults_of<'a>(
    alloc: Global,
    place: TablePlace,
    tables: &[(usize, &'a Table)],
) -> Result<Vec<FaultPlace<'a>>, AllocError>
    ensures { IfOk result (λ pages. map spot pages.items ≡ flat_map (spec.default_page place) (map child tables.now)) }
{
    let mut pages = Vec::new(alloc);
    for (index, table) in tables {
        let inner = inner_place(place, TableKind::Page, *index);
        let at = Placed {
            place: inner,
            table,
        };
        add_table(&mut pages, is_default_page(table), at)?;
    }
    Ok(pages)
}

/// Whether an error page is for all else: it names neither a status nor a fault.
fn is_default_page(page: &Table) -> bool
    ensures { result ≡ spec.is_default_page (table_view page.now) }
{
    has_neither(page, "status", "fault")
}
