//! The tables of a document, each with its place.

ghost use Rattle.std.specs.Prelude.{◌≡◌, ◌++◌, map, IfOk, OnOk};
ghost use Rattle.std.specs.List.{flat_map};
ghost use Rattle.toml.specs.View.{table_view};
ghost use Rattle.sv_config.specs.Place as spec;

use crate::document::{table_at, values_at};
use crate::place::TablePlace;
use crate::rules::TableKind;
use std::alloc::{AllocError, Global};
use toml::Table;

/// A table with its place.
#[derive(Clone, Copy)]
pub(crate) struct Placed<'a> {
    pub place: TablePlace,
    pub table: &'a Table,
}

/// The tables of the array at a key, each by its place in the array.
pub(crate) fn children<'a>(
    alloc: Global,
    table: &'a Table,
    key: &str,
) -> Result<Vec<(usize, &'a Table)>, AllocError>
    ensures { IfOk result (λ tables. map spec.child tables.items ≡ spec.children key.now (table_view table.now)) }
{
    let mut tables = Vec::new(alloc);
    for (index, value) in values_at(table, key).iter().enumerate() {
        if let Some(inner) = value.as_table() {
            tables.push((index, inner))?;
        }
    }
    Ok(tables)
}

/// The tables of a document that are there.
pub(crate) fn placed_tables<'a>(
    alloc: Global,
    document: &'a Table,
) -> Result<Vec<Placed<'a>>, AllocError>
    ensures { IfOk result (λ tables. map spec.placed tables.items ≡ spec.placed_tables (table_view document.now)) }
{
    let mut tables = vec![in alloc;
        Placed {
            place: TablePlace::Document,
            table: document
        },
    ]?;
    add_cluster(&mut tables, document)?;
    let contexts = children(alloc, document, "context")?;
    add_contexts(alloc, &mut tables, &contexts)?;
    Ok(tables)
}

fn add_cluster<'a>(tables: &mut Vec<Placed<'a>>, document: &'a Table) -> Result<(), AllocError>
    ensures { OnOk result (map spec.placed tables.new.items ≡ map spec.placed tables.old.items ++ spec.placed_cluster (table_view document.now)) }
{
    if let Some(table) = table_at(document, "cluster") {
        tables.push(Placed {
            place: TablePlace::OfNodes,
            table,
        })?;
    }
    Ok(())
}

fn add_contexts<'a>(
    alloc: Global,
    tables: &mut Vec<Placed<'a>>,
    contexts: &[(usize, &'a Table)],
) -> Result<(), AllocError>
    ensures { OnOk result (map spec.placed tables.new.items ≡ map spec.placed tables.old.items ++ flat_map spec.placed_in (map spec.child contexts.now)) }
{
    for (number, context) in contexts {
        add_context(alloc, tables, *number, context)?;
    }
    Ok(())
}

/// Adds a context and the tables in it.
fn add_context<'a>(
    alloc: Global,
    tables: &mut Vec<Placed<'a>>,
    number: usize,
    context: &'a Table,
) -> Result<(), AllocError>
    ensures { OnOk result (map spec.placed tables.new.items ≡ map spec.placed tables.old.items ++ spec.placed_in (number, table_view context.now)) }
{
    tables.push(Placed {
        place: TablePlace::OfContext(number),
        table: context,
    })?;
    add_arrays(alloc, tables, number, context)?;
    add_singles(tables, number, context)?;
    Ok(())
}

/// Adds the tables of a context's arrays.
fn add_arrays<'a>(
    alloc: Global,
    tables: &mut Vec<Placed<'a>>,
    number: usize,
    context: &'a Table,
) -> Result<(), AllocError>
    ensures { OnOk result (map spec.placed tables.new.items ≡ map spec.placed tables.old.items ++ spec.placed_arrays (number, table_view context.now)) }
{
    add_array(
        alloc,
        tables,
        number,
        context,
        TableKind::Servlet,
        "servlet",
    )?;
    add_array(alloc, tables, number, context, TableKind::Filter, "filter")?;
    add_array(
        alloc,
        tables,
        number,
        context,
        TableKind::Mapping,
        "filter-mapping",
    )?;
    add_array(
        alloc,
        tables,
        number,
        context,
        TableKind::Listener,
        "listener",
    )?;
    add_array(
        alloc,
        tables,
        number,
        context,
        TableKind::Page,
        "error-page",
    )?;
    add_array(alloc, tables, number, context, TableKind::File, "file")?;
    Ok(())
}

/// Adds the tables of which a context has one at most.
fn add_singles<'a>(
    tables: &mut Vec<Placed<'a>>,
    number: usize,
    context: &'a Table,
) -> Result<(), AllocError>
    ensures { OnOk result (map spec.placed tables.new.items ≡ map spec.placed tables.old.items ++ spec.placed_singles (number, table_view context.now)) }
{
    add_single(tables, number, context, TableKind::Once, "once")?;
    add_single(tables, number, context, TableKind::Cookie, "cookie")?;
    add_single(tables, number, context, TableKind::Settings, "settings")?;
    Ok(())
}

/// Adds the table at a key of a context, as a table of a kind.
fn add_single<'a>(
    tables: &mut Vec<Placed<'a>>,
    context: usize,
    table: &'a Table,
    kind: TableKind,
    key: &str,
) -> Result<(), AllocError>
    ensures { OnOk result (map spec.placed tables.new.items ≡ map spec.placed tables.old.items
        ++ spec.placed_single kind key.now (context, table_view table.now)) }
{
    if let Some(table) = table_at(table, key) {
        tables.push(Placed {
            place: TablePlace::Single { context, kind },
            table,
        })?;
    }
    Ok(())
}

/// Adds the tables of the array at a key of a context, as tables of a kind.
fn add_array<'a>(
    alloc: Global,
    tables: &mut Vec<Placed<'a>>,
    number: usize,
    context: &'a Table,
    kind: TableKind,
    key: &str,
) -> Result<(), AllocError>
    ensures { OnOk result (map spec.placed tables.new.items ≡ map spec.placed tables.old.items
        ++ spec.placed_as number kind (spec.children key.now (table_view context.now))) }
{
    let inner = children(alloc, context, key)?;
    add_inner(tables, number, kind, &inner)
}

fn add_inner<'a>(
    tables: &mut Vec<Placed<'a>>,
    context: usize,
    kind: TableKind,
    inner: &[(usize, &'a Table)],
) -> Result<(), AllocError>
    ensures { OnOk result (map spec.placed tables.new.items ≡ map spec.placed tables.old.items ++ spec.placed_as context kind (map spec.child inner.now)) }
{
    for (index, table) in inner {
        tables.push(Placed {
            place: TablePlace::Within {
                context,
                kind,
                index: *index,
            },
            table,
        })?;
    }
    Ok(())
}
