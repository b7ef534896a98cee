//! The contexts that a descriptor declares.

ghost use Rattle.std.specs.Prelude.{◌≡◌, ◌++◌, IfOk, OnOk, map, codes, string_bytes};
ghost use Rattle.toml.specs.View.{table_view};
ghost use Rattle.sv_config.specs.Document.{tables_at, column};
ghost use Rattle.sv_config.specs.Values as spec;

use crate::columns::{column, tables_at};
use crate::cookie::read_cookie;
use crate::deployment::Context;
use crate::document::{integer_at, text_or_empty};
use crate::files::{FileMapping, read_files};
use crate::limits::is_outside;
use crate::mappings::{read_filter_mappings, read_mappings};
use crate::once::read_pages_and_once;
use crate::settings::{Setting, read_settings};
use std::alloc::{AllocError, Global};
use toml::Table;

/// For how many seconds an idle session is kept where nothing else is said.
const DEFAULT_INTERVAL: i32 = 1800;

/// The contexts of a document.
pub(crate) fn read_contexts(alloc: Global, document: &Table) -> Result<Vec<Context>, AllocError>
    ensures { IfOk result (λ contexts. map spec.context_data contexts.items ≡ map spec.context_of (tables_at (codes "context") (table_view document.now))) }
{
    let tables = tables_at(alloc, document, "context")?;
    contexts_of(alloc, &tables)
}

fn contexts_of(alloc: Global, tables: &[&Table]) -> Result<Vec<Context>, AllocError>
    ensures { IfOk result (λ contexts. map spec.context_data contexts.items ≡ map spec.context_of (map (λ t. table_view t.now) tables.now)) }
{
    let mut contexts = Vec::new(alloc);
    for table in tables {
        contexts.push(context_of(alloc, table)?)?;
    }
    Ok(contexts)
}

fn context_of(alloc: Global, table: &Table) -> Result<Context, AllocError>
    ensures { IfOk result (λ context. spec.context_data context ≡ spec.context_of (table_view table.now)) }
{
    let servlets = column(alloc, table, "servlet", "name")?;
    let filters = column(alloc, table, "filter", "name")?;
    let listeners = column(alloc, table, "listener", "name")?;
    context_with(alloc, table, &servlets, &filters, &listeners)
}

/// The context of these servlets, filters and listeners.
#[tactic(auto, unfolding(crate::specs::Values::context_of))]
fn context_with(
    alloc: Global,
    table: &Table,
    servlets: &[&str],
    filters: &[&str],
    listeners: &[&str],
) -> Result<Context, AllocError>
    requires servlets { map (λ name. name.now) servlets.now ≡ column (codes "servlet") (codes "name") (table_view table.now) }
    requires filters { map (λ name. name.now) filters.now ≡ column (codes "filter") (codes "name") (table_view table.now) }
    requires listeners { map (λ name. name.now) listeners.now ≡ column (codes "listener") (codes "name") (table_view table.now) }
    ensures { IfOk result (λ context. spec.context_data context ≡ spec.context_of (table_view table.now)) }
{
    let (servlet_names, filter_names) = owned_names(alloc, table, servlets, filters)?;
    let (error_pages, once) = read_pages_and_once(alloc, table)?;
    let (settings, files) = read_settings_and_files(alloc, table)?;
    Ok(Context {
        path: String::from_str(alloc, text_or_empty(table, "path"))?,
        interval: interval_of(table),
        servlets: servlet_names,
        filters: filter_names,
        filter_mappings: read_filter_mappings(alloc, table, filters, servlets)?,
        listeners: owned(alloc, listeners)?,
        error_pages,
        once,
        cookie: read_cookie(alloc, table)?,
        settings,
        files,
        mappings: read_mappings(alloc, table)?,
    })
}

/// The settings of a context, and its file mappings.
fn read_settings_and_files(
    alloc: Global,
    context: &Table,
) -> Result<(Vec<Setting>, Vec<FileMapping>), AllocError>
    ensures settings { IfOk result (λ both. map spec.setting_data both.0.items ≡ spec.settings_of (table_view context.now)) }
    ensures files { IfOk result (λ both. map spec.file_data both.1.items ≡ map spec.file_of (tables_at (codes "file") (table_view context.now))) }
{
    let settings = read_settings(alloc, context)?;
    let files = read_files(alloc, context)?;
    Ok((settings, files))
}

/// The names of a context's servlets: those that it declares, and for each file mapping its path.
fn servlet_names(
    alloc: Global,
    context: &Table,
    declared: &[&str],
) -> Result<Vec<String>, AllocError>
    requires { map (λ name. name.now) declared.now ≡ column (codes "servlet") (codes "name") (table_view context.now) }
    ensures { IfOk result (λ names. map string_bytes names.items ≡ spec.servlet_names (table_view context.now)) }
{
    let paths = column(alloc, context, "file", "path")?;
    let mut names = owned(alloc, declared)?;
    add_owned(alloc, &mut names, &paths)?;
    Ok(names)
}

/// The names of a context's servlets, and of its filters.
fn owned_names(
    alloc: Global,
    context: &Table,
    servlets: &[&str],
    filters: &[&str],
) -> Result<(Vec<String>, Vec<String>), AllocError>
    requires { map (λ name. name.now) servlets.now ≡ column (codes "servlet") (codes "name") (table_view context.now) }
    ensures servlets { IfOk result (λ both. map string_bytes both.0.items ≡ spec.servlet_names (table_view context.now)) }
    ensures filters { IfOk result (λ both. map string_bytes both.1.items ≡ map (λ name. name.now) filters.now) }
{
    let servlets = servlet_names(alloc, context, servlets)?;
    let filters = owned(alloc, filters)?;
    Ok((servlets, filters))
}

/// The texts as strings of their own.
fn owned(alloc: Global, texts: &[&str]) -> Result<Vec<String>, AllocError>
    ensures { IfOk result (λ strings. map string_bytes strings.items ≡ map (λ text. text.now) texts.now) }
{
    let mut strings = Vec::new(alloc);
    add_owned(alloc, &mut strings, texts)?;
    Ok(strings)
}

fn add_owned(alloc: Global, strings: &mut Vec<String>, texts: &[&str]) -> Result<(), AllocError>
    ensures { OnOk result (map string_bytes strings.new.items ≡ map string_bytes strings.old.items ++ map (λ text. text.now) texts.now) }
{
    for text in texts {
        strings.push(String::from_str(alloc, text)?)?;
    }
    Ok(())
}

fn interval_of(table: &Table) -> i32
    ensures { result ≡ spec.interval_of (table_view table.now) }
{
    match integer_at(table, "interval") {
        Some(integer) => if is_outside(integer, -2_147_483_648, 2_147_483_647) {
            DEFAULT_INTERVAL
        } else {
            integer as i32
        },
        None => DEFAULT_INTERVAL,
    }
}
