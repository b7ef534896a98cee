//! The tables, texts and integers of arrays.

ghost use Rattle.std.specs.Prelude.{◌≡◌, ◌++◌, map, IfOk, OnOk};
ghost use Rattle.std.specs.List.{filter_map};
ghost use Rattle.toml.specs.View.{table_view};
ghost use Rattle.sv_config.specs.Document as spec;

use crate::document::{text_at, values_at};
use std::alloc::{AllocError, Global};
use toml::Table;

/// The tables of the array at a key.
pub(crate) fn tables_at<'a>(
    alloc: Global,
    table: &'a Table,
    key: &str,
) -> Result<Vec<&'a Table>, AllocError>
    ensures { IfOk result (λ tables. map (λ t. table_view t.now) tables.items ≡ spec.tables_at key.now (table_view table.now)) }
{
    let mut tables = Vec::new(alloc);
    for value in values_at(table, key) {
        if let Some(inner) = value.as_table() {
            tables.push(inner)?;
        }
    }
    Ok(tables)
}

/// The integers of the array at a key.
pub(crate) fn integers_at(alloc: Global, table: &Table, key: &str) -> Result<Vec<i64>, AllocError>
    ensures { IfOk result (λ integers. integers.items ≡ spec.integers_at key.now (table_view table.now)) }
{
    let mut integers = Vec::new(alloc);
    for value in values_at(table, key) {
        if let Some(integer) = value.as_integer() {
            integers.push(integer)?;
        }
    }
    Ok(integers)
}

/// The texts of the array at a key.
pub(crate) fn texts_at<'a>(
    alloc: Global,
    table: &'a Table,
    key: &str,
) -> Result<Vec<&'a str>, AllocError>
    ensures { IfOk result (λ texts. map (λ s. s.now) texts.items ≡ spec.texts_at key.now (table_view table.now)) }
{
    let mut texts = Vec::new(alloc);
    add_texts(&mut texts, table, key)?;
    Ok(texts)
}

fn add_texts<'a>(texts: &mut Vec<&'a str>, table: &'a Table, key: &str) -> Result<(), AllocError>
    ensures { OnOk result (map (λ s. s.now) texts.new.items ≡ map (λ s. s.now) texts.old.items ++ spec.texts_at key.now (table_view table.now)) }
{
    for value in values_at(table, key) {
        if let Some(text) = value.as_str() {
            texts.push(text)?;
        }
    }
    Ok(())
}

/// The patterns of these servlets.
fn patterns_of<'a>(alloc: Global, servlets: &[&'a Table]) -> Result<Vec<&'a str>, AllocError>
    ensures { IfOk result (λ texts. map (λ s. s.now) texts.items ≡ spec.patterns_of (map (λ t. table_view t.now) servlets.now)) }
{
    let mut patterns = Vec::new(alloc);
    for servlet in servlets {
        add_texts(&mut patterns, servlet, "patterns")?;
    }
    Ok(patterns)
}

/// The patterns of a context's servlets, and the paths of its files.
pub(crate) fn all_patterns(alloc: Global, context: &Table) -> Result<Vec<&str>, AllocError>
    ensures { IfOk result (λ texts. map (λ s. s.now) texts.items ≡ spec.all_patterns (table_view context.now)) }
{
    let servlets = tables_at(alloc, context, "servlet")?;
    let mut patterns = patterns_of(alloc, &servlets)?;
    let paths = column(alloc, context, "file", "path")?;
    patterns.extend_from_slice(&paths)?;
    Ok(patterns)
}

/// The texts that the tables of an array have at a key.
pub(crate) fn column<'a>(
    alloc: Global,
    table: &'a Table,
    array: &str,
    key: &str,
) -> Result<Vec<&'a str>, AllocError>
    ensures { IfOk result (λ texts. map (λ s. s.now) texts.items ≡ spec.column array.now key.now (table_view table.now)) }
{
    let tables = tables_at(alloc, table, array)?;
    texts_of(alloc, &tables, key)
}

fn texts_of<'a>(alloc: Global, tables: &[&'a Table], key: &str) -> Result<Vec<&'a str>, AllocError>
    ensures { IfOk result (λ texts. map (λ s. s.now) texts.items ≡ filter_map (spec.text_at key.now) (map (λ t. table_view t.now) tables.now)) }
{
    let mut texts = Vec::new(alloc);
    for table in tables {
        if let Some(text) = text_at(table, key) {
            texts.push(text)?;
        }
    }
    Ok(texts)
}
