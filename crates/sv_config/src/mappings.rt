//! The mappings of a context: of its servlets and of its filters.

ghost use Rattle.std.specs.Prelude.{◌≡◌, ◌<◌, ◌^◌, IfOk, OnOk, map, fold, codes};
ghost use Rattle.std.specs.FinMap as finite;
ghost use Rattle.toml.specs.View.{table_view};
ghost use Rattle.sv_config.specs.Document.{tables_at, texts_at};
ghost use Rattle.sv_config.specs.Values as spec;

use crate::columns::{tables_at, texts_at};
use crate::document::{text_at, text_or_empty};
use std::alloc::{AllocError, Global};
use sv_mapping::{Dispatchers, FilterMapping, FilterTarget, MappingFault, Mappings, Pattern};
use toml::Table;

/// The patterns of a context, each with the place of its servlet; those that serve files stand after those that are declared.
#[tactic(auto, unfolding(crate::specs::Values::mappings_of))]
pub(crate) fn read_mappings(alloc: Global, context: &Table) -> Result<Mappings, AllocError>
    ensures { IfOk result (λ mappings. mappings ≡ spec.mappings_of (table_view context.now)) }
{
    let servlets = tables_at(alloc, context, "servlet")?;
    let files = tables_at(alloc, context, "file")?;
    let mut mappings = mappings_of(alloc, &servlets)?;
    add_files(alloc, &mut mappings, &files, servlets.len())?;
    Ok(mappings)
}

/// Maps the path of each file mapping to a servlet of its own, from the place on.
fn add_files(
    alloc: Global,
    mappings: &mut Mappings,
    files: &[&Table],
    first: usize,
) -> Result<(), AllocError>
    requires { first < 2 ^ 63 }
    ensures { OnOk result (mappings.new ≡ spec.with_files first (map (λ t. table_view t.now) files.now) mappings.old) }
{
    for (number, file) in files.iter().enumerate() {
        add_pattern(alloc, mappings, text_or_empty(file, "path"), first + number)?;
    }
    Ok(())
}

fn mappings_of(alloc: Global, servlets: &[&Table]) -> Result<Mappings, AllocError>
    ensures { IfOk result (λ mappings. mappings ≡ spec.mapped_from 0 (map (λ t. table_view t.now) servlets.now) finite.empty) }
{
    let mut mappings = Mappings::new(alloc);
    for (place, servlet) in servlets.iter().enumerate() {
        let patterns = texts_at(alloc, servlet, "patterns")?;
        add_patterns(alloc, &mut mappings, &patterns, place)?;
    }
    Ok(mappings)
}

fn add_patterns(
    alloc: Global,
    mappings: &mut Mappings,
    patterns: &[&str],
    servlet: usize,
) -> Result<(), AllocError>
    ensures { OnOk result (mappings.new ≡ fold (spec.with_pattern servlet) mappings.old (map (λ pattern. pattern.now) patterns.now)) }
{
    for pattern in patterns {
        add_pattern(alloc, mappings, pattern, servlet)?;
    }
    Ok(())
}

/// Maps a pattern where that can be done; in a document without fault it always can.
fn add_pattern(
    alloc: Global,
    mappings: &mut Mappings,
    pattern: &str,
    servlet: usize,
) -> Result<(), AllocError>
    ensures { OnOk result (mappings.new ≡ spec.with_pattern servlet mappings.old pattern.now) }
{
    let Some(pattern) = read_pattern(alloc, pattern)? else {
        return Ok(());
    };
    match mappings.add(pattern, servlet) {
        Err(MappingFault::Memory) => Err(AllocError),
        _ => Ok(()),
    }
}

/// A text as a pattern, where it is one.
fn read_pattern(alloc: Global, text: &str) -> Result<Option<Pattern>, AllocError>
    ensures { IfOk result (λ pattern. pattern ≡ spec.pattern_of text.now) }
{
    match Pattern::read(alloc, text) {
        Ok(pattern) => Ok(Some(pattern)),
        Err(MappingFault::Memory) => Err(AllocError),
        Err(_) => Ok(None),
    }
}

/// The filter mappings of a context whose filters and servlets have these names.
pub(crate) fn read_filter_mappings(
    alloc: Global,
    context: &Table,
    filters: &[&str],
    servlets: &[&str],
) -> Result<Vec<FilterMapping>, AllocError>
    ensures { IfOk result (λ mappings. mappings.items ≡ map (spec.filter_mapping_of (map (λ name. name.now) filters.now) (map (λ name.
        name.now) servlets.now)) (tables_at (codes "filter-mapping") (table_view context.now))) }
{
    let tables = tables_at(alloc, context, "filter-mapping")?;
    filter_mappings_of(alloc, &tables, filters, servlets)
}

fn filter_mappings_of(
    alloc: Global,
    tables: &[&Table],
    filters: &[&str],
    servlets: &[&str],
) -> Result<Vec<FilterMapping>, AllocError>
    ensures { IfOk result (λ mappings. mappings.items ≡ map (spec.filter_mapping_of (map (λ name. name.now) filters.now) (map (λ name.
        name.now) servlets.now)) (map (λ t. table_view t.now) tables.now)) }
{
    let mut mappings = Vec::new(alloc);
    for table in tables {
        mappings.push(filter_mapping_of(alloc, table, filters, servlets)?)?;
    }
    Ok(mappings)
}

#[tactic(auto, unfolding(crate::specs::Values::filter_mapping_of))]
fn filter_mapping_of(
    alloc: Global,
    table: &Table,
    filters: &[&str],
    servlets: &[&str],
) -> Result<FilterMapping, AllocError>
    ensures { IfOk result (λ mapping. mapping ≡ spec.filter_mapping_of (map (λ name. name.now) filters.now) (map (λ name.
        name.now) servlets.now) (table_view table.now)) }
{
    Ok(FilterMapping {
        filter: place_at(filters, table, "filter"),
        target: target_of(alloc, table, servlets)?,
        dispatchers: dispatchers_of(alloc, table)?,
    })
}

fn dispatchers_of(alloc: Global, table: &Table) -> Result<Dispatchers, AllocError>
    ensures { IfOk result (λ dispatchers. dispatchers ≡ spec.dispatchers_at (table_view table.now)) }
{
    let words = texts_at(alloc, table, "dispatch")?;
    Ok(Dispatchers::of_words(&words))
}

/// The pattern of a filter mapping, or else the place of the servlet that it names.
fn target_of(alloc: Global, table: &Table, servlets: &[&str]) -> Result<FilterTarget, AllocError>
    ensures { IfOk result (λ target. target ≡ spec.target_of (map (λ name. name.now) servlets.now) (table_view table.now)) }
{
    let servlet = place_at(servlets, table, "servlet");
    let Some(text) = text_at(table, "pattern") else {
        return Ok(FilterTarget::Servlet(servlet));
    };
    match read_pattern(alloc, text)? {
        Some(pattern) => Ok(FilterTarget::Pattern(pattern)),
        None => Ok(FilterTarget::Servlet(servlet)),
    }
}

/// The place of the name at a key.
fn place_at(names: &[&str], table: &Table, key: &str) -> usize
    ensures { result ≡ spec.place_at (map (λ name. name.now) names.now) key.now (table_view table.now) }
{
    place_of(names, text_or_empty(table, key))
}

/// The first place of a name, or how many names there are.
fn place_of(names: &[&str], name: &str) -> usize
    ensures { result ≡ spec.place_of name.now (map (λ its. its.now) names.now) }
{
    for (place, its) in names.iter().enumerate() {
        if *its == name {
            return place;
        }
    }
    names.len()
}
