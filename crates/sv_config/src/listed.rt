//! What a descriptor lists of one table.

ghost use Rattle.std.specs.Prelude.{◌≡◌, IfOk, codes, map, option_and_then, option_map};
ghost use Rattle.toml.specs.View.{table_view};
ghost use Rattle.sv_config.specs.Document.{text_at};
ghost use Rattle.sv_config.specs.Listed as spec;

use crate::checked::Document;
use crate::columns::texts_at;
use crate::document::{text_at as text_of, values_at};
use std::alloc::{AllocError, Global};
use toml::Table;

impl Document {
    /// The patterns of a servlet, by the number of its context and its own in that context, in the order of the
    /// descriptor; of one that serves files the path; none where there is no such servlet.
    pub fn patterns(
        &self,
        alloc: Global,
        context: usize,
        servlet: usize,
    ) -> Result<Vec<&str>, AllocError>
        ensures { IfOk result (λ patterns. map (λ p. p.now) patterns.items ≡ spec.patterns_within context servlet (table_view self.now.table)) }
    {
        match table_within(&self.table, "context", context) {
            Some(context) => patterns_in(alloc, context, servlet),
            None => Ok(Vec::new(alloc)),
        }
    }
}

fn patterns_in(alloc: Global, context: &Table, servlet: usize) -> Result<Vec<&str>, AllocError>
    ensures { IfOk result (λ patterns. map (λ p. p.now) patterns.items ≡ spec.patterns_in servlet (table_view context.now)) }
{
    let declared = values_at(context, "servlet").len();
    if servlet >= declared {
        return path_within(alloc, context, servlet - declared);
    }
    match table_within(context, "servlet", servlet) {
        Some(table) => texts_at(alloc, table, "patterns"),
        None => Ok(Vec::new(alloc)),
    }
}

/// The path of the file mapping of a number.
fn path_within(alloc: Global, context: &Table, file: usize) -> Result<Vec<&str>, AllocError>
    ensures { IfOk result (λ paths. map (λ p. p.now) paths.items ≡ spec.path_within file (table_view context.now)) }
{
    match path_at(context, file) {
        Some(path) => Ok(vec![in alloc; path]?),
        None => Ok(Vec::new(alloc)),
    }
}

fn path_at(context: &Table, file: usize) -> Option<&str>
    ensures { option_map (λ p. p.now) result ≡ option_and_then (text_at (codes "path")) (spec.table_within (codes "file") file (table_view context.now)) }
{
    match table_within(context, "file", file) {
        Some(table) => text_of(table, "path"),
        None => None,
    }
}

/// The table at a place of the array at a key.
fn table_within<'a>(table: &'a Table, key: &str, place: usize) -> Option<&'a Table>
    ensures { option_map (λ t. table_view t.now) result ≡ spec.table_within key.now place (table_view table.now) }
{
    match values_at(table, key).get(place) {
        Some(value) => value.as_table(),
        None => None,
    }
}
