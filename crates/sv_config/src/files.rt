//! The files that a context serves as they are.

ghost use Rattle.std.specs.Prelude.{◌≡◌, IfOk, map, codes, string_bytes};
ghost use Rattle.toml.specs.View.{table_view};
ghost use Rattle.sv_config.specs.Document.{tables_at, text_at as spec_text_at};
ghost use Rattle.sv_config.specs.Values as spec;

use crate::columns::tables_at;
use crate::document::{owned_text_at, text_at, text_or_empty};
use std::alloc::{AllocError, Global};
use toml::Table;

/// What of the descriptor's folder is served: a path of segments with `/` between them, none of which begins with a dot.
#[derive(Debug, Drop)]
pub enum FileSource {
    /// This file, whatever the path of the request.
    File(String),
    /// The file of this folder that the path info names.
    Folder(String),
}

/// Files that are served for paths of a context.
#[derive(Debug, Drop)]
pub struct FileMapping {
    /// The pattern of the paths; a prefix pattern, as `/static/*`, for a folder.
    pub path: String,
    pub source: FileSource,
    /// The value of Cache-Control (RFC 9111, section 5.2) that its answers have, where they have one.
    pub cache: Option<String>,
}

/// The file mappings of a context, in order.
pub(crate) fn read_files(alloc: Global, context: &Table) -> Result<Vec<FileMapping>, AllocError>
    ensures { IfOk result (λ files. map spec.file_data files.items ≡ map spec.file_of (tables_at (codes "file") (table_view context.now))) }
{
    let tables = tables_at(alloc, context, "file")?;
    files_of(alloc, &tables)
}

fn files_of(alloc: Global, tables: &[&Table]) -> Result<Vec<FileMapping>, AllocError>
    ensures { IfOk result (λ files. map spec.file_data files.items ≡ map spec.file_of (map (λ t. table_view t.now) tables.now)) }
{
    let mut files = Vec::new(alloc);
    for table in tables {
        files.push(file_of(alloc, table)?)?;
    }
    Ok(files)
}

#[tactic(auto, unfolding(crate::specs::Values::file_of))]
fn file_of(alloc: Global, table: &Table) -> Result<FileMapping, AllocError>
    ensures { IfOk result (λ file. spec.file_data file ≡ spec.file_of (table_view table.now)) }
{
    Ok(FileMapping {
        path: String::from_str(alloc, text_or_empty(table, "path"))?,
        source: source_of(alloc, table)?,
        cache: owned_text_at(alloc, table, "cache")?,
    })
}

fn source_of(alloc: Global, table: &Table) -> Result<FileSource, AllocError>
    ensures { IfOk result (λ source. spec.source_data source ≡ spec.source_by (spec_text_at (codes "file") (table_view table.now)) (table_view table.now)) }
{
    match text_at(table, "file") {
        Some(file) => Ok(FileSource::File(String::from_str(alloc, file)?)),
        None => Ok(FileSource::Folder(String::from_str(alloc, text_or_empty(table, "folder"))?)),
    }
}
