//! Files that are answered as they are.
//!
//! `file` has a method; `first` or `named`, how a file is chosen; a path info; a Cache-Control; and a value of If-None-Match, each of the
//! last three `-` for none.

use crate::authors::asked::{Asked, answered, method_of};
use crate::fault::RowFault;
use crate::row::first;
use crate::web::fields::field_of;
use http_header::HeaderValue;
use std::alloc::{AllocError, Global};
use sv_model::Field;
use sv_web::{FileChoice, StaticFile, StaticFiles};

/// Files by their names, each of three letters or of no byte.
const FILES: [(&str, &str); 3] = [("a.css", "abc"), ("img/b", ""), ("img/c.png", "abc")];

fn files(alloc: Global) -> Result<Vec<StaticFile>, AllocError> {
    let mut files = Vec::new(alloc);
    for (name, text) in &FILES {
        let name = String::from_str(alloc, name)?;
        let bytes = Vec::from_slice(alloc, text.as_bytes())?;
        files.push(StaticFile::new(alloc, name, bytes)?)?;
    }
    Ok(files)
}

fn choice_of(word: &str) -> Result<FileChoice, RowFault> {
    match word {
        "first" => Ok(FileChoice::First),
        "named" => Ok(FileChoice::ByPathInfo),
        _ => Err(RowFault::Part),
    }
}

/// A part that may be missing.
fn some(part: &str) -> Option<&str> {
    if part == "-" { None } else { Some(part) }
}

fn cache_of(alloc: Global, part: &str) -> Result<Option<HeaderValue>, RowFault> {
    let Some(text) = some(part) else {
        return Ok(None);
    };
    match HeaderValue::from_str(alloc, text) {
        Ok(value) => Ok(Some(value)),
        Err(_) => Err(RowFault::Part),
    }
}

fn fields_of(alloc: Global, part: &str) -> Result<Vec<Field>, RowFault> {
    let mut fields = Vec::new(alloc);
    if let Some(value) = some(part) {
        fields.push(field_of(alloc, "if-none-match", value)?)?;
    }
    Ok(fields)
}

pub fn file(alloc: Global, parts: &str) -> Result<String, RowFault> {
    let (method, rest) = first(parts);
    let (choice, rest) = first(rest);
    let (path, rest) = first(rest);
    let (cache, tags) = first(rest);
    let method = method_of(alloc, method)?;
    let fields = fields_of(alloc, tags)?;
    let cache = cache_of(alloc, cache)?;
    let files = files(alloc)?;
    let servlet = StaticFiles {
        choice: choice_of(choice)?,
        files: &files,
        cache: cache.as_ref(),
    };
    let asked = Asked {
        path_info: some(path).unwrap_or(""),
        fields: &fields,
        ..Asked::by(&method)
    };
    answered(alloc, servlet.servlet(), asked)
}
