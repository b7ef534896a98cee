//! The error pages of a context.

ghost use Rattle.std.specs.Prelude.{◌≡◌, IfOk, map, codes};
ghost use Rattle.toml.specs.View.{table_view};
ghost use Rattle.sv_config.specs.Document.{tables_at, text_at};
ghost use Rattle.sv_config.specs.Values as spec;

use crate::columns::tables_at;
use crate::deployment::{ErrorPage, PageFor};
use crate::document::{integer_at, text_at, text_or_empty};
use crate::limits::is_outside;
use std::alloc::{AllocError, Global};
use toml::Table;

/// The error pages of a context.
pub(crate) fn read_pages(alloc: Global, context: &Table) -> Result<Vec<ErrorPage>, AllocError>
    ensures { IfOk result (λ pages. map spec.page_data pages.items ≡ map spec.page_of (tables_at (codes "error-page") (table_view context.now))) }
{
    let tables = tables_at(alloc, context, "error-page")?;
    pages_of(alloc, &tables)
}

fn pages_of(alloc: Global, tables: &[&Table]) -> Result<Vec<ErrorPage>, AllocError>
    ensures { IfOk result (λ pages. map spec.page_data pages.items ≡ map spec.page_of (map (λ t. table_view t.now) tables.now)) }
{
    let mut pages = Vec::new(alloc);
    for table in tables {
        pages.push(page_of(alloc, table)?)?;
    }
    Ok(pages)
}

#[tactic(auto, unfolding(crate::specs::Values::page_of))]
fn page_of(alloc: Global, table: &Table) -> Result<ErrorPage, AllocError>
    ensures { IfOk result (λ page. spec.page_data page ≡ spec.page_of (table_view table.now)) }
{
    Ok(ErrorPage {
        path: String::from_str(alloc, text_or_empty(table, "path"))?,
        choice: choice_of(alloc, table)?,
    })
}

fn choice_of(alloc: Global, table: &Table) -> Result<PageFor, AllocError>
    ensures { IfOk result (λ choice. spec.choice_data choice ≡ spec.choice_of_table (table_view table.now)) }
{
    match integer_at(table, "status") {
        Some(status) => if is_outside(status, 400, 599) {
            choice_by_fault(alloc, table)
        } else {
            Ok(PageFor::Status(status as u16))
        },
        None => choice_by_fault(alloc, table),
    }
}

fn choice_by_fault(alloc: Global, table: &Table) -> Result<PageFor, AllocError>
    ensures { IfOk result (λ choice. spec.choice_data choice ≡ spec.choice_by_fault (text_at (codes "fault") (table_view table.now))) }
{
    match text_at(table, "fault") {
        Some(fault) => Ok(PageFor::Fault(String::from_str(alloc, fault)?)),
        None => Ok(PageFor::Default),
    }
}
