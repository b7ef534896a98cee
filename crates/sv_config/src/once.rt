//! What the sessions of a context remember of requests that may be sent again.

ghost use Rattle.std.specs.Prelude.{◌≡◌, IfOk, map, codes, option_map, pos};
ghost use Rattle.toml.specs.View.{table_view};
ghost use Rattle.sv_config.specs.Document.{tables_at};
ghost use Rattle.sv_config.specs.Values as spec;

use crate::deployment::{ErrorPage, Once};
use crate::document::{integer_at, owned_text_at, table_at};
use crate::limits::is_outside;
use crate::pages::read_pages;
use std::alloc::{AllocError, Global};
use toml::Table;

/// The error pages of a context, and what its sessions remember.
pub(crate) fn read_pages_and_once(
    alloc: Global,
    context: &Table,
) -> Result<(Vec<ErrorPage>, Option<Once>), AllocError>
    ensures pages { IfOk result (λ both. map spec.page_data both.0.items ≡ map spec.page_of (tables_at (codes "error-page") (table_view context.now))) }
    ensures once { IfOk result (λ both. option_map spec.once_data both.1 ≡ spec.once_of (table_view context.now)) }
{
    let pages = read_pages(alloc, context)?;
    let once = read_once(alloc, context)?;
    Ok((pages, once))
}

fn read_once(alloc: Global, context: &Table) -> Result<Option<Once>, AllocError>
    ensures { IfOk result (λ once. option_map spec.once_data once ≡ spec.once_of (table_view context.now)) }
{
    match table_at(context, "once") {
        Some(table) => Ok(Some(Once {
            answers: answers_of(table),
            parameter: owned_text_at(alloc, table, "parameter")?,
        })),
        None => Ok(None),
    }
}

fn answers_of(once: &Table) -> u8
    ensures { pos result ≡ spec.answers_of (table_view once.now) }
{
    match integer_at(once, "answers") {
        Some(answers) => if is_outside(answers, 1, 16) {
            1
        } else {
            answers as u8
        },
        None => 1,
    }
}
