//! Where limits are passed.

ghost use Rattle.std.specs.Prelude.{◌≡◌, ◌++◌, map, OnOk};
ghost use Rattle.toml.specs.View.{table_view};
ghost use Rattle.sv_config.specs.Keys.{is_outside};
ghost use Rattle.sv_config.specs.Limits as spec;
ghost use Rattle.sv_config.specs.Place.{kind_of, spot, placed};

use crate::columns::all_patterns;
use crate::document::{integer_at, is_empty_at, text_at, values_at};
use crate::keys::{OddKey, add_odd_keys};
use crate::members::{Unfit, add_count, add_field, add_members};
use crate::place::{FaultPlace, kind_of};
use crate::placed::Placed;
use crate::rules::TableKind;
use crate::settings::{count_settings, has_too_many_settings};
use std::alloc::{AllocError, Global};
use sv_mapping::MAX_PATTERNS;
use sv_model::{CONTEXT_LIMIT, NODE_LIMIT};
use toml::Table;

const MAX_NODES: usize = NODE_LIMIT as usize;

pub(crate) const MAX_KEYS: i64 = 1_048_576;

const MAX_CONTEXTS: usize = CONTEXT_LIMIT as usize;

const MAX_SERVLETS: usize = 64;

const MAX_FILTERS: usize = 32;

const MAX_FILTER_MAPPINGS: usize = 64;

const MAX_LISTENERS: usize = 16;

const MAX_ERROR_PAGES: usize = 32;

const MAX_FILE_MAPPINGS: usize = 64;

const MAX_ANSWERS: i64 = 16;

const MAX_NAME_BYTES: usize = 64;

/// Adds each array, number and name of a table that passes its limit.
pub(crate) fn add_exceeding<'a>(
    alloc: Global,
    places: &mut Vec<FaultPlace<'a>>,
    at: Placed<'a>,
) -> Result<(), AllocError>
    ensures { OnOk result (map spot places.new.items ≡ map spot places.old.items ++ spec.exceeding_in (kind_of at.entry.place) (placed at.entry)) }
{
    match kind_of(at.place) {
        TableKind::Top => add_too_many(places, at, "context", MAX_CONTEXTS),
        TableKind::Cluster => add_in_cluster(places, at),
        TableKind::Context => add_in_context(alloc, places, at),
        TableKind::Servlet | TableKind::Filter | TableKind::Listener | TableKind::Cookie => {
            add_field(places, has_bad_length(at.table, "name"), at, "name")
        }
        TableKind::Mapping | TableKind::File => Ok(()),
        TableKind::Page => add_field(
            places,
            is_outside_at(at.table, "status", 400, 599),
            at,
            "status",
        ),
        TableKind::Once => add_in_once(places, at),
        TableKind::Settings => add_in_settings(places, at),
    }
}

fn add_in_settings<'a>(places: &mut Vec<FaultPlace<'a>>, at: Placed<'a>) -> Result<(), AllocError>
    ensures { OnOk result (map spot places.new.items ≡ map spot places.old.items ++ spec.exceeding_in TableKind.Settings (placed at.entry)) }
{
    let is_over = has_too_many_settings(at.table);
    add_count(places, is_over, at, "", count_settings(at.table))?;
    add_odd_keys(places, OddKey::BadSetting, at)
}

fn add_in_once<'a>(places: &mut Vec<FaultPlace<'a>>, at: Placed<'a>) -> Result<(), AllocError>
    ensures { OnOk result (map spot places.new.items ≡ map spot places.old.items ++ spec.exceeding_in TableKind.Once (placed at.entry)) }
{
    add_field(
        places,
        is_outside_at(at.table, "answers", 1, MAX_ANSWERS),
        at,
        "answers",
    )?;
    add_field(
        places,
        has_bad_length(at.table, "parameter"),
        at,
        "parameter",
    )
}

#[tactic(auto, unfolding(crate::specs::Limits::exceeding_in_cluster))]
fn add_in_cluster<'a>(places: &mut Vec<FaultPlace<'a>>, at: Placed<'a>) -> Result<(), AllocError>
    ensures { OnOk result (map spot places.new.items ≡ map spot places.old.items ++ spec.exceeding_in_cluster (placed at.entry)) }
{
    let is_miscounted = is_empty_at(at.table, "ports") || has_over(at.table, "ports", MAX_NODES);
    add_counted(places, is_miscounted, at, "ports")?;
    add_members(places, Unfit::NoPort, at, "ports")?;
    add_field(
        places,
        is_outside_at(at.table, "deadline", 1, 86400),
        at,
        "deadline",
    )?;
    add_field(
        places,
        is_outside_at(at.table, "keys", 1, MAX_KEYS),
        at,
        "keys",
    )
}

#[tactic(auto, unfolding(crate::specs::Limits::exceeding_in_context))]
fn add_in_context<'a>(
    alloc: Global,
    places: &mut Vec<FaultPlace<'a>>,
    at: Placed<'a>,
) -> Result<(), AllocError>
    ensures { OnOk result (map spot places.new.items ≡ map spot places.old.items ++ spec.exceeding_in_context (placed at.entry)) }
{
    let is_outside = is_outside_at(at.table, "interval", -2_147_483_648, 2_147_483_647);
    add_field(places, is_outside, at, "interval")?;
    add_too_many(places, at, "servlet", MAX_SERVLETS)?;
    add_too_many(places, at, "filter", MAX_FILTERS)?;
    add_too_many(places, at, "filter-mapping", MAX_FILTER_MAPPINGS)?;
    add_too_many(places, at, "listener", MAX_LISTENERS)?;
    add_too_many(places, at, "error-page", MAX_ERROR_PAGES)?;
    add_too_many(places, at, "file", MAX_FILE_MAPPINGS)?;
    add_too_many_patterns(alloc, places, at)
}

/// Adds an array of more members than the limit.
fn add_too_many<'a>(
    places: &mut Vec<FaultPlace<'a>>,
    at: Placed<'a>,
    key: &'a str,
    limit: usize,
) -> Result<(), AllocError>
    ensures { OnOk result (map spot places.new.items ≡ map spot places.old.items ++ spec.too_many_at limit (placed at.entry) key.now) }
{
    add_counted(places, has_over(at.table, key, limit), at, key)
}

/// Adds an array with the number of its members, where that is wrong.
fn add_counted<'a>(
    places: &mut Vec<FaultPlace<'a>>,
    holds: bool,
    at: Placed<'a>,
    key: &'a str,
) -> Result<(), AllocError>
    ensures { OnOk result (map spot places.new.items ≡ map spot places.old.items ++ spec.counted holds (placed at.entry) key.now) }
{
    let count = values_at(at.table, key).len();
    add_count(places, holds, at, key, count)
}

/// Adds the patterns of a context, where they are too many.
fn add_too_many_patterns<'a>(
    alloc: Global,
    places: &mut Vec<FaultPlace<'a>>,
    at: Placed<'a>,
) -> Result<(), AllocError>
    ensures { OnOk result (map spot places.new.items ≡ map spot places.old.items ++ spec.too_many_patterns (placed at.entry)) }
{
    let patterns = all_patterns(alloc, at.table)?;
    add_count(
        places,
        patterns.len() > MAX_PATTERNS,
        at,
        "patterns",
        patterns.len(),
    )
}

/// Whether the array at a key has more members than the limit.
fn has_over(table: &Table, key: &str, limit: usize) -> bool
    ensures { result ≡ spec.has_over limit key.now (table_view table.now) }
{
    values_at(table, key).len() > limit
}

/// Whether the integer at a key lies outside the range.
fn is_outside_at(table: &Table, key: &str, least: i64, most: i64) -> bool
    ensures { result ≡ spec.is_outside_at least most key.now (table_view table.now) }
{
    match integer_at(table, key) {
        Some(integer) => is_outside(integer, least, most),
        None => false,
    }
}

pub(crate) fn is_outside(integer: i64, least: i64, most: i64) -> bool
    ensures { result ≡ is_outside least most integer }
{
    integer < least || most < integer
}

/// Whether the name at a key has no byte, or too many.
fn has_bad_length(table: &Table, key: &str) -> bool
    ensures { result ≡ spec.has_bad_length key.now (table_view table.now) }
{
    match text_at(table, key) {
        Some(name) => name.is_empty() || name.len() > MAX_NAME_BYTES,
        None => false,
    }
}
