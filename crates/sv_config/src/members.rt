//! Fields, and members of arrays, at which a fault stands.

ghost use Rattle.std.specs.Prelude.{◌≡◌, ◌++◌, map, OnOk};
ghost use Rattle.toml.specs.View.{table_view, view};
ghost use Rattle.sv_config.specs.Keys as spec;
ghost use Rattle.sv_config.specs.Place.{spot, placed, shown, shown_in, shown_at, table_where, field_where, count_where, members_where};

use crate::document::{member, values_at};
use crate::limits::is_outside;
use crate::place::{FaultPlace, Found};
use crate::placed::Placed;
use std::alloc::AllocError;
use sv_mapping::{Dispatcher, Pattern};
use toml::Value;

/// What is wrong with a member of an array.
#[derive(Clone, Copy, PartialEq, Eq)]
pub(crate) enum Unfit {
    NoPattern,
    NoDispatcher,
    NoPort,
    NoText,
    NoInteger,
    NoTable,
}

/// The text or the integer that a value is.
fn found_in(value: &Value) -> Found<'_>
    ensures { shown result ≡ shown_in (view value.now) }
{
    if let Some(text) = value.as_str() {
        return Found::Words(text);
    }
    match value.as_integer() {
        Some(number) => Found::Number(number),
        None => Found::Nothing,
    }
}

/// What stands at a key.
fn found_at<'a>(placed: Placed<'a>, key: &str) -> Found<'a>
    ensures { shown result ≡ shown_at key.now (table_view placed.entry.table.now) }
{
    match member(placed.table, key) {
        Some(value) => found_in(value),
        None => Found::Nothing,
    }
}

/// Adds the table as a whole, where the fault stands there.
pub(crate) fn add_table<'a>(
    places: &mut Vec<FaultPlace<'a>>,
    holds: bool,
    at: Placed<'a>,
) -> Result<(), AllocError>
    ensures { OnOk result (map spot places.new.items ≡ map spot places.old.items ++ table_where holds (placed at.entry)) }
{
    if holds {
        places.push(FaultPlace {
            table: at.place,
            key: "",
            index: None,
            found: Found::Nothing,
        })?;
    }
    Ok(())
}

/// Adds a field, where the fault stands there.
pub(crate) fn add_field<'a>(
    places: &mut Vec<FaultPlace<'a>>,
    holds: bool,
    at: Placed<'a>,
    key: &'a str,
) -> Result<(), AllocError>
    ensures { OnOk result (map spot places.new.items ≡ map spot places.old.items ++ field_where holds (placed at.entry) key.now) }
{
    if holds {
        places.push(FaultPlace {
            table: at.place,
            key,
            index: None,
            found: found_at(at, key),
        })?;
    }
    Ok(())
}

/// Adds a field of so many, where they are too many or too few.
pub(crate) fn add_count<'a>(
    places: &mut Vec<FaultPlace<'a>>,
    holds: bool,
    at: Placed<'a>,
    key: &'a str,
    count: usize,
) -> Result<(), AllocError>
    ensures { OnOk result (map spot places.new.items ≡ map spot places.old.items ++ count_where holds (placed at.entry) key.now count) }
{
    if holds {
        places.push(FaultPlace {
            table: at.place,
            key,
            index: None,
            found: Found::Count(count),
        })?;
    }
    Ok(())
}

/// Adds each member of an array with which this is wrong.
pub(crate) fn add_members<'a>(
    places: &mut Vec<FaultPlace<'a>>,
    unfit: Unfit,
    at: Placed<'a>,
    key: &'a str,
) -> Result<(), AllocError>
    ensures { OnOk result (map spot places.new.items ≡ map spot places.old.items ++ members_where (spec.is_unfit unfit) (placed at.entry) key.now) }
{
    for (index, value) in values_at(at.table, key).iter().enumerate() {
        if is_unfit(unfit, value) {
            places.push(FaultPlace {
                table: at.place,
                key,
                index: Some(index),
                found: found_in(value),
            })?;
        }
    }
    Ok(())
}

/// Whether this is wrong with a member.
fn is_unfit(unfit: Unfit, value: &Value) -> bool
    ensures { result ≡ spec.is_unfit unfit (view value.now) }
{
    match unfit {
        Unfit::NoPattern => is_no_pattern(value),
        Unfit::NoDispatcher => is_no_dispatcher(value),
        Unfit::NoPort => is_no_port(value),
        Unfit::NoText => !value.is_str(),
        Unfit::NoInteger => !value.is_integer(),
        Unfit::NoTable => !value.is_table(),
    }
}

fn is_no_pattern(value: &Value) -> bool
    ensures { result ≡ spec.is_unfit Unfit.NoPattern (view value.now) }
{
    match value.as_str() {
        Some(text) => !Pattern::is_valid(text),
        None => false,
    }
}

fn is_no_dispatcher(value: &Value) -> bool
    ensures { result ≡ spec.is_unfit Unfit.NoDispatcher (view value.now) }
{
    match value.as_str() {
        Some(word) => word.parse::<Dispatcher>().is_err(),
        None => false,
    }
}

fn is_no_port(value: &Value) -> bool
    ensures { result ≡ spec.is_unfit Unfit.NoPort (view value.now) }
{
    match value.as_integer() {
        Some(port) => is_outside(port, 1, 65535),
        None => false,
    }
}
