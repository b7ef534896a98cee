//! Where fields are missing.

ghost use Rattle.std.specs.Prelude.{◌≡◌, ◌++◌, map, OnOk};
ghost use Rattle.std.specs.List.{flat_map};
ghost use Rattle.toml.specs.View.{table_view};
ghost use Rattle.sv_config.specs.Missing as spec;
ghost use Rattle.sv_config.specs.Place.{kind_of, spot, placed, field_where};
ghost use Rattle.sv_config.specs.Rules.{rule_of};

use crate::cookie::lacks_secure;
use crate::document::{has, has_neither, is_empty_at};
use crate::members::add_field;
use crate::place::{FaultPlace, kind_of};
use crate::placed::Placed;
use crate::rules::{FieldRule, TableKind, rules};
use std::alloc::AllocError;
use toml::Table;

/// Adds each field that a table lacks.
pub(crate) fn add_missing<'a>(
    places: &mut Vec<FaultPlace<'a>>,
    at: Placed<'a>,
) -> Result<(), AllocError>
    ensures { OnOk result (map spot places.new.items ≡ map spot places.old.items ++ spec.missing_in (placed at.entry)) }
{
    add_required(places, at, rules(kind_of(at.place)))?;
    add_contents(places, at)?;
    Ok(())
}

fn add_required<'a>(
    places: &mut Vec<FaultPlace<'a>>,
    at: Placed<'a>,
    rules: &[FieldRule],
) -> Result<(), AllocError>
    ensures { OnOk result (map spot places.new.items ≡ map spot places.old.items
        ++ flat_map (λ rule. field_where (spec.lacks (placed at.entry).1 rule) (placed at.entry) rule.key) (map rule_of rules.now)) }
{
    for rule in rules {
        add_field(places, lacks(at.table, rule), at, rule.key)?;
    }
    Ok(())
}

/// Adds what is missing beside single fields.
fn add_contents<'a>(places: &mut Vec<FaultPlace<'a>>, at: Placed<'a>) -> Result<(), AllocError>
    ensures { OnOk result (map spot places.new.items ≡ map spot places.old.items ++ spec.lacking_in (kind_of at.entry.place) (placed at.entry)) }
{
    let table = at.table;
    match kind_of(at.place) {
        TableKind::Top => add_field(places, is_empty_at(table, "context"), at, "context"),
        TableKind::Mapping => add_field(
            places,
            has_neither(table, "pattern", "servlet"),
            at,
            "pattern",
        ),
        TableKind::File => add_field(places, has_neither(table, "file", "folder"), at, "file"),
        TableKind::Cookie => add_field(places, lacks_secure(table), at, "secure"),
        _ => Ok(()),
    }
}

fn lacks(table: &Table, rule: &FieldRule) -> bool
    ensures { result ≡ spec.lacks (table_view table.now) (rule_of rule.now) }
{
    rule.required && !has(table, rule.key)
}
