//! Where fields and members are of another kind than they must be.

ghost use Rattle.std.specs.Prelude.{◌≡◌, ◌++◌, map, OnOk};
ghost use Rattle.std.specs.List.{flat_map};
ghost use Rattle.toml.specs.View.{table_view, view};
ghost use Rattle.sv_config.specs.Place.{spot, placed};
ghost use Rattle.sv_config.specs.Kinds as spec;
ghost use Rattle.sv_config.specs.Rules.{rule_of};

use crate::document::member;
use crate::keys::{OddKey, add_odd_keys};
use crate::members::{Unfit, add_field, add_members};
use crate::place::{FaultPlace, kind_of};
use crate::placed::Placed;
use crate::rules::{FieldKind, FieldRule, has_free_keys, rules};
use std::alloc::AllocError;
use toml::{Table, Value};

/// Adds each field of another kind, of an array each member of another kind, and each setting that is no text.
pub(crate) fn add_mistyped<'a>(
    places: &mut Vec<FaultPlace<'a>>,
    at: Placed<'a>,
) -> Result<(), AllocError>
    ensures { OnOk result (map spot places.new.items ≡ map spot places.old.items ++ spec.mistyped_in (placed at.entry)) }
{
    let kind = kind_of(at.place);
    add_misfits(places, at, rules(kind))?;
    if has_free_keys(kind) {
        add_odd_keys(places, OddKey::NoText, at)?;
    }
    Ok(())
}

fn add_misfits<'a>(
    places: &mut Vec<FaultPlace<'a>>,
    at: Placed<'a>,
    rules: &[FieldRule],
) -> Result<(), AllocError>
    ensures { OnOk result (map spot places.new.items ≡ map spot places.old.items ++ flat_map (spec.mistyped_field (placed at.entry)) (map rule_of rules.now)) }
{
    for rule in rules {
        add_misfit(places, at, rule)?;
    }
    Ok(())
}

fn add_misfit<'a>(
    places: &mut Vec<FaultPlace<'a>>,
    at: Placed<'a>,
    rule: &FieldRule,
) -> Result<(), AllocError>
    ensures { OnOk result (map spot places.new.items ≡ map spot places.old.items ++ spec.mistyped_field (placed at.entry) (rule_of rule.now)) }
{
    let key = rule.key;
    add_field(places, is_misshaped(rule.kind, at.table, key), at, key)?;
    match rule.kind {
        FieldKind::Text | FieldKind::Integer | FieldKind::Boolean | FieldKind::Table => Ok(()),
        FieldKind::Texts => add_members(places, Unfit::NoText, at, key),
        FieldKind::Integers => add_members(places, Unfit::NoInteger, at, key),
        FieldKind::Tables => add_members(places, Unfit::NoTable, at, key),
    }
}

fn is_misshaped(kind: FieldKind, table: &Table, key: &str) -> bool
    ensures { result ≡ spec.misshaped_at kind key.now (table_view table.now) }
{
    match member(table, key) {
        Some(value) => has_other_shape(kind, value),
        None => false,
    }
}

/// Whether it is neither of the kind nor, for an array, an array.
fn has_other_shape(kind: FieldKind, value: &Value) -> bool
    ensures { result ≡ spec.has_other_shape kind (view value.now) }
{
    match kind {
        FieldKind::Text => !value.is_str(),
        FieldKind::Integer => !value.is_integer(),
        FieldKind::Boolean => !value.is_bool(),
        FieldKind::Table => !value.is_table(),
        FieldKind::Texts | FieldKind::Integers | FieldKind::Tables => !value.is_array(),
    }
}
