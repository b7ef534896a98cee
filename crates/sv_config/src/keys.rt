//! Keys of a table that are odd, or have something odd.

ghost use Rattle.std.specs.Prelude.{◌≡◌, ◌++◌, map, OnOk, bytes_eq};
ghost use Rattle.std.specs.List.{list_any};
ghost use Rattle.toml.specs.View.{table_view, view};
ghost use Rattle.sv_config.specs.Keys as spec;
ghost use Rattle.sv_config.specs.Place.{spot, placed, keys_where};
ghost use Rattle.sv_config.specs.Rules.{rule_of};

use crate::place::{FaultPlace, Found};
use crate::placed::Placed;
use crate::rules::{FieldRule, TableKind, has_free_keys, rules};
use crate::settings::is_bad_setting;
use std::alloc::AllocError;
use toml::{Table, Value};

/// What is wrong with a key of a table, or with what stands there.
#[derive(Clone, Copy, PartialEq, Eq)]
pub(crate) enum OddKey {
    /// Tables of this kind have no such key.
    NotListed(TableKind),
    /// It has no text.
    NoText,
    /// The name or the value of a setting is too long, or the name is empty.
    BadSetting,
}

/// Whether this is wrong with a key.
fn is_odd(odd: OddKey, key: &str, value: &Value) -> bool
    ensures { result ≡ spec.is_odd odd key.now (view value.now) }
{
    match odd {
        OddKey::NotListed(kind) => !is_listed(kind, key),
        OddKey::NoText => !value.is_str(),
        OddKey::BadSetting => is_bad_setting(key, value),
    }
}

/// Whether a table of a kind may have the key.
fn is_listed(kind: TableKind, key: &str) -> bool
    ensures { result ≡ spec.is_listed kind key.now }
{
    has_free_keys(kind) || has_rule(rules(kind), key)
}

fn has_rule(rules: &[FieldRule], key: &str) -> bool
    ensures { result ≡ spec.has_rule (map rule_of rules.now) key.now }
{
    has_key(rules, key)
}

fn has_key(rules: &[FieldRule], key: &str) -> bool
    ensures { result ≡ list_any (λ rule. bytes_eq rule.key.now key.now) rules.now }
{
    rules.iter().any(|rule| rule.key == key)
}

/// Adds each key of a table with which this is wrong.
pub(crate) fn add_odd_keys<'a>(
    places: &mut Vec<FaultPlace<'a>>,
    odd: OddKey,
    at: Placed<'a>,
) -> Result<(), AllocError>
    ensures { OnOk result (map spot places.new.items ≡ map spot places.old.items
        ++ keys_where (spec.is_odd odd) at.entry.place (placed at.entry).1) }
{
    for (key, value) in at.table.iter() {
        if is_odd(odd, key, value) {
            places.push(FaultPlace {
                table: at.place,
                key: key.as_str(),
                index: None,
                found: Found::Nothing,
            })?;
        }
    }
    Ok(())
}
