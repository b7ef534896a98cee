//! What stands in a table of a document.

ghost use Rattle.std.specs.Prelude.{◌≡◌, IfOk, map, option_map, string_bytes};
ghost use Rattle.toml.specs.Data.{get_member};
ghost use Rattle.toml.specs.View.{table_view, view};
ghost use Rattle.sv_config.specs.Document as spec;

use std::alloc::{AllocError, Global};
use toml::{Table, Value};

/// The value at a key.
pub(crate) fn member<'a>(table: &'a Table, key: &str) -> Option<&'a Value>
    ensures { option_map (λ v. view v.now) result ≡ get_member key.now (table_view table.now) }
{
    table.get(key)
}

/// Whether the table has the key.
pub(crate) fn has(table: &Table, key: &str) -> bool
    ensures { result ≡ spec.has key.now (table_view table.now) }
{
    member(table, key).is_some()
}

/// Whether the table has both keys.
pub(crate) fn has_both(table: &Table, one: &str, other: &str) -> bool
    ensures { result ≡ spec.has_both one.now other.now (table_view table.now) }
{
    has(table, one) && has(table, other)
}

/// Whether the table has neither key.
pub(crate) fn has_neither(table: &Table, one: &str, other: &str) -> bool
    ensures { result ≡ spec.has_neither one.now other.now (table_view table.now) }
{
    !has(table, one) && !has(table, other)
}

/// The text at a key.
pub(crate) fn text_at<'a>(table: &'a Table, key: &str) -> Option<&'a str>
    ensures { option_map (λ s. s.now) result ≡ spec.text_at key.now (table_view table.now) }
{
    match member(table, key) {
        Some(value) => value.as_str(),
        None => None,
    }
}

/// A copy of the text at a key.
pub(crate) fn owned_text_at(
    alloc: Global,
    table: &Table,
    key: &str,
) -> Result<Option<String>, AllocError>
    ensures { IfOk result (λ text. option_map string_bytes text ≡ spec.text_at key.now (table_view table.now)) }
{
    match text_at(table, key) {
        Some(text) => Ok(Some(String::from_str(alloc, text)?)),
        None => Ok(None),
    }
}

/// The text at a key, or an empty one.
pub(crate) fn text_or_empty<'a>(table: &'a Table, key: &str) -> &'a str
    ensures { result.now ≡ spec.text_or_empty key.now (table_view table.now) }
{
    match member(table, key) {
        Some(value) => match value.as_str() {
            Some(text) => text,
            None => "",
        },
        None => "",
    }
}

/// The integer at a key.
pub(crate) fn integer_at(table: &Table, key: &str) -> Option<i64>
    ensures { result ≡ spec.integer_at key.now (table_view table.now) }
{
    match member(table, key) {
        Some(value) => value.as_integer(),
        None => None,
    }
}

/// The truth value at a key.
pub(crate) fn boolean_at(table: &Table, key: &str) -> Option<bool>
    ensures { result ≡ spec.boolean_at key.now (table_view table.now) }
{
    match member(table, key) {
        Some(value) => value.as_bool(),
        None => None,
    }
}

/// The table at a key.
pub(crate) fn table_at<'a>(table: &'a Table, key: &str) -> Option<&'a Table>
    ensures { option_map (λ t. table_view t.now) result ≡ spec.table_at key.now (table_view table.now) }
{
    match member(table, key) {
        Some(value) => value.as_table(),
        None => None,
    }
}

/// The members of the array at a key, or none.
#[tactic(auto, using(crate::proofs::DocumentLemmas::items_list_view), unfolding(crate::specs::Document::values_at))]
pub(crate) fn values_at<'a>(table: &'a Table, key: &str) -> &'a [Value]
    ensures { map view result.now ≡ spec.values_at key.now (table_view table.now) }
{
    match member(table, key) {
        Some(value) => match value.as_array() {
            Some(values) => values,
            None => &[],
        },
        None => &[],
    }
}

/// Whether the key has an array of nothing.
#[tactic(auto, using(crate::proofs::DocumentLemmas::items_length))]
pub(crate) fn is_empty_at(table: &Table, key: &str) -> bool
    ensures { result ≡ spec.is_empty_at key.now (table_view table.now) }
{
    match member(table, key) {
        Some(value) => match value.as_array() {
            Some(values) => values.is_empty(),
            None => false,
        },
        None => false,
    }
}
