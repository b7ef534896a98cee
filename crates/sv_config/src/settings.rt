//! The settings of a context: texts that its author has given names.

ghost use Rattle.std.specs.Prelude.{◌≡◌, ◌++◌, IfOk, OnOk, map};
ghost use Rattle.toml.specs.View.{table_view, view};
ghost use Rattle.sv_config.specs.Document.{size};
ghost use Rattle.sv_config.specs.Keys as spec_of_keys;
ghost use Rattle.sv_config.specs.Limits as spec_of_limits;
ghost use Rattle.sv_config.specs.Values as spec;

use crate::document::table_at;
use std::alloc::{AllocError, Global};
use toml::{Table, Value};

pub(crate) const MAX_SETTINGS: usize = 64;

const MAX_NAME_BYTES: usize = 128;

const MAX_VALUE_BYTES: usize = 8_192;

/// A text that a descriptor gives the servlets and filters of a context.
#[derive(Debug, Drop)]
pub struct Setting {
    /// 1 to 128 bytes.
    pub name: String,
    /// At most 8,192 bytes.
    pub value: String,
}

/// The settings of a context, in the order of their names.
#[tactic(auto, unfolding(crate::specs::Values::settings_of))]
pub(crate) fn read_settings(alloc: Global, context: &Table) -> Result<Vec<Setting>, AllocError>
    ensures { IfOk result (λ settings. map spec.setting_data settings.items ≡ spec.settings_of (table_view context.now)) }
{
    match table_at(context, "settings") {
        Some(table) => settings_in(alloc, table),
        None => Ok(Vec::new(alloc)),
    }
}

fn settings_in(alloc: Global, table: &Table) -> Result<Vec<Setting>, AllocError>
    ensures { IfOk result (λ settings. map spec.setting_data settings.items ≡ spec.settings_in (table_view table.now)) }
{
    let mut settings = Vec::new(alloc);
    for (name, value) in table.iter() {
        add_setting(alloc, &mut settings, name, value)?;
    }
    Ok(settings)
}

fn add_setting(
    alloc: Global,
    settings: &mut Vec<Setting>,
    name: &str,
    value: &Value,
) -> Result<(), AllocError>
    ensures { OnOk result (map spec.setting_data settings.new.items ≡ map spec.setting_data settings.old.items ++ spec.setting_in name.now (view value.now)) }
{
    if let Some(value) = value.as_str() {
        settings.push(Setting {
            name: String::from_str(alloc, name)?,
            value: String::from_str(alloc, value)?,
        })?;
    }
    Ok(())
}

/// Whether a setting's name is empty or too long, or its value too long.
pub(crate) fn is_bad_setting(name: &str, value: &Value) -> bool
    ensures { result ≡ spec_of_keys.is_bad_setting name.now (view value.now) }
{
    if name.is_empty() || name.len() > MAX_NAME_BYTES {
        return true;
    }
    match value.as_str() {
        Some(text) => text.len() > MAX_VALUE_BYTES,
        None => false,
    }
}

/// How many settings there are.
#[tactic(auto, using(crate::proofs::DocumentLemmas::size_view))]
pub(crate) fn count_settings(table: &Table) -> usize
    ensures { result ≡ size (table_view table.now) }
{
    table.len()
}

pub(crate) fn has_too_many_settings(table: &Table) -> bool
    ensures { result ≡ spec_of_limits.has_too_many_settings (table_view table.now) }
{
    count_settings(table) > MAX_SETTINGS
}
