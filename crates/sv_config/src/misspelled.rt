//! Where texts are badly spelled.

ghost use Rattle.std.specs.Prelude.{◌≡◌, ◌++◌, map, OnOk};
ghost use Rattle.sv_config.specs.Place.{kind_of, spot, placed};
ghost use Rattle.sv_config.specs.Spelling as spec;

use crate::cookie::{has_stray_name, is_root};
use crate::document::table_at;
use crate::members::{Unfit, add_field, add_members};
use crate::place::{FaultPlace, TablePlace, kind_of, number_of};
use crate::placed::Placed;
use crate::rules::TableKind;
use crate::spelling::{
    has_bad_cache_control, has_bad_context_path, has_bad_cookie_name, has_bad_file_path,
    has_bad_file_pattern, has_bad_name, has_bad_page_path, has_bad_target,
};
use std::alloc::{AllocError, Global};

/// Adds each text of a table that is badly spelled.
pub(crate) fn add_misspelled<'a>(
    alloc: Global,
    places: &mut Vec<FaultPlace<'a>>,
    at: Placed<'a>,
) -> Result<(), AllocError>
    ensures { OnOk result (map spot places.new.items ≡ map spot places.old.items ++ spec.misspelled_in (kind_of at.entry.place) (placed at.entry)) }
{
    match kind_of(at.place) {
        TableKind::Top | TableKind::Cluster | TableKind::Once | TableKind::Settings => Ok(()),
        TableKind::Context => add_misspelled_context(alloc, places, at),
        TableKind::Servlet => add_misspelled_servlet(places, at),
        TableKind::Filter | TableKind::Listener => add_field(
            places,
            has_bad_name(at.table),
            at,
            "name",
        ),
        TableKind::Mapping => add_field(places, has_bad_target(at.table), at, "pattern"),
        TableKind::Page => add_field(places, has_bad_page_path(at.table), at, "path"),
        TableKind::File => add_misspelled_file(alloc, places, at),
        TableKind::Cookie => add_field(places, has_bad_cookie_name(at.table), at, "name"),
    }
}

fn add_misspelled_context<'a>(
    alloc: Global,
    places: &mut Vec<FaultPlace<'a>>,
    at: Placed<'a>,
) -> Result<(), AllocError>
    ensures { OnOk result (map spot places.new.items ≡ map spot places.old.items ++ spec.misspelled_in TableKind.Context (placed at.entry)) }
{
    let is_bad = has_bad_context_path(alloc, at.table)?;
    add_field(places, is_bad, at, "path")?;
    add_stray_cookie(places, at)
}

/// Adds the name of a context's cookie that is for a context at the root alone.
fn add_stray_cookie<'a>(places: &mut Vec<FaultPlace<'a>>, at: Placed<'a>) -> Result<(), AllocError>
    ensures { OnOk result (map spot places.new.items ≡ map spot places.old.items ++ spec.stray_cookie (placed at.entry)) }
{
    let Some(cookie) = table_at(at.table, "cookie") else {
        return Ok(());
    };
    let place = TablePlace::Single {
        context: number_of(at.place),
        kind: TableKind::Cookie,
    };
    let is_stray = has_stray_name(is_root(at.table), cookie);
    add_field(
        places,
        is_stray,
        Placed {
            place,
            table: cookie,
        },
        "name",
    )
}

#[tactic(auto, unfolding(crate::specs::Spelling::misspelled_file))]
fn add_misspelled_file<'a>(
    alloc: Global,
    places: &mut Vec<FaultPlace<'a>>,
    at: Placed<'a>,
) -> Result<(), AllocError>
    ensures { OnOk result (map spot places.new.items ≡ map spot places.old.items ++ spec.misspelled_file (placed at.entry)) }
{
    add_field(places, has_bad_file_pattern(at.table), at, "path")?;
    add_bad_file_path(alloc, places, at, "file")?;
    add_bad_file_path(alloc, places, at, "folder")?;
    add_field(places, has_bad_cache_control(at.table), at, "cache")
}

/// Adds the path of a file or a folder that is badly spelled.
fn add_bad_file_path<'a>(
    alloc: Global,
    places: &mut Vec<FaultPlace<'a>>,
    at: Placed<'a>,
    key: &'a str,
) -> Result<(), AllocError>
    ensures { OnOk result (map spot places.new.items ≡ map spot places.old.items ++ spec.misspelled_at spec.is_file_path (placed at.entry) key.now) }
{
    let is_bad = has_bad_file_path(alloc, at.table, key)?;
    add_field(places, is_bad, at, key)
}

fn add_misspelled_servlet<'a>(
    places: &mut Vec<FaultPlace<'a>>,
    at: Placed<'a>,
) -> Result<(), AllocError>
    ensures { OnOk result (map spot places.new.items ≡ map spot places.old.items ++ spec.misspelled_in TableKind.Servlet (placed at.entry)) }
{
    add_field(places, has_bad_name(at.table), at, "name")?;
    add_members(places, Unfit::NoPattern, at, "patterns")
}
