//! The least fault of a document, with the places at which it stands.

ghost use Rattle.std.specs.Prelude.{◌≡◌, ◌++◌, IfOk, OnOk, map, option_map};
ghost use Rattle.toml.specs.View.{table_view};
ghost use Rattle.sv_config.specs.Fault as spec;
ghost use Rattle.sv_config.specs.Place.{spot, placed};

use crate::checked::Faulty;
use crate::fault::ConfigFault;
use crate::kinds::add_mistyped;
use crate::limits::add_exceeding;
use crate::missing::add_missing;
use crate::misspelled::add_misspelled;
use crate::place::FaultPlace;
use crate::placed::{Placed, placed_tables};
use crate::repeats::add_repeated;
use crate::unknown::add_unknown;
use std::alloc::{AllocError, Global};
use toml::Table;

/// The faults that tables have, the least first.
const FAULTS: [ConfigFault; 6] = [
    ConfigFault::MissingField,
    ConfigFault::WrongKind,
    ConfigFault::UnknownName,
    ConfigFault::BadPattern,
    ConfigFault::Duplicate,
    ConfigFault::LimitExceeded,
];

/// The least fault of a document, with its places.
#[tactic(auto, unfolding(crate::specs::Fault::fault_of))]
pub(crate) fn least_fault<'a>(
    alloc: Global,
    document: &'a Table,
) -> Result<Option<Faulty<'a>>, AllocError>
    ensures { IfOk result (λ found. option_map (λ f. (f.fault, map spot f.places.items)) found ≡ spec.faults_of (table_view document.now)) }
{
    let tables = placed_tables(alloc, document)?;
    first_fault(alloc, &FAULTS, &tables)
}

/// The first of the faults that the tables have, with its places.
fn first_fault<'a>(
    alloc: Global,
    faults: &[ConfigFault],
    tables: &[Placed<'a>],
) -> Result<Option<Faulty<'a>>, AllocError>
    ensures { IfOk result (λ found. option_map (λ f. (f.fault, map spot f.places.items)) found
        ≡ option_map (spec.with_places (map placed tables.now)) (spec.first_fault faults.now (map placed tables.now))) }
{
    for fault in faults {
        let places = places_among(alloc, tables, *fault)?;
        if !places.is_empty() {
            return Ok(Some(Faulty {
                fault: *fault,
                places,
            }));
        }
    }
    Ok(None)
}

/// The places in these tables at which the fault stands.
fn places_among<'a>(
    alloc: Global,
    tables: &[Placed<'a>],
    fault: ConfigFault,
) -> Result<Vec<FaultPlace<'a>>, AllocError>
    ensures { IfOk result (λ places. map spot places.items ≡ spec.places_among (map placed tables.now) fault) }
{
    let mut places = Vec::new(alloc);
    for table in tables {
        add_places(alloc, &mut places, *table, fault)?;
    }
    Ok(places)
}

/// Adds the places in a table.
fn add_places<'a>(
    alloc: Global,
    places: &mut Vec<FaultPlace<'a>>,
    at: Placed<'a>,
    fault: ConfigFault,
) -> Result<(), AllocError>
    ensures { OnOk result (map spot places.new.items ≡ map spot places.old.items ++ spec.places_in fault (placed at.entry)) }
{
    match fault {
        ConfigFault::NotToml | ConfigFault::Memory => Ok(()),
        ConfigFault::MissingField => add_missing(places, at),
        ConfigFault::WrongKind => add_mistyped(places, at),
        ConfigFault::UnknownName => add_unknown(alloc, places, at),
        ConfigFault::BadPattern => add_misspelled(alloc, places, at),
        ConfigFault::Duplicate => add_repeated(alloc, places, at),
        ConfigFault::LimitExceeded => add_exceeding(alloc, places, at),
    }
}
