//! Where the records of a journal stand in its file.

ghost use Rattle.std.specs.Prelude.{◌≡◌, ◌∷◌, [], ◌++◌, IfOk, OnOk};
ghost use Rattle.sv_control.specs.Places as spec;
ghost use Rattle.sv_control.specs.Places.{FIRST, places_from};
ghost use Rattle.sv_journal.specs.Format.{payloads};

use std::alloc::{AllocError, Global};
use std::fmt;

/// The bytes of a file before its first entry.
const HEADER: u64 = 16;

/// The bytes of an entry before its payload: a gate, and the payload's length.
const ENTRY_HEAD: u64 = 5;

/// Where a record stands, and how it is written.
#[derive(Clone, Copy, Debug, PartialEq, Eq)]
pub struct RecordPlace {
    /// The byte of the file at which its entry begins, counted from 0.
    pub offset: u64,
    /// The version of the format by which it is written: its first byte.
    pub version: u8,
}

impl fmt::Display for RecordPlace {
    ghost use Rattle.std.specs.Prelude.{Some};
    ghost use Rattle.sv_control.specs.Places.{place_text};

    ghost output = { λ place. Some (place_text place) };

    fn fmt<W: fmt::Write>(&self, f: &mut fmt::Formatter<W>) -> fmt::Result {
        write!(f, "{} v{}", self.offset, self.version)
    }
}

/// The place of the entry that begins at this byte.
fn place_at(offset: u64, payload: &[u8]) -> RecordPlace
    ensures { result ≡ spec.place_at offset payload.now }
{
    let version = match payload {
        [version, ..] => *version,
        [] => 0,
    };
    RecordPlace { offset, version }
}

/// The byte after that entry.
fn behind(offset: u64, payload: &[u8]) -> u64
    ensures { result ≡ spec.behind offset payload.now }
{
    offset
        .saturating_add(ENTRY_HEAD)
        .saturating_add(payload.len() as u64)
}

/// A place more.
fn add(places: &mut Vec<RecordPlace>, place: RecordPlace) -> Result<(), AllocError>
    ensures { OnOk result (places.new.items ≡ places.old.items ++ place ∷ []) }
{
    Ok(places.push(place)?)
}

/// The places of the entries that have these payloads, the oldest first, in the file that has them.
pub fn places_of(alloc: Global, entries: &[Vec<u8>]) -> Result<Vec<RecordPlace>, AllocError>
    ensures { IfOk result (λ places. places.items ≡ places_from FIRST (payloads entries.now)) }
{
    let mut places = Vec::new(alloc);
    let mut offset = HEADER;
    for payload in entries {
        add(&mut places, place_at(offset, payload))?;
        offset = behind(offset, payload);
    }
    Ok(places)
}
