//! A descriptor that is looked at for its faults, and the places at which they stand.

ghost use Rattle.std.specs.Prelude.{◌≡◌, ◌≢◌, IfOk, IfErr, Some, None, map, option_map};
ghost use Rattle.toml.specs.Parse.{parse_document};
ghost use Rattle.toml.specs.View.{table_view};
ghost use Rattle.sv_config.specs.Fault as spec;
ghost use Rattle.sv_config.specs.Place.{spot};

use crate::fault::ConfigFault;
use crate::least::least_fault;
use crate::place::FaultPlace;
use std::alloc::{AllocError, Global};
use thiserror::Error;
use toml::Table;

/// A descriptor as a document of TOML 1.1, with its faults if it has any.
#[derive(Drop)]
pub struct Document {
    pub(crate) table: Table,
}

/// Why a text is not looked into.
#[derive(Debug, Drop, Error)]
pub enum NotRead {
    /// It is no document of TOML 1.1: where, and what is wrong there.
    #[error("{0}")]
    NotToml(toml::de::Error),
    /// Memory was refused.
    #[error("memory was refused while the descriptor was read")]
    Memory,
}

/// A fault of a descriptor, with each place where it stands.
#[derive(Debug, Drop)]
pub struct Faulty<'a> {
    pub fault: ConfigFault,
    pub places: Vec<FaultPlace<'a>>,
}

impl Document {
    /// Reads a document of TOML 1.1.
    pub fn from_toml(alloc: Global, text: &str) -> Result<Document, NotRead>
        ensures ok { IfOk result (λ document. parse_document text.now ≡ Some (table_view document.table)) }
        ensures refused { IfErr result (λ refused. refused ≢ NotRead.Memory → parse_document text.now ≡ None) }
    {
        match toml::table_from_str(alloc, text) {
            Ok(table) => Ok(Document { table }),
            Err(refused) if refused.is_memory() => Err(NotRead::Memory),
            Err(refused) => Err(NotRead::NotToml(refused)),
        }
    }

    /// The descriptor's least fault with each place where it stands, or `None` where it has no fault.
    pub fn faults(&self, alloc: Global) -> Result<Option<Faulty<'_>>, AllocError>
        ensures places { IfOk result (λ found. option_map (λ f. (f.fault, map spot f.places.items)) found ≡ spec.faults_of (table_view self.now.table)) }
        ensures fault { IfOk result (λ found. option_map (λ f. f.fault) found ≡ spec.fault_of (table_view self.now.table)) }
    {
        least_fault(alloc, &self.table)
    }
}
