//! The nodes that a descriptor names.

ghost use Rattle.std.specs.Prelude.{◌≡◌, IfOk, pos, map, option_map, string_bytes, unwrap_or, codes};
ghost use Rattle.toml.specs.Data.{no_members};
ghost use Rattle.toml.specs.View.{table_view};
ghost use Rattle.sv_config.specs.Document.{table_at};
ghost use Rattle.sv_config.specs.Values as spec;

use crate::columns::integers_at;
use crate::deployment::Cluster;
use crate::document::{boolean_at, integer_at, owned_text_at, table_at};
use crate::limits::{MAX_KEYS, is_outside};
use std::alloc::{AllocError, Global};
use toml::Table;

/// For how many seconds a request waits for its session where nothing else is said.
const DEFAULT_DEADLINE: u32 = 30;

/// How many keys a node knows, at most, where nothing else is said.
const DEFAULT_KEYS: u32 = 65_536;

/// The nodes that a document names.
pub(crate) fn read_cluster(alloc: Global, document: &Table) -> Result<Cluster, AllocError>
    ensures { IfOk result (λ cluster. spec.cluster_data cluster
        ≡ spec.cluster_of (unwrap_or (table_at (codes "cluster") (table_view document.now)) no_members)) }
{
    match table_at(document, "cluster") {
        Some(table) => cluster_of(alloc, table),
        None => Ok(default_cluster(alloc)),
    }
}

/// One node, which listens nowhere.
#[tactic(auto, unfolding(crate::specs::Values::cluster_of, crate::specs::Document::values_at))]
fn default_cluster(alloc: Global) -> Cluster
    ensures { spec.cluster_data result ≡ spec.cluster_of no_members }
{
    Cluster {
        ports: Vec::new(alloc),
        deadline: DEFAULT_DEADLINE,
        secrets: None,
        keys: DEFAULT_KEYS,
        forget: false,
    }
}

#[tactic(auto, unfolding(crate::specs::Values::cluster_of))]
fn cluster_of(alloc: Global, table: &Table) -> Result<Cluster, AllocError>
    ensures { IfOk result (λ cluster. spec.cluster_data cluster ≡ spec.cluster_of (table_view table.now)) }
{
    Ok(Cluster {
        ports: ports_of(alloc, table)?,
        deadline: deadline_of(table),
        secrets: owned_text_at(alloc, table, "secrets")?,
        keys: keys_of(table),
        forget: forget_of(table),
    })
}

fn ports_of(alloc: Global, table: &Table) -> Result<Vec<u16>, AllocError>
    ensures { IfOk result (λ ports. map pos ports.items ≡ spec.ports_of (table_view table.now)) }
{
    let integers = integers_at(alloc, table, "ports")?;
    let mut ports = Vec::new(alloc);
    for integer in &integers {
        if !is_outside(*integer, 1, 65535) {
            ports.push(*integer as u16)?;
        }
    }
    Ok(ports)
}

fn deadline_of(table: &Table) -> u32
    ensures { pos result ≡ spec.deadline_of (table_view table.now) }
{
    match integer_at(table, "deadline") {
        Some(integer) => if is_outside(integer, 1, 86400) {
            DEFAULT_DEADLINE
        } else {
            integer as u32
        },
        None => DEFAULT_DEADLINE,
    }
}

fn keys_of(table: &Table) -> u32
    ensures { pos result ≡ spec.keys_of (table_view table.now) }
{
    match integer_at(table, "keys") {
        Some(integer) => if is_outside(integer, 1, MAX_KEYS) {
            DEFAULT_KEYS
        } else {
            integer as u32
        },
        None => DEFAULT_KEYS,
    }
}

fn forget_of(table: &Table) -> bool
    ensures { result ≡ spec.forget_of (table_view table.now) }
{
    match boolean_at(table, "forget") {
        Some(forgets) => forgets,
        None => false,
    }
}
