//! A deployment out of a descriptor.

ghost use Rattle.std.specs.Prelude.{◌≡◌, ◌≢◌, IfOk, IfErr, Some, None};
ghost use Rattle.toml.specs.Parse.{parse_document};
ghost use Rattle.toml.specs.Data.{Members};
ghost use Rattle.toml.specs.View.{table_view};
ghost use Rattle.sv_config.specs.Fault.{fault_of, IsFaultOf};
ghost use Rattle.sv_config.specs.Values.{deployment_data, deployment_of};

use crate::cluster::read_cluster;
use crate::context::read_contexts;
use crate::deployment::Deployment;
use crate::fault::ConfigFault;
use crate::least::least_fault;
use std::alloc::{AllocError, Global};
use toml::Table;

impl Deployment {
    /// Reads a descriptor, a document of TOML 1.1, and fills in what it leaves out.
    ///
    /// Of the faults 1 to 7 that the descriptor has, the least is answered.
    pub fn from_toml(alloc: Global, text: &str) -> Result<Deployment, ConfigFault>
        ensures ok { IfOk result (λ deployment. (t : Members) × (parse_document text.now ≡ Some t) × (fault_of t ≡ None)
            × (deployment_data deployment ≡ deployment_of t)) }
        ensures fault { IfErr result (λ fault. fault ≢ ConfigFault.Memory → IsFaultOf text.now fault) }
    {
        let document = match toml::table_from_str(alloc, text) {
            Ok(document) => document,
            Err(refused) if refused.is_memory() => return Err(ConfigFault::Memory),
            Err(_) => return Err(ConfigFault::NotToml),
        };
        match least_fault(alloc, &document)? {
            Some(faulty) => Err(faulty.fault),
            None => Ok(read_deployment(alloc, &document)?),
        }
    }
}

/// What a document says.
#[tactic(auto, unfolding(crate::specs::Values::deployment_of, crate::specs::Values::deployment_data))]
fn read_deployment(alloc: Global, document: &Table) -> Result<Deployment, AllocError>
    ensures { IfOk result (λ deployment. deployment_data deployment ≡ deployment_of (table_view document.now)) }
{
    Ok(Deployment {
        cluster: read_cluster(alloc, document)?,
        contexts: read_contexts(alloc, document)?,
    })
}
