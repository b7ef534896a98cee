//! Where a node stands in its cluster.

ghost use Rattle.std.specs.Prelude.{◌≡◌, ◌≢◌, Some, IfOk, IfErr, string_bytes};
ghost use Rattle.std.specs.Option.{option_map};
ghost use Rattle.sv_model.specs.Ranges.{IsSetting};
ghost use Rattle.sv_host.specs.Place.{setting_in, IsFault};
ghost use Rattle.sv_connection.specs.declared.reply.Naming.TheVariants.{InBody};
ghost use Rattle.sv_host.specs.declared.place.PlaceFault.TheVariants.{Memory};

use std::alloc::{AllocError, Global};
use sv_config::Cluster;
use sv_connection::Naming;
use sv_model::{NODE_LIMIT, Setting};
use sv_record::CONTEXTS_LEN;
use thiserror::Error;

/// A node's number among its peers, and what its cluster's descriptor says of all of them.
#[derive(Drop)]
pub struct Place {
    pub setting: Setting,
    /// The port of each node on the loopback address, by the node's number.
    pub ports: Vec<u16>,
    /// The path of the file that secrets are read from; none where they are counted.
    pub secrets: Option<String>,
    /// What stands for its contexts where it greets the other nodes; none where it doesn't.
    pub contexts: Option<[u8; CONTEXTS_LEN]>,
    /// Where its refusals name their cause.
    pub naming: Naming,
    ghost inside: { IsSetting setting },
}

/// Why a node has no place in a cluster.
#[derive(Clone, Copy, Debug, PartialEq, Eq, Error)]
pub enum PlaceFault {
    /// Fault 1.
    #[error("the cluster has no ports, or more than 8")]
    Ports,
    /// Fault 2.
    #[error("the cluster has no node of this number")]
    NoNode,
    /// Fault 3.
    #[error("memory was refused")]
    Memory,
}

impl From<AllocError> for PlaceFault {
    ghost from_gives = { λ _ fault. fault ≡ Memory };

    fn from(_: AllocError) -> Self {
        PlaceFault::Memory
    }
}

/// An equal text, where there is one.
fn copied(alloc: Global, text: Option<&String>) -> Result<Option<String>, AllocError>
    ensures { IfOk result (λ copy. option_map string_bytes copy ≡ option_map (λ t. string_bytes t.now) text.entry) }
{
    match text {
        Some(text) => Ok(Some(String::from_str(alloc, text.as_str())?)),
        None => Ok(None),
    }
}

impl Place {
    /// The place of the node of this number.
    pub fn new(alloc: Global, cluster: &Cluster, number: u8) -> Result<Place, PlaceFault>
        ensures place { IfOk result (λ p. (p.setting ≡ setting_in cluster.now number) × (p.ports.items ≡ cluster.now.ports.items)) }
        ensures secrets { IfOk result (λ p. option_map string_bytes p.secrets ≡ option_map string_bytes cluster.now.secrets) }
        ensures naming { IfOk result (λ p. p.naming ≡ InBody) }
        ensures fault { IfErr result (λ f. IsFault cluster.now number f) }
    {
        let nodes = cluster.ports.len();
        if nodes == 0 || nodes > NODE_LIMIT as usize {
            return Err(PlaceFault::Ports);
        }
        if usize::from(number) >= nodes {
            return Err(PlaceFault::NoNode);
        }
        Ok(Place {
            setting: Setting {
                node: number,
                nodes: nodes as u8,
                deadline: u64::from(cluster.deadline),
                keys: cluster.keys,
                forget: cluster.forget,
            },
            ports: cluster.ports.as_slice().to_vec(alloc)?,
            secrets: copied(alloc, cluster.secrets.as_ref())?,
            contexts: None,
            naming: Naming::InBody,
        })
    }

    /// The same of a node that greets the others, with what stands for its contexts: four bytes for each, in their order.
    pub fn greeting(self, contexts: [u8; CONTEXTS_LEN]) -> Place
        ensures setting { result.setting ≡ self.setting }
        ensures ports { result.ports ≡ self.ports }
        ensures secrets { result.secrets ≡ self.secrets }
        ensures contexts { result.contexts ≡ Some contexts }
        ensures naming { result.naming ≡ self.naming }
    {
        let mut place = self;
        place.contexts = Some(contexts);
        place
    }

    /// The same of a node whose refusals name their cause so.
    pub fn naming(self, naming: Naming) -> Place
        ensures setting { result.setting ≡ self.setting }
        ensures ports { result.ports ≡ self.ports }
        ensures secrets { result.secrets ≡ self.secrets }
        ensures contexts { result.contexts ≡ self.contexts }
        ensures naming { result.naming ≡ naming }
    {
        let mut place = self;
        place.naming = naming;
        place
    }
}
