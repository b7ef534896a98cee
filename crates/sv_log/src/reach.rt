//! Whether other nodes can be reached.

use sv_model::NODE_LIMIT;

/// So many nodes may be in a cluster.
pub const NODES: usize = NODE_LIMIT as usize;

/// Whether another node can be reached.
#[derive(Clone, Copy, PartialEq, Eq, Default)]
pub enum Reach {
    /// No packet was sent to it.
    #[default]
    Unknown,
    /// The last one was lost on its way.
    Silent,
    /// The last one went out.
    Answers,
}

/// The same of each node, by its number.
pub type Peers = [Reach; NODES];
