//! A node among others, and the requests that wait at it.

ghost use Rattle.std.specs.Prelude.{◌≡◌};
ghost use Rattle.sv_model.specs.NodeState.{setting_for, limit, bound};

use crate::key::Key;
use crate::request::Request;
use crate::state::{KEY_LIMIT, KEY_MOST};

/// Which node it is, of how many, how long requests wait, and how many keys it knows.
#[derive(Clone, Copy, Debug, PartialEq, Eq)]
pub struct Setting {
    /// The node's number, from 0.
    pub node: u8,
    /// How many nodes there are, 8 at most.
    pub nodes: u8,
    /// The seconds for which a request waits for its session.
    pub deadline: u64,
    /// The keys that it knows, at most; no more than [`KEY_MOST`].
    pub keys: u32,
    /// A key of its own that has ended here leaves its table.
    pub forget: bool,
}

impl Setting {
    /// A node that knows 65,536 keys at most, and forgets none.
    pub fn of(node: u8, nodes: u8, deadline: u64) -> Setting
        ensures { result ≡ setting_for node nodes deadline }
    {
        Setting {
            node,
            nodes,
            deadline,
            keys: KEY_LIMIT as u32,
            forget: false,
        }
    }

    /// With so many known keys no further one becomes known.
    pub fn limit(&self) -> usize
        ensures { result ≡ limit self.now }
    {
        (self.keys as usize).min(KEY_MOST)
    }

    /// Records may make no more keys known than these: as many as the limit is where it is raised, and no fewer than a node
    /// of the usual setting may have written.
    pub fn bound(&self) -> usize
        ensures { result ≡ bound self.now }
    {
        if self.keys as usize <= KEY_LIMIT {
            KEY_LIMIT
        } else {
            KEY_MOST
        }
    }
}

/// A request that waits for its session.
#[derive(Drop)]
pub struct Parked {
    /// The number under which it came.
    pub token: u64,
    pub request: Request,
    /// The key of the session that it waits for, which says when it may be served. Which session it is served with says
    /// the request itself, once more: the engine is asked again what it names.
    pub key: Key,
    /// When it came, in whole seconds.
    pub since: u64,
    /// Which of the node's wants since its last start it is.
    pub want: u64,
}

/// How far the records of a node have come.
#[derive(Clone, Copy, Debug, PartialEq, Eq)]
pub enum Stage {
    /// There is none yet.
    Blank,
    /// The head of a snapshot, and states alone.
    Snapshot,
    /// A record that is not of a snapshot has come.
    Past,
}
