//! Room for the keys that a node knows.

ghost use Rattle.std.specs.Prelude.{◌≡◌};
ghost use Rattle.sv_model.specs.NodeState.{is_full, has_space, lacks_room, is_crowded};

use crate::kept::Kept;
use sv_model::Key;

impl Kept {
    ghost use Rattle.sv_core.specs.Kept.{node_of};

    /// There is no room for a further key.
    pub fn is_full(&self) -> bool
        ensures { result ≡ is_full self.now.setting (node_of self.now).durable }
    {
        self.keys.len() >= self.setting.limit()
    }

    /// A record may make a further key known.
    pub fn has_space(&self) -> bool
        ensures { result ≡ has_space self.now.setting (node_of self.now).durable }
    {
        self.keys.len() < self.setting.bound()
    }

    /// There is no room for this key.
    pub fn lacks_room(&self, key: Key) -> bool
        ensures { result ≡ lacks_room self.now.setting (node_of self.now).durable key }
    {
        self.keys.get(key).is_none() && self.is_full()
    }

    /// A node that forgets asks for no session that it has no room for.
    pub fn is_crowded(&self, key: Key) -> bool
        ensures { result ≡ is_crowded self.now.setting (node_of self.now).durable key }
    {
        self.home.is_some() && self.lacks_room(key)
    }
}
