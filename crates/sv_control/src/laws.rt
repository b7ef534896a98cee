//! Laws of what an operator has in hand. Each function does nothing; its contract is the law.

ghost use Rattle.std.specs.Prelude.{◌≡◌, ◌<◌, ◌^◌};
ghost use Rattle.sv_core.specs.Census.{census_of, total};
ghost use Rattle.sv_core.specs.Snapshot.{snapshot_of};
ghost use Rattle.sv_control.specs.Left.{active_in, active_of};
ghost use Rattle.sv_control.specs.Naming.{Names, key_text};
ghost use Rattle.sv_control.specs.Room.{known_in};
ghost use Rattle.sv_model.specs.Keys.{IsKey};
ghost use Rattle.sv_model.specs.declared.key.Key.{Key};
ghost use Rattle.sv_model.specs.NodeState.{Durable};

/// What is active by the snapshot of what a node keeps is what is active at that node.
pub fn snapshot_has_the_active()
    ensures { (d : Durable) → active_in (snapshot_of d) ≡ active_of d }
{}

/// What is known of keys counts each of them once: those that are active, sent, gone or ended are those of the snapshot.
pub fn census_has_each_key()
    ensures { (d : Durable) → total (census_of d) ≡ known_in (snapshot_of d) }
{}

/// A key's text names that key, and by what a text names, no other.
pub fn key_is_named_by_its_text()
    ensures { (k : Key) → IsKey k → k.serial < 2 ^ 64 → Names (key_text k) k }
{}
