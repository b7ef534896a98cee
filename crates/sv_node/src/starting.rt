//! A node that starts once more.

ghost use Rattle.std.specs.Prelude.{◌≡◌, ◌≢◌, ◌++◌, ◌∷◌, [], ℕ, List, false, IfErr, OnOk, OnErr, IsTrue, Some};
ghost use Rattle.sv_core.specs.Core.{engine_of, setting_of, node_at, durable_at};
ghost use Rattle.sv_journal.specs.Disk.{LeavesOnly, TellsOn, HasRisen};
ghost use Rattle.sv_journal.specs.Journal.{Holds};
ghost use Rattle.sv_model.specs.NodeState.{last_number};
ghost use Rattle.sv_model.specs.Ranges.{IsSetting};
ghost use Rattle.sv_model.specs.Replay.{boot_record};
ghost use Rattle.sv_record.specs.Record.{spelling};
ghost use Rattle.sv_node.specs.Node.{IsTooLong, HasAdded};
ghost use Rattle.sv_node.specs.Opened.{restarted};
ghost use Rattle.sv_node.specs.Stops.{Stores, RestoresEither};
ghost use Rattle.sv_node.specs.declared.fault.OpenFault.TheVariants.{Damaged, Device, Full};

use crate::fault::{OpenFault, open_fault};
use crate::ledger::keep;
use std::alloc::Global;
use sv_core::Core;
use sv_journal::{Disk, Journal};
use sv_model::Engine;

/// Makes a start durable. On each fault the core is as it was.
pub fn start<E: Engine, D: Disk>(
    alloc: Global,
    core: &mut Core<E>,
    journal: &mut Journal<D>,
) -> Result<(), OpenFault>
    requires valid { E.valid (engine_of core.old) }
    requires live { IsTrue journal.old.live }
    requires setting { IsSetting (setting_of core.old) }
    ensures valid { E.valid (engine_of core.new) }
    ensures meaning { E.meaning (engine_of core.new) ≡ E.meaning (engine_of core.old) }
    ensures heard { E.heard (engine_of core.new) ≡ E.heard (engine_of core.old) }
    ensures engine { OnErr result (engine_of core.new ≡ engine_of core.old) }
    ensures node { OnOk result (node_at core.new ≡ record (node_at core.old) { durable = restarted (setting_of core.old) (durable_at core.old) }) }
    ensures setting { setting_of core.new ≡ setting_of core.old }
    ensures left { OnOk result ((durable_at core.old).boot ≢ last_number) }
    ensures damaged { IfErr result (λ e. e ≡ Damaged → (durable_at core.old).boot ≡ last_number) }
    ensures full { IfErr result (λ e. e ≡ Full → IsTooLong journal.old (Some (boot_record (setting_of core.old) (durable_at core.old)))) }
    ensures unchanged { IfErr result (λ e. e ≢ Device → journal.new ≡ journal.old) }
    ensures device { IfErr result (λ e. e ≡ Device → HasRisen (D.failed journal.old.current) (D.failed journal.new.current)) }
    ensures stored { OnOk result (D.tells journal.old.current → Stores D.seen D.may_leave journal.old (setting_of core.old) (durable_at core.old)
        → Stores D.seen D.may_leave journal.new (setting_of core.old) (restarted (setting_of core.old) (durable_at core.old))) }
    ensures any_moment { D.tells journal.old.current → Stores D.seen D.may_leave journal.old (setting_of core.old) (durable_at core.old)
        → LeavesOnly D.moment D.left_since journal.old.current journal.new.current
        (RestoresEither (setting_of core.old) (D.seen journal.old.other) (durable_at core.old) (restarted (setting_of core.old) (durable_at core.old))) }
    ensures added { OnOk result (HasAdded journal.old journal.new (Some (boot_record (setting_of core.old) (durable_at core.old)))) }
    ensures holds { OnOk result ((entries : List (List ℕ)) → D.tells journal.old.current → Holds D.seen D.may_leave journal.old entries
        → Holds D.seen D.may_leave journal.new (entries ++ spelling (boot_record (setting_of core.old) (durable_at core.old)) ∷ [])) }
    ensures tells { TellsOn D.tells journal.old.current journal.new.current }
    ensures other { journal.new.other ≡ journal.old.other }
    ensures on_a { journal.new.on_a ≡ journal.old.on_a }
    ensures live { OnOk result (IsTrue journal.new.live) }
{
    let decision = match core.decide_start() {
        Ok(Some(decision)) => decision,
        Ok(None) => return Err(OpenFault::Damaged),
        Err(_) => return Err(OpenFault::Memory),
    };
    if let Err(fault) = keep(alloc, journal, decision.entry()) {
        return Err(open_fault(fault));
    }
    let _nothing = core.accept(decision);
    Ok(())
}
