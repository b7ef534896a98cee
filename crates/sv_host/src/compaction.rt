//! The journal, written anew once it has grown enough.

ghost use Rattle.std.specs.Prelude.{IsTrue, IfErr, OnOk, ℕ, ◌≡◌, ◌⊎◌, false};
ghost use Rattle.sv_node.specs.Call.{compaction_ends};
ghost use Rattle.sv_node.specs.History.{HasGone};
ghost use Rattle.sv_node.specs.Moments.{RunsWithoutLoss};
ghost use Rattle.sv_node.specs.Node.{IsNode, journal_of, state_of};
ghost use Rattle.sv_journal.specs.declared.journal_fault.JournalFault.TheVariants.{Device, Failed};
ghost use Rattle.sv_host.specs.Parked.{clients_of};
ghost use Rattle.sv_host.specs.Serving.{IsServing, HasServed};
ghost use Rattle.sv_host.specs.Stops.{HasFailed};
ghost use Rattle.sv_host.specs.Stories.{CarryOn};
ghost use Rattle.sv_host.specs.declared.fault.HostFault.TheVariants.{Device as HostDevice};
ghost use Rattle.sv_host.specs.declared.fault.Stop.TheVariants.{Fault};

use crate::fault::{HostFault, Stop};
use crate::group::Group;
use crate::server::Server;
use sv_journal::{Disk, JournalFault};
use sv_log::Event;
use sv_model::Engine;
use sv_node::Node;

/// The journal is written anew where it is longer than this, and twice as long as when it was last written anew.
const COMPACTING: u64 = 4_194_304;

/// What comes of a compaction that was refused: a node goes on, unless its disk has failed, and tries again after the next
/// connection.
fn not_compacted(fault: JournalFault) -> Result<(), Stop>
    ensures goes_on { OnOk result (compaction_ends fault ≡ false) }
    ensures stops { IfErr result (λ stop. ((fault ≡ Device) ⊎ (fault ≡ Failed)) × (stop ≡ Fault HostDevice)) }
{
    match fault {
        JournalFault::Full | JournalFault::Memory | JournalFault::Damaged => Ok(()),
        JournalFault::Device | JournalFault::Failed => Err(Stop::Fault(HostFault::Device)),
    }
}

/// Writes the journal anew, of which so many bytes are in use.
fn write_anew<E: Engine, D: Disk>(
    server: &mut Server,
    node: &mut Node<E, D>,
    len: u64,
) -> Result<(), Stop>
    requires valid { IsNode E.valid D.tells D.seen D.may_leave node.old }
    requires live { IsTrue (journal_of node.old).live }
    ensures valid { IsNode E.valid D.tells D.seen D.may_leave node.new }
    ensures stops { IfErr result (HasFailed node.new) }
    ensures gone { (low : ℕ) → HasGone E.meaning E.heard D.tells D.may_leave low low node.old node.new result }
    ensures runs { (low : ℕ) → RunsWithoutLoss E.meaning D.tells D.seen D.may_leave D.moment D.left_since low node.old node.new }
    ensures waiting { state_of node.new ≡ state_of node.old }
    ensures clients { server.new.parked ≡ server.old.parked }
    ensures carried { CarryOn server.old.connections server.new.connections }
{
    match node.compact() {
        Ok(()) => {
            server.was_compacted(len, node.journal_len());
            Ok(())
        }
        Err(fault) => {
            server
                .connections
                .report
                .note(Event::NotCompacted { bytes: len });
            not_compacted(fault)
        }
    }
}

/// Writes the journal anew in which a node has found records. What was read of them may be in the system's memory alone: after a
/// write of a page to the disk has failed the system tells one sync, and keeps the page as if it were written. In the other file
/// all of it is written and synced once more.
pub fn renew<E: Engine, D: Disk>(server: &mut Server, node: &mut Node<E, D>) -> Result<(), Stop>
    requires valid { IsNode E.valid D.tells D.seen D.may_leave node.old }
    requires live { IsTrue (journal_of node.old).live }
    ensures valid { IsNode E.valid D.tells D.seen D.may_leave node.new }
    ensures stops { IfErr result (HasFailed node.new) }
    ensures gone { (low : ℕ) → HasGone E.meaning E.heard D.tells D.may_leave low low node.old node.new result }
    ensures runs { (low : ℕ) → RunsWithoutLoss E.meaning D.tells D.seen D.may_leave D.moment D.left_since low node.old node.new }
    ensures waiting { state_of node.new ≡ state_of node.old }
    ensures clients { server.new.parked ≡ server.old.parked }
{
    if node.restored() == 0 {
        return Ok(());
    }
    let len = node.journal_len();
    write_anew(server, node, len)
}

/// Writes the journal anew, where it has grown enough.
fn compact<E: Engine, D: Disk>(server: &mut Server, node: &mut Node<E, D>) -> Result<(), Stop>
    requires valid { IsNode E.valid D.tells D.seen D.may_leave node.old }
    requires live { IsTrue (journal_of node.old).live }
    ensures valid { IsNode E.valid D.tells D.seen D.may_leave node.new }
    ensures stops { IfErr result (HasFailed node.new) }
    ensures gone { (low : ℕ) → HasGone E.meaning E.heard D.tells D.may_leave low low node.old node.new result }
    ensures runs { (low : ℕ) → RunsWithoutLoss E.meaning D.tells D.seen D.may_leave D.moment D.left_since low node.old node.new }
    ensures waiting { state_of node.new ≡ state_of node.old }
    ensures clients { server.new.parked ≡ server.old.parked }
    ensures carried { CarryOn server.old.connections server.new.connections }
{
    let len = node.journal_len();
    server.connections.report.measure(len);
    if len <= COMPACTING || len <= server.compacted.saturating_mul(2) {
        return Ok(());
    }
    write_anew(server, node, len)
}

/// The same of the journal, which no request has to do with.
pub fn compact_in_turn<E: Engine, D: Disk>(
    server: &mut Server,
    node: &mut Node<E, D>,
    group: &mut Group,
) -> Result<(), Stop>
    requires { IsServing E.Engine D.Disk (clients_of server.old.parked) node.old group.old }
    ensures stops { IfErr result (HasFailed node.new) }
    ensures served { HasServed E.Engine D.Disk node.old group.old (clients_of server.new.parked) node.new group.new result }
    ensures carried { CarryOn server.old.connections server.new.connections }
{
    compact(server, node)
}
