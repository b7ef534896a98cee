//! A running node.

ghost use Rattle.std.specs.Prelude.{◌≡◌, ◌≢◌, ◌⊎◌, ◌+◌, ℕ, List, length, IfOk, IfErr};
ghost use Rattle.sv_journal.specs.Disk.{TellsOn, HasRisen};
ghost use Rattle.sv_journal.specs.Format.{Opens};
ghost use Rattle.sv_core.specs.Census.{census_of};
ghost use Rattle.sv_core.specs.Waiting.{awaited};
ghost use Rattle.sv_journal.specs.Journal.{disk_a, disk_b};
ghost use Rattle.sv_model.specs.NodeState.{Durable, last_number};
ghost use Rattle.sv_model.specs.Ranges.{IsSetting};
ghost use Rattle.sv_node.specs.Opened.{AddsStart, Contain, LeavesStart, LeavesUnstarted, StartsWithoutLoss, LacksRoom, restarted};
ghost use Rattle.sv_node.specs.Stops.{Restores};
ghost use Rattle.sv_node.specs.declared.fault.OpenFault.TheVariants.{Damaged, Device, Full};

use crate::compaction::replace;
use crate::fault::{OpenFault, apply_fault, open_fault, step_fault};
use crate::ledger::{keep, read};
use crate::not_opened::NotOpened;
use crate::session_counts::SessionCounts;
use crate::starting::start;
use std::alloc::Global;
use sv_core::{Census, Core};
use sv_journal::{Disk, Journal, JournalFault};
use sv_model::{Engine, Input, Key, Moment, Output, Parked, Request, Setting, Site, StepFault};

/// A node that runs: a core, and the journal in which its records stand.
#[derive(Drop)]
pub struct Node<E, D: Disk> {
    pub(crate) core: Core<E>,
    pub(crate) journal: Journal<D>,
    pub(crate) restored: usize,
    pub(crate) counts: SessionCounts,
    pub(crate) alloc: Global,
}

impl<E: Engine, D: Disk> Node<E, D> {
    ghost use Rattle.sv_node.specs.Node.{IsNode, IsStarted, durable_of, journal_of, restored_of};

    /// Opens the disks A and B, replays their records, and makes the start durable: the boot number is one more than the
    /// last. The setting is that of a node of a cluster of 8 nodes at most. On each fault the engine and the disks are
    /// handed back.
    ///
    /// Damaged: the disks hold no journal, an entry is no record, a record doesn't fit after those before it, or the
    /// last boot number has been spent.
    pub fn open(
        alloc: Global,
        engine: E,
        a: D,
        b: D,
        setting: Setting,
    ) -> Result<Node<E, D>, NotOpened<E, D>>
        requires valid { E.valid engine }
        requires setting { IsSetting setting }
        ensures started { IfOk result (λ n. IsStarted E.meaning E.heard n engine setting) }
        ensures node { IfOk result (λ n. IsNode E.valid D.tells D.seen D.may_leave n) }
        // It keeps what the images give, after one more start.
        ensures restarted { IfOk result (λ n. D.tells a → D.tells b → (d : Durable) × Restores setting (D.seen a) (D.seen b) d × (d.boot ≢ last_number)
            × (durable_of n ≡ restarted setting d)) }
        // The journal that was opened has got the record of that start, and nothing else.
        ensures added { IfOk result (λ n. D.tells a → D.tells b → (d : Durable) → (r : Restores setting (D.seen a) (D.seen b) d)
            → AddsStart D.seen D.may_leave D.moment D.left_since setting d r.entries a b (journal_of n)) }
        ensures restored { IfOk result (λ n. D.tells a → D.tells b → (entries : List (List ℕ)) → Opens (D.seen a) (D.seen b) entries
            → restored_of n ≡ length entries) }
        // Disks that hold no journal read as before.
        ensures unchanged { IfErr result (λ r. r.fault ≡ Damaged → D.tells a → D.tells b → ((entries : List (List ℕ)) → Opens (D.seen a) (D.seen b) entries → ⊥)
            → (D.seen r.a ≡ D.seen a) × (D.seen r.b ≡ D.seen b)) }
        // A journal that they hold has the entries that it had, whether they are records or not, unless a disk has failed.
        ensures entries { IfErr result (λ r. r.fault ≢ Device → D.tells a → D.tells b → (entries : List (List ℕ)) → Opens (D.seen a) (D.seen b) entries
            → Contain D.seen D.may_leave entries r.a r.b) }
        // No records of a node are there, or its starts are spent.
        ensures damaged { IfErr result (λ r. r.fault ≡ Damaged → D.tells a → D.tells b → (d : Durable) → Restores setting (D.seen a) (D.seen b) d
            → d.boot ≡ last_number) }
        // What is lost at a fault is at most the start itself.
        ensures left_err { IfErr result (λ r. D.tells a → D.tells b → (d : Durable) → Restores setting (D.seen a) (D.seen b) d
            → LeavesStart D.may_leave setting a b d r.a r.b) }
        // And only where a disk has failed.
        ensures unstarted { IfErr result (λ r. r.fault ≢ Device → D.tells a → D.tells b → (d : Durable) → Restores setting (D.seen a) (D.seen b) d
            → LeavesUnstarted D.may_leave setting a b d r.a r.b) }
        // A stop at any moment of the call loses nothing.
        ensures any_moment { IfOk result (λ n. D.tells a → D.tells b → (d : Durable) → Restores setting (D.seen a) (D.seen b) d
            → StartsWithoutLoss D.seen D.may_leave D.moment D.left_since setting d a b (disk_a (journal_of n)) (disk_b (journal_of n))) }
        ensures any_moment_err { IfErr result (λ r. D.tells a → D.tells b → (d : Durable) → Restores setting (D.seen a) (D.seen b) d
            → StartsWithoutLoss D.seen D.may_leave D.moment D.left_since setting d a b r.a r.b) }
        ensures full { IfErr result (λ r. r.fault ≡ Full → D.tells a → D.tells b → (d : Durable) → Restores setting (D.seen a) (D.seen b) d
            → LacksRoom D.seen D.may_leave setting d r.a r.b) }
        ensures device { IfErr result (λ r. r.fault ≡ Device → HasRisen (D.failed a) (D.failed r.a) ⊎ HasRisen (D.failed b) (D.failed r.b)) }
        ensures tells { IfOk result (λ n. TellsOn D.tells a (disk_a (journal_of n)) × TellsOn D.tells b (disk_b (journal_of n))) }
        ensures engine { IfErr result (λ r. r.engine ≡ engine) }
        ensures tells_err { IfErr result (λ r. TellsOn D.tells a r.a × TellsOn D.tells b r.b) }
    {
        let mut journal = match Journal::open(alloc, a, b) {
            Ok(journal) => journal,
            Err(refused) => {
                return Err(NotOpened {
                    fault: open_fault(refused.fault),
                    engine,
                    a: refused.a,
                    b: refused.b,
                });
            }
        };
        let records = match read(alloc, &mut journal) {
            Ok(records) => records,
            Err(fault) => return Err(not_opened(fault, engine, journal)),
        };
        let restored = records.len();
        let mut core = match Core::recover(alloc, engine, setting, &records) {
            Ok(core) => core,
            Err(refused) => {
                return Err(not_opened(apply_fault(refused.fault), refused.engine, journal));
            }
        };
        if let Err(fault) = start(alloc, &mut core, &mut journal) {
            return Err(not_opened(fault, core.into_engine(), journal));
        }
        Ok(Node {
            core,
            journal,
            restored,
            counts: SessionCounts::default(),
            alloc,
        })
    }
}

impl<E: Engine, D: Disk> Node<E, D> {
    ghost use Rattle.sv_node.specs.Node.{IsNode, engine_of, setting_of, durable_of, restored_of};
    ghost use Rattle.sv_node.specs.Compaction.{IsCompaction};

    /// The session for which a request would wait if it came now; none where it would be served at once.
    pub fn awaited(&self, request: &Request) -> Option<Key>
        ensures { result ≡ awaited (setting_of self.now) (durable_of self.now) ((E.meaning (engine_of self.now)).names request.now) }
    {
        self.core.awaited(request)
    }

    /// Writes all that the node keeps durably to the disk that isn't current, which is current from then on. On each fault
    /// the node is as it was; after Device `step`, `step_all` and `compact` answer Failed from then on, and the calls that only
    /// look at the node (`awaited`, `parked`, `census`, `restored`, `journal_len`) go on answering.
    pub fn compact(&mut self) -> Result<(), JournalFault>
        requires valid { IsNode E.valid D.tells D.seen D.may_leave self.old }
        ensures valid { IsNode E.valid D.tells D.seen D.may_leave self.new }
        ensures compaction { IsCompaction E.meaning E.heard D.tells D.seen D.may_leave D.moment D.left_since D.failed self.old result self.new }
        ensures restored { restored_of self.new ≡ restored_of self.old }
    {
        if !self.journal.is_live() {
            return Err(JournalFault::Failed);
        }
        let Ok(records) = self.core.snapshot() else {
            return Err(JournalFault::Memory);
        };
        replace(self.alloc, &mut self.journal, &records)
    }
}

impl<E, D: Disk> Node<E, D> {
    ghost use Rattle.sv_node.specs.Node.{engine_of, journal_of, state_of, durable_of, restored_of, counts_of};

    /// The requests that wait for their sessions, as they came.
    pub fn parked(&self) -> &[Parked]
        ensures { result.now ≡ (state_of self.now).parked }
    {
        self.core.parked()
    }

    /// How many keys it knows, by what it knows of them: a walk over all of them.
    pub fn census(&self) -> Census
        ensures { result ≡ census_of (durable_of self.now) }
    {
        self.core.census()
    }

    /// The number of this start of it, of those that its journal has.
    pub fn boot(&self) -> u64
        ensures { result ≡ (durable_of self.now).boot }
    {
        self.core.boot()
    }

    /// How many records were replayed when it was opened: those that the disks held, without that of the start itself.
    pub fn restored(&self) -> usize
        ensures { result ≡ restored_of self.now }
    {
        self.restored
    }

    /// How many sessions were made, and how many have ended here, by `step_all` since it was opened.
    pub fn session_counts(&self) -> SessionCounts
        ensures { result ≡ counts_of self.now }
    {
        self.counts
    }

    /// How many bytes of the journal's file its entries take up, with the header before them and the gate that ends them, when a
    /// call last succeeded. The file may be longer.
    pub fn journal_len(&self) -> u64
        ensures { result ≡ (journal_of self.now).end + 1 }
    {
        self.journal.used()
    }

    /// Stops the node: the engine and the disks A and B.
    pub fn stop(self) -> (E, D, D)
        ensures { result ≡ (engine_of self, disk_a (journal_of self), disk_b (journal_of self)) }
    {
        let Node {
            core,
            journal,
            restored: _,
            counts: _,
            alloc: _,
        } = self;
        let (a, b) = journal.into_disks();
        (core.into_engine(), a, b)
    }
}

// What is handed back.
fn not_opened<E, D: Disk>(fault: OpenFault, engine: E, journal: Journal<D>) -> NotOpened<E, D>
    ensures { result ≡ record { fault = fault; engine = engine; a = disk_a journal; b = disk_b journal } }
{
    let (a, b) = journal.into_disks();
    NotOpened {
        fault,
        engine,
        a,
        b,
    }
}

impl<E: Engine, D: Disk> Site for Node<E, D> {
    ghost use Rattle.sv_node.specs.Node.{IsNode, NodeSteps};

    ghost steps = { NodeSteps E.meaning E.heard D.tells D.seen D.may_leave D.moment D.left_since D.failed };

    ghost site_valid = { IsNode E.valid D.tells D.seen D.may_leave };

    /// Decides, makes the decision's record durable, and only then does what was decided.
    fn step(&mut self, moment: Moment, input: Input) -> Result<Vec<Output>, StepFault> {
        if !self.journal.is_live() {
            return Err(StepFault::Failed);
        }
        let Ok(decision) = self.core.decide(moment, input) else {
            return Err(StepFault::Memory);
        };
        if let Err(fault) = keep(self.alloc, &mut self.journal, decision.entry()) {
            return Err(step_fault(fault));
        }
        Ok(self.core.accept(decision))
    }
}
