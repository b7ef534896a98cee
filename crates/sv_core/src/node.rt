//! A node among others: an engine, and what the node keeps.

ghost use Rattle.std.specs.Prelude.{◌≡◌, ◌==◌, is_none, IfOk, IfSome, OnOk, OnErr, IfErr, option_copied};
ghost use Rattle.std.specs.List.{AllByRecursion};
ghost use Rattle.sv_model.specs.Engine.{heard_all};
ghost use Rattle.sv_model.specs.NodeState.{last_number, known};
ghost use Rattle.sv_model.specs.Replay.{blank, applied};
ghost use Rattle.sv_model.specs.Fitting.{Fits, AllFit, stage_behind, stage_behind_if};
ghost use Rattle.sv_model.specs.Journaled.{IsJournaled};
ghost use Rattle.sv_model.specs.Ranges.{IsSetting, IsInput, IsRecord, IsRanged, IsRangedStep};
ghost use Rattle.sv_model.specs.Node.{decided};
ghost use Rattle.sv_model.specs.declared.node.Stage.TheVariants.{Blank};
ghost use Rattle.sv_core.specs.declared.fault.ApplyFault.TheVariants.{BadRecord};
ghost use Rattle.sv_model.specs.Decision.{left};
ghost use Rattle.sv_model.specs.Step.{told};
ghost use Rattle.sv_core.specs.Decision.{outputs_in, entry_in, told_held, outputs_held};
ghost use Rattle.sv_core.specs.Snapshot.{snapshot_of};
ghost use Rattle.sv_core.specs.Waiting.{awaited};
ghost use Rattle.sv_core.specs.Census.{census_of};

use crate::census::Census;
use crate::decision::{Decision, Held};
use crate::fault::{ApplyFault, Memory};
use crate::kept::Kept;
use crate::row;
use crate::table::Table;
use std::alloc::Global;
use sv_model::{
    Engine, Input, Key, KeyState, Moment, Output, Parked, Record, Request, Setting, Stage,
};

/// One node of a cluster: what its records give, the requests that wait at it, and its engine.
#[derive(Drop)]
pub struct Core<E> {
    engine: E,
    kept: Kept,
}

/// An engine whose node was not recovered, and why.
#[derive(Drop)]
pub struct Unrecovered<E> {
    pub engine: E,
    pub fault: ApplyFault,
}

impl<E> Core<E> {
    ghost use Rattle.sv_core.specs.Core.{IsNew, IsRecovered, node_at, durable_at, setting_of, stage_of, engine_of};

    /// A node that has no records yet.
    pub fn new(alloc: Global, engine: E, setting: Setting) -> Self
        ensures { IsNew result engine setting }
    {
        let kept = Kept {
            setting,
            keys: Table::new(alloc, setting.node),
            boot: 0,
            next: 1,
            home: None,
            over: KeyState::Ended { epoch: u64::MAX },
            stage: Stage::Blank,
            parked: Vec::new(alloc),
            next_want: 1,
            waited: Vec::new(alloc),
            settled: Vec::new(alloc),
            alloc,
        };
        Core { engine, kept }
    }

    /// A node that has these records. Where one of them doesn't fit after those before it, or memory is refused, the engine
    /// comes back.
    pub fn recover(
        alloc: Global,
        engine: E,
        setting: Setting,
        records: &[Record],
    ) -> Result<Self, Unrecovered<E>>
        ensures ok { IfOk result (λ c. IsRecovered c engine setting records.now) }
        ensures err { IfErr result (λ u. u.engine ≡ engine) }
        ensures bad { IfErr result (λ u. u.fault ≡ BadRecord → ¬ (AllFit setting Blank blank records.now)) }
        ensures ranged { AllByRecursion IsRecord records.now → IfOk result (λ c. IsRanged (node_at c)) }
    {
        let mut core = Core::new(alloc, engine, setting);
        match core.kept.replay(records) {
            Ok(()) => {
                // what the records give are numbers
                let _numbers = core.kept.numbers();
                Ok(core)
            }
            Err(fault) => Err(Unrecovered {
                engine: core.engine,
                fault,
            }),
        }
    }

    /// Adds a record, where it may stand after those before it. The requests that wait stay as they are.
    pub fn apply(&mut self, entry: Record) -> Result<(), ApplyFault>
        ensures fits { OnOk result (Fits (setting_of self.old) (stage_of self.old) (durable_at self.old) entry) }
        ensures durable { OnOk result (durable_at self.new ≡ applied entry (durable_at self.old)) }
        ensures stage { OnOk result (stage_of self.new ≡ stage_behind entry (stage_of self.old)) }
        ensures bad { IfErr result (λ e. e ≡ BadRecord → ¬ (Fits (setting_of self.old) (stage_of self.old) (durable_at self.old) entry)) }
        ensures err { OnErr result (node_at self.new ≡ node_at self.old) }
        ensures err_stage { OnErr result (stage_of self.new ≡ stage_of self.old) }
        ensures waiting { (node_at self.new).parked ≡ (node_at self.old).parked }
        ensures wants { (node_at self.new).next_want ≡ (node_at self.old).next_want }
        ensures setting { setting_of self.new ≡ setting_of self.old }
        ensures engine { engine_of self.new ≡ engine_of self.old }
    {
        self.kept.apply(entry)
    }

    /// All that the node keeps durably, as records that give it again: the counters, then what is known of each key, in
    /// order of the keys.
    pub fn snapshot(&self) -> Result<Vec<Record>, Memory>
        ensures { IfOk result (λ records. records.items ≡ snapshot_of (durable_at self.now)) }
    {
        Ok(self.kept.snapshot()?)
    }

    /// The number of its last start; 0 before the first.
    pub fn boot(&self) -> u64
        ensures { result ≡ (durable_at self.now).boot }
    {
        self.kept.boot
    }

    /// What it knows of a key; none where it has never heard of it. One that it has forgotten has ended, at the last epoch.
    pub fn state(&self, key: Key) -> Option<&KeyState>
        ensures { option_copied result ≡ known (durable_at self.now) key }
    {
        self.kept.known(key)
    }

    /// How many keys it knows, by what it knows of them: a walk over all of them.
    pub fn census(&self) -> Census
        ensures { result ≡ census_of (durable_at self.now) }
    {
        self.kept.census()
    }

    /// The requests that wait for their sessions, as they came.
    pub fn parked(&self) -> &[Parked]
        ensures { result.now ≡ (node_at self.now).parked }
    {
        self.kept.parked.as_slice()
    }

    /// Which node it is.
    pub fn setting(&self) -> Setting
        ensures { result ≡ setting_of self.now }
    {
        self.kept.setting
    }

    /// The engine.
    pub fn into_engine(self) -> E
        ensures { result ≡ engine_of self }
    {
        self.engine
    }
}

impl<E: Engine> Core<E> {
    ghost use Rattle.sv_core.specs.Core.{view_of, node_at, durable_at, setting_of, stage_of, engine_of, decision_at, starts, IsRow, WasDecided};

    /// The session for which a request would wait if it came now; none where it would be served at once. Whether there is room
    /// for it to wait is another question.
    pub fn awaited(&self, request: &Request) -> Option<Key>
        ensures { result ≡ awaited (setting_of self.now) (durable_at self.now) ((E.meaning (engine_of self.now)).names request.now) }
    {
        let (key, _) = self.engine.names(request)?;
        if self.kept.is_settled(key) || self.kept.is_dead(key) {
            None
        } else {
            Some(key)
        }
    }

    /// What the node does at an input, before anything of it is done.
    ///
    /// The record of the decision may stand after those of the node, and is one that may be written where what the node
    /// keeps and is given may be. After want of memory the node is as it was.
    pub fn decide(&mut self, moment: Moment, input: Input) -> Result<Decision, Memory>
        requires { E.valid (engine_of self.old) }
        ensures valid { E.valid (engine_of self.new) }
        ensures view { view_of E.meaning E.heard self.new ≡ view_of E.meaning E.heard self.old }
        ensures setting { setting_of self.new ≡ setting_of self.old }
        ensures stage { stage_of self.new ≡ stage_of self.old }
        ensures decision { IfOk result (λ d. decision_at self.new d
            ≡ decided (E.meaning (engine_of self.old)) (setting_of self.old) (node_at self.old) moment input) }
        ensures decided { IfOk result (λ d. WasDecided E.meaning self.new d) }
        ensures journaled { IfOk result (λ d. IsJournaled (setting_of self.old) (node_at self.old) (decision_at self.new d)) }
        ensures ranged { IsSetting (setting_of self.old) → IsRanged (node_at self.old) → IsInput input
            → IfOk result (λ d. IsRangedStep (decision_at self.new d)) }
    {
        self.kept.reserve()?;
        // the numbers after the decision are numbers, since those before it are
        let _numbers = self.kept.numbers();
        row::decide(&mut self.engine, &self.kept, moment, input)
    }

    /// What the node does when it starts, before anything of it is done: its boot number rises, and from then on it forgets where
    /// its setting says so. There is none where that is the last number.
    pub fn decide_start(&mut self) -> Result<Option<Decision>, Memory>
        ensures engine { engine_of self.new ≡ engine_of self.old }
        ensures node { node_at self.new ≡ node_at self.old }
        ensures setting { setting_of self.new ≡ setting_of self.old }
        ensures stage { stage_of self.new ≡ stage_of self.old }
        ensures none { IfOk result (λ o. is_none o ≡ ((durable_at self.old).boot == last_number)) }
        ensures decision { IfOk result (λ o. IfSome o (λ d. decision_at self.new d ≡ starts (setting_of self.old) (node_at self.old))) }
        ensures decided { IfOk result (λ o. IfSome o (λ d. WasDecided E.meaning self.new d)) }
        ensures journaled { IfOk result (λ o. IfSome o (λ d. IsJournaled (setting_of self.old) (node_at self.old) (decision_at self.new d))) }
        ensures ranged { IsSetting (setting_of self.old) → IsRanged (node_at self.old)
            → IfOk result (λ o. IfSome o (λ d. IsRangedStep (decision_at self.new d))) }
    {
        self.kept.reserve()?;
        // the numbers after the decision are numbers, since those before it are
        let _numbers = self.kept.numbers();
        Ok(self.kept.start())
    }

    /// Does what was decided, once its record is durable. It takes no memory.
    pub fn accept(&mut self, decision: Decision) -> Vec<Output>
        requires valid { E.valid (engine_of self.old) }
        requires decided { WasDecided E.meaning self.old decision }
        ensures valid { E.valid (engine_of self.new) }
        ensures meaning { E.meaning (engine_of self.new) ≡ E.meaning (engine_of self.old) }
        ensures node { node_at self.new ≡ left (decision_at self.old decision) }
        ensures heard { E.heard (engine_of self.new) ≡ heard_all (E.meaning (engine_of self.old)) (E.heard (engine_of self.old))
            (told (decision_at self.old decision)) }
        ensures outputs { result.items ≡ outputs_in decision }
        ensures stage { stage_of self.new ≡ stage_behind_if (entry_in decision) (stage_of self.old) }
        ensures setting { setting_of self.new ≡ setting_of self.old }
    {
        let held = self.take(decision);
        self.tell(held)
    }

    /// Keeps what was decided, before its record is durable: further decisions are made after it. Nobody is told, and
    /// nothing is put out. It takes no memory.
    pub fn take(&mut self, decision: Decision) -> Held
        requires { WasDecided E.meaning self.old decision }
        ensures engine { engine_of self.new ≡ engine_of self.old }
        ensures node { node_at self.new ≡ left (decision_at self.old decision) }
        ensures told { told_held result ≡ told (decision_at self.old decision) }
        ensures outputs { outputs_held result ≡ outputs_in decision }
        ensures stage { stage_of self.new ≡ stage_behind_if (entry_in decision) (stage_of self.old) }
        ensures setting { setting_of self.new ≡ setting_of self.old }
    {
        let (entry, waiting, held) = decision.into_parts();
        self.kept.follow(entry, waiting);
        held
    }

    /// Does what is held of a decision that was taken, once its record is durable. It takes no memory.
    pub fn tell(&mut self, held: Held) -> Vec<Output>
        requires { E.valid (engine_of self.old) }
        ensures valid { E.valid (engine_of self.new) }
        ensures meaning { E.meaning (engine_of self.new) ≡ E.meaning (engine_of self.old) }
        ensures heard { E.heard (engine_of self.new) ≡ heard_all (E.meaning (engine_of self.old)) (E.heard (engine_of self.old)) (told_held held) }
        ensures outputs { result.items ≡ outputs_held held }
        ensures node { node_at self.new ≡ node_at self.old }
        ensures stage { stage_of self.new ≡ stage_of self.old }
        ensures setting { setting_of self.new ≡ setting_of self.old }
    {
        let (told, outputs) = held.into_parts();
        self.engine.tell(told.as_slice());
        outputs.into_vec()
    }
}
