//! What holds of every call of a node.

ghost use Rattle.std.specs.Prelude.{◌≡◌, ◌≢◌, ◌⊎◌, ℕ, true, false, IsTrue, List, Result, Ok, Err};
ghost use Rattle.sv_journal.specs.Journal.{disk_a, disk_b};
ghost use Rattle.sv_journal.specs.declared.journal_fault.JournalFault.{JournalFault};
ghost use Rattle.sv_model.specs.declared.input.Input.{Input};
ghost use Rattle.sv_model.specs.declared.key.Moment.{Moment};
ghost use Rattle.sv_model.specs.declared.node.Setting.{Setting};
ghost use Rattle.sv_model.specs.declared.output.Output.{Output};
ghost use Rattle.sv_model.specs.declared.site.StepFault.{StepFault};
ghost use Rattle.sv_model.specs.declared.site.StepFault.TheVariants.{Device};
ghost use Rattle.sv_model.specs.Engine.{EngineMeaning};
ghost use Rattle.sv_model.specs.NodeState.{Durable, last_number};
ghost use Rattle.sv_node.specs.Call.{quiet, kept, StopsStart, Open, Step, Refused, Cut};
ghost use Rattle.sv_node.specs.Calls.{IsStepCall, IsCompactionCall, IsOpenCall};
ghost use Rattle.sv_node.specs.Compaction.{IsCompaction, RestoresBeside, written};
ghost use Rattle.sv_node.specs.Cuts.{GivesCall, GivesCallOn, IsRefusedOpening, LeaveEither, LeaveThis, LeftTogether};
ghost use Rattle.sv_node.specs.Group.{Answer, IsGroup};
ghost use Rattle.sv_node.specs.GroupCalls.{IsTurns, GivesGroup, GivesGroupOn, all_given, done_in};
ghost use Rattle.sv_node.specs.History.{HasGone, RiseIn, numbers_in};
ghost use Rattle.sv_node.specs.Node.{NodeSteps, IsStarted, durable_of, engine_of, journal_of, setting_of, state_of};
ghost use Rattle.sv_node.specs.Opened.{GivesStart, StartsWithoutLoss, restarted};
ghost use Rattle.sv_node.specs.Stops.{Restores, TellsBoth};
ghost use Rattle.sv_node.specs.declared.fault.OpenFault.{OpenFault};
ghost use Rattle.sv_node.specs.declared.fault.OpenFault.TheVariants.{Damaged};
ghost use Rattle.sv_node.specs.declared.node.Node.{Node};

use sv_journal::Disk;
use sv_model::Engine;

/// Each call of a node, by what its contract says of it, does what such a call does where no disk is looked at. What the disks
/// give after an opening that was cut is one of the two states that such an opening leaves (`found`).
pub fn calls<E: Engine, D: Disk>()
    ensures opened { (n : Node E D) (engine : E) (set : Setting) (d : Durable) → IsStarted E.meaning E.heard n engine set → d.boot ≢ last_number
        → durable_of n ≡ restarted set d
        → IsOpenCall set d n }
    ensures found { (set : Setting) (d : Durable) (a b : List ℕ) → GivesStart set d a b → (e : Durable) × Restores set a b e
        × StopsStart set d (quiet (kept e)) }
    ensures stepped { (old new : Node E D) (at : Moment) (input : Input) (answer : Result (List Output) StepFault)
        → NodeSteps E.meaning E.heard D.tells D.seen D.may_leave D.moment D.left_since D.failed old at input answer new
        → IsStepCall E.meaning E.heard old at input answer new }
    ensures compacted { (old new : Node E D) (answer : Result (Unit {0}) JournalFault)
        → IsCompaction E.meaning E.heard D.tells D.seen D.may_leave D.moment D.left_since D.failed old answer new
        → IsCompactionCall E.meaning E.heard old answer new }
{}

/// The calls that a stop has cut, or that were refused with what may have been written: by what the contracts say of the disks,
/// whatever a stop leaves of these gives a state that such a call leaves where no disk is looked at. Disks that a call has
/// failed under give one of two states: an opening of those that is refused is one of the one or of the other.
pub fn cuts<E: Engine, D: Disk>()
    ensures step { (old new : Node E D) (at : Moment) (input : Input) (answer : Result (List Output) StepFault)
        → NodeSteps E.meaning E.heard D.tells D.seen D.may_leave D.moment D.left_since D.failed old at input answer new
        → IsTrue (journal_of old).live → TellsBoth D.tells (journal_of old) → (image : List ℕ)
        → D.left_since (journal_of new).current (D.moment (journal_of old).current) image
        → GivesCallOn (E.meaning (engine_of old)) (setting_of old) true (state_of old) (Step at input Cut) image (D.seen (journal_of old).other) }
    ensures device { (old new : Node E D) (at : Moment) (input : Input)
        → NodeSteps E.meaning E.heard D.tells D.seen D.may_leave D.moment D.left_since D.failed old at input (Err Device) new
        → IsTrue (journal_of old).live → TellsBoth D.tells (journal_of old) → (a b : List ℕ) → D.may_leave (disk_a (journal_of new)) a
        → D.may_leave (disk_b (journal_of new)) b
        → GivesCall (E.meaning (engine_of old)) (setting_of old) true (state_of old) (Step at input (Refused Device)) a b }
    ensures compaction { (old new : Node E D) (answer : Result (Unit {0}) JournalFault)
        → IsCompaction E.meaning E.heard D.tells D.seen D.may_leave D.moment D.left_since D.failed old answer new
        → IsTrue (journal_of old).live → TellsBoth D.tells (journal_of old) → (image : List ℕ)
        → D.left_since (written (journal_of old) (journal_of new)) (D.moment (journal_of old).other) image
        → RestoresBeside (setting_of old) (D.seen (journal_of old).current) (durable_of old) image }
    ensures opening { (m : EngineMeaning) (fault : OpenFault) (set : Setting) (d : Durable) (a b new_a new_b : D) → LeaveThis D.may_leave set d a b
        → IsRefusedOpening D.may_leave fault set d a b new_a new_b → (x y : List ℕ) → D.may_leave new_a x → D.may_leave new_b y
        → GivesCall m set false (kept d) (Open (Refused fault)) x y }
    ensures opening_cut { (m : EngineMeaning) (set : Setting) (d : Durable) (a b new_a new_b : D) → LeaveThis D.may_leave set d a b
        → StartsWithoutLoss D.seen D.may_leave D.moment D.left_since set d a b new_a new_b → (x y : List ℕ)
        → LeftTogether D.may_leave D.moment D.left_since a b new_a new_b x y
        → GivesCall m set false (kept d) (Open Cut) x y }
    ensures opening_again { (m : EngineMeaning) (fault : OpenFault) (set : Setting) (before after d : Durable) (a b new_a new_b : D)
        → LeaveEither D.may_leave set before after a b → (d ≡ before) ⊎ (d ≡ after)
        → (fault ≡ Damaged → before.boot ≡ after.boot) → IsRefusedOpening D.may_leave fault set d a b new_a new_b → (x y : List ℕ) → D.may_leave new_a x
        → D.may_leave new_b y
        → GivesCall m set false (kept before) (Open (Refused fault)) x y ⊎ GivesCall m set false (kept after) (Open (Refused fault)) x y }
{}

/// A group of steps that is done is their calls, one after the other. Where a disk has failed under it, whatever a stop leaves
/// of the disks gives what a stop before it leaves, or what the steps leave that are durable together and of which nothing has
/// left the node; a stop at any moment inside it gives the same. By all of it the history of the node goes on.
pub fn groups<E: Engine, D: Disk>()
    ensures done { (old new : Node E D) (inputs : List (Moment × Input)) (answers : List Answer)
        → IsGroup E.meaning E.heard D.tells D.seen D.may_leave D.moment D.left_since D.failed old inputs (Ok answers) new → IsTrue (journal_of old).live
        → IsTurns E.meaning E.heard old inputs answers new }
    ensures device { (old new : Node E D) (inputs : List (Moment × Input))
        → IsGroup E.meaning E.heard D.tells D.seen D.may_leave D.moment D.left_since D.failed old inputs (Err Device) new
        → IsTrue (journal_of old).live → TellsBoth D.tells (journal_of old)
        → (answers : List Answer) × ((a b : List ℕ) → D.may_leave (disk_a (journal_of new)) a → D.may_leave (disk_b (journal_of new)) b
        → GivesGroup (E.meaning (engine_of old)) (setting_of old) (state_of old) (done_in inputs answers) a b) }
    ensures cut { (old new : Node E D) (inputs : List (Moment × Input)) (answers : List Answer)
        → IsGroup E.meaning E.heard D.tells D.seen D.may_leave D.moment D.left_since D.failed old inputs (Ok answers) new
        → IsTrue (journal_of old).live → TellsBoth D.tells (journal_of old) → (image : List ℕ)
        → D.left_since (journal_of new).current (D.moment (journal_of old).current) image
        → GivesGroupOn (E.meaning (engine_of old)) (setting_of old) (state_of old) (done_in inputs answers) image (D.seen (journal_of old).other) }
    ensures cut_device { (old new : Node E D) (inputs : List (Moment × Input))
        → IsGroup E.meaning E.heard D.tells D.seen D.may_leave D.moment D.left_since D.failed old inputs (Err Device) new
        → IsTrue (journal_of old).live → TellsBoth D.tells (journal_of old)
        → (answers : List Answer) × ((image : List ℕ) → D.left_since (journal_of new).current (D.moment (journal_of old).current) image
        → GivesGroupOn (E.meaning (engine_of old)) (setting_of old) (state_of old) (done_in inputs answers) image (D.seen (journal_of old).other)) }
    ensures gone { (old new : Node E D) (inputs : List (Moment × Input)) (answer : Result (List Answer) StepFault) (low : ℕ)
        → IsGroup E.meaning E.heard D.tells D.seen D.may_leave D.moment D.left_since D.failed old inputs answer new
        → IsTrue (journal_of old).live → RiseIn low (all_given inputs)
        → HasGone E.meaning E.heard D.tells D.may_leave low (numbers_in low (all_given inputs)) old new answer }
{}
