//! What holds of every list of events.
//!
//! Each start of a node has an application (`m`), rules and a number of nodes (`c`) of its own.

ghost use Rattle.std.specs.Prelude.{◌≡◌, ℕ, ◌<◌, ◌≤◌, Some, List, [], ◌∷◌};
ghost use Rattle.sv_model.specs.Container.{Meanings, always, AllTouchOnlyHanded, AreLawful, nothing_stored, after};
ghost use Rattle.sv_model.specs.Engine.{EngineMeaning, TouchesOnlyHanded};
ghost use Rattle.sv_model.specs.declared.key.Key.{Key};
ghost use Rattle.sv_model.specs.declared.key.Moment.{Moment};
ghost use Rattle.sv_model.specs.declared.node.Setting.{Setting};
ghost use Rattle.sv_model.specs.declared.request.Request.{Request};
ghost use Rattle.sv_model.specs.declared.response.Response.{Response};
ghost use Rattle.sv_model.specs.declared.session.Session.{Session};
ghost use Rattle.sv_model.specs.declared.state.TheConstants.{KEY_LIMIT};
ghost use Rattle.sv_model.specs.NodeState.{Durable};
ghost use Rattle.sv_world.specs.declared.event.WorldEvent.{WorldEvent};
ghost use Rattle.sv_world.specs.declared.event.WorldEvent.TheVariants.{Ask, Restart};
ghost use Rattle.sv_world.specs.declared.rules.Rules.{Rules};
ghost use Rattle.sv_world.specs.World.{Cluster, World, steady, run, nothing_happened, commits_in, AlwaysKnows};
ghost use Rattle.sv_world.specs.Headline.{AtMostOne, Agree, IsLiveAt, IsTold, IsReplay, IsHeadline};
ghost use Rattle.sv_world.specs.Journals.{IsWithin, AreWithin, HaveFitted};
ghost use Rattle.sv_world.specs.Rolling.{AreInTurn};
ghost use Rattle.sv_world.specs.Unequal.{names_one, unequal};
ghost use Rattle.sv_world.specs.Faults.{IsFaulty};
ghost use Rattle.sv_world.specs.Disks.{NodeCall, AreCalls, AreWorld, nothing_called};
ghost use Rattle.sv_world.specs.Processes.{AreOfProcesses, AreOfLives};
ghost use Rattle.sv_world.specs.Progress.{NobodyIsForgotten, TicksEndWaiting, EpochsRise, StaysAtHand, ArrivesByTick, ArrivesInARound, ServedInARound, IsDoneInTwo};
ghost use Rattle.sv_world.specs.Progress.{TicksAsk, WantsAreAnswered, PokesServe, IsServed, IsServedInTwo, IsServedAtLast, IsDeniedInTwo, TicksEndSessions, IsProgress};
ghost use Rattle.sv_world.specs.Starts.{AreTurnsBy, Process, meanings_of, cluster_of};
ghost use Rattle.sv_node.specs.History.{Turn, halted, behind_all, AreTurns};

/// One copy of each session lives at most, and opening values agree, whatever nodes were told of one another.
pub fn lives()
    ensures one { (m : Meanings) → AllTouchOnlyHanded m → (c : Cluster) (events : List WorldEvent) → AtMostOne (run m c nothing_happened events) }
    ensures agree { (m : Meanings) → AllTouchOnlyHanded m → (c : Cluster) (events : List WorldEvent) → Agree (run m c nothing_happened events) }
{}

/// The commits are a run of one container, whose sessions are those of the live copies, whatever nodes were told of one another.
pub fn order()
    ensures lawful { (m : Meanings) → AllTouchOnlyHanded m → (c : Cluster) (events : List WorldEvent)
        → AreLawful m nothing_stored (commits_in (run m c nothing_happened events)) }
    ensures has { (m : Meanings) → AllTouchOnlyHanded m → (c : Cluster) (events : List WorldEvent) (k : Key) (x : ℕ) (s : Session)
        → IsLiveAt (run m c nothing_happened events) k x s → (after m nothing_stored (commits_in (run m c nothing_happened events))).map k ≡ Some s }
    ensures only { (m : Meanings) → AllTouchOnlyHanded m → (c : Cluster) (events : List WorldEvent) (k : Key) (s : Session)
        → (after m nothing_stored (commits_in (run m c nothing_happened events))).map k ≡ Some s → (x : ℕ) × IsLiveAt (run m c nothing_happened events) k x s }
{}

/// Each whole step tells what its commit and its record say, and any other nothing, whatever nodes were told of one another.
pub fn heard()
    ensures { (m : Meanings) → AllTouchOnlyHanded m → (c : Cluster) (events : List WorldEvent) → IsTold m (run m c nothing_happened events) }
{}

/// What is durable at a node is its records, one after the other; and each fitted those before it, under rules that leave room for
/// as many keys as those of any start. Rules of more than 65,536 keys do.
pub fn journals()
    ensures replay { (m : Meanings) → AllTouchOnlyHanded m → (c : Cluster) (events : List WorldEvent) → IsReplay (run m c nothing_happened events) }
    ensures fit { (m : Meanings) → AllTouchOnlyHanded m → (c : Cluster) (wide : Rules) → AreWithin wide c → (events : List WorldEvent)
        → HaveFitted wide (run m c nothing_happened events) }
    ensures widest { (wide rules : Rules) → KEY_LIMIT < wide.keys → IsWithin wide rules }
{}

/// All six statements, as long as each node that runs was told of each node whose sessions live.
pub fn headline()
    ensures { (m : Meanings) → AllTouchOnlyHanded m → (c : Cluster) (events : List WorldEvent) → AlwaysKnows m c nothing_happened events
        → IsHeadline m (run m c nothing_happened events) }
{
    lives();
    order();
    heard();
    journals();
}

/// The same application, rules and number of nodes throughout: then each node is told of all.
pub fn same()
    ensures headline { (m : EngineMeaning) → TouchesOnlyHanded m → (nodes : ℕ) (rules : Rules) (events : List WorldEvent)
        → IsHeadline (always m) (run (always m) (steady nodes rules) nothing_happened events) }
    ensures fit { (m : EngineMeaning) → TouchesOnlyHanded m → (nodes : ℕ) (rules : Rules) (events : List WorldEvent)
        → HaveFitted rules (run (always m) (steady nodes rules) nothing_happened events) }
{
    headline();
}

/// Where each node that is started is told of each node that was ever started, and each that runs was told of it, all that run know of
/// all whose sessions live.
pub fn in_turn()
    ensures { (m : Meanings) → AllTouchOnlyHanded m → (c : Cluster) (events : List WorldEvent) → AreInTurn m c nothing_happened events
        → AlwaysKnows m c nothing_happened events }
{}

/// A node that wasn't told of another serves a request for a session of that node without it, and has no excuse: node 0, which was
/// told of one node, and node 1, which was told of two.
pub fn unknown()
    ensures { (response : Response) (s : Session) (r : Request) (moment : Moment)
        → IsHeadline (names_one response s moment.secret)
        (run (names_one response s moment.secret) unequal nothing_happened (Restart 0 ∷ Restart 1 ∷ Ask 1 moment 7 r ∷ Ask 0 moment 8 r ∷ [])) → ⊥ }
{}

/// An event with a fault changes nothing; any other adds its line.
pub fn faults()
    ensures { (m : Meanings) (c : Cluster) (w : World) (e : WorldEvent) → IsFaulty m c w e }
{}

/// Every list of calls of nodes over their disks, each of a start with an application, rules and a number of nodes of its own, is a
/// list of events; so all of them hold of what the nodes keep, of what was put out and of what listeners were told.
pub fn over_disks()
    ensures { (m : Meanings) → AllTouchOnlyHanded m → (c : Cluster) (calls : List NodeCall) → AreCalls m c nothing_called (λ _. []) calls
        → AreWorld m c calls }
{}

/// The calls of a process, which has one application and one setting, are calls of its starts, whatever the other starts of its node
/// have.
pub fn process()
    ensures { (m : EngineMeaning) (set : Setting) (ms : ℕ → EngineMeaning) (sets : ℕ → Setting) (from to : Durable) (turns : List Turn)
        → ((boot : ℕ) → from.boot < boot → boot ≤ to.boot → m ≡ ms boot) → ((boot : ℕ) → from.boot < boot → boot ≤ to.boot → set ≡ sets boot)
        → behind_all (halted from) turns ≡ halted to → AreTurns m set (halted from) turns → AreTurnsBy ms sets (halted from) turns }
{}

/// What each node does by itself, call by call, is what such calls do with the application and the setting of their starts, and the
/// network brings no packet that no node has put out: then all of them hold of all nodes together, however their calls fall between
/// one another.
pub fn processes()
    ensures { (m : Meanings) → AllTouchOnlyHanded m → (c : Cluster) (calls : List NodeCall) → AreOfProcesses m c calls → AreWorld m c calls }
{}

/// The same by the lives of processes: each node's processes follow on one another from blank disks on, each with an application,
/// rules and a number of nodes of its own. `other` stands for starts that no process has made.
pub fn upgrades()
    ensures { (other : EngineMeaning) → TouchesOnlyHanded other → (ps : (n : ℕ) → List (Process n)) (calls : List NodeCall) → AreOfLives ps calls
        → AreWorld (meanings_of other ps) (cluster_of ps) calls }
{
    processes();
}

/// While nodes run, each request that came was served or refused, or it waits. Nothing is asked of the network.
pub fn keeps()
    ensures { (m : Meanings) (c : Cluster) (w : World) → NobodyIsForgotten m c w }
{}

/// A tick leaves nobody waiting at its node whose time has come, by the clock that nobody sets.
pub fn in_time()
    ensures { (m : Meanings) (c : Cluster) (w : World) → TicksEndWaiting m c w }
{}

/// No step takes an epoch back, nor a session that is at hand, or has ended, but by handing it over.
pub fn stays()
    ensures epochs { (m : Meanings) → AllTouchOnlyHanded m → (c : Cluster) (events : List WorldEvent) → EpochsRise m c (run m c nothing_happened events) }
    ensures at_hand { (m : Meanings) → AllTouchOnlyHanded m → (c : Cluster) (events : List WorldEvent) → StaysAtHand m c (run m c nothing_happened events) }
{}

/// A session that was sent off has arrived once all has come that a tick of its node puts out, where there is room; so it arrives in a
/// fair round, after which nobody waits there for it, unless it was handed on, and its sender is done with it in two.
pub fn arrives()
    ensures tick { (m : Meanings) → AllTouchOnlyHanded m → (c : Cluster) (events : List WorldEvent) → ArrivesByTick m c (run m c nothing_happened events) }
    ensures round { (m : Meanings) → AllTouchOnlyHanded m → (c : Cluster) (events : List WorldEvent) → ArrivesInARound m c (run m c nothing_happened events) }
    ensures served { (m : Meanings) → AllTouchOnlyHanded m → (c : Cluster) (events : List WorldEvent) → ServedInARound m c (run m c nothing_happened events) }
    ensures done { (m : Meanings) → AllTouchOnlyHanded m → (c : Cluster) (events : List WorldEvent) → IsDoneInTwo m c (run m c nothing_happened events) }
{}

/// What becomes of a request that waits, step by step: a tick asks for its session again, who has it gives it and who has ended it
/// says so, and a poke serves one whose session is at hand.
pub fn waiters()
    ensures ask { (m : Meanings) (c : Cluster) (w : World) → TicksAsk m c w }
    ensures answered { (m : Meanings) (c : Cluster) (w : World) → WantsAreAnswered m c w }
    ensures poked { (m : Meanings) (c : Cluster) (w : World) → PokesServe m c w }
{}

/// A request that waits is served or refused in three fair rounds, in two where its session isn't on its way to another node, or the
/// session was handed to another node in them; so in as many times three, unless it was in each; and in two where the session has ended,
/// whatever others do.
pub fn serves()
    ensures three { (m : Meanings) → AllTouchOnlyHanded m → (c : Cluster) (events : List WorldEvent) → IsServed m c (run m c nothing_happened events) }
    ensures two { (m : Meanings) → AllTouchOnlyHanded m → (c : Cluster) (events : List WorldEvent) → IsServedInTwo m c (run m c nothing_happened events) }
    ensures at_last { (m : Meanings) → AllTouchOnlyHanded m → (c : Cluster) (events : List WorldEvent) → IsServedAtLast m c (run m c nothing_happened events) }
    ensures denied { (m : Meanings) → AllTouchOnlyHanded m → (c : Cluster) (events : List WorldEvent) → IsDeniedInTwo m c (run m c nothing_happened events) }
{}

/// As many sessions as have expired at a node have ended after as many of its ticks.
pub fn expires()
    ensures { (m : Meanings) (c : Cluster) (w : World) → TicksEndSessions m c w }
{}

/// All that may be relied on while nodes run and packets get through, of each world that events lead to, whatever nodes were told of
/// one another.
pub fn progress()
    ensures { (m : Meanings) → AllTouchOnlyHanded m → (c : Cluster) (events : List WorldEvent) → IsProgress m c (run m c nothing_happened events) }
{
    keeps();
    in_time();
    stays();
    arrives();
    waiters();
    serves();
    expires();
}
