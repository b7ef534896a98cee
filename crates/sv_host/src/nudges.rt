//! What a node is told by itself: that time has passed, and that requests that wait may be served.

ghost use Rattle.std.specs.Prelude.{◌≡◌, ◌≢◌, ◌≤◌, ◌<◌, [], ℕ, Ok, IfErr, IfOk, IsFalse, IsTrue};
ghost use Rattle.sv_model.specs.Ranges.{IsInput};
ghost use Rattle.sv_node.specs.History.{IsAbove};
ghost use Rattle.sv_node.specs.Node.{setting_of, state_of};
ghost use Rattle.sv_host.specs.Clients.{GathersFor};
ghost use Rattle.sv_host.specs.Group.{inputs_of, IsRising};
ghost use Rattle.sv_host.specs.Nudges.{input_of, moment_of, second_of, HasNudge, HasNudges, IsInTime, IsSettled, IsTold};
ghost use Rattle.sv_host.specs.Parked.{clients_of};
ghost use Rattle.sv_host.specs.Secrets.{last_of};
ghost use Rattle.sv_host.specs.Serving.{IsServing, HasServed, HasGathered};
ghost use Rattle.sv_host.specs.Stops.{IsSpent, LacksSecrets};
ghost use Rattle.sv_host.specs.Stories.{CarryOn};
ghost use Rattle.sv_host.specs.Time.{steady_of};
ghost use Rattle.sv_host.specs.declared.nudges.Nudge.TheVariants.{LateTick, Poke};
ghost use Rattle.sv_host.specs.declared.nudges.Ticked.TheVariants.{Refused as TickedRefused};
ghost use Rattle.sv_host.specs.declared.outcome.Taken.TheVariants.{Refused};

use crate::expiry::Expiry;
use crate::fault::Stop;
use crate::group::{Asker, GROUP_LIMIT, Group};
use crate::outcome::Taken;
use crate::packets::Packets;
use crate::server::Server;
use crate::time::steady;
use sv_journal::Disk;
use sv_model::{Engine, Input, Moment};
use sv_node::Node;

/// So many sessions end in a group, at most.
const ENDED_TOGETHER: usize = 8;

/// The tick of a second.
const THE_TICK: Nudges = Nudges {
    nudge: Nudge::Tick,
    packets: Packets::InTurn,
    count: 1,
};

/// One that asks again for the sessions that requests wait for.
const ASKING: Nudges = Nudges {
    nudge: Nudge::Tick,
    packets: Packets::Wants,
    count: 1,
};

/// Those that end more sessions. The tick of the second has put out the same packets.
const MORE_TICKS: Nudges = Nudges {
    nudge: Nudge::Tick,
    packets: Packets::Nothing,
    count: ENDED_TOGETHER,
};

/// So many groups of them are given to the node in a turn, at most.
const ENDING: u32 = 8;

/// What a node is told by itself.
#[derive(Clone, Copy, Debug, PartialEq, Eq)]
enum Nudge {
    /// Requests that wait may be served.
    Poke,
    /// Time has passed.
    Tick,
    /// Time has passed for those who wait, up to this second at least, and none since 1970: at that moment no session has expired.
    LateTick(u64),
}

impl Nudge {
    fn input(self) -> Input
        ensures input { IsInput result }
        ensures above { (low : ℕ) → IsAbove low result }
        ensures is { result ≡ input_of self }
    {
        match self {
            Nudge::Poke => Input::Poke,
            Nudge::Tick | Nudge::LateTick(_) => Input::Tick,
        }
    }

    /// The moment at which the node is told.
    fn at(self, moment: Moment) -> Moment
        ensures { result ≡ moment_of self moment }
    {
        match self {
            Nudge::Poke | Nudge::Tick => moment,
            Nudge::LateTick(second) => Moment {
                now: 0,
                steady: moment.steady.max(second),
                secret: moment.secret,
            },
        }
    }
}

/// Several of them together, and which of the packets are sent that come of them.
#[derive(Clone, Copy, Debug, PartialEq, Eq)]
struct Nudges {
    nudge: Nudge,
    packets: Packets,
    count: usize,
}

impl Nudges {
    /// In the place of the tick of a second that was refused: it ends no session, so it needs no room in the journal.
    fn late(second: u64) -> Nudges
        ensures nudge { result.nudge ≡ LateTick second }
        ensures one { result.count ≡ 1 }
    {
        Nudges {
            nudge: Nudge::LateTick(second),
            packets: Packets::InTurn,
            count: 1,
        }
    }
}

/// Adds one of what a node is told by itself to a group; whether there was memory for it.
fn add_nudge(
    machine: &HostRuntime,
    server: &mut Server,
    group: &mut Group,
    nudge: Nudge,
    packets: Packets,
) -> Result<bool, Stop>
    requires { IsRising group.old }
    ensures gathered { HasGathered group.old group.new }
    ensures clients { GathersFor group.old group.new (clients_of server.old.parked) (clients_of server.new.parked) }
    ensures added { IfOk result (λ added. IsTrue added → HasNudge nudge (steady_of server.old.time) group.old group.new) }
    ensures never_back { steady_of server.old.time ≤ steady_of server.new.time }
    ensures stops { IfErr result (LacksSecrets (last_of server.new.secrets)) }
    ensures carried { CarryOn server.old.connections server.new.connections }
{
    let moment = server.moment(machine)?;
    Ok(group.add(nudge.at(moment), nudge.input(), Asker::Nobody, packets))
}

/// The same of several; whether there was memory for all.
fn add_nudges(
    machine: &HostRuntime,
    server: &mut Server,
    group: &mut Group,
    nudges: Nudges,
) -> Result<bool, Stop>
    requires { IsRising group.old }
    ensures gathered { HasGathered group.old group.new }
    ensures clients { GathersFor group.old group.new (clients_of server.old.parked) (clients_of server.new.parked) }
    ensures added { IfOk result (λ added. IsTrue added → HasNudges nudges.nudge (steady_of server.old.time) nudges.count group.old group.new) }
    ensures stops { IfErr result (LacksSecrets (last_of server.new.secrets)) }
    ensures carried { CarryOn server.old.connections server.new.connections }
{
    for _done in 0..nudges.count {
        if !add_nudge(machine, server, group, nudges.nudge, nudges.packets)? {
            return Ok(false);
        }
    }
    Ok(true)
}

/// Adds a poke for each of so many requests whose sessions come in a group, so that they are served before the sessions are given on.
pub fn add_pokes(
    machine: &HostRuntime,
    server: &mut Server,
    group: &mut Group,
    count: usize,
) -> Result<(), Stop>
    requires { IsRising group.old }
    ensures gathered { HasGathered group.old group.new }
    ensures clients { GathersFor group.old group.new (clients_of server.old.parked) (clients_of server.new.parked) }
    ensures stops { IfErr result (LacksSecrets (last_of server.new.secrets)) }
    ensures carried { CarryOn server.old.connections server.new.connections }
{
    let pokes = Nudges {
        nudge: Nudge::Poke,
        packets: Packets::All,
        count: count.min(GROUP_LIMIT),
    };
    match add_nudges(machine, server, group, pokes) {
        Ok(_) => Ok(()),
        Err(stop) => Err(stop),
    }
}

/// Tells the node several together; what came of the last. Where there was no memory for all, that is as if it had been refused.
fn tell<E: Engine, D: Disk>(
    machine: &HostRuntime,
    server: &mut Server,
    node: &mut Node<E, D>,
    group: &mut Group,
    nudges: Nudges,
) -> Result<Taken, Stop>
    requires { IsServing E.Engine D.Disk (clients_of server.old.parked) node.old group.old }
    ensures served { HasServed E.Engine D.Disk node.old group.old (clients_of server.new.parked) node.new group.new result }
    ensures told { IfOk result (λ taken. taken ≢ Refused → IsTold E.meaning E.heard D.failed nudges.nudge (steady_of server.old.time) nudges.count node.old
        group.old node.new taken) }
    ensures emptied { IfOk result (λ _. inputs_of group.new ≡ []) }
    ensures stops { IfErr result (IsSpent server.new) }
    ensures carried { CarryOn server.old.connections server.new.connections }
{
    match add_nudges(machine, server, group, nudges) {
        Ok(true) => server.step(machine, node, group),
        Ok(false) => match server.step(machine, node, group) {
            Ok(_) => Ok(Taken::Refused),
            Err(stop) => Err(stop),
        },
        Err(stop) => Err(stop),
    }
}

/// Serves waiting requests whose sessions have come, until none is left; whether none is: else one was refused. Where nobody waits there
/// is nothing to look for, and no secret is drawn for it.
pub fn settle<E: Engine, D: Disk>(
    machine: &HostRuntime,
    server: &mut Server,
    node: &mut Node<E, D>,
    group: &mut Group,
) -> Result<bool, Stop>
    requires { IsServing E.Engine D.Disk (clients_of server.old.parked) node.old group.old }
    ensures served { HasServed E.Engine D.Disk node.old group.old (clients_of server.new.parked) node.new group.new result }
    ensures settled { inputs_of group.old ≡ [] → IfOk result (λ settled. IsTrue settled → IsSettled (state_of node.new)) }
    ensures stops { IfErr result (IsSpent server.new) }
    ensures carried { CarryOn server.old.connections server.new.connections }
{
    let most = node.parked().len();
    let mut count: usize = 1;
    for _done in 0..most.saturating_add(1) {
        if node.parked().is_empty() {
            return Ok(true);
        }
        let pokes = Nudges {
            nudge: Nudge::Poke,
            packets: Packets::All,
            count,
        };
        match tell(machine, server, node, group, pokes)? {
            Taken::Quiet => return Ok(true),
            Taken::Refused => return Ok(false),
            Taken::Busy | Taken::MoveRefused(_) => count = GROUP_LIMIT,
        }
    }
    Ok(true)
}

/// What came of ticks.
#[derive(Clone, Copy, Debug, PartialEq, Eq)]
enum Ticked {
    /// A session has ended by them, of which alone a record tells.
    Ending,
    /// None has.
    Quiet,
    /// The last of them was refused.
    Refused,
}

impl Ticked {
    fn of(taken: Taken, has_grown: bool) -> Ticked
        ensures { (result ≡ TickedRefused → taken ≡ Refused) × (taken ≡ Refused → result ≡ TickedRefused) }
    {
        match taken {
            Taken::Refused => Ticked::Refused,
            _ if has_grown => Ticked::Ending,
            _ => Ticked::Quiet,
        }
    }

    /// A session has ended by them.
    fn is_ending(self) -> bool {
        match self {
            Ticked::Ending => true,
            Ticked::Quiet | Ticked::Refused => false,
        }
    }

    fn is_refused(self) -> bool
        ensures { IsFalse result → self ≢ TickedRefused }
    {
        match self {
            Ticked::Refused => true,
            Ticked::Ending | Ticked::Quiet => false,
        }
    }
}

/// Has the node look at the time.
fn tick_all<E: Engine, D: Disk>(
    machine: &HostRuntime,
    server: &mut Server,
    node: &mut Node<E, D>,
    group: &mut Group,
    ticks: Nudges,
) -> Result<Ticked, Stop>
    requires { IsServing E.Engine D.Disk (clients_of server.old.parked) node.old group.old }
    ensures served { HasServed E.Engine D.Disk node.old group.old (clients_of server.new.parked) node.new group.new result }
    ensures in_time { ticks.nudge ≢ Poke → 0 < ticks.count → IfOk result (λ ticked. ticked ≢ TickedRefused → IsInTime (setting_of node.new)
        (second_of ticks.nudge (steady_of server.old.time)) (state_of node.new)) }
    ensures stops { IfErr result (IsSpent server.new) }
    ensures carried { CarryOn server.old.connections server.new.connections }
{
    let before = node.journal_len();
    match tell(machine, server, node, group, ticks) {
        Ok(taken) => Ok(Ticked::of(taken, node.journal_len() > before)),
        Err(stop) => Err(stop),
    }
}

/// What is left to be done after the tick of a second: one that was refused has ended nobody's waiting. It was to end a session, perhaps,
/// of which the journal had no room for a record; so the node looks at the time once more, and ends none.
fn end_waiting<E: Engine, D: Disk>(
    machine: &HostRuntime,
    server: &mut Server,
    node: &mut Node<E, D>,
    group: &mut Group,
    ticked: Ticked,
    second: u64,
) -> Result<Ticked, Stop>
    requires { IsServing E.Engine D.Disk (clients_of server.old.parked) node.old group.old }
    ensures served { HasServed E.Engine D.Disk node.old group.old (clients_of server.new.parked) node.new group.new result }
    ensures in_time { ticked ≡ TickedRefused → IfOk result (λ ticked. ticked ≢ TickedRefused → IsInTime (setting_of node.new) second (state_of node.new)) }
    ensures same { ticked ≢ TickedRefused → (result ≡ Ok ticked) × (node.new ≡ node.old) }
    ensures stops { IfErr result (IsSpent server.new) }
    ensures carried { CarryOn server.old.connections server.new.connections }
{
    match ticked {
        Ticked::Refused => tick_all(machine, server, node, group, Nudges::late(second)),
        Ticked::Ending | Ticked::Quiet => Ok(ticked),
    }
}

/// The tick of a second, and what is left to be done after it.
fn tick_once<E: Engine, D: Disk>(
    machine: &HostRuntime,
    server: &mut Server,
    node: &mut Node<E, D>,
    group: &mut Group,
) -> Result<Ticked, Stop>
    requires { IsServing E.Engine D.Disk (clients_of server.old.parked) node.old group.old }
    ensures served { HasServed E.Engine D.Disk node.old group.old (clients_of server.new.parked) node.new group.new result }
    ensures in_time { IfOk result (λ ticked. ticked ≢ TickedRefused → IsInTime (setting_of node.new) (steady_of server.old.time) (state_of node.new)) }
    ensures stops { IfErr result (IsSpent server.new) }
    ensures carried { CarryOn server.old.connections server.new.connections }
{
    let second = server.time.steady_seconds();
    let ticked = tick_all(machine, server, node, group, THE_TICK)?;
    end_waiting(machine, server, node, group, ticked, second)
}

/// Lets the node look at the time, where a second has begun since it did; whether nobody is left waiting whose time has passed.
/// Else memory was refused.
pub fn tick<E: Engine, D: Disk>(
    machine: &HostRuntime,
    server: &mut Server,
    node: &mut Node<E, D>,
    group: &mut Group,
) -> Result<bool, Stop>
    requires { IsServing E.Engine D.Disk (clients_of server.old.parked) node.old group.old }
    ensures served { HasServed E.Engine D.Disk node.old group.old (clients_of server.new.parked) node.new group.new result }
    ensures in_time { IsFalse server.old.is_spared → server.old.ticked < steady_of server.old.time → IfOk result (λ done. IsTrue done → IsInTime
        (setting_of node.new) (steady_of server.old.time) (state_of node.new)) }
    ensures stops { IfErr result (IsSpent server.new) }
    ensures carried { CarryOn server.old.connections server.new.connections }
{
    if !server.begins_second(machine) {
        return Ok(true);
    }
    match tick_once(machine, server, node, group) {
        Ok(ticked) => {
            server.expiry = Expiry::begin(ticked.is_ending());
            Ok(!ticked.is_refused())
        }
        Err(stop) => Err(stop),
    }
}

/// Asks again for the sessions that requests wait for, where it is time to.
pub fn ask_again<E: Engine, D: Disk>(
    machine: &HostRuntime,
    server: &mut Server,
    node: &mut Node<E, D>,
    group: &mut Group,
) -> Result<(), Stop>
    requires { IsServing E.Engine D.Disk (clients_of server.old.parked) node.old group.old }
    ensures served { HasServed E.Engine D.Disk node.old group.old (clients_of server.new.parked) node.new group.new result }
    ensures stops { IfErr result (IsSpent server.new) }
    ensures carried { CarryOn server.old.connections server.new.connections }
{
    let now = server.time.steady;
    server.asking = server.asking.at(now, server.parked.may_wait());
    if !server.asking.is_due(now) {
        return Ok(());
    }
    server.asking = server.asking.asked(now);
    match tell(machine, server, node, group, ASKING) {
        Ok(_) => Ok(()),
        Err(stop) => Err(stop),
    }
}

/// Ends some more sessions that have expired, where one is known to be left in this second.
fn end_some<E: Engine, D: Disk>(
    machine: &HostRuntime,
    server: &mut Server,
    node: &mut Node<E, D>,
    group: &mut Group,
) -> Result<(), Stop>
    requires { IsServing E.Engine D.Disk (clients_of server.old.parked) node.old group.old }
    ensures served { HasServed E.Engine D.Disk node.old group.old (clients_of server.new.parked) node.new group.new result }
    ensures stops { IfErr result (IsSpent server.new) }
    ensures carried { CarryOn server.old.connections server.new.connections }
{
    match tick_all(machine, server, node, group, MORE_TICKS) {
        Ok(ticked) => {
            server.expiry = server.expiry.next(ticked.is_ending());
            Ok(())
        }
        Err(stop) => Err(stop),
    }
}

/// Ends more sessions that have expired, a few, so that nobody waits for it for longer than a thousandth of a second or two.
pub fn expire<E: Engine, D: Disk>(
    machine: &HostRuntime,
    server: &mut Server,
    node: &mut Node<E, D>,
    group: &mut Group,
) -> Result<(), Stop>
    requires { IsServing E.Engine D.Disk (clients_of server.old.parked) node.old group.old }
    ensures served { HasServed E.Engine D.Disk node.old group.old (clients_of server.new.parked) node.new group.new result }
    ensures stops { IfErr result (IsSpent server.new) }
    ensures carried { CarryOn server.old.connections server.new.connections }
{
    let begun = steady(machine);
    for _ in 0..ENDING {
        if !server.expiry.is_due() || steady(machine) > begun {
            return Ok(());
        }
        end_some(machine, server, node, group)?;
    }
    Ok(())
}
