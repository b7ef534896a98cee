//! A node's turns: what has come on its connections is gathered, given to the node together, and handed out.

ghost use Rattle.std.specs.Prelude.{◌≡◌, [], IfErr, IsTrue};
ghost use Rattle.sv_node.specs.History.{HasEnded};
ghost use Rattle.sv_node.specs.Moments.{RunsWithoutLoss};
ghost use Rattle.sv_node.specs.Node.{IsNode, journal_of, state_of};
ghost use Rattle.sv_host.specs.Clients.{GathersFor};
ghost use Rattle.sv_host.specs.Group.{IsRising};
ghost use Rattle.sv_host.specs.Parked.{clients_of};
ghost use Rattle.sv_host.specs.Serving.{IsServing, HasServed, HasGathered};
ghost use Rattle.sv_host.specs.Stops.{HasReason};
ghost use Rattle.sv_host.specs.Stories.{CarryOn};

use crate::compaction::compact_in_turn;
use crate::fault::Stop;
use crate::gathering::gather;
use crate::greeting::greet_in_time;
use crate::group::Group;
use crate::nudges::{add_pokes, ask_again, expire, settle, tick};
use crate::server::Server;
use sv_journal::Disk;
use sv_model::Engine;
use sv_net::Acceptor;
use sv_node::Node;

/// What is done for those who wait, and of those whose time has passed.
fn wait_on<E: Engine, D: Disk>(
    machine: &HostRuntime,
    server: &mut Server,
    node: &mut Node<E, D>,
    group: &mut Group,
) -> Result<(), Stop>
    requires { IsServing E.Engine D.Disk (clients_of server.old.parked) node.old group.old }
    ensures served { HasServed E.Engine D.Disk node.old group.old (clients_of server.new.parked) node.new group.new result }
    ensures carried { CarryOn server.old.connections server.new.connections }
    ensures reason { IfErr result HasReason }
{
    ask_again(machine, server, node, group)?;
    expire(machine, server, node, group)
}

/// What is done at the end of each turn as time passes.
fn keep_time<E: Engine, D: Disk>(
    machine: &HostRuntime,
    server: &mut Server,
    node: &mut Node<E, D>,
    group: &mut Group,
) -> Result<(), Stop>
    requires { IsServing E.Engine D.Disk (clients_of server.old.parked) node.old group.old }
    ensures served { HasServed E.Engine D.Disk node.old group.old (clients_of server.new.parked) node.new group.new result }
    ensures carried { CarryOn server.old.connections server.new.connections }
    ensures reason { IfErr result HasReason }
{
    server.await_by(node.parked());
    tick(machine, server, node, group)?;
    wait_on(machine, server, node, group)
}

/// What is done at the end of each turn as sessions come.
fn look_after<E: Engine, D: Disk>(
    machine: &HostRuntime,
    server: &mut Server,
    node: &mut Node<E, D>,
    group: &mut Group,
) -> Result<(), Stop>
    requires { IsServing E.Engine D.Disk (clients_of server.old.parked) node.old group.old }
    ensures served { HasServed E.Engine D.Disk node.old group.old (clients_of server.new.parked) node.new group.new result }
    ensures carried { CarryOn server.old.connections server.new.connections }
    ensures reason { IfErr result HasReason }
{
    settle(machine, server, node, group)?;
    compact_in_turn(server, node, group)
}

/// What is done at the end of each turn.
fn end_turn<E: Engine, D: Disk>(
    machine: &HostRuntime,
    server: &mut Server,
    node: &mut Node<E, D>,
    group: &mut Group,
) -> Result<(), Stop>
    requires { IsServing E.Engine D.Disk (clients_of server.old.parked) node.old group.old }
    ensures served { HasServed E.Engine D.Disk node.old group.old (clients_of server.new.parked) node.new group.new result }
    ensures carried { CarryOn server.old.connections server.new.connections }
    ensures reason { IfErr result HasReason }
{
    // A request whose session has come is served before the time is looked at: else it might be past its deadline by then.
    look_after(machine, server, node, group)?;
    keep_time(machine, server, node, group)
}

/// Refuses who may not wait, has those wants wait that are to, and gathers what a node is told by itself beside what has come: a poke for
/// each request whose session has come, and then the wants that have waited.
fn gather_own<E: Engine, D: Disk>(
    machine: &HostRuntime,
    server: &mut Server,
    node: &Node<E, D>,
    group: &mut Group,
) -> Result<(), Stop>
    requires { IsRising group.old }
    ensures gathered { HasGathered group.old group.new }
    ensures clients { GathersFor group.old group.new (clients_of server.old.parked) (clients_of server.new.parked) }
    ensures carried { CarryOn server.old.connections server.new.connections }
    ensures reason { IfErr result HasReason }
{
    server.keep_shares(node, group);
    let now = server.held_time(machine);
    let count = server.hold_wants(node.parked(), group, now);
    add_pokes(machine, server, group, count)?;
    server.release(machine, group, now)
}

/// Gives a group to the node, if there is anything in it.
fn step_some<E: Engine, D: Disk>(
    machine: &HostRuntime,
    server: &mut Server,
    node: &mut Node<E, D>,
    group: &mut Group,
) -> Result<(), Stop>
    requires { IsServing E.Engine D.Disk (clients_of server.old.parked) node.old group.old }
    ensures served { HasServed E.Engine D.Disk node.old group.old (clients_of server.new.parked) node.new group.new result }
    ensures carried { CarryOn server.old.connections server.new.connections }
    ensures reason { IfErr result HasReason }
{
    if group.is_empty() {
        return Ok(());
    }
    match server.step(machine, node, group) {
        Ok(_) => Ok(()),
        Err(stop) => Err(stop),
    }
}

/// Gives what was gathered to the node.
fn step_gathered<E: Engine, D: Disk>(
    machine: &HostRuntime,
    server: &mut Server,
    node: &mut Node<E, D>,
    group: &mut Group,
) -> Result<(), Stop>
    requires { IsServing E.Engine D.Disk (clients_of server.old.parked) node.old group.old }
    ensures served { HasServed E.Engine D.Disk node.old group.old (clients_of server.new.parked) node.new group.new result }
    ensures carried { CarryOn server.old.connections server.new.connections }
    ensures reason { IfErr result HasReason }
{
    match gather_own(machine, server, node, group) {
        Ok(()) => step_some(machine, server, node, group),
        Err(stop) => Err(stop),
    }
}

/// Gives what was gathered to the node, and ends the turn. Where not all could be gathered the node then stops.
fn finish_turn<E: Engine, D: Disk>(
    machine: &HostRuntime,
    server: &mut Server,
    node: &mut Node<E, D>,
    group: &mut Group,
    gathered: Result<(), Stop>,
) -> Result<(), Stop>
    requires { IsServing E.Engine D.Disk (clients_of server.old.parked) node.old group.old }
    ensures served { HasServed E.Engine D.Disk node.old group.old (clients_of server.new.parked) node.new group.new result }
    ensures carried { CarryOn server.old.connections server.new.connections }
    ensures reason { IfErr gathered HasReason → IfErr result HasReason }
{
    step_gathered(machine, server, node, group)?;
    match gathered {
        Ok(()) => end_turn(machine, server, node, group),
        Err(stop) => Err(stop),
    }
}

/// Tells the operator what there is to tell, waits until somebody is to be looked after, and looks who has taken too long.
fn wait<E, D: Disk>(
    machine: &HostRuntime,
    server: &mut Server,
    node: &Node<E, D>,
    acceptor: &mut Acceptor,
)
    ensures clients { server.new.parked ≡ server.old.parked }
    ensures carried { CarryOn server.old.connections server.new.connections }
{
    server.count_kept_in_time(node);
    server.tell_operator(machine);
    let most = server.patience(machine);
    acceptor.wait(&mut server.connections, most);
    server.is_spared = acceptor.is_spared();
    if !server.connections.is_empty() && !server.is_spared {
        server.connections.look_at_clock(machine);
        acceptor.look_round(&mut server.connections);
    }
}

/// Waits until somebody is to be looked after, gives what has come to the node, and hands on what comes of it.
fn take_turn<E: Engine, D: Disk>(
    machine: &HostRuntime,
    server: &mut Server,
    node: &mut Node<E, D>,
    group: &mut Group,
    acceptor: &mut Acceptor,
) -> Result<(), Stop>
    requires { IsServing E.Engine D.Disk (clients_of server.old.parked) node.old group.old }
    ensures served { HasServed E.Engine D.Disk node.old group.old (clients_of server.new.parked) node.new group.new result }
    ensures carried { CarryOn server.old.connections server.new.connections }
    ensures reason { IfErr result HasReason }
{
    wait(machine, server, node, acceptor);
    let gathered = gather(machine, server, group, acceptor);
    finish_turn(machine, server, node, group, gathered)
}

/// Serves whoever connects, until the node is to stop, or may not go on beside the others.
pub fn run<E: Engine, D: Disk>(
    machine: &HostRuntime,
    server: &mut Server,
    node: &mut Node<E, D>,
    acceptor: &mut Acceptor,
) -> Stop
    requires valid { IsNode E.valid D.tells D.seen D.may_leave node.old }
    requires live { IsTrue (journal_of node.old).live }
    requires nobody_waits { (state_of node.old).parked ≡ [] }
    ensures valid { IsNode E.valid D.tells D.seen D.may_leave node.new }
    ensures ended { HasEnded E.meaning E.heard D.tells D.may_leave node.old node.new }
    ensures runs { RunsWithoutLoss E.meaning D.tells D.seen D.may_leave D.moment D.left_since 0 node.old node.new }
    ensures carried { CarryOn server.old.connections server.new.connections }
    ensures reason { HasReason result }
{
    let mut group = Group::new(server.alloc);
    let mut turns: u64 = 0;
    for turn in 0..u64::MAX {
        if let Some(fault) = greet_in_time(machine, server, node) {
            return Stop::Fault(fault);
        }
        if let Err(stop) = take_turn(machine, server, node, &mut group, acceptor) {
            return stop;
        }
        turns = turn + 1;
    }
    Stop::Spent(turns)
}
