//! A node on its machine, from its start to its end.

ghost use Rattle.std.specs.Prelude.{◌≡◌, [], IfOk, IfErr, IsTrue};
ghost use Rattle.sv_model.specs.NodeState.{Durable};
ghost use Rattle.sv_model.specs.Ranges.{IsSetting};
ghost use Rattle.sv_node.specs.History.{HasEnded, IsLife};
ghost use Rattle.sv_node.specs.Moments.{LivesWithoutLoss, RunsWithoutLoss};
ghost use Rattle.sv_node.specs.Node.{IsNode, journal_of, state_of};
ghost use Rattle.sv_node.specs.Opened.{LeavesStart, StartsWithoutLoss};
ghost use Rattle.sv_node.specs.Stops.{Restores};
ghost use Rattle.sv_host.specs.Secrets.{first_by, last_of};
ghost use Rattle.sv_host.specs.Serving.{HasLived};
ghost use Rattle.sv_host.specs.Stops.{HasReason};

use crate::asking::Asking;
use crate::awaited::Awaited;
use crate::compaction::renew;
use crate::event_loop::run;
use crate::expiry::Expiry;
use crate::fault::{HostFault, Stop};
use crate::greeting::ask_all;
use crate::holding::Holding;
use crate::parked::ParkedClients;
use crate::peers::Peers;
use crate::place::Place;
use crate::round::Round;
use crate::secrets::Secrets;
use crate::server::Server;
use crate::time::{read, steady};
use mio::Registry;
use std::alloc::Global;
use sv_journal::Disk;
use sv_log::Report;
use sv_model::{Engine, Setting};
use sv_net::{Acceptor, Connections, Persistence, loopback, port_of};
use sv_node::{Node, NotOpened};
use sv_record::CONTEXTS_LEN;

/// What a node has of its machine beside its disks: the port at which it listens, and its secrets.
pub struct Host {
    setting: Setting,
    acceptor: Acceptor,
    server: Server,
    ghost inside: { IsSetting setting },
}

/// By hand, so that the proof of a caller has one step for it and not one for each state of its parts.
impl Drop for Host {
    fn drop(self) {
        let Host {
            setting: _,
            acceptor: _,
            server: _,
        } = self;
    }
}

/// What a node that has run leaves behind.
#[derive(Drop)]
pub struct Ended<E, D> {
    pub engine: E,
    pub a: D,
    pub b: D,
    /// Why it ended.
    pub stop: Stop,
}

/// Listens at the node's port.
fn open_door(machine: &HostRuntime, place: &Place) -> Result<(Acceptor, Registry), HostFault> {
    let port = port_of(place.ports.as_slice(), place.setting.node);
    match Acceptor::bind(machine, loopback(port)) {
        Ok(opened) => Ok(opened),
        Err(_) => Err(HostFault::Socket),
    }
}

/// What a node says of itself to the others, where it greets them.
fn peers_of(setting: Setting, contexts: Option<[u8; CONTEXTS_LEN]>) -> Peers
    requires { IsSetting setting }
{
    match contexts {
        Some(contexts) => Peers::of(setting.node, setting.nodes, contexts),
        None => Peers::none(setting.node),
    }
}

/// Opens the file of secrets, and listens at the node's port.
fn open_both(
    machine: &HostRuntime,
    place: &Place,
) -> Result<(Secrets, Acceptor, Registry), HostFault>
    ensures { IfOk result (λ r. last_of r.0 ≡ first_by place.now.secrets) }
{
    let secrets = Secrets::open(machine, place.secrets.as_ref())?;
    let (acceptor, registry) = open_door(machine, place)?;
    Ok((secrets, acceptor, registry))
}

/// Says that the node of this number is ready; false where that can't be said.
fn announce(machine: &HostRuntime, server: &mut Server, number: u8) -> bool {
    if println!(machine; "ready {number}").is_err() {
        return false;
    }
    server.say_ready(number);
    true
}

/// Asks the other nodes, and says that the node of this number is ready; why it may not serve, if it may not.
fn begin<E: Engine, D: Disk>(
    machine: &HostRuntime,
    server: &mut Server,
    node: &Node<E, D>,
    number: u8,
) -> Option<HostFault> {
    let fault = ask_all(machine, server, node);
    if fault.is_some() {
        return fault;
    }
    if announce(machine, server, number) {
        None
    } else {
        Some(HostFault::Output)
    }
}

/// Says that the node of this number is ready, and serves until it is told to stop.
fn serve_ready<E: Engine, D: Disk>(
    machine: &HostRuntime,
    server: &mut Server,
    node: &mut Node<E, D>,
    acceptor: &mut Acceptor,
    number: u8,
) -> Stop
    requires valid { IsNode E.valid D.tells D.seen D.may_leave node.old }
    requires live { IsTrue (journal_of node.old).live }
    requires nobody_waits { (state_of node.old).parked ≡ [] }
    ensures valid { IsNode E.valid D.tells D.seen D.may_leave node.new }
    ensures ended { HasEnded E.meaning E.heard D.tells D.may_leave node.old node.new }
    ensures runs { RunsWithoutLoss E.meaning D.tells D.seen D.may_leave D.moment D.left_since 0 node.old node.new }
    ensures reason { HasReason result }
{
    if let Some(fault) = begin(machine, server, node, number) {
        return Stop::Fault(fault);
    }
    let stop = run(machine, server, node, acceptor);
    server.count_kept(node);
    stop
}

/// Writes the journal of a node anew that found records in it, says that it is ready, and serves until it is told to stop.
fn serve_all<E: Engine, D: Disk>(
    machine: &HostRuntime,
    server: &mut Server,
    node: &mut Node<E, D>,
    acceptor: &mut Acceptor,
    number: u8,
) -> Stop
    requires valid { IsNode E.valid D.tells D.seen D.may_leave node.old }
    requires live { IsTrue (journal_of node.old).live }
    requires nobody_waits { (state_of node.old).parked ≡ [] }
    ensures valid { IsNode E.valid D.tells D.seen D.may_leave node.new }
    ensures ended { HasEnded E.meaning E.heard D.tells D.may_leave node.old node.new }
    ensures runs { RunsWithoutLoss E.meaning D.tells D.seen D.may_leave D.moment D.left_since 0 node.old node.new }
    ensures reason { HasReason result }
{
    server.count_kept(node);
    let bytes = node.journal_len();
    let records = node.restored() as u64;
    server
        .connections
        .report
        .opened(bytes, records, steady(machine));
    match renew(server, node) {
        Ok(()) => serve_ready(machine, server, node, acceptor, number),
        Err(stop) => stop,
    }
}

/// Has a node that is open serve until it is told to stop, and takes it apart.
fn live<E: Engine, D: Disk>(
    machine: &HostRuntime,
    server: &mut Server,
    node: Node<E, D>,
    acceptor: &mut Acceptor,
    number: u8,
) -> Ended<E, D>
    requires valid { IsNode E.valid D.tells D.seen D.may_leave node }
    requires live { IsTrue (journal_of node).live }
    requires nobody_waits { (state_of node).parked ≡ [] }
    ensures lived { HasLived E.Engine D.Disk node result.engine result.a result.b }
    ensures reason { HasReason result.stop }
{
    let mut node = node;
    let stop = serve_all(machine, server, &mut node, acceptor, number);
    server.say_stopped(machine, &stop);
    let (engine, a, b) = node.stop();
    Ended { engine, a, b, stop }
}

impl Host {
    ghost use Rattle.std.specs.Prelude.{◌⊎◌};
    ghost use Rattle.sv_model.specs.NodeState.{last_number};
    ghost use Rattle.sv_journal.specs.Disk.{HasRisen};
    ghost use Rattle.sv_node.specs.Opened.{LacksRoom};
    ghost use Rattle.sv_node.specs.declared.fault.OpenFault.TheVariants.{Damaged, Device, Full};
    ghost use Rattle.sv_host.specs.Host.{counted_of, naming_of, setting_of, ports_of, persistence_of};

    /// Opens the file of secrets, and listens at the node's port. Faults are found in this order.
    pub fn at(
        machine: &HostRuntime,
        place: Place,
        persistence: Persistence,
    ) -> Result<Host, HostFault>
        ensures setting { IfOk result (λ h. setting_of h ≡ place.setting) }
        ensures ports { IfOk result (λ h. ports_of h ≡ place.ports.items) }
        ensures persistence { IfOk result (λ h. persistence_of h ≡ persistence) }
        ensures naming { IfOk result (λ h. naming_of h ≡ place.naming) }
        ensures secrets { IfOk result (λ h. counted_of h ≡ first_by place.secrets) }
    {
        let (secrets, acceptor, registry) = open_both(machine, &place)?;
        let alloc: Global = machine.alloc();
        let Place {
            setting,
            ports,
            secrets: _,
            contexts,
            naming,
        } = place;
        let peers = peers_of(setting, contexts);
        let mut connections = Connections::new(registry, persistence, alloc);
        connections.name_causes(naming);
        let time = read(machine);
        Ok(Host {
            setting,
            acceptor,
            server: Server {
                ports,
                secrets,
                connections,
                parked: ParkedClients::new(alloc),
                peers,
                text: Vec::new(alloc),
                time,
                ticked: time.steady_seconds(),
                is_spared: false,
                expiry: Expiry::NONE,
                round: Round::START,
                asking: Asking::NONE,
                holding: Holding::new(alloc),
                awaited: Awaited::new(alloc),
                compacted: 0,
                alloc,
            },
        })
    }

    /// Has what happens told to the operator.
    pub fn reporting(self, report: Report) -> Host
        ensures setting { setting_of result ≡ setting_of self }
        ensures ports { ports_of result ≡ ports_of self }
        ensures persistence { persistence_of result ≡ persistence_of self }
        ensures naming { naming_of result ≡ naming_of self }
        ensures secrets { counted_of result ≡ counted_of self }
    {
        let mut host = self;
        host.server.report_by(report);
        host
    }

    /// Runs the node over its disks A and B: opens them, says by the line `ready` with the node's number that it listens, and
    /// serves until a command stops it, or a fault does. The engine and the disks come back.
    pub fn run<E: Engine, D: Disk>(
        self,
        machine: &HostRuntime,
        engine: E,
        a: D,
        b: D,
    ) -> Result<Ended<E, D>, NotOpened<E, D>>
        requires { E.valid engine }
        // What the disks give after it is what some calls of the node lead to, from what they gave before it.
        ensures life { IfOk result (λ r. IsLife E.meaning E.heard D.tells D.seen D.may_leave (setting_of self) engine a b r.engine r.a r.b) }
        // And so does a stop at any moment between.
        ensures any_moment { IfOk result (λ r. D.tells a → D.tells b → (d : Durable) → Restores (setting_of self) (D.seen a) (D.seen b) d →
            LivesWithoutLoss D.seen D.may_leave D.moment D.left_since (E.meaning engine) (setting_of self) d a b r.a r.b) }
        // It ends once it is told to, once numbers are spent, or by a fault.
        ensures reason { IfOk result (λ r. HasReason r.stop) }
        // Where it isn't opened, what is lost is at most the start itself.
        ensures unopened { IfErr result (λ r. D.tells a → D.tells b → (d : Durable) → Restores (setting_of self) (D.seen a) (D.seen b) d →
            LeavesStart D.may_leave (setting_of self) a b d r.a r.b) }
        ensures any_moment_unopened { IfErr result (λ r. D.tells a → D.tells b → (d : Durable) → Restores (setting_of self) (D.seen a) (D.seen b) d →
            StartsWithoutLoss D.seen D.may_leave D.moment D.left_since (setting_of self) d a b r.a r.b) }
        ensures engine { IfErr result (λ r. r.engine ≡ engine) }
        // Why it isn't opened, want of memory apart.
        ensures damaged { IfErr result (λ r. r.fault ≡ Damaged → D.tells a → D.tells b → (d : Durable) → Restores (setting_of self) (D.seen a) (D.seen b) d
            → d.boot ≡ last_number) }
        ensures full { IfErr result (λ r. r.fault ≡ Full → D.tells a → D.tells b → (d : Durable) → Restores (setting_of self) (D.seen a) (D.seen b) d
            → LacksRoom D.seen D.may_leave (setting_of self) d r.a r.b) }
        ensures device { IfErr result (λ r. r.fault ≡ Device → HasRisen (D.failed a) (D.failed r.a) ⊎ HasRisen (D.failed b) (D.failed r.b)) }
    {
        let Host {
            setting,
            mut acceptor,
            mut server,
        } = self;
        match Node::open(server.alloc, engine, a, b, setting) {
            Ok(node) => Ok(live(machine, &mut server, node, &mut acceptor, setting.node)),
            Err(refused) => Err(refused),
        }
    }
}
