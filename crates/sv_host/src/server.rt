//! What a running node keeps beside its journal: its clients, its peers, its secrets, and the time.

ghost use Rattle.std.specs.Prelude.{◌≡◌, ◌≤◌, ◌<◌, [], IfErr, IfOk, IsFalse, IsTrue};
ghost use Rattle.sv_net.specs.Places.{naming_of, persistence_of};
ghost use Rattle.sv_host.specs.Group.{inputs_of};
ghost use Rattle.sv_host.specs.HandingOut.{IsHandedOut};
ghost use Rattle.sv_host.specs.Parked.{clients_of};
ghost use Rattle.sv_host.specs.Secrets.{last_of, secret_in, Draws};
ghost use Rattle.sv_host.specs.Serving.{IsServing, HasServed};
ghost use Rattle.sv_host.specs.Stops.{IsLost};
ghost use Rattle.sv_host.specs.Stories.{CarryOn};
ghost use Rattle.sv_host.specs.Time.{seconds_of, steady_of};

use crate::asking::Asking;
use crate::awaited::Awaited;
use crate::expiry::Expiry;
use crate::fault::Stop;
use crate::group::Group;
use crate::holding::Holding;
use crate::outcome::Taken;
use crate::parked::ParkedClients;
use crate::peers::Peers;
use crate::round::Round;
use crate::secrets::Secrets;
use crate::time::{ClockSet, Time, read, steady};
use std::alloc::Global;
use std::rt::Clock;
use std::time::Duration;
use sv_core::Census;
use sv_journal::Disk;
use sv_log::{Event, Level, Milestone, Report};
use sv_model::{Engine, Moment, Parked};
use sv_net::{Connections, port_of};
use sv_node::{Node, SessionCounts};

/// In milliseconds: a turn waits so long, at most.
const TURN: u64 = 1_000;

/// What a running node keeps beside its journal.
pub struct Server {
    /// The port of each node, by its number.
    pub ports: Vec<u16>,
    pub secrets: Secrets,
    pub connections: Connections,
    pub parked: ParkedClients,
    pub peers: Peers,
    /// A text on its way to whom it is for; empty between two steps.
    pub text: Vec<u8>,
    pub time: Time,
    /// When the node last looked at the time, in seconds by the clock that nobody sets.
    pub ticked: u64,
    /// No time has passed since it looked.
    pub is_spared: bool,
    pub expiry: Expiry,
    pub round: Round,
    pub asking: Asking,
    pub holding: Holding,
    pub awaited: Awaited,
    /// The length of the journal after its last compaction; 0 before the first.
    pub compacted: u64,
    pub alloc: Global,
}

/// By hand, so that the proof of a caller has one step for it and not one for each state of its parts.
impl Drop for Server {
    fn drop(self) {
        let Server {
            ports: _,
            secrets: _,
            connections: _,
            parked: _,
            peers: _,
            text: _,
            time: _,
            ticked: _,
            is_spared: _,
            expiry: _,
            round: _,
            asking: _,
            holding: _,
            awaited: _,
            compacted: _,
            alloc: _,
        } = self;
    }
}

/// A group that is given to the node.
#[derive(Clone, Copy)]
struct Write {
    /// When, by the clock that never goes back; none where nobody asks how long it takes.
    begun: Option<Duration>,
    /// The length of the journal before.
    len: u64,
}

impl Server {
    /// Says that the machine's clock was set, where it was.
    fn say_clock(&mut self, set: ClockSet)
        ensures secrets { last_of self.new.secrets ≡ last_of self.old.secrets }
        ensures time { self.new.time ≡ self.old.time }
        ensures ticked { self.new.ticked ≡ self.old.ticked }
        ensures clients { self.new.parked ≡ self.old.parked }
        ensures carried { CarryOn self.old.connections self.new.connections }
    {
        let (way, seconds) = match set {
            ClockSet::No => return,
            ClockSet::Ahead(seconds) => ("ahead", seconds),
            ClockSet::Back(seconds) => ("back", seconds),
        };
        self.connections
            .report
            .note(Event::ClockSet { way, seconds });
    }

    /// Looks at both clocks.
    pub fn now(&mut self, machine: &HostRuntime) -> Time
        ensures time { result ≡ self.new.time }
        ensures never_back { steady_of self.old.time ≤ steady_of self.new.time }
        ensures clients { self.new.parked ≡ self.old.parked }
        ensures secrets { last_of self.new.secrets ≡ last_of self.old.secrets }
        ensures ticked { self.new.ticked ≡ self.old.ticked }
        ensures carried { CarryOn self.old.connections self.new.connections }
    {
        let time = self.time.next(read(machine));
        let set = self.time.was_set(time);
        self.time = time;
        self.connections.report.at(time.seconds());
        self.say_clock(set);
        time
    }

    /// How long a turn may wait for somebody.
    pub fn patience(&self, machine: &HostRuntime) -> Duration {
        if self.expiry.is_due() {
            return Duration::ZERO;
        }
        match self.next_due() {
            Some(due) => Duration::from_millis(due.saturating_sub(steady(machine)).min(TURN)),
            None => Duration::from_millis(TURN),
        }
    }

    /// Whether a second may have begun since the node last looked at the time, by what was seen in this turn of the clock that nobody
    /// sets. Where somebody waits, or a want is held, the time is wanted more exactly; and where nobody is connected the clock wasn't
    /// looked at.
    fn may_begin_second(&self) -> bool
        ensures { IsFalse result → steady_of self.now.time ≤ self.now.ticked }
    {
        self.time.steady_seconds() > self.ticked
            || self.connections.clock().as_secs() > self.ticked
            || self.connections.is_empty()
            || self.parked.may_wait()
            || !self.holding.is_empty()
    }

    /// Whether a second has begun since the node last looked at the time, by the clock that nobody sets. It looks at it now, where one
    /// may have.
    pub fn begins_second(&mut self, machine: &HostRuntime) -> bool
        ensures spared { IsTrue self.old.is_spared → IsFalse result }
        ensures begun { IsTrue result → (self.old.ticked < self.new.ticked) × (self.new.ticked ≡ steady_of self.new.time) }
        ensures same { IsFalse result → self.new.ticked ≡ self.old.ticked }
        ensures none { IsFalse self.old.is_spared → IsFalse result → steady_of self.new.time ≤ self.new.ticked }
        ensures never_back { steady_of self.old.time ≤ steady_of self.new.time }
        ensures clients { self.new.parked ≡ self.old.parked }
        ensures carried { CarryOn self.old.connections self.new.connections }
    {
        if self.is_spared || !self.may_begin_second() {
            return false;
        }
        let second = self.now(machine).steady_seconds();
        if second <= self.ticked {
            return false;
        }
        self.ticked = second;
        true
    }

    /// The moment of a step: what both clocks show, and a secret that no step has had.
    pub fn moment(&mut self, machine: &HostRuntime) -> Result<Moment, Stop>
        ensures time { IfOk result (λ m. (m.now ≡ seconds_of self.new.time) × (m.steady ≡ steady_of self.new.time)) }
        ensures never_back { steady_of self.old.time ≤ steady_of self.new.time }
        ensures clients { self.new.parked ≡ self.old.parked }
        ensures secret { Draws (last_of self.old.secrets) (secret_in result) (last_of self.new.secrets) }
        ensures carried { CarryOn self.old.connections self.new.connections }
    {
        let time = self.now(machine);
        let secret = self.secrets.next()?;
        Ok(Moment {
            now: time.seconds(),
            steady: time.steady_seconds(),
            secret,
        })
    }

    /// The journal was written anew; its lengths in bytes.
    pub fn was_compacted(&mut self, before: u64, after: u64)
        ensures clients { self.new.parked ≡ self.old.parked }
        ensures carried { CarryOn self.old.connections self.new.connections }
    {
        self.compacted = after;
        self.connections.report.measure(after);
        self.connections
            .report
            .note(Event::Compacted { before, after });
    }

    /// Counts what the node keeps, for the figures: the keys that it knows, and the bytes of its journal.
    pub fn count_kept<E, D: Disk>(&mut self, node: &Node<E, D>)
        ensures clients { self.new.parked ≡ self.old.parked }
        ensures carried { CarryOn self.old.connections self.new.connections }
    {
        let Census {
            active,
            sent,
            gone,
            ended,
            homes: _,
        } = node.census();
        let report = &mut self.connections.report;
        report.census(active as u64, sent as u64, gone as u64, ended as u64);
        let SessionCounts {
            made,
            ended,
            expired,
        } = node.session_counts();
        report.turnover(made, ended, expired);
        report.measure(node.journal_len());
    }

    /// The same where the figures are about to be written.
    pub fn count_kept_in_time<E, D: Disk>(&mut self, node: &Node<E, D>)
        ensures clients { self.new.parked ≡ self.old.parked }
        ensures carried { CarryOn self.old.connections self.new.connections }
    {
        if self.connections.report.wants_census() {
            self.count_kept(node);
        }
    }

    /// When a group is given to the node whose journal has so many bytes.
    fn begin_write(&self, machine: &HostRuntime, len: u64) -> Write {
        let begun = if self.connections.report.is_counting() {
            machine.monotonic().ok()
        } else {
            None
        };
        Write { begun, len }
    }

    /// The journal has so many bytes after it: where it has grown the group was written and synced.
    fn end_write(&mut self, machine: &HostRuntime, write: Write, len: u64)
        ensures clients { self.new.parked ≡ self.old.parked }
        ensures carried { CarryOn self.old.connections self.new.connections }
    {
        if let Some(begun) = write.begun
            && len != write.len
            && let Ok(now) = machine.monotonic()
        {
            let duration = now.saturating_sub(begun);
            self.connections.report.written(duration);
        }
    }

    /// Has what happens told to the operator.
    pub fn report_by(&mut self, report: Report)
        ensures ports { self.new.ports ≡ self.old.ports }
        ensures secrets { self.new.secrets ≡ self.old.secrets }
        ensures naming { naming_of self.new.connections ≡ naming_of self.old.connections }
        ensures persistence { persistence_of self.new.connections ≡ persistence_of self.old.connections }
    {
        self.connections.report_by(report);
    }

    /// These requests wait at the node, as time passes.
    pub fn await_by(&mut self, parked: &[Parked])
        ensures clients { self.new.parked ≡ self.old.parked }
        ensures carried { CarryOn self.old.connections self.new.connections }
    {
        if self.connections.report.is_logging() {
            self.awaited.look(parked);
        }
    }

    /// Tells the operator that the node of this number serves.
    pub fn say_ready(&mut self, node: u8) {
        let port = port_of(self.ports.as_slice(), node);
        self.connections
            .report
            .say(Level::Info, Milestone::Ready { node, port });
    }

    /// Tells the operator that the node has stopped, unless a fault does, and whatever else is still to be told.
    pub fn say_stopped(&mut self, machine: &HostRuntime, stop: &Stop) {
        let (waiting, open) = (self.parked.len(), self.connections.len());
        if stop.fault().is_none() {
            self.connections.report.say(Level::Info, Milestone::Stopped);
        }
        self.connections.report.end(machine, waiting, open);
    }

    /// Writes what is to be told to the operator.
    pub fn tell_operator(&mut self, machine: &HostRuntime)
        ensures clients { self.new.parked ≡ self.old.parked }
        ensures carried { CarryOn self.old.connections self.new.connections }
    {
        let (waiting, open) = (self.parked.len(), self.connections.len());
        self.connections.report.turn(machine, waiting, open);
    }

    /// Gives a group to the node, and hands on what comes of it; what came of the last of them.
    pub fn step<E: Engine, D: Disk>(
        &mut self,
        machine: &HostRuntime,
        node: &mut Node<E, D>,
        group: &mut Group,
    ) -> Result<Taken, Stop>
        requires { IsServing E.Engine D.Disk (clients_of self.old.parked) node.old group.old }
        ensures served { HasServed E.Engine D.Disk node.old group.old (clients_of self.new.parked) node.new group.new result }
        ensures told { IsHandedOut E.meaning E.heard D.failed node.old node.new group.old self.old self.new result }
        ensures emptied { inputs_of group.new ≡ [] }
        ensures stops { IfErr result IsLost }
        ensures carried { CarryOn self.old.connections self.new.connections }
    {
        let (inputs, ways) = group.take();
        let write = self.begin_write(machine, node.journal_len());
        let answers = node.step_all(inputs);
        self.end_write(machine, write, node.journal_len());
        // Their time to take an answer, or to bring the next request, begins now, however long the node has had.
        self.connections.look_at_clock(machine);
        self.hand_out(machine, ways.as_slice(), answers)
    }
}
