//! Which inputs of a turn are given to the node now, and which later.

ghost use Rattle.std.specs.Prelude.{◌≡◌, IfErr, IsFalse, IsTrue, remove};
ghost use Rattle.sv_host.specs.Clients.{GathersFor};
ghost use Rattle.sv_host.specs.Group.{inputs_of, IsRising};
ghost use Rattle.sv_host.specs.Held.{HasMoreWants, others_in};
ghost use Rattle.sv_host.specs.Parked.{clients_of};
ghost use Rattle.sv_host.specs.Secrets.{last_of};
ghost use Rattle.sv_host.specs.Serving.{HasGathered};
ghost use Rattle.sv_host.specs.Stops.{LacksSecrets};
ghost use Rattle.sv_host.specs.Stories.{CarryOn};

use crate::fault::Stop;
use crate::group::{Asker, Group};
use crate::held::{HELD_LIMIT, sooner_of};
use crate::holding::{Granted, waiting};
use crate::packets::Packets;
use crate::server::Server;
use crate::want::Want;
use sv_model::Parked;

impl Server {
    /// A grant has come: how many requests wait for the session that it brings.
    fn note_grant(&mut self, parked: &[Parked], granted: Granted, now: u64) -> usize
        ensures clients { self.new.parked ≡ self.old.parked }
        ensures carried { CarryOn self.old.connections self.new.connections }
    {
        let count = waiting(parked, granted.key);
        if !self.holding.come(granted, count, now) {
            return 0;
        }
        if count > 0 {
            self.asking = self.asking.sooner(now);
        }
        count
    }

    /// Holds the want at a place of a group, where it is to be held; whether it stays there.
    fn hold_one(&mut self, parked: &[Parked], group: &mut Group, at: usize, now: u64) -> bool
        requires { IsRising group.old }
        ensures gathered { HasGathered group.old group.new }
        ensures clients { GathersFor group.old group.new (clients_of self.old.parked) (clients_of self.new.parked) }
        ensures others { others_in (inputs_of group.new) ≡ others_in (inputs_of group.old) }
        ensures stays { IsTrue result → inputs_of group.new ≡ inputs_of group.old }
        ensures left { IsFalse result → inputs_of group.new ≡ remove (inputs_of group.old) at }
        ensures carried { CarryOn self.old.connections self.new.connections }
    {
        let Some(want) = group.want(at) else {
            return true;
        };
        let waits = waiting(parked, want.key) > 0;
        if !self.holding.holds(want.key, waits, now) {
            return true;
        }
        self.holding.hold(want, now);
        group.leave_out(at);
        false
    }

    /// What is done with the input at a place of a group: how many requests wait for what it brings, and whether it stays there.
    fn look_at(
        &mut self,
        parked: &[Parked],
        group: &mut Group,
        at: usize,
        now: u64,
    ) -> (usize, bool)
        requires { IsRising group.old }
        ensures gathered { HasGathered group.old group.new }
        ensures clients { GathersFor group.old group.new (clients_of self.old.parked) (clients_of self.new.parked) }
        ensures others { others_in (inputs_of group.new) ≡ others_in (inputs_of group.old) }
        ensures carried { CarryOn self.old.connections self.new.connections }
    {
        match group.grant(at) {
            Some(granted) => (self.note_grant(parked, granted, now), true),
            None => (0, self.hold_one(parked, group, at, now)),
        }
    }

    /// Takes those wants out of a group that are to be held; how many requests wait for the sessions that come with it.
    pub fn hold_wants(&mut self, parked: &[Parked], group: &mut Group, now: u64) -> usize
        requires { IsRising group.old }
        ensures gathered { HasGathered group.old group.new }
        ensures clients { GathersFor group.old group.new (clients_of self.old.parked) (clients_of self.new.parked) }
        ensures others { others_in (inputs_of group.new) ≡ others_in (inputs_of group.old) }
        ensures carried { CarryOn self.old.connections self.new.connections }
    {
        let mut come: usize = 0;
        let mut at: usize = 0;
        for _done in 0..group.len() {
            let (count, stays) = self.look_at(parked, group, at, now);
            come = come.saturating_add(count);
            if stays {
                at = at.saturating_add(1);
            }
        }
        come
    }

    /// Adds a want that was held to a group.
    fn release_one(
        &mut self,
        machine: &HostRuntime,
        group: &mut Group,
        want: Want,
    ) -> Result<(), Stop>
        requires { IsRising group.old }
        ensures gathered { HasGathered group.old group.new }
        ensures clients { GathersFor group.old group.new (clients_of self.old.parked) (clients_of self.new.parked) }
        ensures more { HasMoreWants group.old group.new }
        ensures stops { IfErr result (LacksSecrets (last_of self.new.secrets)) }
        ensures carried { CarryOn self.old.connections self.new.connections }
    {
        let moment = self.moment(machine)?;
        let _added = group.add(moment, want.input(), Asker::Nobody, Packets::All);
        Ok(())
    }

    /// The time by which wants are held, in milliseconds by the clock that nobody sets. Where none is held that is the time of the last
    /// input.
    pub fn held_time(&mut self, machine: &HostRuntime) -> u64
        ensures clients { self.new.parked ≡ self.old.parked }
        ensures carried { CarryOn self.old.connections self.new.connections }
    {
        if self.holding.is_empty() {
            self.time.steady
        } else {
            self.now(machine).steady
        }
    }

    /// Adds those wants to a group that were held and are due by then.
    pub fn release(
        &mut self,
        machine: &HostRuntime,
        group: &mut Group,
        now: u64,
    ) -> Result<(), Stop>
        requires { IsRising group.old }
        ensures gathered { HasGathered group.old group.new }
        ensures clients { GathersFor group.old group.new (clients_of self.old.parked) (clients_of self.new.parked) }
        ensures more { HasMoreWants group.old group.new }
        ensures stops { IfErr result (LacksSecrets (last_of self.new.secrets)) }
        ensures carried { CarryOn self.old.connections self.new.connections }
    {
        for _ in 0..HELD_LIMIT {
            let Some(want) = self.holding.take_due(now) else {
                return Ok(());
            };
            self.release_one(machine, group, want)?;
        }
        Ok(())
    }

    /// When something is to be done though nobody calls, in milliseconds by the clock that nobody sets; none where nothing is.
    pub fn next_due(&self) -> Option<u64> {
        match self.asking.due {
            Some(due) => sooner_of(self.holding.next(), due),
            None => self.holding.next(),
        }
    }
}
