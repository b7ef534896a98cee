//! Room for requests that wait, by the home of the session that each of them waits for.

ghost use Rattle.std.specs.Prelude.{◌≡◌, ◌≤◌, ◌<◌, ◌+◌, cond, length, slice_set, IsTrue};
ghost use Rattle.sv_core.specs.Waiting.{awaited};
ghost use Rattle.sv_node.specs.Node.{durable_of, engine_of, setting_of, state_of};
ghost use Rattle.sv_host.specs.Clients.{GathersFor};
ghost use Rattle.sv_host.specs.Parked.{clients_of};
ghost use Rattle.sv_host.specs.Room.{awaited_by, count_in, counted, has_room, left_of, may_come, room_behind, room_of, KeepsOne};
ghost use Rattle.sv_host.specs.Group.{inputs_of, IsRising};
ghost use Rattle.sv_host.specs.Serving.{HasGathered};
ghost use Rattle.sv_host.specs.Stories.{CarryOn};

use crate::group::Group;
use crate::peers::NODES;
use crate::server::Server;
use sv_journal::Disk;
use sv_model::{Cause, Engine, Parked, Request};
use sv_node::Node;

/// So many of the requests that wait may wait for sessions of one home, of the 64 for which a node has places: where one node is
/// down, requests for its sessions leave places for those of the others.
pub const HOME_LIMIT: usize = 32;

/// How many requests wait, by the home of the session that each of them waits for.
#[derive(Clone, Copy, Debug, PartialEq, Eq)]
pub struct Room {
    counts: [usize; NODES],
}

impl Room {
    /// The requests that wait at a node.
    pub fn of(parked: &[Parked]) -> Room
        ensures { result ≡ room_of parked.now }
    {
        let mut room = Room { counts: [0; NODES] };
        for one in parked {
            room.take(one.key.home);
        }
        room
    }

    /// Counts one more that waits for a session of this home, where it may; whether it may.
    pub fn take(&mut self, home: u8) -> bool
        ensures taken { result ≡ has_room self.old home }
        ensures room { self.new ≡ counted self.old home }
        ensures counted { self.new.counts ≡ cond result (slice_set self.old.counts home (count_in self.old home + 1)) self.old.counts }
    {
        let at = usize::from(home);
        if at >= NODES || self.counts[at] >= HOME_LIMIT {
            return false;
        }
        self.counts[at] += 1;
        true
    }
}

impl Server {
    /// Whether a request of a group may be given to the node: it wouldn't wait, or the home of its session has places left.
    fn may_come<E: Engine, D: Disk>(node: &Node<E, D>, room: &mut Room, request: &Request) -> bool
        ensures may { result ≡ may_come room.old (awaited (setting_of node.now) (durable_of node.now) ((E.meaning (engine_of node.now)).names request.now)) }
        ensures room { room.new
            ≡ room_behind room.old (awaited (setting_of node.now) (durable_of node.now) ((E.meaning (engine_of node.now)).names request.now)) }
    {
        match node.awaited(request) {
            Some(key) => room.take(key.home),
            None => true,
        }
    }

    /// Refuses the request at a place of a group, where it may not come; whether it stays.
    fn keep_one<E: Engine, D: Disk>(
        &mut self,
        node: &Node<E, D>,
        room: &mut Room,
        group: &mut Group,
        at: usize,
    ) -> bool
        requires { IsRising group.old }
        ensures gathered { HasGathered group.old group.new }
        ensures clients { GathersFor group.old group.new (clients_of self.old.parked) (clients_of self.new.parked) }
        ensures stays { IsTrue result → inputs_of group.new ≡ inputs_of group.old }
        ensures kept { KeepsOne (awaited_by (E.meaning (engine_of node.now)) (setting_of node.now) (durable_of node.now)) at room.old group.old room.new
            group.new result }
        ensures carried { CarryOn self.old.connections self.new.connections }
    {
        let Some((token, request)) = group.request(at) else {
            return true;
        };
        if Server::may_come(node, room, request) {
            return true;
        }
        group.leave_out(at);
        self.refuse(token, Cause::ParkFull, self.time.seconds());
        false
    }

    /// Refuses those requests of a group that would wait for sessions of a home for which as many wait as may.
    pub fn keep_shares<E: Engine, D: Disk>(&mut self, node: &Node<E, D>, group: &mut Group)
        requires { IsRising group.old }
        ensures gathered { HasGathered group.old group.new }
        ensures clients { GathersFor group.old group.new (clients_of self.old.parked) (clients_of self.new.parked) }
        ensures few { length (clients_of self.old.parked) ≤ HOME_LIMIT → inputs_of group.new ≡ inputs_of group.old }
        ensures kept { HOME_LIMIT < length (clients_of self.old.parked) → inputs_of group.new
            ≡ left_of (awaited_by (E.meaning (engine_of node.now)) (setting_of node.now) (durable_of node.now)) (room_of (state_of node.now).parked)
            (inputs_of group.old) }
        ensures carried { CarryOn self.old.connections self.new.connections }
    {
        if self.parked.len() <= HOME_LIMIT {
            return;
        }
        let mut room = Room::of(node.parked());
        let mut at: usize = 0;
        for _done in 0..group.len() {
            if self.keep_one(node, &mut room, group, at) {
                at = at.saturating_add(1);
            }
        }
    }
}
