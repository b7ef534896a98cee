//! The requests that wait, after what becomes of them, and the wants of those of them that can be served.

ghost use Rattle.std.specs.Prelude.{◌≡◌, ◌<◌, ◌≤◌, ◌+◌, length, vec_len, vec_capacity};
ghost use Rattle.sv_model.specs.NodeState.{last_number};
ghost use Rattle.sv_core.specs.Decision.{want_by, rearranged};
ghost use Rattle.sv_core.specs.declared.decision.Waiting.TheVariants.{Joins, Leaves, Late};

use crate::decision::{Arrival, Waiting};
use crate::kept::Kept;
use crate::time::is_late;
use crate::wants::{forget, forget_late, list_keys, push_if};
use sv_model::Parked;

impl Kept {
    ghost use Rattle.sv_core.specs.Kept.{node_of};

    /// The request joins those that wait, with the next want.
    fn join(&mut self, arrival: Arrival)
        requires parked { vec_len self.old.parked < vec_capacity self.old.parked }
        requires waited { vec_len self.old.waited < vec_capacity self.old.waited }
        requires settled { length self.old.parked.items < vec_capacity self.old.settled }
        requires want { self.old.next_want + 1 ≤ last_number }
        ensures node { node_of self.new ≡ rearranged self.old.setting (Joins arrival) (node_of self.old) }
        ensures stage { self.new.stage ≡ self.old.stage }
        ensures setting { self.new.setting ≡ self.old.setting }
    {
        let want = self.next_want;
        let Arrival {
            token,
            request,
            key,
            since,
        } = arrival;
        let is_here = self.is_settled(key);
        push_if(&mut self.settled, want, is_here);
        self.waited.push_reserved(key);
        self.parked.push_reserved(Parked {
            token,
            request,
            key,
            since,
            want,
        });
        self.next_want = want + 1;
    }

    /// The one at this place leaves, if there is one.
    fn leave(&mut self, place: usize)
        ensures node { node_of self.new ≡ rearranged self.old.setting (Leaves place) (node_of self.old) }
        ensures stage { self.new.stage ≡ self.old.stage }
        ensures setting { self.new.setting ≡ self.old.setting }
    {
        if place < self.parked.len() {
            let parked = self.parked.remove(place);
            self.waited.remove(place);
            forget(&mut self.settled, parked.want);
        }
    }

    /// Those leave that have waited for as long as requests do.
    fn leave_late(&mut self, steady: u64)
        ensures node { node_of self.new ≡ rearranged self.old.setting (Late steady) (node_of self.old) }
        ensures stage { self.new.stage ≡ self.old.stage }
        ensures setting { self.new.setting ≡ self.old.setting }
    {
        let setting = self.setting;
        forget_late(&mut self.settled, &self.parked, setting, steady);
        self.parked
            .retain(|parked| !is_late(setting, parked, steady));
        list_keys(&mut self.waited, &self.parked);
    }

    /// The requests that wait, after what becomes of them.
    pub fn rearrange(&mut self, waiting: Waiting)
        requires parked { vec_len self.old.parked < vec_capacity self.old.parked }
        requires waited { vec_len self.old.waited < vec_capacity self.old.waited }
        requires settled { length self.old.parked.items < vec_capacity self.old.settled }
        requires want { want_by waiting self.old.next_want ≤ last_number }
        ensures node { node_of self.new ≡ rearranged self.old.setting waiting (node_of self.old) }
        ensures stage { self.new.stage ≡ self.old.stage }
        ensures setting { self.new.setting ≡ self.old.setting }
    {
        match waiting {
            Waiting::Stays => {}
            Waiting::Joins(arrival) => self.join(arrival),
            Waiting::Leaves(place) => self.leave(place),
            Waiting::Late(steady) => self.leave_late(steady),
        }
    }
}
