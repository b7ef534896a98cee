//! Requests that wait for their sessions.

ghost use Rattle.std.specs.Prelude.{◌≡◌, ◌++◌, IfOk, OnOk, option_copied, position};
ghost use Rattle.sv_model.specs.NodeState.{known, is_settled};
ghost use Rattle.sv_model.specs.Waiting.{wants, waits, parks};
ghost use Rattle.sv_model.specs.Migration.{is_wanted};
ghost use Rattle.sv_model.specs.declared.output.Output.TheVariants.{Send};
ghost use Rattle.sv_model.specs.declared.packet.Packet.TheVariants.{Want};

use crate::decision::{Arrival, Decision, Waiting};
use crate::fault::Memory;
use crate::kept::Kept;
use crate::table::is_same;
use crate::wants::search;
use std::alloc::AllocError;
use sv_model::{Cause, Key, KeyState, Moment, Output, PARK_LIMIT, Packet, Request, Sequence};

/// A request for such a key can be served here at once.
pub fn is_settled(state: Option<&KeyState>) -> bool
    ensures { result ≡ is_settled (option_copied state.entry) }
{
    match state {
        Some(KeyState::Active { .. } | KeyState::Ended { .. }) => true,
        None | Some(KeyState::Sent { .. } | KeyState::Gone { .. }) => false,
    }
}

impl Kept {
    ghost use Rattle.sv_core.specs.Kept.{node_of};
    ghost use Rattle.sv_core.specs.Decision.{decision_of};

    /// A request for the key can be served here at once.
    pub fn is_settled(&self, key: Key) -> bool
        ensures { result ≡ is_settled (known (node_of self.now).durable key) }
    {
        is_settled(self.known(key))
    }

    fn want_to(&self, to: u8, key: Key, want: u64) -> Output
        ensures { result ≡ Send (Want self.now.setting.node to key self.now.boot want) }
    {
        Output::Send(Packet::Want {
            from: self.setting.node,
            to,
            key,
            boot: self.boot,
            want,
        })
    }

    /// Every other node is asked for the session.
    pub fn add_wants(
        &self,
        outputs: &mut Vec<Output>,
        key: Key,
        want: u64,
    ) -> Result<(), AllocError>
        ensures { OnOk result (outputs.new.items ≡ outputs.old.items ++ wants self.now.setting (node_of self.now).durable key want) }
    {
        for to in 0..self.setting.nodes {
            if to != self.setting.node {
                outputs.push(self.want_to(to, key, want))?;
            }
        }
        Ok(())
    }

    /// The request is parked, and its session is asked for.
    fn park(
        &self,
        moment: Moment,
        token: u64,
        request: Request,
        key: Key,
    ) -> Result<Decision, Memory>
        ensures { IfOk result (λ d. decision_of self.now.setting (node_of self.now) d ≡ parks self.now.setting (node_of self.now) moment token request key) }
    {
        let mut outputs = Vec::new(self.alloc);
        self.add_wants(&mut outputs, key, self.next_want)?;
        let arrival = Arrival {
            token,
            request,
            key,
            since: moment.steady,
        };
        Ok(Decision {
            entry: None,
            commit: None,
            told: Sequence::new(self.alloc),
            outputs: Sequence::from_vec(outputs),
            waiting: Waiting::Joins(arrival),
        })
    }

    /// The request waits for its session, where it can.
    // Out of line, so that the step of a request doesn't clear the values of this one.
    #[inline(never)]
    pub fn wait(
        &self,
        moment: Moment,
        token: u64,
        request: Request,
        key: Key,
    ) -> Result<Decision, Memory>
        ensures { IfOk result (λ d. decision_of self.now.setting (node_of self.now) d ≡ waits self.now.setting (node_of self.now) moment token request key) }
    {
        if self.is_crowded(key) {
            return self.refuse(token, Cause::TableFull, None);
        }
        if self.parked.len() >= PARK_LIMIT {
            return self.refuse(token, Cause::ParkFull, None);
        }
        if self.next_want == u64::MAX {
            return self.refuse(token, Cause::WantsSpent, None);
        }
        self.park(moment, token, request, key)
    }

    /// The first request that waits and whose session is active or has ended here.
    pub fn settled_place(&self) -> Option<usize>
        ensures { result ≡ position (λ p. is_settled (known (node_of self.now).durable p.key)) self.now.parked.items }
    {
        let want = *self.settled.first()?;
        search(&self.parked, want).ok()
    }

    /// The first request that waits for the want.
    pub fn wanted_place(&self, key: Key, want: u64) -> Option<usize>
        ensures { result ≡ position (is_wanted key want) self.now.parked.items }
    {
        let at = search(&self.parked, want).ok()?;
        if is_same(self.parked[at].key, key) {
            Some(at)
        } else {
            None
        }
    }
}
