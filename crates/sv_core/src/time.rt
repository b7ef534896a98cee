//! What time does: a session expires, a request has waited long enough, and what may have been lost is sent again.

ghost use Rattle.std.specs.Prelude.{◌≡◌, ◌++◌, ℕ, List, [], ◌∷◌, Option, Some, None, not, IfOk, OnOk, map};
ghost use Rattle.std.specs.List.{filter_map};
ghost use Rattle.std.specs.Option.{option_to_list};
ghost use Rattle.std.specs.FinMap.{entries};
ghost use Rattle.sv_core.specs.Time.{wants_of};
ghost use Rattle.sv_core.specs.Plain.{expiring, ticked};
ghost use Rattle.sv_model.specs.Time.{is_late, deadlines, grant_again, first_over, on_tick};

use crate::decision::{Decision, Waiting};
use crate::fault::Memory;
use crate::kept::Kept;
use std::alloc::AllocError;
use sv_model::{
    Cause, Commit, Event, Key, KeyState, Output, Packet, Parked, Record, Setting, Told,
};

/// The request has waited for as long as requests do.
pub fn is_late(setting: Setting, parked: &Parked, steady: u64) -> bool
    ensures { result ≡ is_late setting steady parked.now }
{
    match parked.since.checked_add(setting.deadline) {
        Some(end) => end <= steady,
        None => false,
    }
}

impl Kept {
    ghost use Rattle.sv_core.specs.Kept.{node_of};
    ghost use Rattle.sv_core.specs.Decision.{decision_of};

    /// The requests that have waited long enough are refused.
    fn add_deadlines(&self, outputs: &mut Vec<Output>, steady: u64) -> Result<(), AllocError>
        ensures { OnOk result (outputs.new.items ≡ outputs.old.items ++ deadlines self.now.setting steady self.now.parked.items) }
    {
        for parked in &self.parked {
            if is_late(self.setting, parked, steady) {
                outputs.push(Output::Refuse {
                    token: parked.token,
                    cause: Cause::Deadline,
                })?;
            }
        }
        Ok(())
    }

    /// The request asks for its session again, where it goes on waiting.
    fn add_wants_of(
        &self,
        outputs: &mut Vec<Output>,
        parked: &Parked,
        steady: u64,
    ) -> Result<(), AllocError>
        ensures { OnOk result (outputs.new.items ≡ outputs.old.items ++ wants_of self.now.setting (node_of self.now).durable steady (parked.now ∷ [])) }
    {
        if is_late(self.setting, parked, steady)
            || self.is_settled(parked.key)
            || self.is_crowded(parked.key)
        {
            return Ok(());
        }
        self.add_wants(outputs, parked.key, parked.want)
    }

    /// The requests that go on waiting ask for their sessions again.
    #[tactic(auto, using(crate::proofs::TimeLemmas::wants_of_more))]
    fn add_wants_again(&self, outputs: &mut Vec<Output>, steady: u64) -> Result<(), AllocError>
        ensures { OnOk result (outputs.new.items ≡ outputs.old.items ++ wants_of self.now.setting (node_of self.now).durable steady self.now.parked.items) }
    {
        for parked in &self.parked {
            self.add_wants_of(outputs, parked, steady)?;
        }
        Ok(())
    }

    /// The session is handed over again, where it was handed over.
    fn add_grant_of(
        &self,
        outputs: &mut Vec<Output>,
        key: Key,
        state: &KeyState,
    ) -> Result<(), AllocError>
        ensures { OnOk result (outputs.new.items ≡ outputs.old.items ++ option_to_list (grant_again self.now.setting (key, state.now))) }
    {
        let KeyState::Sent { epoch, session, to } = state else {
            return Ok(());
        };
        outputs.push(Output::Send(Packet::Grant {
            from: self.setting.node,
            to: *to,
            key,
            epoch: *epoch,
            session: session.copy(self.alloc)?,
        }))?;
        Ok(())
    }

    /// The sessions that were handed over are handed over again, in order of their keys.
    fn add_grants_again(&self, outputs: &mut Vec<Output>) -> Result<(), AllocError>
        ensures { OnOk result (outputs.new.items ≡ outputs.old.items ++ filter_map (grant_again self.now.setting) (entries (node_of self.now).durable.keys)) }
    {
        for &(key, place) in self.keys.handed_over() {
            self.add_grant_of(outputs, key, self.keys.state(place))?;
        }
        Ok(())
    }

    /// The key and the context of the session of the least key that has expired.
    fn expiring(&self, now: u64) -> Option<(Key, u8)>
        ensures { result ≡ expiring (first_over now (entries (node_of self.now).durable.keys)) }
    {
        match self.keys.first_over(now) {
            Some((key, KeyState::Active { session, .. })) => Some((key, session.context)),
            _ => None,
        }
    }

    /// Time has passed, and this session has ended.
    fn ticked(
        &self,
        now: u64,
        steady: u64,
        ended: Option<(Key, u8)>,
        outputs: Vec<Output>,
    ) -> Result<Decision, Memory>
        ensures { IfOk result (λ d. d ≡ ticked now steady ended outputs.items) }
    {
        let mut decision = Decision::put_out(self.alloc, outputs);
        decision.waiting = Waiting::Late(steady);
        if let Some((key, context)) = ended {
            decision.entry = Some(Record::Expired(key));
            decision.commit = Some(Commit::Expired { key, now });
            decision.told.push(Told {
                context,
                event: Event::Destroyed(key),
            })?;
        }
        Ok(decision)
    }

    /// Time has passed: it is `now` by the machine's clock as it is set, and `steady` by the one that nobody sets.
    // Out of line, so that the step of a request doesn't clear the values of this one.
    #[inline(never)]
    pub fn on_tick(&self, now: u64, steady: u64) -> Result<Decision, Memory>
        ensures { IfOk result (λ d. decision_of self.now.setting (node_of self.now) d ≡ on_tick self.now.setting (node_of self.now) now steady) }
    {
        let mut outputs = Vec::new(self.alloc);
        self.add_deadlines(&mut outputs, steady)?;
        self.add_wants_again(&mut outputs, steady)?;
        self.add_grants_again(&mut outputs)?;
        self.ticked(now, steady, self.expiring(now), outputs)
    }
}
