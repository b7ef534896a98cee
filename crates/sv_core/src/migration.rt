//! A session that goes from node to node.

ghost use Rattle.std.specs.Prelude.{◌≡◌, ◌∷◌, [], ◌<◌, IfOk, option_copied, List, nat_lt};
ghost use Rattle.sv_model.specs.Migration.{on_want, on_grant, on_ack, on_move, no_if_unmade, says_no, hands_over, takes_over, move_refused};
ghost use Rattle.sv_model.specs.NodeState.{last_number, epoch_in};
ghost use Rattle.sv_model.specs.declared.output.Output.{Output};
ghost use Rattle.sv_model.specs.declared.output.Output.TheVariants.{Moved, Send};
ghost use Rattle.sv_model.specs.declared.packet.Packet.TheVariants.{Ack};

use crate::decision::{Decision, one_output};
use crate::fault::Memory;
use crate::kept::Kept;
use sv_model::{Event, Key, KeyState, MoveRefusal, Output, Packet, Record, Session, Told};

impl Kept {
    ghost use Rattle.sv_core.specs.Kept.{node_of};
    ghost use Rattle.sv_core.specs.Decision.{decision_of};

    /// The session is handed to another node.
    fn hand_over(
        &self,
        key: Key,
        epoch: u64,
        session: &Session,
        to: u8,
        mut outputs: Vec<Output>,
    ) -> Result<Decision, Memory>
        requires { epoch < last_number }
        ensures { IfOk result (λ d. decision_of self.now.setting (node_of self.now) d
            ≡ hands_over self.now.setting (node_of self.now) key epoch session.now to outputs.items) }
    {
        let raised = epoch + 1;
        let grant = Packet::Grant {
            from: self.setting.node,
            to,
            key,
            epoch: raised,
            session: session.copy(self.alloc)?,
        };
        outputs.insert(0, Output::Send(grant))?;
        let entry = Record::Sent {
            key,
            epoch: raised,
            to,
            session: session.copy(self.alloc)?,
        };
        let mark = Told {
            context: session.context,
            event: Event::Passivate(key),
        };
        Decision::recorded(self.alloc, entry, mark, outputs)
    }

    fn says_no(&self, from: u8, key: Key, boot: u64, want: u64) -> Result<Decision, Memory>
        ensures { IfOk result (λ d. decision_of self.now.setting (node_of self.now) d ≡ says_no self.now.setting (node_of self.now) from key boot want) }
    {
        let no = Packet::No {
            from: self.setting.node,
            to: from,
            key,
            boot,
            want,
        };
        Decision::says(self.alloc, Output::Send(no))
    }

    fn no_if_unmade(&self, from: u8, key: Key, boot: u64, want: u64) -> Result<Decision, Memory>
        ensures { IfOk result (λ d. decision_of self.now.setting (node_of self.now) d ≡ no_if_unmade self.now.setting (node_of self.now) from key boot want) }
    {
        if self.is_unmade(key) {
            self.says_no(from, key, boot, want)
        } else {
            Ok(Decision::nothing(self.alloc))
        }
    }

    /// Another node asks for a session.
    pub fn on_want(
        &self,
        from: u8,
        key: Key,
        boot: u64,
        want: u64,
        state: Option<&KeyState>,
    ) -> Result<Decision, Memory>
        ensures { IfOk result (λ d. decision_of self.now.setting (node_of self.now) d
            ≡ on_want self.now.setting (node_of self.now) from key boot want (option_copied state.entry)) }
    {
        match state {
            Some(KeyState::Active { epoch, session }) => {
                if *epoch == u64::MAX {
                    return Ok(Decision::nothing(self.alloc));
                }
                self.hand_over(key, *epoch, session, from, Vec::new(self.alloc))
            }
            Some(KeyState::Sent { epoch, session, to }) if *to == from => {
                let grant = Packet::Grant {
                    from: self.setting.node,
                    to: from,
                    key,
                    epoch: *epoch,
                    session: session.copy(self.alloc)?,
                };
                Decision::says(self.alloc, Output::Send(grant))
            }
            Some(KeyState::Ended { .. }) => self.says_no(from, key, boot, want),
            None | Some(KeyState::Sent { .. } | KeyState::Gone { .. }) => {
                self.no_if_unmade(from, key, boot, want)
            }
        }
    }

    /// The session is taken over.
    fn take_over(
        &self,
        from: u8,
        key: Key,
        epoch: u64,
        session: Session,
    ) -> Result<Decision, Memory>
        ensures { IfOk result (λ d. decision_of self.now.setting (node_of self.now) d ≡ takes_over self.now.setting (node_of self.now) from key epoch session) }
    {
        let mark = Told {
            context: session.context,
            event: Event::Activate(key),
        };
        let outputs = one_output(self.alloc, self.ack(from, key, epoch))?;
        let entry = Record::Taken {
            key,
            epoch,
            from,
            session,
        };
        Decision::recorded(self.alloc, entry, mark, outputs)
    }

    fn ack(&self, to: u8, key: Key, epoch: u64) -> Output
        ensures { result ≡ Send (Ack self.now.setting.node to key epoch) }
    {
        Output::Send(Packet::Ack {
            from: self.setting.node,
            to,
            key,
            epoch,
        })
    }

    /// Another node hands over a session.
    pub fn on_grant(
        &self,
        from: u8,
        key: Key,
        epoch: u64,
        session: Session,
        state: Option<&KeyState>,
    ) -> Result<Decision, Memory>
        ensures { IfOk result (λ d. decision_of self.now.setting (node_of self.now) d
            ≡ on_grant self.now.setting (node_of self.now) from key epoch session (option_copied state.entry)) }
    {
        if self.is_unmade(key) {
            return Ok(Decision::nothing(self.alloc));
        }
        if epoch <= epoch_in(state) {
            return Decision::says(self.alloc, self.ack(from, key, epoch));
        }
        if self.lacks_room(key) {
            return Ok(Decision::nothing(self.alloc));
        }
        self.take_over(from, key, epoch, session)
    }

    /// Another node has acknowledged a session.
    pub fn on_ack(&self, key: Key, epoch: u64, state: Option<&KeyState>) -> Result<Decision, Memory>
        ensures { IfOk result (λ d. decision_of self.now.setting (node_of self.now) d ≡ on_ack (node_of self.now) key epoch (option_copied state.entry)) }
    {
        match state {
            Some(KeyState::Sent { epoch: sent, .. }) if *sent == epoch => {
                Ok(Decision::noted(self.alloc, Record::Gone { key, epoch }))
            }
            _ => Ok(Decision::nothing(self.alloc)),
        }
    }

    /// A session is to be handed to another node.
    // Out of line, so that the step of a request doesn't clear the values of this one.
    #[inline(never)]
    pub fn on_move(&self, key: Key, to: u8, state: Option<&KeyState>) -> Result<Decision, Memory>
        ensures { IfOk result (λ d. decision_of self.now.setting (node_of self.now) d
            ≡ on_move self.now.setting (node_of self.now) key to (option_copied state.entry)) }
    {
        match state {
            None => self.refuse_move(MoveRefusal::UnknownKey),
            Some(KeyState::Active { epoch, session }) => {
                if to == self.setting.node || to >= self.setting.nodes {
                    return self.refuse_move(MoveRefusal::BadPeer);
                }
                if *epoch == u64::MAX {
                    return self.refuse_move(MoveRefusal::EpochsSpent);
                }
                let outputs = one_output(self.alloc, Output::Moved)?;
                self.hand_over(key, *epoch, session, to, outputs)
            }
            Some(KeyState::Sent { .. } | KeyState::Gone { .. } | KeyState::Ended { .. }) => {
                self.refuse_move(MoveRefusal::NotActive)
            }
        }
    }

    fn refuse_move(&self, why: MoveRefusal) -> Result<Decision, Memory>
        ensures { IfOk result (λ d. decision_of self.now.setting (node_of self.now) d ≡ move_refused (node_of self.now) why) }
    {
        Decision::says(self.alloc, Output::MoveRefused(why))
    }
}

/// The epoch of a state; that of an unknown key is 0.
pub fn epoch_in(state: Option<&KeyState>) -> u64
    ensures { result ≡ epoch_in (option_copied state.entry) }
{
    match state {
        None => 0,
        Some(KeyState::Active { epoch, .. }) => *epoch,
        Some(KeyState::Sent { epoch, .. }) => *epoch,
        Some(KeyState::Gone { epoch }) => *epoch,
        Some(KeyState::Ended { epoch }) => *epoch,
    }
}
