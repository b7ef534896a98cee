//! What a group has put out, handed to whom it is for.

ghost use Rattle.std.specs.Prelude.{IfErr, IfSome, OnOk, ◌≡◌, false};
ghost use Rattle.sv_model.specs.Ranges.{IsPacket};
ghost use Rattle.sv_node.specs.Call.{step_ends};
ghost use Rattle.std.specs.List.{AllByRecursion};
ghost use Rattle.sv_host.specs.Outputs.{AreHandedOn, AreSendable, IsHandedOn, IsSendable};
ghost use Rattle.sv_host.specs.Clients.{refused_of};
ghost use Rattle.sv_host.specs.HandingOut.{Concludes, ConcludesRefused, HandsOn, HandsOnAll, HandsOut, HandsOutFrom, HandsOutGroup, IsToldAt, RefusesAll, SameElsewhere, TellsNobody, way_at};
ghost use Rattle.sv_host.specs.Outcome.{group_taken, last_taken, refused, taken_of};
ghost use Rattle.sv_host.specs.Packets.{LeavesRound, sending_after};
ghost use Rattle.sv_host.specs.Parked.{clients_of, place_under, without};
ghost use Rattle.sv_host.specs.Stories.{CarryOn};
ghost use Rattle.sv_host.specs.declared.outcome.Taken.TheVariants.{Quiet};
ghost use Rattle.sv_model.specs.Migration.{addressee};
ghost use Rattle.sv_net.specs.Places.{Spares, naming_of};
ghost use Rattle.sv_net.specs.Sending.{Sends};
ghost use Rattle.sv_record.specs.Frame.{spelling};
ghost use Rattle.sv_record.specs.declared.frame.Frame.TheVariants.{Peer as PeerFrame};
ghost use Rattle.sv_host.specs.Time.{seconds_of};
ghost use Rattle.sv_net.specs.Saying.{Answers, Tells, refused_as};

use crate::fault::Stop;
use crate::group::{Asker, Group, Way};
use crate::outcome::{Taken, answer_byte, refused, sum_up};
use crate::packets::{Packets, Sending};
use crate::round::Share;
use crate::server::Server;
use sv_log::{Event, Loss, Refusal};
use sv_model::{Cause, Output, Packet, Response, StepFault};
use sv_net::address_of;

/// Where what comes of an input goes that nobody asked for.
const NO_WAY: Way = Way {
    asker: Asker::Nobody,
    packets: Packets::All,
};

/// Where what comes of the input at a place goes.
fn way_at(ways: &[Way], at: usize) -> Way
    ensures { result ≡ way_at ways.now at }
{
    match ways.get(at) {
        Some(way) => *way,
        None => NO_WAY,
    }
}

impl Server {
    /// Sends a packet to its node.
    fn send(&mut self, machine: &HostRuntime, packet: Packet)
        requires { IsPacket packet }
        ensures clients { clients_of self.new.parked ≡ clients_of self.old.parked }
        ensures spares { Spares self.old.connections self.new.connections }
        ensures sends { Sends (addressee packet) (spelling (PeerFrame packet)) self.old.connections self.new.connections }
        ensures round { self.new.round ≡ self.old.round }
        ensures carried { CarryOn self.old.connections self.new.connections }
    {
        let to = packet.addressee();
        match address_of(self.ports.as_slice(), to) {
            Some(addr) => self.connections.send(machine, to, addr, packet),
            None => self.connections.report.lost(to, Loss::NoPeer),
        }
    }

    /// Answers the client that waits under a token.
    fn answer(&mut self, token: u64, response: &Response, now: u64)
        ensures clients { clients_of self.new.parked ≡ without token (clients_of self.old.parked) }
        ensures answered { IsToldAt (place_under token (clients_of self.old.parked)) token (λ _ was held. Tells response.now now was held)
            self.old.connections self.new.connections }
        ensures others { SameElsewhere (place_under token (clients_of self.old.parked)) self.old.connections self.new.connections }
        ensures round { self.new.round ≡ self.old.round }
        ensures carried { CarryOn self.old.connections self.new.connections }
    {
        if let Some(place) = self.parked.take(token) {
            self.connections
                .answer(place, token, response, now, &mut self.text);
        }
    }

    /// Refuses the client that waits under a token.
    pub fn refuse(&mut self, token: u64, cause: Cause, now: u64)
        ensures clients { clients_of self.new.parked ≡ without token (clients_of self.old.parked) }
        ensures refused { IsToldAt (place_under token (clients_of self.old.parked)) token
            (λ manner was held. Answers (refused_as (naming_of self.old.connections) cause manner) now was held) self.old.connections self.new.connections }
        ensures others { SameElsewhere (place_under token (clients_of self.old.parked)) self.old.connections self.new.connections }
        ensures round { self.new.round ≡ self.old.round }
        ensures carried { CarryOn self.old.connections self.new.connections }
    {
        if let Some(place) = self.parked.take(token) {
            let session = self.awaited.key_of(token);
            self.connections.report.note(Event::Refused(Refusal {
                cause,
                number: token,
                session,
            }));
            self.connections
                .refuse(place, token, cause, now, &mut self.text);
        }
    }

    /// Hands on one output.
    fn hand_on_one(&mut self, machine: &HostRuntime, output: Output, now: u64)
        requires { IsSendable output }
        ensures told { HandsOn output now self.old self.new }
        ensures round { self.new.round ≡ self.old.round }
        ensures carried { CarryOn self.old.connections self.new.connections }
    {
        match output {
            Output::Send(packet) => self.send(machine, packet),
            Output::Answer { token, response } => self.answer(token, &response, now),
            Output::Refuse { token, cause } => self.refuse(token, cause, now),
            Output::Moved => self.connections.report.note(Event::Moved),
            Output::MoveRefused(why) => self.connections.report.note(Event::MoveRefused { why }),
        }
    }

    /// Hands on one output, but for a packet that isn't to be sent.
    fn hand_on_some(
        &mut self,
        machine: &HostRuntime,
        output: Output,
        now: u64,
        sending: &mut Sending,
    )
        requires { IsSendable output }
        ensures told { HandsOn output now self.old self.new }
        ensures round { self.new.round ≡ self.old.round }
        ensures after { sending.new ≡ sending_after sending.old output }
        ensures carried { CarryOn self.old.connections self.new.connections }
    {
        if sending.takes(&output) {
            self.hand_on_one(machine, output, now);
        }
    }

    /// Hands on what a step has put out, in order: packets to their nodes, answers to the clients that wait for them.
    pub fn hand_on(
        &mut self,
        machine: &HostRuntime,
        outputs: Vec<Output>,
        now: u64,
        packets: Packets,
    )
        requires { AreSendable outputs.items }
        ensures told { HandsOnAll outputs.items now self.old self.new }
        ensures round { LeavesRound packets self.old.round outputs.items self.new.round }
        ensures carried { CarryOn self.old.connections self.new.connections }
    {
        let mut sending = Sending::of(packets, self.round, outputs.as_slice());
        for output in outputs {
            self.hand_on_some(machine, output, now, &mut sending);
        }
        if let Sending::Share(share) = sending {
            self.round = share.end();
        }
    }

    /// Refuses whoever asked for what memory was refused for.
    pub fn turn_away(&mut self, asker: Asker)
        ensures clients { clients_of self.new.parked ≡ refused_of asker (clients_of self.old.parked) }
        ensures carried { CarryOn self.old.connections self.new.connections }
    {
        let now = self.time.seconds();
        self.conclude_refused(asker, StepFault::Memory, now);
    }

    /// What came of a command, told to whoever gave it; a client that waits from now on is watched.
    fn conclude(&mut self, asker: Asker, taken: Taken)
        ensures told { Concludes asker self.old self.new }
        ensures carried { CarryOn self.old.connections self.new.connections }
    {
        match asker {
            Asker::Client { place, token } => {
                if self.connections.waits_at(place, token) {
                    self.connections.call_again(place);
                }
            }
            Asker::Command(place) => self.connections.obeyed(place, answer_byte(taken)),
            Asker::Nobody => {}
        }
    }

    /// The step of an input was refused.
    fn conclude_refused(&mut self, asker: Asker, fault: StepFault, now: u64)
        ensures told { ConcludesRefused asker fault now self.old self.new }
        ensures carried { CarryOn self.old.connections self.new.connections }
    {
        match asker {
            Asker::Client { token, .. } => self.refuse(token, fault.cause(), now),
            Asker::Command(place) => {
                self.connections.report.note(Event::OrderRefused {
                    cause: fault.cause(),
                });
                self.connections.obeyed(place, answer_byte(Taken::Refused));
            }
            Asker::Nobody => self.connections.report.note(Event::LeftOut {
                cause: fault.cause(),
            }),
        }
    }

    /// Hands on what came of one input.
    fn hand_out_one(
        &mut self,
        machine: &HostRuntime,
        way: Way,
        answer: Result<Vec<Output>, StepFault>,
        now: u64,
    ) -> Taken
        requires { IsHandedOn answer }
        ensures told { HandsOut way.asker answer now self.old self.new }
        ensures taken { result ≡ taken_of answer }
        ensures carried { CarryOn self.old.connections self.new.connections }
    {
        match answer {
            Ok(outputs) => {
                let taken = sum_up(outputs.as_slice());
                self.connections.forget_call();
                self.hand_on(machine, outputs, now, way.packets);
                self.conclude(way.asker, taken);
                taken
            }
            Err(fault) => {
                self.conclude_refused(way.asker, fault, now);
                Taken::Refused
            }
        }
    }

    /// Hands on what came of the inputs of a group, in order; what came of the last of them.
    fn hand_out_all(
        &mut self,
        machine: &HostRuntime,
        ways: &[Way],
        answers: Vec<Result<Vec<Output>, StepFault>>,
    ) -> Taken
        requires { AllByRecursion (λ a. IsHandedOn a) answers.items }
        ensures told { HandsOutFrom 0 ways.now answers.items (seconds_of self.old.time) self.old self.new }
        ensures taken { result ≡ last_taken Quiet answers.items }
        ensures carried { CarryOn self.old.connections self.new.connections }
    {
        let now = self.time.seconds();
        let steps = answers.len() as u64;
        let mut taken = Taken::Quiet;
        let mut place: usize = 0;
        for answer in answers {
            let way = way_at(ways, place);
            place = place.saturating_add(1);
            taken = self.hand_out_one(machine, way, answer, now);
        }
        self.connections.report.note(Event::Group { steps });
        taken
    }

    /// Refuses all of a group, of which no step was taken.
    fn refuse_all(&mut self, ways: &[Way], fault: StepFault)
        ensures told { RefusesAll ways.now fault (seconds_of self.old.time) self.old self.new }
        ensures carried { CarryOn self.old.connections self.new.connections }
    {
        let now = self.time.seconds();
        for way in ways {
            self.conclude_refused(way.asker, fault, now);
        }
    }

    /// What comes of a group of which no step was taken. Where a disk has failed nobody is told: its records may be there.
    fn not_taken(&mut self, ways: &[Way], fault: StepFault) -> Result<Taken, Stop>
        ensures refused { result ≡ refused fault }
        ensures goes_on { OnOk result (step_ends fault ≡ false) }
        ensures told { OnOk result (RefusesAll ways.now fault (seconds_of self.old.time) self.old self.new) }
        ensures untold { IfErr result (λ stop. TellsNobody self.old self.new) }
        ensures carried { CarryOn self.old.connections self.new.connections }
    {
        let taken = refused(fault)?;
        self.refuse_all(ways, fault);
        Ok(taken)
    }

    /// Hands on what came of a group; what came of the last of its inputs.
    pub fn hand_out(
        &mut self,
        machine: &HostRuntime,
        ways: &[Way],
        answers: Result<Vec<Result<Vec<Output>, StepFault>>, StepFault>,
    ) -> Result<Taken, Stop>
        requires { AreHandedOn answers }
        ensures taken { result ≡ group_taken answers }
        ensures goes_on { IfErr answers (λ fault. OnOk result (step_ends fault ≡ false)) }
        ensures told { HandsOutGroup ways.now answers result (seconds_of self.old.time) self.old self.new }
        ensures carried { CarryOn self.old.connections self.new.connections }
    {
        match answers {
            Ok(answers) => Ok(self.hand_out_all(machine, ways, answers)),
            Err(fault) => self.not_taken(ways, fault),
        }
    }
}
