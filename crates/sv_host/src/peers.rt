//! What a node says of itself to the others, and what it has heard of them.
//!
//! What nodes were told, and which journal they run over, is a premise of all that is promised of them. Greetings find most of its
//! breaches: an older copy of a journal, a node that was told of too few nodes, and applications that don't have the same contexts.

ghost use Rattle.std.specs.Prelude.{◌≡◌, IfSome, is_some, option_map};
ghost use Rattle.sv_model.specs.Keys.{IsNode};
ghost use Rattle.sv_record.specs.Greeting.{IsGreeting};
ghost use Rattle.sv_host.specs.Time.{seconds_of, steady_of};

use crate::fault::HostFault;
use crate::judging::{Doubt, Known, Own, UNKNOWN, event_of, fault_of};
use crate::time::Time;
use sv_log::{Event, Report};
use sv_model::NODE_LIMIT;
use sv_record::{CONTEXTS_LEN, Errand, Greeting};

/// So many nodes may be in a cluster.
pub const NODES: usize = NODE_LIMIT as usize;

/// In seconds: so often a node that serves greets the others.
const PERIOD: u64 = 10;

/// What a node says of itself to the others, and what it has heard of them.
pub struct Peers {
    node: u8,
    /// What it says; none where it doesn't greet.
    own: Option<Own>,
    known: [Known; NODES],
    /// When it greets next, in seconds by the clock that nobody sets.
    next: u64,
    /// Why it may not go on.
    fault: Option<HostFault>,
    ghost inside: { IsNode node },
}

/// By hand, so that the proof of a caller has one step for it.
impl Drop for Peers {
    fn drop(self) {
        let Peers {
            node: _,
            own: _,
            known: _,
            next: _,
            fault: _,
        } = self;
    }
}

/// Tells that packets of a node aren't taken any more.
fn note_doubt(node: u8, before: Doubt, doubt: Doubt, report: &mut Report) {
    if doubt != before && doubt != Doubt::None {
        report.note(Event::PeerRefused {
            node,
            why: doubt.name(),
        });
    }
}

/// Tells what is new of a node that has said this.
fn note_known(said: &Greeting, before: &Known, known: &Known, time: Time, report: &mut Report) {
    let node = said.from;
    if known.start != before.start {
        report.note(Event::PeerStarted {
            node,
            start: known.start,
        });
    }
    if known.is_apart && !before.is_apart {
        let seconds = time.seconds().abs_diff(said.clock);
        report.note(Event::ClockDiffers { node, seconds });
    }
}

impl Peers {
    ghost use Rattle.sv_host.specs.Peers as spec;
    ghost use Rattle.sv_host.specs.Judging.{doubted, knew};

    /// The node of this number, which greets nobody.
    pub fn none(node: u8) -> Peers
        requires { IsNode node }
    {
        Peers {
            node,
            own: None,
            known: [UNKNOWN; NODES],
            next: 0,
            fault: None,
        }
    }

    /// A node of this number, which was told of so many nodes and has these contexts.
    pub fn of(node: u8, nodes: u8, contexts: [u8; CONTEXTS_LEN]) -> Peers
        requires { IsNode node }
    {
        Peers {
            node,
            own: Some(Own {
                errand: Errand::Opening,
                nodes,
                homes: 0,
                start: 0,
                contexts,
            }),
            known: [UNKNOWN; NODES],
            next: 0,
            fault: None,
        }
    }

    /// Whether it greets the others.
    pub fn is_greeting(&self) -> bool
        ensures { result ≡ is_some self.now.own }
    {
        self.own.is_some()
    }

    /// Whether it greets the node of this number, which is another.
    pub fn greets(&self, to: u8) -> bool
        ensures { result ≡ spec.greets self.now to }
    {
        self.is_greeting() && self.node != to
    }

    /// The node was opened: this is its start of that number. It has sessions of nodes below `homes`.
    pub fn open(&mut self, start: u64, homes: u8)
        ensures { self.new ≡ record self.old { own = option_map (spec.opened_by start homes) self.old.own } }
    {
        if let Some(own) = &mut self.own {
            own.start = start;
            own.homes = homes;
        }
    }

    /// The node serves, and so may make sessions. It has sessions of nodes below `homes`.
    pub fn serve(&mut self, homes: u8)
        ensures { self.new ≡ record self.old { own = option_map (spec.serving_by self.old.node homes) self.old.own } }
    {
        if let Some(own) = &mut self.own {
            let of_it = self.node.saturating_add(1);
            own.homes = if homes < of_it { of_it } else { homes };
            own.errand = Errand::Serving;
        }
    }

    /// Below which number the nodes are whose sessions it or another has, by what those have said of late.
    fn all_homes(&self, homes: u8, steady: u64) -> u8
        ensures { result ≡ spec.all_homes self.now.known homes steady }
    {
        self.known
            .iter()
            .fold(homes, |all, known| known.with_homes(all, steady))
    }

    /// What it says to a node, at this time; none where it doesn't greet.
    pub fn greeting(&self, to: u8, time: Time) -> Option<Greeting>
        requires { IsNode to }
        ensures says { result ≡ spec.greeting self.now to time }
        ensures written { IfSome result IsGreeting }
    {
        let Own {
            errand,
            nodes,
            homes,
            start,
            contexts,
        } = self.own?;
        let heard = match self.known.get(usize::from(to)) {
            Some(known) => known.heard(),
            None => 0,
        };
        Some(Greeting {
            errand,
            from: self.node,
            to,
            nodes,
            homes,
            all_homes: self.all_homes(homes, time.steady_seconds()),
            start,
            heard,
            clock: time.seconds(),
            contexts,
        })
    }

    /// What it answers to who has asked.
    fn answer(&self, said: &Greeting, time: Time) -> Option<Greeting>
        requires { IsGreeting said.now }
        ensures says { result ≡ spec.answer self.now said.now time }
        ensures written { IfSome result IsGreeting }
    {
        match said.errand {
            Errand::Opening | Errand::Look => {
                let mut answer = self.greeting(said.from, time)?;
                answer.errand = Errand::Answer;
                Some(answer)
            }
            Errand::Serving | Errand::Answer => None,
        }
    }

    /// Finds whether packets of a node are taken that says this.
    fn doubt(&mut self, own: &Own, said: &Greeting, steady: u64, report: &mut Report)
        requires { IsGreeting said.now }
        ensures known { self.new.known ≡ spec.changed (doubted own.now said.now steady) said.now.from self.old.known }
        ensures node { self.new.node ≡ self.old.node }
        ensures own { self.new.own ≡ self.old.own }
        ensures fault { self.new.fault ≡ self.old.fault }
    {
        let at = usize::from(said.from);
        let before = self.known[at];
        let known = before.doubted(own, said, steady);
        self.known[at] = known;
        note_doubt(said.from, before.doubt, known.doubt, report);
    }

    /// Takes what another node said: what is known of it from now on.
    fn know(&mut self, said: &Greeting, time: Time, report: &mut Report)
        requires { IsGreeting said.now }
        ensures known { self.new.known ≡ spec.changed (knew said.now (seconds_of time) (steady_of time)) said.now.from self.old.known }
        ensures node { self.new.node ≡ self.old.node }
        ensures own { self.new.own ≡ self.old.own }
        ensures fault { self.new.fault ≡ self.old.fault }
    {
        let at = usize::from(said.from);
        let before = self.known[at];
        let known = before.knew(said, time.seconds(), time.steady_seconds());
        self.known[at] = known;
        note_known(said, &before, &known, time, report);
    }

    /// Finds whether the node may not go on to which this is said.
    fn judge(&mut self, own: &Own, said: &Greeting, report: &mut Report)
        ensures { self.new ≡ record self.old { fault = spec.judged self.old own.now said.now } }
    {
        if let Some(fault) = fault_of(self.node, own, said) {
            report.note(event_of(said, fault));
            self.fault = Some(fault);
        }
    }

    /// Takes a greeting that has come at this time; what is answered, if anything.
    pub fn hear(&mut self, said: &Greeting, time: Time, report: &mut Report) -> Option<Greeting>
        requires { IsGreeting said.now }
        ensures known { self.new.known ≡ spec.known_after self.old said.now time }
        ensures fault { self.new.fault ≡ spec.fault_after self.old said.now }
        ensures written { IfSome result IsGreeting }
    {
        let own = self.own?;
        if said.to != self.node {
            return None;
        }
        if said.errand == Errand::Look || said.from == self.node {
            return self.answer(said, time);
        }
        self.doubt(&own, said, time.steady_seconds(), report);
        // By what was heard before: who asks at its start learns whether an earlier process has said the same or more.
        let answer = self.answer(said, time);
        self.know(said, time, report);
        self.judge(&own, said, report);
        answer
    }

    /// Whether packets of a node are taken.
    pub fn takes(&self, node: u8) -> bool
        ensures { result ≡ spec.takes self.now node }
    {
        match self.known.get(usize::from(node)) {
            Some(known) => known.doubt.is_none(),
            None => true,
        }
    }

    /// Why the node may not go on, if it may not.
    pub fn fault(&self) -> Option<HostFault>
        ensures { result ≡ self.now.fault }
    {
        self.fault
    }

    /// Whether the others are to be greeted now, which is then done: in whole seconds by the clock that nobody sets.
    pub fn is_due(&mut self, steady: u64) -> bool {
        if !self.is_greeting() || steady < self.next {
            return false;
        }
        self.next = steady.saturating_add(PERIOD);
        true
    }
}
