//! Which of the packets of a tick are sent.
//!
//! A tick puts out again all that may have been lost: the wants of each request that waits, and each session that is on its way. Where
//! a node is down or slow these can be thousands, each of them a connection, so only some are sent each second, in turn.
//! Clients wait for what is wanted, so the wants are in turn among themselves, and are most of what is sent where so many are due.

ghost use Rattle.std.specs.Prelude.{◌≡◌, ◌≤◌, ◌+◌, ◌-◌, ◌^◌, true, false, min, cond, IsTrue, IsFalse, [], ◌∷◌, length};
ghost use Rattle.sv_model.specs.Outputs.{packet_in, sends_in};
ghost use Rattle.sv_host.specs.Round.{is_want, most_wants, rank_of};

use sv_model::{Output, Packet};

/// So many packets of one tick are sent, at most.
pub const ROUND_LIMIT: usize = 128;

/// So many of them are kept for sessions that are on their way, where so many are.
pub const OTHERS: usize = 32;

/// The order in which a tick puts packets out: the wants as their requests came, then the sessions by their keys.
#[derive(Clone, Copy, Debug, PartialEq, Eq)]
struct Rank {
    kind: u8,
    number: u64,
    node: u8,
}

impl Rank {
    ghost use Rattle.sv_host.specs.Round.{is_behind};

    fn of(packet: &Packet) -> Rank
        ensures { result ≡ rank_of packet.now }
    {
        match packet {
            Packet::Want { want, to, .. } => Rank {
                kind: 0,
                number: *want,
                node: *to,
            },
            Packet::Grant { key, to, .. } => Rank {
                kind: key.home.saturating_add(1),
                number: key.serial,
                node: *to,
            },
            Packet::Ack { .. } | Packet::No { .. } => Rank {
                kind: u8::MAX,
                number: 0,
                node: 0,
            },
        }
    }

    /// It stands after another.
    fn is_behind(self, other: Rank) -> bool
        ensures { result ≡ is_behind self other }
    {
        if self.kind != other.kind {
            self.kind > other.kind
        } else if self.number != other.number {
            self.number > other.number
        } else {
            self.node > other.node
        }
    }
}

/// It asks for a session.
fn is_want(packet: &Packet) -> bool
    ensures { result ≡ is_want packet.now }
{
    match packet {
        Packet::Want { .. } => true,
        Packet::Grant { .. } | Packet::Ack { .. } | Packet::No { .. } => false,
    }
}

/// Packets that are sent in turn: the one that was sent last, so that the next tick's begin after it. It is remembered by what it says,
/// and not by how many were in front of it: some of those are gone by then.
#[derive(Clone, Copy, Debug, PartialEq, Eq)]
struct Line {
    last: Option<Rank>,
}

/// How many packets of a line may still be sent of a tick: of those after the last one that was sent before, and, where these are too
/// few, of those from the first one on.
#[derive(Clone, Copy, Debug, PartialEq, Eq)]
struct Part {
    before: Line,
    behind: usize,
    front: usize,
    /// It has some of those from the first one on, the last of which is the last in turn.
    wraps: bool,
    /// The last one of the part so far, in turn.
    last: Option<Rank>,
}

/// How many packets of a line a tick has put out: those after the last one that was sent before, and the others.
#[derive(Clone, Copy, Debug, PartialEq, Eq)]
struct Due {
    behind: usize,
    front: usize,
}

/// Which packets of a tick are the next ones.
#[derive(Clone, Copy, Debug, PartialEq, Eq)]
pub struct Round {
    wants: Line,
    others: Line,
}

/// How many packets of a tick may still be sent.
#[derive(Clone, Copy, Debug, PartialEq, Eq)]
pub struct Share {
    wants: Part,
    others: Part,
}

fn at_most(count: usize, limit: usize) -> usize
    ensures least { result ≡ min count limit }
    ensures within { result ≤ limit }
{
    if count < limit { count } else { limit }
}

impl Due {
    /// None.
    const NONE: Due = Due {
        behind: 0,
        front: 0,
    };

    /// With so many more.
    fn with(self, one: Due) -> Due
        ensures behind { result.behind ≡ min (self.behind + one.behind) (2 ^ 64 - 1) }
        ensures front { result.front ≡ min (self.front + one.front) (2 ^ 64 - 1) }
    {
        Due {
            behind: self.behind.saturating_add(one.behind),
            front: self.front.saturating_add(one.front),
        }
    }

    /// How many there are.
    fn count(self) -> usize
        ensures { result ≡ min (self.behind + self.front) (2 ^ 64 - 1) }
    {
        self.behind.saturating_add(self.front)
    }
}

impl Line {
    ghost use Rattle.sv_host.specs.Round.{behind_by, behind_in, front_by, front_in, is_next, IsPartOf};

    /// None was sent so far.
    const START: Line = Line { last: None };

    /// It comes after the last one.
    fn is_next(self, rank: Rank) -> bool
        ensures { result ≡ is_next self.last rank }
    {
        match self.last {
            Some(last) => rank.is_behind(last),
            None => true,
        }
    }

    /// One packet, on its side of the last one.
    fn side(self, packet: &Packet) -> Due
        ensures behind { result.behind ≡ cond (is_next self.last (rank_of packet.now)) 1 0 }
        ensures front { result.front ≡ cond (is_next self.last (rank_of packet.now)) 0 1 }
    {
        if self.is_next(Rank::of(packet)) {
            Due {
                behind: 1,
                front: 0,
            }
        } else {
            Due {
                behind: 0,
                front: 1,
            }
        }
    }

    /// What an output is to the line of the wants, or to that of the others.
    fn due_of(self, wants: bool, output: &Output) -> Due
        ensures behind { result.behind ≡ behind_by wants self.last (packet_in output.now) }
        ensures front { result.front ≡ front_by wants self.last (packet_in output.now) }
    {
        match output {
            Output::Send(packet) if is_want(packet) == wants => self.side(packet),
            _ => Due::NONE,
        }
    }

    /// How many of its packets a tick has put out, the wants or the others.
    fn due(self, wants: bool, outputs: &[Output]) -> Due
        ensures behind { result.behind ≡ min (behind_in wants self.last outputs.now) (2 ^ 64 - 1) }
        ensures front { result.front ≡ min (front_in wants self.last outputs.now) (2 ^ 64 - 1) }
    {
        let mut due = Due::NONE;
        for output in outputs {
            due = due.with(self.due_of(wants, output));
        }
        due
    }

    /// The part of a tick that puts out so many, of which so many may be sent.
    fn part(self, due: Due, most: usize) -> Part
        ensures { IsPartOf self due.behind due.front most result }
    {
        let behind = at_most(due.behind, most);
        let front = at_most(due.front, most - behind);
        Part {
            before: self,
            behind,
            front,
            wraps: front > 0,
            last: self.last,
        }
    }
}

impl Part {
    ghost use Rattle.sv_host.specs.Round.{behind_after, front_after, has_left, is_next, left_of, part_after};

    /// How many may still be sent.
    fn left(self) -> usize
        requires { left_of self ≤ ROUND_LIMIT }
        ensures { result ≡ left_of self }
    {
        self.behind + self.front
    }

    /// Whether a packet is sent, of those of the tick in order.
    fn takes(&mut self, rank: Rank) -> bool
        ensures taken { IsTrue result → left_of self.new + 1 ≡ left_of self.old }
        ensures left { IsFalse result → left_of self.new ≡ left_of self.old }
        ensures lets { result ≡ has_left self.old (is_next self.old.before.last rank) }
        ensures after { self.new ≡ part_after self.old rank }
        ensures before { self.new.before ≡ self.old.before }
    {
        if self.before.is_next(rank) {
            self.takes_behind(rank)
        } else {
            self.takes_front(rank)
        }
    }

    /// The same of one that comes after the last one.
    fn takes_behind(&mut self, rank: Rank) -> bool
        ensures taken { IsTrue result → left_of self.new + 1 ≡ left_of self.old }
        ensures left { IsFalse result → left_of self.new ≡ left_of self.old }
        ensures lets { result ≡ has_left self.old true }
        ensures after { self.new ≡ behind_after self.old rank }
        ensures before { self.new.before ≡ self.old.before }
    {
        if self.behind == 0 {
            return false;
        }
        self.behind -= 1;
        if !self.wraps {
            self.last = Some(rank);
        }
        true
    }

    /// The same of one that doesn't.
    fn takes_front(&mut self, rank: Rank) -> bool
        ensures taken { IsTrue result → left_of self.new + 1 ≡ left_of self.old }
        ensures left { IsFalse result → left_of self.new ≡ left_of self.old }
        ensures lets { result ≡ has_left self.old false }
        ensures after { self.new ≡ front_after self.old rank }
        ensures before { self.new.before ≡ self.old.before }
    {
        if self.front == 0 {
            return false;
        }
        self.front -= 1;
        self.last = Some(rank);
        true
    }

    /// Where the next tick's packets begin.
    fn end(self) -> Line
        ensures { result.last ≡ self.last }
    {
        Line { last: self.last }
    }
}

/// How many wants of a tick may be sent that puts out so many others.
fn most_wants(others: usize) -> usize
    ensures { result ≡ most_wants others }
{
    ROUND_LIMIT - at_most(others, OTHERS)
}

impl Round {
    ghost use Rattle.sv_host.specs.Round.{left_in, IsShareOf, IsShareOfWants};

    /// None was sent so far.
    pub const START: Round = Round {
        wants: Line { last: None },
        others: Line { last: None },
    };

    /// The share of a tick that puts out these.
    pub fn share(self, outputs: &[Output]) -> Share
        ensures share { IsShareOf self outputs.now result }
        ensures few { left_in result ≤ ROUND_LIMIT }
    {
        let others = self.others.due(false, outputs);
        let most = most_wants(others.count());
        let wants = self.wants.part(self.wants.due(true, outputs), most);
        Share {
            wants,
            others: self.others.part(others, ROUND_LIMIT - wants.left()),
        }
    }

    /// The same of the wants alone.
    pub fn share_of_wants(self, outputs: &[Output]) -> Share
        ensures share { IsShareOfWants self outputs.now result }
        ensures few { left_in result ≤ ROUND_LIMIT }
    {
        Share {
            wants: self.wants.part(self.wants.due(true, outputs), ROUND_LIMIT),
            others: self.others.part(Due::NONE, 0),
        }
    }
}

impl Share {
    ghost use Rattle.sv_host.specs.Round.{has_left, is_next, left_in, lets, part_of, round_at, share_after, share_after_packet};

    /// Whether an output is handed on, of those of the tick in order. What isn't sent is a packet that is lost.
    pub fn takes(&mut self, output: &Output) -> bool
        ensures taken { IsTrue result → left_in self.new + length (sends_in (output.now ∷ [])) ≡ left_in self.old }
        ensures left { IsFalse result → left_in self.new ≡ left_in self.old }
        ensures lets { result ≡ lets self.old (packet_in output.now) }
        ensures after { self.new ≡ share_after self.old (packet_in output.now) }
        ensures wants { self.new.wants.before ≡ self.old.wants.before }
        ensures others { self.new.others.before ≡ self.old.others.before }
    {
        match output {
            Output::Send(packet) => self.takes_packet(packet),
            _ => true,
        }
    }

    /// The same of a packet.
    fn takes_packet(&mut self, packet: &Packet) -> bool
        ensures taken { IsTrue result → left_in self.new + 1 ≡ left_in self.old }
        ensures left { IsFalse result → left_in self.new ≡ left_in self.old }
        ensures lets { result ≡ has_left (part_of self.old (is_want packet.now))
            (is_next (part_of self.old (is_want packet.now)).before.last (rank_of packet.now)) }
        ensures after { self.new ≡ share_after_packet (is_want packet.now) self.old (rank_of packet.now) }
        ensures wants { self.new.wants.before ≡ self.old.wants.before }
        ensures others { self.new.others.before ≡ self.old.others.before }
    {
        let rank = Rank::of(packet);
        if is_want(packet) {
            self.wants.takes(rank)
        } else {
            self.others.takes(rank)
        }
    }

    /// Where the next tick's packets begin.
    pub fn end(self) -> Round
        ensures { result ≡ round_at self }
    {
        Round {
            wants: self.wants.end(),
            others: self.others.end(),
        }
    }
}
