//! What has come to a node and is made durable together.

ghost use Rattle.std.specs.Option.{option_map};
ghost use Rattle.std.specs.Prelude.{◌≡◌, ◌==◌, ◌<◌, [], slice_get, IsTrue, IsFalse, OnOk, OnErr, length, remove, vec_len, vec_capacity};
ghost use Rattle.sv_model.specs.Ranges.{IsInput};
ghost use Rattle.sv_node.specs.History.{IsAbove, number_in};

use crate::holding::Granted;
use crate::packets::Packets;
use crate::want::Want;
use std::alloc::{AllocError, Global};
use std::mem::replace;
use sv_model::{Input, Moment, Packet, Request};
use sv_net::TURN_LIMIT;

/// So many inputs are made durable together, at most: those of the open connections of a turn, and one of those who stand at the door,
/// or as many as there is room for.
pub const GROUP_LIMIT: usize = TURN_LIMIT + 1;

/// Who is told what has come of an input, beside those that its outputs name.
#[derive(Clone, Copy, Debug, PartialEq, Eq)]
pub enum Asker {
    /// A client, at the place of its connection, under its token.
    Client { place: usize, token: u64 },
    /// Whoever gave a command, at the place of its connection.
    Command(usize),
    /// Nobody.
    Nobody,
}

/// What has come on a connection for the node.
#[derive(Drop)]
pub struct Came {
    pub input: Input,
    pub asker: Asker,
    /// Which of the packets are sent that its step puts out.
    pub packets: Packets,
}

/// To whom what comes of an input goes.
#[derive(Clone, Copy, Debug, PartialEq, Eq)]
pub struct Way {
    pub asker: Asker,
    pub packets: Packets,
}

/// Inputs that have come, in order, each with its moment.
pub struct Group {
    inputs: Vec<(Moment, Input)>,
    ways: Vec<Way>,
    /// The number of the last request before this group.
    before: u64,
    /// The number of the last request.
    number: u64,
    /// So many were in the last group.
    usual: usize,
    alloc: Global,
}

/// By hand, so that the proof of a caller has one step for it.
impl Drop for Group {
    fn drop(self) {
        let Group {
            inputs: _,
            ways: _,
            before: _,
            number: _,
            usual: _,
            alloc: _,
        } = self;
    }
}

/// Takes the one at a place out, where there is one.
fn cut_out<T: Drop>(items: &mut Vec<T>, at: usize)
    ensures { items.new.items ≡ remove items.old.items at }
{
    if at < items.len() {
        items.remove(at);
    }
}

/// The greatest number so far, with this input.
fn number_with(number: u64, input: &Input) -> u64
    ensures { result ≡ number_in number input.now }
{
    match input {
        Input::Ask { token, .. } => *token,
        Input::Packet(_) | Input::Poke | Input::Tick | Input::Move { .. } => number,
    }
}

impl Group {
    ghost use Rattle.sv_host.specs.Group.{inputs_of, ways_of, before_of, number_of, HasOneMore, IsFull, IsRising, IsSame, request_in};
    ghost use Rattle.sv_host.specs.Held.{IsWantAt};
    ghost use Rattle.sv_host.specs.Holding.{grant_at};

    /// No input yet; no request has come before.
    pub fn new(alloc: Global) -> Group
        ensures rising { IsRising result }
        ensures number { number_of result ≡ 0 }
        ensures before { before_of result ≡ 0 }
        ensures empty { inputs_of result ≡ [] }
        ensures nobody { ways_of result ≡ [] }
    {
        Group {
            inputs: Vec::new(alloc),
            ways: Vec::new(alloc),
            before: 0,
            number: 0,
            usual: 1,
            alloc,
        }
    }

    pub fn is_empty(&self) -> bool
        ensures { result ≡ (length (inputs_of self.now) == 0) }
    {
        self.inputs.is_empty()
    }

    pub fn len(&self) -> usize
        ensures { result ≡ length (inputs_of self.now) }
    {
        self.inputs.len()
    }

    /// There is room for one more alone, who is to come.
    pub fn is_full(&self) -> bool {
        self.inputs.len() >= GROUP_LIMIT - 1
    }

    /// The number of the last request.
    pub fn number(&self) -> u64
        ensures { result ≡ number_of self.now }
    {
        self.number
    }

    /// Makes room for one more; for the first one as much as the last group has needed, which is one piece of memory.
    fn reserve(&mut self) -> Result<(), AllocError>
        ensures room { OnOk result ((vec_len self.new.inputs < vec_capacity self.new.inputs) × (vec_len self.new.ways < vec_capacity self.new.ways)) }
        ensures full { OnErr result (IsFull self.old) }
        ensures same { IsSame self.old self.new }
        ensures before { before_of self.new ≡ before_of self.old }
    {
        if self.inputs.capacity() == 0 {
            self.inputs.try_reserve_exact(self.usual)?;
        }
        self.inputs.try_reserve(1)?;
        self.ways.try_reserve(1)?;
        Ok(())
    }

    /// Adds an input after the others; whether there was memory for it.
    pub fn add(&mut self, moment: Moment, input: Input, asker: Asker, packets: Packets) -> bool
        requires rising { IsRising self.old }
        requires input { IsInput input }
        requires above { IsAbove (number_of self.old) input }
        ensures rising { IsRising self.new }
        ensures before { before_of self.new ≡ before_of self.old }
        ensures added { IsTrue result → HasOneMore (moment, input) (record { asker = asker; packets = packets }) self.old self.new }
        ensures same { IsFalse result → IsSame self.old self.new }
        ensures full { IsFalse result → IsFull self.old }
    {
        if self.reserve().is_err() {
            return false;
        }
        self.number = number_with(self.number, &input);
        self.inputs.push_reserved((moment, input));
        self.ways.push_reserved(Way { asker, packets });
        true
    }

    /// The request at a place of them, and the number under which it came; none where it is something else.
    pub fn request(&self, at: usize) -> Option<(u64, &Request)>
        ensures { option_map (λ r. (r.0, r.1.now)) result ≡ request_in (slice_get (inputs_of self.now) at) }
    {
        match self.inputs.get(at) {
            Some((_, Input::Ask { token, request })) => Some((*token, request)),
            _ => None,
        }
    }

    /// The want at a place of them; none where it is something else.
    pub fn want(&self, at: usize) -> Option<Want>
        requires { IsRising self.now }
        ensures { IsWantAt (slice_get (inputs_of self.now) at) result }
    {
        match self.inputs.get(at) {
            Some((_, input)) => Want::of(input),
            None => None,
        }
    }

    /// The session that the input at a place of them brings; none where it is something else.
    pub fn grant(&self, at: usize) -> Option<Granted>
        ensures { result ≡ grant_at (slice_get (inputs_of self.now) at) }
    {
        match self.inputs.get(at) {
            Some(
                (
                    _,
                    Input::Packet(
                        Packet::Grant {
                            from,
                            key,
                            epoch,
                            ..
                        },
                    ),
                ),
            ) => Some(Granted {
                key: *key,
                from: *from,
                epoch: *epoch,
            }),
            _ => None,
        }
    }

    /// Takes the one at a place out, as if it hadn't come. Its number is not given again.
    pub fn leave_out(&mut self, at: usize)
        requires rising { IsRising self.old }
        ensures rising { IsRising self.new }
        ensures before { before_of self.new ≡ before_of self.old }
        ensures number { number_of self.new ≡ number_of self.old }
        ensures inputs { inputs_of self.new ≡ remove (inputs_of self.old) at }
        ensures ways { ways_of self.new ≡ remove (ways_of self.old) at }
    {
        cut_out(&mut self.inputs, at);
        cut_out(&mut self.ways, at);
    }

    /// Takes all of them out; what comes from now on is of the next group.
    pub fn take(&mut self) -> (Vec<(Moment, Input)>, Vec<Way>)
        ensures inputs { result.0.items ≡ inputs_of self.old }
        ensures ways { result.1.items ≡ ways_of self.old }
        ensures empty { inputs_of self.new ≡ [] }
        ensures nobody { ways_of self.new ≡ [] }
        ensures before { before_of self.new ≡ number_of self.old }
        ensures number { number_of self.new ≡ number_of self.old }
        ensures rising { IsRising self.new }
    {
        self.usual = self.inputs.len();
        let inputs = replace(&mut self.inputs, Vec::new(self.alloc));
        let ways = replace(&mut self.ways, Vec::new(self.alloc));
        self.before = self.number;
        (inputs, ways)
    }
}
