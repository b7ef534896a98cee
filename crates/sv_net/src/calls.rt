//! Packets on their way to other nodes, and the commands that wait until they are sent.

ghost use Rattle.std.specs.Prelude.{◌≡◌, None, IfSome};
ghost use Rattle.sv_model.specs.Ranges.{IsPacket};
ghost use Rattle.sv_net.specs.Bytes.{went_of};
ghost use Rattle.sv_net.specs.Exchange.{AllContinue, GoOnBut, GoOnWith, Obeys, ObeysThere};
ghost use Rattle.sv_net.specs.Places.{HasStood, ServesAlike, Spares, SparesClients, elsewhere, held_at, places_of};
ghost use Rattle.sv_net.specs.Sending.{Admits, IsOwn, SamePeople, Sends, SendsBehind, links_of};
ghost use Rattle.sv_net.specs.declared.state.State.TheVariants.{Calling, Ordering};
ghost use Rattle.sv_record.specs.Frame.{spelling};
ghost use Rattle.sv_record.specs.Greeting.{IsGreeting};
ghost use Rattle.sv_record.specs.declared.frame.Frame.TheVariants.{Peer as PeerFrame};

use crate::connections::Connections;
use crate::links::Link;
use crate::open::Open;
use crate::socket::{Socket, Written};
use crate::state::{Next, State};
use mio::net::TcpStream;
use std::alloc::Global;
use std::net::SocketAddr;
use sv_log::Loss;
use sv_model::Packet;
use sv_record::{Frame, Greeting, write_frame, write_greeting};

/// So many of them are packets on their way to other nodes. One more is lost, and sent again.
const CALL_LIMIT: usize = 128;

/// A packet as a frame; none where memory is refused.
fn spelled(alloc: Global, packet: Packet) -> Option<Vec<u8>>
    requires { IsPacket packet }
    ensures { IfSome result (λ frame. frame.items ≡ spelling (PeerFrame packet)) }
{
    let mut frame = Vec::new(alloc);
    write_frame(&Frame::Peer(packet), &mut frame).ok()?;
    Some(frame)
}

impl Connections {
    /// How many packets are on their way.
    pub(crate) fn calls(&self) -> usize {
        let mut count: usize = 0;
        for slot in &self.places {
            if let Some(
                Open {
                    state: State::Calling { .. },
                    ..
                },
            ) = slot
            {
                count = count.saturating_add(1);
            }
        }
        count
    }

    /// Gives a packet on its way a place. Where there is none, or no memory for it, the packet is lost: nobody gives way for it.
    fn admit_call(&mut self, socket: Socket, state: State) -> Option<usize>
        ensures vacant { IfSome result (λ place. held_at self.old place ≡ None) }
        ensures spares { Spares self.old self.new }
        ensures admits { Admits (λ held. (held.socket ≡ socket) × (held.state ≡ state)) self.old self.new }
        ensures refused { result ≡ None → SamePeople self.old self.new }
        ensures links { links_of self.new ≡ links_of self.old }
        ensures alike { ServesAlike self.old self.new }
    {
        if self.calls() >= CALL_LIMIT {
            return None;
        }
        let place = self.free_place()?;
        self.begin(place, socket, state);
        Some(place)
    }

    /// A packet is sent or lost: the command that waits for that is answered.
    pub(crate) fn release(&mut self, holder: Option<usize>)
        ensures { AllContinue self.old self.new }
    {
        let Some(place) = holder else {
            return;
        };
        let Some(open) = self.take(place) else {
            return;
        };
        match open.state {
            State::Holding(byte) => {
                let (socket, _state, _begun, _heard) = open.into_parts();
                self.tell(place, socket, byte);
            }
            _ => self.keep(place, open),
        }
    }

    /// Sends a packet to a node. What isn't sent is a packet that is lost.
    pub fn send(&mut self, machine: &HostRuntime, to: u8, addr: SocketAddr, packet: Packet)
        requires { IsPacket packet }
        ensures spares { Spares self.old self.new }
        ensures sends { Sends to (spelling (PeerFrame packet)) self.old self.new }
        ensures alike { ServesAlike self.old self.new }
    {
        match spelled(self.alloc, packet) {
            Some(frame) => self.send_frame(machine, to, addr, frame),
            None => self.report.lost(to, Loss::Memory),
        }
    }

    /// Says a greeting to whoever listens at an address, on a connection of its own. One that isn't taken is lost: another follows.
    pub fn greet(&mut self, machine: &HostRuntime, addr: SocketAddr, greeting: &Greeting)
        requires { IsGreeting greeting.now }
        ensures spares { Spares self.old self.new }
        ensures admits { Admits IsOwn self.old self.new }
    {
        let mut text = Vec::new(self.alloc);
        if write_greeting(greeting, &mut text).is_err() {
            return;
        }
        let Ok(stream) = TcpStream::connect(machine, addr) else {
            return;
        };
        self.begin_text(Socket::from(stream), text);
    }

    /// Says a text on a connection that then ends. What isn't taken of it at once is said later, if there is a place for it.
    fn begin_text(&mut self, socket: Socket, text: Vec<u8>)
        ensures spares { Spares self.old self.new }
        ensures admits { Admits IsOwn self.old self.new }
    {
        let (mut socket, mut text) = (socket, text);
        if socket.write(&mut text) != Written::Part {
            return;
        }
        if let Some(place) = self.free_place() {
            let next = Next::Close;
            self.keep(
                place,
                Open::at(socket, State::Saying { text, next }, self.clock),
            );
        }
    }

    /// Sends a frame.
    fn send_frame(&mut self, machine: &HostRuntime, to: u8, addr: SocketAddr, frame: Vec<u8>)
        ensures spares { Spares self.old self.new }
        ensures sends { Sends to frame.items self.old self.new }
        ensures alike { ServesAlike self.old self.new }
    {
        match self.links.link_to(machine, to, addr, self.clock) {
            Some(link) => self.call(link, frame),
            None => self.report.lost(to, Loss::NoSocket),
        }
    }

    /// Sends a frame on a connection. It stays there as long as the frame isn't taken whole; one on which it was is kept for the next.
    fn call(&mut self, link: Link, frame: Vec<u8>)
        ensures spares { Spares self.old self.new }
        ensures sends { SendsBehind link.node (went_of link.socket) frame.items self.old self.new }
        ensures alike { ServesAlike self.old self.new }
    {
        let mut link = link;
        let mut frame = frame;
        match link.socket.write(&mut frame) {
            Written::All => {
                self.report.sent(link.node);
                self.links.keep(link);
            }
            Written::Part => self.keep_call(link.socket, link.node, frame),
            Written::Broken => self.report.lost(link.node, Loss::Broken),
        }
    }

    /// Keeps a connection on which the rest of a frame is to be sent.
    fn keep_call(&mut self, socket: Socket, to: u8, frame: Vec<u8>)
        ensures spares { Spares self.old self.new }
        ensures admits { Admits (λ held. (held.state ≡ Calling to frame None) × (went_of held.socket ≡ went_of socket)) self.old self.new }
        ensures links { links_of self.new ≡ links_of self.old }
        ensures alike { ServesAlike self.old self.new }
    {
        self.calling = self.admit_call(
            socket,
            State::Calling {
                to,
                frame,
                holder: None,
            },
        );
        match self.calling {
            Some(place) => self.watch_call(place),
            None => self.report.lost(to, Loss::NoPlace),
        }
    }

    /// Has the poll report when more of a packet can be sent.
    fn watch_call(&mut self, place: usize)
        ensures stood { HasStood place self.old self.new }
        ensures others { elsewhere place self.new ≡ elsewhere place self.old }
        ensures links { links_of self.new ≡ links_of self.old }
        ensures alike { ServesAlike self.old self.new }
    {
        if let Some(open) = self.take(place) {
            self.keep(place, open);
        }
    }

    /// Forgets the last packet, before a step.
    pub fn forget_call(&mut self)
        ensures { places_of self.new ≡ places_of self.old }
    {
        self.calling = None;
    }

    /// Answers the command at a place by a byte, once the packet is sent or lost that it has put out. Whoever else stands there by now
    /// is told nothing.
    pub fn obeyed(&mut self, place: usize, byte: u8)
        ensures spares { SparesClients self.old self.new }
        ensures told { GoOnBut place (ObeysThere byte (held_at self.old place)) self.old self.new }
    {
        let Some(open) = self.take(place) else {
            return;
        };
        match open.state {
            State::Ordering => self.tell_in_time(place, open, byte),
            _ => self.seat(place, open),
        }
    }

    /// Tells the byte of a command that was taken from its place: at once, if no packet is on its way that its step has put out.
    fn tell_in_time(&mut self, place: usize, open: Open, byte: u8)
        ensures spares { held_at self.old place ≡ None → SparesClients self.old self.new }
        ensures told { held_at self.old place ≡ None → «open».state ≡ Ordering → GoOnBut place (λ held. Obeys byte «open» held) self.old self.new }
    {
        let (socket, _state, _begun, _heard) = open.into_parts();
        if self.hold(place) {
            self.begin(place, socket, State::Holding(byte));
        } else {
            self.tell(place, socket, byte);
        }
    }

    /// Keeps a command's connection until the packet is sent or lost that its step has put out; false if none is on its way.
    fn hold(&mut self, place: usize) -> bool
        ensures spares { SparesClients self.old self.new }
        ensures go_on { AllContinue self.old self.new }
    {
        let Some(call) = self.calling else {
            return false;
        };
        let Some(open) = self.take(call) else {
            return false;
        };
        match open.state {
            State::Calling { .. } => {
                self.seat(call, open.held_for(place));
                true
            }
            _ => {
                self.seat(call, open);
                false
            }
        }
    }

    /// Sends more of a packet.
    pub(crate) fn call_on(&mut self, place: usize, open: Open)
        ensures { GoOnWith place «open» self.old self.new }
    {
        let (mut socket, state, begun, heard) = open.into_parts();
        let State::Calling {
            to,
            mut frame,
            holder,
        } = state
        else {
            self.leave(place);
            return;
        };
        let written = socket.write(&mut frame);
        if written == Written::Part {
            let state = State::Calling { to, frame, holder };
            self.keep_in_time(
                place,
                Open {
                    socket,
                    state,
                    begun,
                    heard,
                },
            );
            return;
        }
        self.leave(place);
        self.called(to, written);
        self.release(holder);
    }

    /// A packet to a node was sent, or was lost as its connection has broken.
    fn called(&mut self, to: u8, written: Written)
        ensures { places_of self.new ≡ places_of self.old }
    {
        if written == Written::All {
            self.report.sent(to);
        } else {
            self.report.lost(to, Loss::Broken);
        }
    }
}
