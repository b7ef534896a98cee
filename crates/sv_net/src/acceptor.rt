//! Where those stand who connect, and where a node waits.

ghost use Rattle.sv_net.specs.Arrival.{IsNew};
ghost use Rattle.sv_net.specs.Exchange.{AllContinue};

use crate::connections::{Connections, OPEN_LIMIT};
use crate::deadline::{TURN, listen};
use crate::hearing::PIECE;
use crate::queue::Queue;
use crate::socket::Socket;
use mio::unix::SourceFd;
use mio::{Events, Interest, Poll, Registry, Token};
use std::alloc::Global;
use std::io;
use std::io::ErrorKind;
use std::net::{OpenListener, OpenStream, SocketAddr, TcpListener, TcpStream};
use std::os::fd::{AsRawFd, RawFd};
use std::time::Duration;

/// In milliseconds: so long a node waits before it tries again to accept somebody for whom there was no room.
const RETRY: u64 = 50;

/// So many of the open connections are gone on with in a turn, before those who stand at the door are let in.
pub const TURN_LIMIT: usize = 63;

/// So many events the poll tells at once: those of all connections that may be open, and of the door. So whoever isn't in the queue
/// once the poll was asked has said nothing that the node could have read.
const EVENTS: usize = OPEN_LIMIT + 1;

/// What the poll calls the listener.
const DOOR: usize = usize::MAX;

/// Who has come.
#[derive(Drop)]
pub enum Arrival {
    Somebody(Socket),
    Nobody,
    /// Somebody may stand at the door, and can't be accepted: the process has as many files open as it may have, or worse.
    NoRoom,
}

/// Where a node waits.
pub struct Acceptor {
    listener: TcpListener,
    poll: Poll,
    events: Events,
    /// The places that are to be gone on with.
    queue: Queue,
    /// So many of them were gone on with in this turn.
    done: usize,
    /// The poll was asked in this turn.
    polled: bool,
    /// `accept` waits.
    waits: bool,
    /// Somebody may stand at the door.
    door: bool,
    /// There was no room for the last one who came.
    is_full: bool,
    /// What is read of a connection.
    piece: [u8; PIECE],
}

/// By hand, so that the proof of a caller has one step for it and not one for each state of its parts.
impl Drop for Acceptor {
    fn drop(self) {
        let Acceptor {
            listener: _,
            poll: _,
            events: _,
            queue: _,
            done: _,
            polled: _,
            waits: _,
            door: _,
            is_full: _,
            piece: _,
        } = self;
    }
}

/// A poll that reports who comes to a listener of this number.
fn poll_of(machine: &HostRuntime, listener: RawFd) -> io::Result<(Poll, Registry)> {
    let poll = Poll::new(machine)?;
    let registry = poll.registry().try_clone()?;
    registry.register(&mut SourceFd(&listener), Token(DOOR), Interest::READABLE)?;
    Ok((poll, registry))
}

/// Who may wait so long may wait at the door.
fn is_long(most: Duration) -> bool {
    most >= Duration::from_secs(TURN)
}

impl Acceptor {
    /// Listens at an address of this machine. Its poll reports who comes there, and all who are registered with it.
    ///
    /// # Errors
    ///
    /// The system refuses the address, the poll, or memory.
    pub fn bind(machine: &HostRuntime, addr: SocketAddr) -> io::Result<(Acceptor, Registry)> {
        let listener = listen(machine, addr)?;
        Acceptor::new(machine, listener)
    }

    /// Has a poll report who comes to a listener.
    fn new(machine: &HostRuntime, listener: TcpListener) -> io::Result<(Acceptor, Registry)> {
        let alloc: Global = machine.alloc();
        let (poll, registry) = poll_of(machine, listener.as_raw_fd())?;
        let events = Events::with_capacity(alloc, EVENTS)?;
        Ok((
            Acceptor {
                listener,
                poll,
                events,
                queue: Queue::new(alloc),
                done: 0,
                polled: false,
                waits: true,
                door: true,
                is_full: false,
                piece: [0; PIECE],
            },
            registry,
        ))
    }

    /// How long the poll may wait for somebody to be looked after, where nothing else is to be done.
    fn patience(&self) -> Duration {
        if self.is_full {
            Duration::from_millis(RETRY)
        } else {
            Duration::from_secs(TURN)
        }
    }

    /// Has the poll report who is to be looked after, and waits for that. A client whose connection has broken is closed at once: what
    /// it may have asked is for nobody.
    fn ask_poll(&mut self, connections: &mut Connections, timeout: Duration)
        ensures { AllContinue connections.old connections.new }
    {
        let _ = self.poll.poll(&mut self.events, Some(timeout));
        for event in &self.events {
            let Token(place) = event.token();
            if place == DOOR {
                self.door = true;
            } else if connections.is_reported(
                place,
                event.is_read_closed(),
                event.is_write_closed(),
            ) {
                self.queue.add(place);
            }
        }
        if self.is_full {
            self.door = true;
        }
    }

    /// Waits for the poll, so long at most, where nothing else is to be done.
    fn wait_for_poll(&mut self, connections: &mut Connections, is_idle: bool, most: Duration)
        ensures { AllContinue connections.old connections.new }
    {
        if is_idle {
            self.ask_poll(connections, self.patience().min(most));
        }
    }

    /// Asks the poll without waiting for it, unless it was just waited for. A wait tells of nobody, too, that was cut short since the
    /// process was stopped and goes on (signal(7)): so what has come meanwhile is gathered before the time is looked at.
    fn look_at_poll(&mut self, connections: &mut Connections, has_waited: bool)
        ensures { AllContinue connections.old connections.new }
    {
        if !has_waited || self.is_quiet() {
            self.ask_poll(connections, Duration::ZERO);
        }
    }

    /// Nobody is known to be looked after.
    fn is_quiet(&self) -> bool {
        self.queue.is_empty() && !self.door
    }

    /// Waits until somebody is to be looked after, so long at most: a turn, or until something else is to be done. While nobody is in
    /// the connections it doesn't wait here, but at the door, if it may for a turn: that needs no call of the poll.
    ///
    /// Else the door is gone to only where the poll says that somebody stands there, who then stays there until accepted, or
    /// where nobody could be accepted before, which never waits: so `accept`, which would wait for a turn, doesn't, and the
    /// listener needn't be switched to and fro.
    ///
    /// Who was put down in the turn before is gone on with before the poll is asked again: what has come of them is there already.
    pub fn wait(&mut self, connections: &mut Connections, most: Duration)
        ensures { AllContinue connections.old connections.new }
    {
        self.queue.forget(self.done);
        self.done = 0;
        connections.queue_due(&mut self.queue);
        self.waits = connections.is_empty() && is_long(most) && !self.is_full;
        if self.waits {
            self.door = true;
            return;
        }
        let count = self.queue.len();
        self.polled = !(self.polled && 0 < count && count <= TURN_LIMIT);
        if self.polled {
            let is_idle = count == 0 && !self.door && !most.is_zero();
            self.wait_for_poll(connections, is_idle, most);
            self.look_at_poll(connections, is_idle);
        }
    }

    /// Has the poll report the door again where somebody stands there. It costs a tenth of an `accept` that finds nobody.
    fn watch_door(&mut self) {
        let number = self.listener.as_raw_fd();
        let again = self
            .poll
            .registry()
            .reregister(&mut SourceFd(&number), Token(DOOR), Interest::READABLE);
        if again.is_err() {
            self.door = true;
        }
    }

    /// Asks the poll, once somebody was accepted, whether somebody else stands at the door: `accept` would wait for one. What the
    /// poll tells of the others meanwhile is of the next turn, so the queue first forgets who was gone on with in this one: what has
    /// come of them since would be taken for what was read.
    pub fn look_at_door(&mut self, connections: &mut Connections)
        ensures { AllContinue connections.old connections.new }
    {
        self.waits = false;
        if !self.door && !self.is_full {
            self.queue.forget(self.done);
            self.done = 0;
            self.ask_poll(connections, Duration::ZERO);
        }
    }

    /// Ends the connections that have taken too long, once in a while. Whoever is in the queue waits for the node, and isn't late.
    pub fn look_round(&self, connections: &mut Connections)
        ensures { AllContinue connections.old connections.new }
    {
        connections.look_round(&self.queue);
    }

    /// Closes the connection that gives way first; false where none does. Whoever is in the queue has said something that wasn't read
    /// yet, and doesn't give way.
    pub fn make_room(&self, connections: &mut Connections) -> bool
        ensures { AllContinue connections.old connections.new }
    {
        connections.make_room(&self.queue)
    }

    /// Whether one more may be open, for whom another gives way where as many are open as may be.
    pub fn has_room(&self, connections: &mut Connections) -> bool
        ensures { AllContinue connections.old connections.new }
    {
        !connections.is_full() || self.make_room(connections)
    }

    /// The places that are gone on with in this turn, and the piece that they are read into.
    pub fn turn(&mut self) -> (&[usize], &mut [u8; PIECE]) {
        (self.queue.front(TURN_LIMIT), &mut self.piece)
    }

    /// The piece that a connection is read into.
    pub fn piece(&mut self) -> &mut [u8; PIECE] {
        &mut self.piece
    }

    /// So many of them were gone on with; the others are the first of the next turn.
    pub fn went_on(&mut self, count: usize) {
        self.done = count;
    }

    /// This turn goes on with what was put down in the one before, and no time has passed since.
    pub fn is_spared(&self) -> bool {
        !self.waits && !self.polled
    }

    /// Somebody may stand at the door.
    pub fn may_accept(&self) -> bool {
        self.door
    }

    /// Accepts a connection. Whatever keeps it out, the node goes on, and tries again.
    pub fn accept(&mut self) -> Arrival
        ensures { IsNew result }
    {
        self.door = false;
        match self.listener.accept() {
            Ok((stream, _)) => {
                self.is_full = false;
                if !self.waits {
                    self.watch_door();
                }
                self.introduce(stream)
            }
            Err(fault) => match fault.kind() {
                ErrorKind::Interrupted => {
                    self.door = true;
                    Arrival::Nobody
                }
                ErrorKind::WouldBlock | ErrorKind::ConnectionAborted => {
                    self.is_full = false;
                    self.watch_door();
                    Arrival::Nobody
                }
                _ => {
                    self.is_full = true;
                    Arrival::NoRoom
                }
            },
        }
    }

    /// Somebody who has come. While nobody else is here, what comes first of them is waited for a moment: that costs less than to
    /// ask the poll for it, and most requests come at once.
    fn introduce(&self, stream: TcpStream) -> Arrival
        ensures { IsNew result }
    {
        let socket = if self.waits {
            Socket::patient(stream)
        } else {
            Socket::quick(stream)
        };
        match socket {
            Ok(socket) => Arrival::Somebody(socket),
            Err(_) => Arrival::Nobody,
        }
    }

    /// A connection has given way: who stands at the door may be accepted.
    pub fn try_again(&mut self) {
        self.is_full = false;
        self.door = true;
    }
}
