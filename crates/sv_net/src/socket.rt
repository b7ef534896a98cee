//! A connection's socket, which waits at most for a moment, and only for what comes first.

ghost use Rattle.std.specs.Prelude.{◌≡◌, ◌++◌, ◌≤◌, [], IfOk, drop, length};
ghost use Rattle.std.specs.Io.{ReadsAtMost, WritesAtMost};
ghost use Rattle.sv_net.specs.Bytes.{IsBlank, IsQuiet, Leaves, came_of, moved, went_of};
ghost use Rattle.sv_net.specs.declared.socket.Written.TheVariants as written;

use crate::stream::Stream;
use mio::unix::SourceFd;
use mio::{Interest, Registry, Token};
use std::io;
use std::io::ErrorKind;
use std::net::TcpStream;
use std::time::Duration;

/// Writes of one text in turn, at most, before it counts as one that isn't taken.
const WRITES: u32 = 64;

/// In milliseconds: so long a patient socket waits for what comes first. Linux makes one tick of its clock of it.
const MOMENT: u64 = 1;

/// The longest text that is written to a socket that waits: a socket that has taken nothing yet has room for it, however little
/// memory there is for sockets, as Linux keeps a page for each (`tcp_wmem` of tcp(7)).
const AT_ONCE: usize = 2_048;

/// What a socket may still wait for.
#[derive(Clone, Copy, Debug, PartialEq, Eq)]
enum Patience {
    /// For what comes first, a moment.
    Hearing,
    /// For room for a first short text, which is there.
    Saying,
    /// For nothing: it is to be made one that never waits before it is used again.
    Spent,
    /// For nothing: it never waits.
    None,
}

/// What may lie unread at a socket.
#[derive(Clone, Copy, Debug, PartialEq, Eq)]
enum Unread {
    /// Something may.
    Maybe,
    /// Nothing did when it was read last, and the poll has told of nothing since: it tells of what comes next, also if that came before
    /// the poll was asked to.
    Nothing,
    /// That the other end sends no more, which is read as the end of what it has sent, and which the poll tells once.
    End,
}

/// A connection's socket.
pub struct Socket {
    stream: Stream,
    patience: Patience,
    unread: Unread,
    /// What the poll reports of it, once it was registered.
    watched: Option<Interest>,
}

/// By hand, so that the proof of a caller has one step for it.
impl Drop for Socket {
    fn drop(self) {
        let Socket {
            stream: _,
            patience: _,
            unread: _,
            watched: _,
        } = self;
    }
}

/// How much of a text was written.
#[derive(Clone, Copy, Debug, PartialEq, Eq)]
pub enum Written {
    All,
    /// The rest is still there, and waits until the other end takes more.
    Part,
    /// The connection has broken.
    Broken,
}

/// What can be told of the other end of a connection that isn't read.
#[derive(Clone, Copy, Debug, PartialEq, Eq)]
pub enum Sign {
    Open,
    /// It sends no more. It may have gone away, or still want its answer.
    Ended,
    /// The connection has broken.
    Broken,
}

/// Whether what couldn't be read may still come: nothing is there yet, or a wait for it was cut short, as where the process was
/// stopped and goes on (signal(7)).
pub fn comes_later(fault: &io::Error) -> bool {
    matches!(fault.kind(), ErrorKind::WouldBlock | ErrorKind::Interrupted)
}

/// Cuts so many bytes off the front of a text.
fn cut(text: &mut Vec<u8>, count: usize)
    requires { count ≤ length text.old.items }
    ensures { text.new.items ≡ drop count text.old.items }
{
    text.drain(..count);
}

impl From<mio::net::TcpStream> for Socket {
    ghost from_gives = { λ _ socket. IsBlank socket.stream };

    fn from(stream: mio::net::TcpStream) -> Socket {
        Socket::new(Stream::new(TcpStream::from(stream)), Patience::None)
    }
}

impl Socket {
    fn new(stream: Stream, patience: Patience) -> Socket
        ensures { result.stream ≡ stream }
    {
        Socket {
            stream,
            patience,
            unread: Unread::Maybe,
            watched: None,
        }
    }

    /// A socket that never waits.
    pub(crate) fn quick(tcp: TcpStream) -> io::Result<Socket>
        ensures { IfOk result (λ socket. IsBlank socket.stream) }
    {
        let stream = Stream::new(tcp);
        stream.hurry()?;
        Ok(Socket::new(stream, Patience::None))
    }

    /// A socket that waits for what comes first, a moment.
    pub(crate) fn patient(tcp: TcpStream) -> io::Result<Socket>
        ensures { IfOk result (λ socket. IsBlank socket.stream) }
    {
        let stream = Stream::new(tcp);
        stream.wait_at_most(Duration::from_millis(MOMENT))?;
        Ok(Socket::new(stream, Patience::Hearing))
    }

    /// Has the socket never wait again.
    fn hurry(&mut self) -> io::Result<()>
        ensures { IsQuiet self.old self.new }
    {
        if self.patience != Patience::None {
            self.stream.hurry()?;
            self.patience = Patience::None;
        }
        Ok(())
    }

    /// The poll has told of it; whether its other end sends no more.
    pub(crate) fn was_told(&mut self, is_ended: bool)
        ensures { IsQuiet self.old self.new }
    {
        if is_ended {
            self.unread = Unread::End;
        } else if self.unread == Unread::Nothing {
            self.unread = Unread::Maybe;
        }
    }

    /// So many bytes were read of so many that there was room for: fewer were all that lay there (epoll(7)).
    fn was_read(&mut self, count: usize, room: usize)
        ensures { IsQuiet self.old self.new }
    {
        if self.unread != Unread::End {
            self.unread = if 0 < count && count < room {
                Unread::Nothing
            } else {
                Unread::Maybe
            };
        }
    }

    /// Nothing lies unread.
    pub(crate) fn is_drained(&self) -> bool {
        self.unread == Unread::Nothing
    }

    /// Reads what is there. Where nothing is, `comes_later` says whether something may still come.
    pub fn read(&mut self, piece: &mut [u8]) -> io::Result<usize>
        ensures most { ReadsAtMost result piece.new }
        ensures came { came_of self.new ≡ came_of self.old ++ moved result piece.new }
        ensures went { went_of self.new ≡ went_of self.old }
    {
        if self.patience == Patience::Hearing {
            self.patience = Patience::Saying;
        } else {
            self.hurry()?;
        }
        let count = self.stream.read(piece)?;
        self.was_read(count, piece.len());
        Ok(count)
    }

    /// Writes as much of a text as the other end takes now.
    fn put(&mut self, text: &[u8]) -> io::Result<usize>
        ensures most { WritesAtMost result text.now }
        ensures came { came_of self.new ≡ came_of self.old }
        ensures went { went_of self.new ≡ went_of self.old ++ moved result text.now }
    {
        if self.patience == Patience::Saying && text.len() <= AT_ONCE {
            self.patience = Patience::Spent;
        } else {
            self.hurry()?;
        }
        self.stream.write(text)
    }

    /// Writes once what the other end takes, and cuts it off; how much that was.
    fn write_once(&mut self, text: &mut Vec<u8>) -> io::Result<usize>
        ensures { Leaves self.old self.new text.old.items text.new.items }
    {
        let count = self.put(text.as_slice())?;
        if count == text.len() {
            text.clear();
        } else {
            cut(text, count);
        }
        Ok(count)
    }

    /// Writes what the other end takes now, and cuts it off.
    pub fn write(&mut self, text: &mut Vec<u8>) -> Written
        ensures left { Leaves self.old self.new text.old.items text.new.items }
        ensures all { result ≡ written.All → text.new.items ≡ [] }
    {
        for _ in 0..WRITES {
            if text.is_empty() {
                return Written::All;
            }
            match self.write_once(text) {
                Ok(0) => return Written::Broken,
                Ok(_) => {}
                Err(fault) if fault.kind() == ErrorKind::WouldBlock => return Written::Part,
                Err(_) => return Written::Broken,
            }
        }
        Written::Broken
    }

    /// Says that nothing more is written.
    pub(crate) fn end_writing(&mut self) -> io::Result<()>
        ensures { IsQuiet self.old self.new }
    {
        self.hurry()?;
        self.stream.end_writing()
    }

    /// What the other end does meanwhile, as far as that can be told without taking what it has sent.
    pub(crate) fn sign(&mut self) -> Sign
        ensures { IsQuiet self.old self.new }
    {
        if self.hurry().is_err() {
            return Sign::Broken;
        }
        let mut piece = [0u8; 1];
        match self.stream.peek(&mut piece) {
            Ok(0) => Sign::Ended,
            Ok(_) => Sign::Open,
            Err(fault) if fault.kind() == ErrorKind::WouldBlock => Sign::Open,
            Err(_) => Sign::Broken,
        }
    }

    /// Has the poll report under a place when the socket becomes ready. False where it can't.
    pub(crate) fn watch(&mut self, registry: &Registry, place: usize, interest: Interest) -> bool
        ensures { IsQuiet self.old self.new }
    {
        self.watched == Some(interest) || self.watch_anew(registry, place, interest)
    }

    /// Has the poll report the socket again, also where it has been ready for long.
    pub(crate) fn watch_anew(
        &mut self,
        registry: &Registry,
        place: usize,
        interest: Interest,
    ) -> bool
        ensures { IsQuiet self.old self.new }
    {
        if self.hurry().is_err() {
            return false;
        }
        let number = self.stream.number();
        let mut source = SourceFd(&number);
        let is_known = self.watched.is_some();
        self.watched = Some(interest);
        let done = if is_known {
            registry.reregister(&mut source, Token(place), interest)
        } else {
            registry.register(&mut source, Token(place), interest)
        };
        done.is_ok()
    }
}
