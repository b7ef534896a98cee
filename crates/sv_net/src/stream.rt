//! The bytes of a socket, where the kernel is asked for them.

ghost use Rattle.std.specs.Prelude.{◌≡◌, ◌++◌};
ghost use Rattle.std.specs.Io.{ReadsAtMost, WritesAtMost};
ghost use Rattle.sv_net.specs.Bytes.{IsBlank, moved};

use crate::tape::Tape;
use std::io;
use std::io::{Read, Write};
use std::net::{OpenStream, Shutdown, TcpStream};
use std::os::fd::{AsRawFd, RawFd};
use std::time::Duration;

/// A stream of the kernel, with all that it gave and took. Nobody else has the stream, so these functions are all that is read or written
/// of it.
///
/// That `read` and `write` make the call that they note is read here, and not proved: nothing else of what their clauses say is taken
/// on trust.
pub struct Stream {
    tcp: TcpStream,
    came: Tape,
    went: Tape,
}

/// By hand, so that the proof of a caller has one step for it.
impl Drop for Stream {
    fn drop(self) {
        let Stream {
            tcp: _,
            came: _,
            went: _,
        } = self;
    }
}

impl Stream {
    /// A stream of which nothing was read yet, and to which nothing was written.
    pub(crate) fn new(tcp: TcpStream) -> Stream
        ensures { IsBlank result }
    {
        Stream {
            tcp,
            came: Tape::new(),
            went: Tape::new(),
        }
    }

    /// Asks the kernel once for what has come.
    pub(crate) fn read(&mut self, piece: &mut [u8]) -> io::Result<usize>
        ensures most { ReadsAtMost result piece.new }
        ensures came { self.new.came.bytes ≡ self.old.came.bytes ++ moved result piece.new }
        ensures went { self.new.went.bytes ≡ self.old.went.bytes }
    {
        let count = self.tcp.read(piece)?;
        self.came.note(&piece[..count]);
        Ok(count)
    }

    /// Gives the kernel a text once, of which it takes what it has room for.
    pub(crate) fn write(&mut self, text: &[u8]) -> io::Result<usize>
        ensures most { WritesAtMost result text.now }
        ensures came { self.new.came.bytes ≡ self.old.came.bytes }
        ensures went { self.new.went.bytes ≡ self.old.went.bytes ++ moved result text.now }
    {
        let count = self.tcp.write(text)?;
        self.went.note(&text[..count]);
        Ok(count)
    }

    /// What has come, without taking it.
    pub(crate) fn peek(&self, piece: &mut [u8]) -> io::Result<usize> {
        self.tcp.peek(piece)
    }

    /// Has it never wait.
    pub(crate) fn hurry(&self) -> io::Result<()> {
        self.tcp.set_nonblocking(true)
    }

    /// Has a read wait so long at most.
    pub(crate) fn wait_at_most(&self, pause: Duration) -> io::Result<()> {
        self.tcp.set_read_timeout(Some(pause))
    }

    /// Says that nothing more is written.
    pub(crate) fn end_writing(&self) -> io::Result<()> {
        self.tcp.shutdown(Shutdown::Write)
    }

    /// What the kernel calls it.
    pub(crate) fn number(&self) -> RawFd {
        self.tcp.as_raw_fd()
    }
}
