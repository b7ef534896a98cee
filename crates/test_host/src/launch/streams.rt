//! Readers that give little or fail, and writers that fail.

use super::{Row, Table};
use crate::expect::push_bytes;
use std::alloc::Global;
use std::io;
use std::io::{ErrorKind, Read, Write};
use std::process::Abort;
use sv_launch::Fault;
use sv_showcase::BUILT_IN;

/// How a stream is read and written.
#[derive(Clone, Copy)]
pub enum Way {
    Whole,
    /// A byte at a time is read.
    Dribbling,
    /// Reading fails after the last byte.
    Broken,
    /// Nothing can be written.
    Shut,
}

/// A stream that is read.
#[derive(Drop)]
pub struct Input<'a> {
    rest: &'a [u8],
    /// So many bytes are given at once at most.
    most: usize,
    is_broken: bool,
}

impl<'a> Input<'a> {
    pub fn new(text: &'a str, way: Way) -> Input<'a> {
        Input {
            rest: text.as_bytes(),
            most: match way {
                Way::Dribbling => 1,
                _ => usize::MAX,
            },
            is_broken: matches!(way, Way::Broken),
        }
    }
}

impl Read for Input<'_> {
    fn read(&mut self, buf: &mut [u8]) -> io::Result<usize> {
        if self.is_broken && self.rest.is_empty() {
            return Err(ErrorKind::ConnectionReset.into());
        }
        let most = buf.len().min(self.most);
        self.rest.read(&mut buf[..most])
    }
}

/// What is written for a stream, as text.
#[derive(Drop)]
pub struct Output {
    text: String,
    is_shut: bool,
}

impl Output {
    pub fn new(alloc: Global, way: Way) -> Output {
        Output {
            text: String::new(alloc),
            is_shut: matches!(way, Way::Shut),
        }
    }

    /// All that was written, with the fault after it that has ended the stream, and its exit status.
    pub fn ended(self, rt: &impl Abort, end: Result<(), Fault>) -> String {
        let Output { mut text, .. } = self;
        if let Err(fault) = end {
            write!(text, "{fault} {}", fault.status()).expect(rt, "memory");
        }
        text
    }
}

impl Write for Output {
    fn write(&mut self, buf: &[u8]) -> io::Result<usize> {
        if self.is_shut {
            return Err(ErrorKind::BrokenPipe.into());
        }
        push_bytes(&mut self.text, buf)?;
        Ok(buf.len())
    }

    fn flush(&mut self) -> io::Result<()> {
        Ok(())
    }
}

pub static TABLES: [Table; 3] = [
    Table {
        descriptor: BUILT_IN,
        way: Way::Dribbling,
        rows: &[Row(
            "a reader that gives a byte at a time",
            "GET /shop/hello HTTP/1.1\r\nHost: localhost\r\n\r\nGET /shop/hello HTTP/1.1\r\nHost: localhost\r\n\r\n",
            "HTTP/1.1 200 OK\r\nDate: Sun, 06 Nov 1994 08:49:37 GMT\r\ncontent-type: text/plain\r\nContent-Length: 6\r\n\r\nHello\nHTTP/1.1 200 OK\r\nDate: Sun, 06 Nov 1994 08:49:37 GMT\r\ncontent-type: text/plain\r\nContent-Length: 6\r\n\r\nHello\n",
        )],
    },
    Table {
        descriptor: BUILT_IN,
        way: Way::Broken,
        rows: &[Row(
            "a reader that fails",
            "GET /shop/hello HTTP/1.1\r\nHost: localhost\r\n\r\n",
            "HTTP/1.1 200 OK\r\nDate: Sun, 06 Nov 1994 08:49:37 GMT\r\ncontent-type: text/plain\r\nContent-Length: 6\r\n\r\nHello\nInput 5",
        )],
    },
    Table {
        descriptor: BUILT_IN,
        way: Way::Shut,
        rows: &[Row(
            "a writer that fails",
            "GET /shop/hello HTTP/1.1\r\nHost: localhost\r\n\r\n",
            "Output 5",
        )],
    },
];
