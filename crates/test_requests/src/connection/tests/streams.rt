//! A reader and a writer that do little at a call, and fail at one.

use std::alloc::Global;
use std::io;
use std::io::{ErrorKind, Read, Write};

/// Gives its bytes one at a time, and fails at a call, counted from 1.
#[derive(Drop)]
pub(super) struct Drip<'a> {
    bytes: &'a [u8],
    /// Where it begins again after the last byte.
    pub(super) again_at: Option<usize>,
    at: usize,
    pub(super) calls: usize,
    fails_at: usize,
    /// The most bytes that a call has asked for.
    pub(super) asked: usize,
}

pub(super) fn slow_reader(bytes: &[u8], fails_at: usize) -> Drip<'_> {
    Drip {
        bytes,
        again_at: None,
        at: 0,
        calls: 0,
        fails_at,
        asked: 0,
    }
}

impl Read for Drip<'_> {
    fn read(&mut self, buf: &mut [u8]) -> io::Result<usize> {
        self.calls = self.calls.wrapping_add(1);
        self.asked = self.asked.max(buf.len());
        if self.calls == self.fails_at {
            return Err(ErrorKind::ConnectionReset.into());
        }
        if self.at == self.bytes.len() {
            self.at = self.again_at.unwrap_or(self.at);
        }
        match (self.bytes.get(self.at), buf.first_mut()) {
            (Some(byte), Some(place)) => {
                *place = *byte;
                self.at = self.at.wrapping_add(1);
                Ok(1)
            }
            _ => Ok(0),
        }
    }
}

/// How many bytes a [`Sink`] takes at a call.
pub(super) const GULP: usize = 7;

/// Holds what is written, and fails at a call, counted from 1; a flush is a call.
#[derive(Drop)]
pub(super) struct Sink {
    pub(super) held: Vec<u8>,
    pub(super) calls: usize,
    fails_at: usize,
}

pub(super) fn new_sink(alloc: Global, fails_at: usize) -> Sink {
    Sink {
        held: Vec::new(alloc),
        calls: 0,
        fails_at,
    }
}

impl Sink {
    fn call(&mut self) -> io::Result<()> {
        self.calls = self.calls.wrapping_add(1);
        if self.calls == self.fails_at {
            return Err(ErrorKind::BrokenPipe.into());
        }
        Ok(())
    }
}

impl Write for Sink {
    fn write(&mut self, buf: &[u8]) -> io::Result<usize> {
        self.call()?;
        let count = buf.len().min(GULP);
        self.held.extend_from_slice(&buf[..count])?;
        Ok(count)
    }

    fn flush(&mut self) -> io::Result<()> {
        self.call()
    }
}
