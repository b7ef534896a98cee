//! What happens once in the life of a node.

use crate::quoted::Quoted;
use std::fmt;

/// What happens once in the life of a node.
#[derive(Clone, Copy)]
pub enum Milestone<'a> {
    /// It is to be the node of this number, at this port, over the journal at this path.
    Starting {
        node: u8,
        port: u16,
        journal: &'a str,
    },
    /// The journal was read, which has so many bytes now, of which so many records were there, and sessions that are here, of so
    /// many keys that are known; so long that took, with the port and all.
    Opened {
        bytes: u64,
        records: u64,
        sessions: u64,
        keys: u64,
        milliseconds: u64,
    },
    /// It serves.
    Ready {
        node: u8,
        port: u16,
    },
    /// It was told to stop, and has.
    Stopped,
}

fn write_starting<W: fmt::Write>(
    f: &mut fmt::Formatter<W>,
    node: u8,
    port: u16,
    journal: &str,
) -> fmt::Result {
    let journal = Quoted(journal);
    write!(f, "starting node={node} port={port} journal={journal}")
}

fn write_opened<W: fmt::Write>(
    f: &mut fmt::Formatter<W>,
    bytes: u64,
    records: u64,
    sessions: u64,
    keys: u64,
) -> fmt::Result {
    write!(f, "opened bytes={bytes} records={records} ")?;
    write!(f, "sessions={sessions} keys={keys}")
}

fn write_seconds<W: fmt::Write>(f: &mut fmt::Formatter<W>, milliseconds: u64) -> fmt::Result {
    let (seconds, rest) = (milliseconds / 1_000, milliseconds % 1_000);
    write!(f, " seconds={seconds}.{rest:03}")
}

impl fmt::Display for Milestone<'_> {
    fn fmt<W: fmt::Write>(&self, f: &mut fmt::Formatter<W>) -> fmt::Result {
        match *self {
            Milestone::Starting {
                node,
                port,
                journal,
            } => write_starting(f, node, port, journal),
            Milestone::Opened {
                bytes,
                records,
                sessions,
                keys,
                milliseconds,
            } => {
                write_opened(f, bytes, records, sessions, keys)?;
                write_seconds(f, milliseconds)
            }
            Milestone::Ready { node, port } => {
                write!(f, "ready node={node} address=127.0.0.1:{port}")
            }
            Milestone::Stopped => f.write_str("stopped"),
        }
    }
}
