//! How a node is, by what its port gives for an order.

use std::time::Duration;
use std::{fmt, io};

#[derive(Clone, Copy, Debug)]
pub enum Health {
    /// It has answered, after so long.
    Well(Duration),
    /// It has no room in its journal, or no memory.
    Short,
    /// Nobody takes the connection.
    Unreached(io::Error),
    /// Somebody takes it: a node that hangs, or what passes packets on to another machine.
    Silent,
}

impl fmt::Display for Health {
    fn fmt<W: fmt::Write>(&self, f: &mut fmt::Formatter<W>) -> fmt::Result {
        match self {
            Health::Well(time) => {
                let tenths = time.as_micros() / 100;
                write!(f, "answers in {}.{} ms", tenths / 10, tenths % 10)
            }
            Health::Short => f.write_str("answers, and has no room in its journal or no memory"),
            Health::Unreached(error) => write!(f, "doesn't answer: {error}"),
            Health::Silent => f.write_str(
                "takes connections and doesn't answer; orders for a node on another machine are given there",
            ),
        }
    }
}

impl Health {
    pub fn is_well(self) -> bool {
        matches!(self, Health::Well(_))
    }
}
