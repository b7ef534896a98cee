//! Says how full a node's table of keys is.

use crate::fault::Fault;
use sv_config::Cluster;
use sv_control::{KeyRoom, KeysLine, Replayed, known_in};
use sv_model::{KEY_MOST, Record};

/// What a descriptor says of keys.
#[derive(Clone, Copy, Debug, PartialEq, Eq)]
pub struct Keys {
    /// So many a node knows at most.
    limit: usize,
    /// Nodes forget their own that have ended there.
    forget: bool,
}

/// By its first record a node forgets, whatever its descriptor says.
fn forgets(kept: &[Record]) -> bool {
    matches!(kept, [Record::Counted { .. }, ..])
}

/// What to write where keys get scarce.
fn remedy(can_be_more: bool, forgets: bool) -> &'static str {
    match (can_be_more, forgets) {
        (true, true) => "give keys a greater number",
        (true, false) => "give keys a greater number, and have forget = true",
        (false, true) => "send newcomers to other nodes",
        (false, false) => "have forget = true",
    }
}

impl Keys {
    /// Those of a cluster.
    pub fn of(cluster: &Cluster) -> Keys {
        Keys {
            limit: cluster.keys as usize,
            forget: cluster.forget,
        }
    }

    /// What is shown of the keys of a node that keeps this.
    pub fn line(self, found: &Replayed) -> KeysLine {
        KeysLine::of(found, self.limit)
    }

    fn room(self, kept: &[Record]) -> KeyRoom {
        KeyRoom {
            known: known_in(kept),
            limit: self.limit,
        }
    }

    /// So many more a node that keeps this can know.
    pub fn left(self, kept: &[Record]) -> u64 {
        let room = self.room(kept);
        room.limit.saturating_sub(room.known) as u64
    }

    fn remedy(self, kept: &[Record]) -> &'static str {
        remedy(self.limit < KEY_MOST, self.forget || forgets(kept))
    }

    /// Warns on standard error of a node that keeps this, if its keys get scarce.
    pub fn warn(self, machine: &HostRuntime, kept: &[Record]) {
        let room = self.room(kept);
        let remedy = self.remedy(kept);
        if room.is_full() {
            let _ = eprintln!(machine;
                "kegctl: warning: {room}, so the node makes no more sessions: {remedy}"
            );
        } else if room.is_scarce() {
            let _ = eprintln!(machine; "kegctl: warning: {room}: {remedy}");
        }
    }

    /// Says how many keys a node knows that keeps this, and warns if they get scarce.
    pub fn say(self, machine: &HostRuntime, kept: &[Record]) -> Result<(), Fault> {
        let room = self.room(kept);
        if println!(machine; "{room}").is_err() {
            return Err(Fault::Output);
        }
        self.warn(machine, kept);
        Ok(())
    }
}
