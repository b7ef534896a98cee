//! What has happened at a node since its start, in numbers.

use crate::census::Census;
use crate::durations::Durations;
use crate::event::{Event, Refusal};
use crate::family::{Family, Label};
use crate::loss::Loss;
use crate::names::{
    ACCEPTED, BAD_REQUESTS, BUILD, COMPACTIONS, CONNECTIONS, ENDED, ENDED_TOTAL, EXPIRED,
    FILE_LIMIT, GAVE_WAY, GONE, GROUPS, JOURNAL, KNOWN, KNOWN_LIMIT, LATE, LOST, MADE, MOVED,
    NO_ROOM, NOT_TAKEN, OPEN_FILES, ORDERED, PEERS, REFUSED, REQUEST_DURATION, REQUESTS, RESIDENT,
    SENT, SESSIONS, STARTED, STEPS, TIME, WAITING, WRITE_DURATION, WRITE_SECONDS, WRITES,
};
use crate::process::Process;
use crate::reach::{NODES, Peers, Reach};
use crate::turnover::Turnover;
use std::alloc::AllocError;
use sv_model::Cause;
use sv_version::number;

/// The classes of a status (RFC 9110, section 15).
const CLASSES: [&str; 5] = ["1xx", "2xx", "3xx", "4xx", "5xx"];

/// The numbers of nodes.
const NUMBERS: [&str; NODES] = ["0", "1", "2", "3", "4", "5", "6", "7"];

/// What has happened at a node since its start, in numbers.
#[derive(Clone, Copy, Default)]
pub struct Figures {
    answered: [u64; 5],
    refused: [u64; 7],
    bad: u64,
    accepted: u64,
    gave_way: u64,
    late: u64,
    no_room: u64,
    sent: u64,
    lost: [u64; 7],
    not_taken: u64,
    ordered: u64,
    moved: u64,
    groups: u64,
    steps: u64,
    compactions: u64,
    /// Groups that were written to the journal and synced.
    writes: Durations,
    /// Requests that were answered.
    requests: Durations,
}

/// What there is at a node at a moment.
#[derive(Clone, Copy, Default)]
pub struct Gauges {
    /// Clients whose requests wait.
    pub waiting: u64,
    /// Connections that are open, packets on their way among them.
    pub connections: u64,
    /// The length of the journal in bytes, once it was opened.
    pub journal: u64,
    /// In seconds since 1970.
    pub now: u64,
    /// None until the journal was opened: nothing is known of sessions and keys before, nor of the journal's length.
    pub keys: Option<Census>,
    /// The same of the sessions that it has made and ended.
    pub turnover: Turnover,
    /// So many keys the node knows at most.
    pub limit: u64,
    /// When the node was started, in seconds since 1970.
    pub started: u64,
    /// Whether another node can be reached, by its number.
    pub peers: Peers,
    pub process: Process,
}

/// Writes figures that have one number each.
fn write_plain(out: &mut String, node: u8, list: &[(Family, u64)]) -> Result<(), AllocError> {
    for (family, value) in list {
        family.head(out)?;
        family.sample(out, node, *value)?;
    }
    Ok(())
}

/// Writes how many sessions a node has, by their state.
fn write_sessions(out: &mut String, node: u8, keys: Census) -> Result<(), AllocError> {
    SESSIONS.head(out)?;
    for (state, count) in [("active", keys.active), ("sent", keys.sent)] {
        let label = Label {
            key: "state",
            value: state,
        };
        SESSIONS.labelled(out, node, label, count)?;
    }
    Ok(())
}

/// Writes which version of the program runs.
fn write_build(out: &mut String, node: u8) -> Result<(), AllocError> {
    BUILD.head(out)?;
    let label = Label {
        key: "version",
        value: number(),
    };
    BUILD.labelled(out, node, label, 1)
}

/// Writes which other nodes can be reached.
fn write_peers(out: &mut String, node: u8, peers: &Peers) -> Result<(), AllocError> {
    PEERS.head(out)?;
    for (number, reach) in NUMBERS.iter().zip(peers) {
        let value = match reach {
            Reach::Unknown => continue,
            Reach::Silent => 0,
            Reach::Answers => 1,
        };
        let label = Label {
            key: "peer",
            value: *number,
        };
        PEERS.labelled(out, node, label, value)?;
    }
    Ok(())
}

fn rise(counter: &mut u64, by: u64) {
    *counter = counter.saturating_add(by);
}

/// Adds one to a counter of several, where there is such a one.
fn rise_at(counters: &mut [u64], place: Option<usize>) {
    if let Some(place) = place
        && let Some(counter) = counters.get_mut(place)
    {
        rise(counter, 1);
    }
}

impl Figures {
    /// Counts an event.
    pub fn count(&mut self, event: Event) {
        match event {
            Event::Answered { class } => {
                rise_at(&mut self.answered, usize::from(class).checked_sub(1));
            }
            Event::Refused(Refusal { cause, .. }) => rise_at(
                &mut self.refused,
                Cause::ALL.iter().position(|one| *one == cause),
            ),
            Event::PacketLost { why, .. } => rise_at(
                &mut self.lost,
                Loss::ALL.iter().position(|one| *one == why),
            ),
            Event::Group { steps } => {
                rise(&mut self.groups, 1);
                rise(&mut self.steps, steps);
            }
            other => self.count_plain(other),
        }
    }

    /// Counts an event that is one of a single counter, if of any.
    fn count_plain(&mut self, event: Event) {
        match event {
            Event::BadRequest { .. } => rise(&mut self.bad, 1),
            Event::Accepted => rise(&mut self.accepted, 1),
            Event::GaveWay { .. } => rise(&mut self.gave_way, 1),
            Event::Late { .. } => rise(&mut self.late, 1),
            Event::NoRoom => rise(&mut self.no_room, 1),
            Event::PacketSent { .. } => rise(&mut self.sent, 1),
            Event::PacketRefused { .. } | Event::PeerRefused { .. } => rise(&mut self.not_taken, 1),
            Event::MoveOrdered { .. } => rise(&mut self.ordered, 1),
            Event::Moved => rise(&mut self.moved, 1),
            Event::Compacted { .. } => rise(&mut self.compactions, 1),
            _ => {}
        }
    }

    /// Counts a group that was written to the journal and synced, which took so long.
    pub fn count_write(&mut self, nanoseconds: u64) {
        self.writes.add(nanoseconds);
    }

    /// Counts a request that was answered, which took so long.
    pub fn count_request(&mut self, nanoseconds: u64) {
        self.requests.add(nanoseconds);
    }

    /// The counters that have one number each.
    fn counters(&self) -> [(Family, u64); 13] {
        [
            (BAD_REQUESTS, self.bad),
            (ACCEPTED, self.accepted),
            (GAVE_WAY, self.gave_way),
            (LATE, self.late),
            (NO_ROOM, self.no_room),
            (SENT, self.sent),
            (NOT_TAKEN, self.not_taken),
            (ORDERED, self.ordered),
            (MOVED, self.moved),
            (GROUPS, self.groups),
            (STEPS, self.steps),
            (COMPACTIONS, self.compactions),
            (WRITES, self.writes.all),
        ]
    }

    /// Writes the answers by their class.
    fn write_answered(&self, out: &mut String, node: u8) -> Result<(), AllocError> {
        REQUESTS.head(out)?;
        for (class, count) in CLASSES.iter().zip(&self.answered) {
            let label = Label {
                key: "class",
                value: *class,
            };
            REQUESTS.labelled(out, node, label, *count)?;
        }
        Ok(())
    }

    /// Writes the refusals by their cause.
    fn write_refused(&self, out: &mut String, node: u8) -> Result<(), AllocError> {
        REFUSED.head(out)?;
        for (cause, count) in Cause::ALL.iter().zip(&self.refused) {
            let label = Label {
                key: "cause",
                value: cause.name(),
            };
            REFUSED.labelled(out, node, label, *count)?;
        }
        Ok(())
    }

    /// Writes the lost packets by their cause.
    fn write_lost(&self, out: &mut String, node: u8) -> Result<(), AllocError> {
        LOST.head(out)?;
        for (why, count) in Loss::ALL.iter().zip(&self.lost) {
            let label = Label {
                key: "cause",
                value: why.name(),
            };
            LOST.labelled(out, node, label, *count)?;
        }
        Ok(())
    }

    /// Writes all figures of a node, each name with its lines `# HELP` and `# TYPE` once.
    pub fn write(&self, out: &mut String, node: u8, gauges: Gauges) -> Result<(), AllocError> {
        self.write_answered(out, node)?;
        REQUEST_DURATION.histogram(out, node, &self.requests)?;
        self.write_refused(out, node)?;
        self.write_lost(out, node)?;
        write_plain(out, node, &self.counters())?;
        WRITE_SECONDS.head(out)?;
        WRITE_SECONDS.seconds(out, node, self.writes.nanoseconds)?;
        WRITE_DURATION.histogram(out, node, &self.writes)?;
        write_build(out, node)?;
        write_plain(out, node, &[(STARTED, gauges.started)])?;
        write_peers(out, node, &gauges.peers)?;
        write_plain(out, node, &gauges.of_sessions())?;
        gauges.write_keys(out, node)?;
        write_plain(out, node, &gauges.of_clients())?;
        gauges.write_journal(out, node)?;
        gauges.write_process(out, node)?;
        write_plain(out, node, &[(TIME, gauges.now)])
    }
}

impl Gauges {
    /// Writes what there is of sessions and keys, once that is known.
    fn write_keys(self, out: &mut String, node: u8) -> Result<(), AllocError> {
        let Some(keys) = self.keys else {
            return Ok(());
        };
        write_sessions(out, node, keys)?;
        let known = [
            (KNOWN, keys.known()),
            (KNOWN_LIMIT, self.limit),
            (GONE, keys.gone),
            (ENDED, keys.ended),
        ];
        write_plain(out, node, &known)
    }

    /// How many sessions have come and gone.
    fn of_sessions(self) -> [(Family, u64); 3] {
        let Turnover {
            made,
            ended,
            expired,
        } = self.turnover;
        [(MADE, made), (ENDED_TOTAL, ended), (EXPIRED, expired)]
    }

    /// Writes what the process holds of its machine, as far as that is known.
    fn write_process(self, out: &mut String, node: u8) -> Result<(), AllocError> {
        let Process {
            resident,
            open_files,
            file_limit,
        } = self.process;
        let figures = [
            (RESIDENT, resident),
            (OPEN_FILES, open_files),
            (FILE_LIMIT, file_limit),
        ];
        for (family, value) in figures {
            if let Some(value) = value {
                write_plain(out, node, &[(family, value)])?;
            }
        }
        Ok(())
    }

    fn of_clients(self) -> [(Family, u64); 2] {
        [(WAITING, self.waiting), (CONNECTIONS, self.connections)]
    }

    /// The same of the journal.
    fn write_journal(self, out: &mut String, node: u8) -> Result<(), AllocError> {
        if self.keys.is_none() {
            return Ok(());
        }
        write_plain(out, node, &[(JOURNAL, self.journal)])
    }
}
