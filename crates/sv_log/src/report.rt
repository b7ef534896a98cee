//! What a node tells its operator: a log and figures, either or none.

use crate::census::Census;
use crate::event::Event;
use crate::figures::Gauges;
use crate::level::Level;
use crate::log::Log;
use crate::loss::Loss;
use crate::metrics::Metrics;
use crate::milestone::Milestone;
use crate::process::Process;
use crate::reach::{NODES, Peers, Reach};
use crate::turnover::Turnover;
use std::alloc::Global;
use std::fmt;
use std::fs::{File, Files};
use std::rt::Env;
use std::time::Duration;

/// Why a report can't be begun.
#[derive(Clone, Copy, Debug, PartialEq, Eq)]
pub enum ReportFault {
    /// The log can't be opened.
    Log,
    /// The figures can't be written.
    Metrics,
}

/// What a node tells its operator: a log and figures, either or none.
pub struct Report {
    log: Option<Log>,
    metrics: Option<Metrics>,
    peers: Peers,
    now: u64,
    journal: u64,
    /// None until they were counted, which is when the journal was opened.
    keys: Option<Census>,
    turnover: Turnover,
    /// So many keys the node knows at most.
    limit: u64,
    /// When it was begun, by the clock that nobody sets, in milliseconds.
    begun: u64,
    /// The same in seconds since 1970.
    started: u64,
}

/// By hand, so that the proof of a caller has one step for it.
impl Drop for Report {
    fn drop(self) {
        let Report {
            log: _,
            metrics: _,
            peers: _,
            now: _,
            journal: _,
            keys: _,
            turnover: _,
            limit: _,
            begun: _,
            started: _,
        } = self;
    }
}

/// As many nanoseconds as a number has room for.
fn nanoseconds(duration: Duration) -> u64 {
    u64::try_from(duration.as_nanos()).unwrap_or(u64::MAX)
}

impl Report {
    /// Neither.
    pub fn none() -> Report {
        Report {
            log: None,
            metrics: None,
            peers: [Reach::Unknown; NODES],
            now: 0,
            journal: 0,
            keys: None,
            turnover: Turnover::default(),
            limit: 0,
            begun: 0,
            started: 0,
        }
    }

    /// Has events written to the log at a path, or to standard error where it is `-`.
    pub fn log_to<R: Files<File = File> + Env + AllocGlobal>(
        &mut self,
        alloc: Global,
        files: &R,
        path: &str,
    ) -> Result<(), ReportFault> {
        let Ok(log) = Log::open(alloc, files, path) else {
            return Err(ReportFault::Log);
        };
        self.log = Some(log);
        Ok(())
    }

    /// Has the figures of a node written to a file at a path, the first of them now.
    pub fn count_to<R: Files<File = File>>(
        &mut self,
        alloc: Global,
        files: &R,
        path: &str,
        node: u8,
    ) -> Result<(), ReportFault> {
        let Ok(mut metrics) = Metrics::new(alloc, path, node) else {
            return Err(ReportFault::Metrics);
        };
        if metrics.write(files, Gauges::default()).is_err() {
            return Err(ReportFault::Metrics);
        }
        self.metrics = Some(metrics);
        Ok(())
    }

    /// What the time is, in seconds since 1970.
    pub fn at(&mut self, now: u64) {
        self.now = now;
        if let Some(log) = &mut self.log {
            log.at(now);
        }
    }

    /// When the node begins to be opened: by the clock that nobody sets, in milliseconds, and in seconds since 1970.
    pub fn begin(&mut self, milliseconds: u64, now: u64) {
        self.begun = milliseconds;
        self.started = now;
    }

    /// The journal was opened, in which so many records were, and has so many bytes; its keys were counted.
    pub fn opened(&mut self, bytes: u64, records: u64, milliseconds: u64) {
        self.journal = bytes;
        let milliseconds = milliseconds.saturating_sub(self.begun);
        let keys = self.keys.unwrap_or_default();
        self.say(
            Level::Info,
            Milestone::Opened {
                bytes,
                records,
                sessions: keys.active,
                keys: keys.known(),
                milliseconds,
            },
        );
    }

    /// Something has happened.
    pub fn note(&mut self, event: Event) {
        if let Some(metrics) = &mut self.metrics {
            metrics.figures.count(event);
        }
        if let Some(log) = &mut self.log {
            log.note(event);
        }
    }

    /// Puts a line down that comes once.
    pub fn say<T: fmt::Display + Drop>(&mut self, level: Level, text: T) {
        if let Some(log) = &mut self.log {
            log.say(level, text);
        }
    }

    /// A text was said to a client: the first digit of the status that it begins with is the status's class (RFC 9112, section 4).
    pub fn answered(&mut self, text: &[u8]) {
        if self.metrics.is_some()
            && let Some(digit @ b'1'..=b'5') = text.get(9).copied()
        {
            self.note(Event::Answered {
                class: digit - b'0',
            });
        }
    }

    /// A packet was sent to a node.
    pub fn sent(&mut self, to: u8) {
        self.note(Event::PacketSent { to });
        self.hear(to, Reach::Answers);
    }

    /// A packet to a node was lost.
    pub fn lost(&mut self, to: u8, why: Loss) {
        self.note(Event::PacketLost { to, why });
        if why.is_silence() {
            self.hear(to, Reach::Silent);
        }
    }

    /// Whether a node can be reached is known: said where it was otherwise before.
    fn hear(&mut self, node: u8, reach: Reach) {
        let Some(peer) = self.peers.get_mut(usize::from(node)) else {
            return;
        };
        let before = *peer;
        *peer = reach;
        match (before, reach) {
            (Reach::Unknown | Reach::Answers, Reach::Silent) => {
                self.note(Event::PeerSilent { node });
            }
            (Reach::Silent, Reach::Answers) => self.note(Event::PeerAnswers { node }),
            _ => {}
        }
    }

    /// The length of the journal, in bytes.
    pub fn measure(&mut self, journal: u64) {
        self.journal = journal;
    }

    /// Whether a log is written.
    pub fn is_logging(&self) -> bool {
        self.log.is_some()
    }

    /// Whether figures are written.
    pub fn is_counting(&self) -> bool {
        self.metrics.is_some()
    }

    /// A group was written to the journal and synced, which took so long.
    pub fn written(&mut self, duration: Duration) {
        if let Some(metrics) = &mut self.metrics {
            metrics.figures.count_write(nanoseconds(duration));
        }
    }

    /// A request was answered that had come so long before.
    pub fn took(&mut self, duration: Duration) {
        if let Some(metrics) = &mut self.metrics {
            metrics.figures.count_request(nanoseconds(duration));
        }
    }

    /// The node knows so many keys at most.
    pub fn know(&mut self, limit: usize) {
        self.limit = limit as u64;
    }

    /// How many keys the node knows, by what has become of their sessions, as [`Census`] has them.
    pub fn census(&mut self, active: u64, sent: u64, gone: u64, ended: u64) {
        self.keys = Some(Census {
            active,
            sent,
            gone,
            ended,
        });
    }

    /// How many sessions the node has made, and how many have ended, as [`Turnover`] has them.
    pub fn turnover(&mut self, made: u64, ended: u64, expired: u64) {
        self.turnover = Turnover {
            made,
            ended,
            expired,
        };
    }

    /// Whether the figures are about to be written, so that the keys are to be counted for them.
    pub fn wants_census(&self) -> bool {
        self.is_due()
    }

    /// What there is at a node at which so many clients wait, and so many connections are open.
    fn gauges(&self, process: Process, waiting: usize, connections: usize) -> Gauges {
        Gauges {
            waiting: waiting as u64,
            connections: connections as u64,
            journal: self.journal,
            now: self.now,
            keys: self.keys,
            limit: self.limit,
            started: self.started,
            peers: self.peers,
            turnover: self.turnover,
            process,
        }
    }

    /// Writes the figures.
    fn write_figures<R: Files<File = File> + Alloc + Clone + Drop>(
        &mut self,
        machine: &R,
        waiting: usize,
        connections: usize,
    ) {
        if !self.is_counting() {
            return;
        }
        let gauges = self.gauges(Process::now(machine), waiting, connections);
        if let Some(metrics) = &mut self.metrics
            && metrics.write(machine, gauges).is_err()
        {
            self.note(Event::NoFigures);
        }
    }

    /// Whether it is time to write the figures.
    fn is_due(&self) -> bool {
        match &self.metrics {
            Some(metrics) => metrics.is_due(self.now),
            None => false,
        }
    }

    /// Writes the lines that were put down, and the figures where they are due: so many clients wait, and so many connections are
    /// open.
    pub fn turn<R: Files<File = File> + Eprint + Alloc + Clone + Drop>(
        &mut self,
        machine: &R,
        waiting: usize,
        connections: usize,
    ) {
        if self.is_due() {
            self.write_figures(machine, waiting, connections);
        }
        if let Some(log) = &mut self.log {
            log.flush(machine);
        }
    }

    /// The same at the end, with what was counted and not said yet, and the figures as they are then.
    pub fn end<R: Files<File = File> + Eprint + Alloc + Clone + Drop>(
        &mut self,
        machine: &R,
        waiting: usize,
        connections: usize,
    ) {
        self.write_figures(machine, waiting, connections);
        if let Some(log) = &mut self.log {
            log.say_counted();
            log.flush(machine);
        }
    }
}
