//! The names of all figures.

use crate::family::{Family, FigureKind};

pub const REQUESTS: Family = Family {
    name: "requests_total",
    kind: FigureKind::Counter,
    help: "Requests that were answered, by the class of their status.",
};

pub const REFUSED: Family = Family {
    name: "requests_refused_total",
    kind: FigureKind::Counter,
    help: "Requests that were answered 503, by the cause in the body.",
};

pub const LOST: Family = Family {
    name: "packets_lost_total",
    kind: FigureKind::Counter,
    help: "Packets to other nodes that were lost, by the cause. A lost packet is sent again.",
};

pub const BAD_REQUESTS: Family = Family {
    name: "bad_requests_total",
    kind: FigureKind::Counter,
    help: "Requests that could not be read, answered with the page of their fault.",
};

pub const ACCEPTED: Family = Family {
    name: "connections_accepted_total",
    kind: FigureKind::Counter,
    help: "Connections that were accepted.",
};

pub const GAVE_WAY: Family = Family {
    name: "connections_gave_way_total",
    kind: FigureKind::Counter,
    help: "Connections that were closed for somebody who had come.",
};

pub const LATE: Family = Family {
    name: "connections_late_total",
    kind: FigureKind::Counter,
    help: "Connections that were closed because they took too long.",
};

pub const NO_ROOM: Family = Family {
    name: "connections_no_room_total",
    kind: FigureKind::Counter,
    help: "Times that somebody could not be accepted.",
};

pub const SENT: Family = Family {
    name: "packets_sent_total",
    kind: FigureKind::Counter,
    help: "Packets that were sent to other nodes.",
};

pub const NOT_TAKEN: Family = Family {
    name: "packets_refused_total",
    kind: FigureKind::Counter,
    help: "Packets that were not taken, of a node that has other contexts or an older copy of its journal, and times that such a one was found.",
};

pub const ORDERED: Family = Family {
    name: "moves_ordered_total",
    kind: FigureKind::Counter,
    help: "Orders to hand a session to another node.",
};

pub const MOVED: Family = Family {
    name: "moves_total",
    kind: FigureKind::Counter,
    help: "Sessions that were handed to another node by an order.",
};

pub const GROUPS: Family = Family {
    name: "groups_total",
    kind: FigureKind::Counter,
    help: "Groups of steps that were taken and made durable together.",
};

pub const STEPS: Family = Family {
    name: "steps_total",
    kind: FigureKind::Counter,
    help: "Steps that were taken.",
};

pub const COMPACTIONS: Family = Family {
    name: "compactions_total",
    kind: FigureKind::Counter,
    help: "Times that the journal was written anew.",
};

pub const WRITES: Family = Family {
    name: "journal_writes_total",
    kind: FigureKind::Counter,
    help: "Groups that were written to the journal and synced.",
};

pub const REQUEST_DURATION: Family = Family {
    name: "request_duration_seconds",
    kind: FigureKind::Histogram,
    help: "How long each request took that was given to the node: from when it had come whole until it was answered, refusals among the answers.",
};

pub const WRITE_DURATION: Family = Family {
    name: "journal_write_duration_seconds",
    kind: FigureKind::Histogram,
    help: "How long each of those writes took, its syncs included.",
};

pub const PEERS: Family = Family {
    name: "peer_reachable",
    kind: FigureKind::Gauge,
    help: "Whether the last packet to another node went out, by its number; nothing until one was sent.",
};

pub const STARTED: Family = Family {
    name: "start_time_seconds",
    kind: FigureKind::Gauge,
    help: "When the node was started, in seconds since 1970.",
};

pub const BUILD: Family = Family {
    name: "build_info",
    kind: FigureKind::Gauge,
    help: "Which version of the program runs; always 1.",
};

pub const WRITE_SECONDS: Family = Family {
    name: "journal_write_seconds_total",
    kind: FigureKind::Counter,
    help: "How long those writes took, their syncs included.",
};

pub const SESSIONS: Family = Family {
    name: "sessions",
    kind: FigureKind::Gauge,
    help: "Sessions that the node has: active here, or sent to another node that has not acknowledged them.",
};

pub const MADE: Family = Family {
    name: "sessions_made_total",
    kind: FigureKind::Counter,
    help: "Sessions that were made.",
};

pub const ENDED_TOTAL: Family = Family {
    name: "sessions_ended_total",
    kind: FigureKind::Counter,
    help: "Sessions that a request has ended here, or has named once they had expired.",
};

pub const EXPIRED: Family = Family {
    name: "sessions_expired_total",
    kind: FigureKind::Counter,
    help: "Sessions that have expired here before anything named them again.",
};

pub const KNOWN: Family = Family {
    name: "known_keys",
    kind: FigureKind::Gauge,
    help: "Keys of sessions that the node knows: those it has, those that have gone, and those that have ended.",
};

pub const KNOWN_LIMIT: Family = Family {
    name: "known_keys_limit",
    kind: FigureKind::Gauge,
    help: "So many keys the node knows at most; then it makes no session and takes none.",
};

pub const GONE: Family = Family {
    name: "gone_keys",
    kind: FigureKind::Gauge,
    help: "Keys of sessions that have gone to another node, and are known here.",
};

pub const ENDED: Family = Family {
    name: "ended_keys",
    kind: FigureKind::Gauge,
    help: "Keys of sessions that have ended here.",
};

pub const WAITING: Family = Family {
    name: "waiting_requests",
    kind: FigureKind::Gauge,
    help: "Requests that wait for their sessions.",
};

pub const CONNECTIONS: Family = Family {
    name: "connections",
    kind: FigureKind::Gauge,
    help: "Connections that are open, packets on their way among them.",
};

pub const JOURNAL: Family = Family {
    name: "journal_bytes",
    kind: FigureKind::Gauge,
    help: "The length of the journal.",
};

pub const RESIDENT: Family = Family {
    name: "process_resident_memory_bytes",
    kind: FigureKind::Gauge,
    help: "Memory of the process that is in the machine's.",
};

pub const OPEN_FILES: Family = Family {
    name: "process_open_fds",
    kind: FigureKind::Gauge,
    help: "Files that the process has open, its connections among them.",
};

pub const FILE_LIMIT: Family = Family {
    name: "process_max_fds",
    kind: FigureKind::Gauge,
    help: "So many files the process may have open.",
};

pub const TIME: Family = Family {
    name: "time_seconds",
    kind: FigureKind::Gauge,
    help: "What the node took for the time when it wrote this, in seconds since 1970.",
};
