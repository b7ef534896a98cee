//! The text of the figures.

use crate::fixtures::add;
use std::alloc::Global;
use std::process::Abort;
use sv_log::{
    Census, Event, Figures, Gauges, Loss, NODES, Phase, Process, Reach, Refusal, Turnover,
};
use sv_model::{Cause, Key};

/// What is counted.
#[derive(Clone, Copy)]
enum Counted {
    Event(Event),
    /// A write took so many nanoseconds.
    Write(u64),
    /// A request took so many nanoseconds.
    Request(u64),
}

/// What has happened at a node, and the lines of the figures that tell of it.
struct Row(&'static [Counted], &'static str);

/// Each event counts in its own figure.
static ROWS: [Row; 23] = [
    Row(
        &[Counted::Event(Event::Answered { class: 5 })],
        "\nkegbramble_requests_total{node=\"3\",class=\"5xx\"} 1\n",
    ),
    Row(
        &[Counted::Event(Event::Answered { class: 1 })],
        "\nkegbramble_requests_total{node=\"3\",class=\"1xx\"} 1\n",
    ),
    Row(
        &[Counted::Event(Event::Refused(Refusal {
            cause: Cause::ParkFull,
            number: 9,
            session: None,
        }))],
        "\nkegbramble_requests_refused_total{node=\"3\",cause=\"ParkFull\"} 1\n",
    ),
    Row(
        &[Counted::Event(Event::Refused(Refusal {
            cause: Cause::Memory,
            number: 9,
            session: None,
        }))],
        "\nkegbramble_requests_refused_total{node=\"3\",cause=\"Memory\"} 1\n",
    ),
    Row(
        &[Counted::Event(Event::PacketLost {
            to: 1,
            why: Loss::GaveWay,
        })],
        "\nkegbramble_packets_lost_total{node=\"3\",cause=\"GaveWay\"} 1\n",
    ),
    Row(
        &[Counted::Event(Event::PacketSent { to: 1 })],
        "\nkegbramble_packets_sent_total{node=\"3\"} 1\n",
    ),
    Row(
        &[Counted::Event(Event::PacketRefused { from: 1 })],
        "\nkegbramble_packets_refused_total{node=\"3\"} 1\n",
    ),
    Row(
        &[Counted::Event(Event::PeerRefused {
            node: 1,
            why: "Contexts",
        })],
        "\nkegbramble_packets_refused_total{node=\"3\"} 1\n",
    ),
    Row(
        &[Counted::Event(Event::BadRequest { fault: "BadHost" })],
        "\nkegbramble_bad_requests_total{node=\"3\"} 1\n",
    ),
    Row(
        &[Counted::Event(Event::Accepted)],
        "\nkegbramble_connections_accepted_total{node=\"3\"} 1\n",
    ),
    Row(
        &[Counted::Event(Event::GaveWay { phase: Phase::New })],
        "\nkegbramble_connections_gave_way_total{node=\"3\"} 1\n",
    ),
    Row(
        &[Counted::Event(Event::Late { phase: Phase::New })],
        "\nkegbramble_connections_late_total{node=\"3\"} 1\n",
    ),
    Row(
        &[Counted::Event(Event::MoveOrdered {
            key: Key { home: 0, serial: 1 },
            to: 2,
        })],
        "\nkegbramble_moves_ordered_total{node=\"3\"} 1\n",
    ),
    Row(
        &[Counted::Event(Event::Moved)],
        "\nkegbramble_moves_total{node=\"3\"} 1\n",
    ),
    Row(
        &[Counted::Event(Event::Group { steps: 64 })],
        "\nkegbramble_steps_total{node=\"3\"} 64\n",
    ),
    Row(
        &[Counted::Event(Event::Compacted {
            before: 1,
            after: 1,
        })],
        "\nkegbramble_compactions_total{node=\"3\"} 1\n",
    ),
    // A second and a half and 4 thousandths and one billionth are 1.504000001 seconds together.
    Row(
        &[Counted::Write(1_500_000_000), Counted::Write(4_000_001)],
        "
# TYPE kegbramble_journal_write_seconds_total counter
kegbramble_journal_write_seconds_total{node=\"3\"} 1.504000001
",
    ),
    Row(
        &[Counted::Write(1_500_000_000), Counted::Write(4_000_001)],
        "\nkegbramble_journal_writes_total{node=\"3\"} 2\n",
    ),
    // 4.000001 milliseconds are more than 3 and at most 10; a second and a half is more than 1 and at most 3.
    Row(
        &[Counted::Write(1_500_000_000), Counted::Write(4_000_001)],
        "
# TYPE kegbramble_journal_write_duration_seconds histogram
kegbramble_journal_write_duration_seconds_bucket{node=\"3\",le=\"0.0001\"} 0
kegbramble_journal_write_duration_seconds_bucket{node=\"3\",le=\"0.0003\"} 0
kegbramble_journal_write_duration_seconds_bucket{node=\"3\",le=\"0.001\"} 0
kegbramble_journal_write_duration_seconds_bucket{node=\"3\",le=\"0.003\"} 0
kegbramble_journal_write_duration_seconds_bucket{node=\"3\",le=\"0.01\"} 1
kegbramble_journal_write_duration_seconds_bucket{node=\"3\",le=\"0.03\"} 1
kegbramble_journal_write_duration_seconds_bucket{node=\"3\",le=\"0.1\"} 1
kegbramble_journal_write_duration_seconds_bucket{node=\"3\",le=\"0.3\"} 1
kegbramble_journal_write_duration_seconds_bucket{node=\"3\",le=\"1\"} 1
kegbramble_journal_write_duration_seconds_bucket{node=\"3\",le=\"3\"} 2
kegbramble_journal_write_duration_seconds_bucket{node=\"3\",le=\"10\"} 2
kegbramble_journal_write_duration_seconds_bucket{node=\"3\",le=\"30\"} 2
kegbramble_journal_write_duration_seconds_bucket{node=\"3\",le=\"+Inf\"} 2
kegbramble_journal_write_duration_seconds_sum{node=\"3\"} 1.504000001
kegbramble_journal_write_duration_seconds_count{node=\"3\"} 2
",
    ),
    // What is at most a length is in its bucket; what is longer than all of them is among all alone.
    Row(
        &[Counted::Write(100_000), Counted::Write(30_000_000_001)],
        "
kegbramble_journal_write_duration_seconds_bucket{node=\"3\",le=\"0.0001\"} 1
kegbramble_journal_write_duration_seconds_bucket{node=\"3\",le=\"0.0003\"} 1
kegbramble_journal_write_duration_seconds_bucket{node=\"3\",le=\"0.001\"} 1
kegbramble_journal_write_duration_seconds_bucket{node=\"3\",le=\"0.003\"} 1
kegbramble_journal_write_duration_seconds_bucket{node=\"3\",le=\"0.01\"} 1
kegbramble_journal_write_duration_seconds_bucket{node=\"3\",le=\"0.03\"} 1
kegbramble_journal_write_duration_seconds_bucket{node=\"3\",le=\"0.1\"} 1
kegbramble_journal_write_duration_seconds_bucket{node=\"3\",le=\"0.3\"} 1
kegbramble_journal_write_duration_seconds_bucket{node=\"3\",le=\"1\"} 1
kegbramble_journal_write_duration_seconds_bucket{node=\"3\",le=\"3\"} 1
kegbramble_journal_write_duration_seconds_bucket{node=\"3\",le=\"10\"} 1
kegbramble_journal_write_duration_seconds_bucket{node=\"3\",le=\"30\"} 1
kegbramble_journal_write_duration_seconds_bucket{node=\"3\",le=\"+Inf\"} 2
",
    ),
    // A quarter of a millisecond is more than 0.1 and at most 0.3; 12 seconds are more than 10 and at most 30.
    Row(
        &[Counted::Request(250_000), Counted::Request(12_000_000_000)],
        "
# TYPE kegbramble_request_duration_seconds histogram
kegbramble_request_duration_seconds_bucket{node=\"3\",le=\"0.0001\"} 0
kegbramble_request_duration_seconds_bucket{node=\"3\",le=\"0.0003\"} 1
kegbramble_request_duration_seconds_bucket{node=\"3\",le=\"0.001\"} 1
kegbramble_request_duration_seconds_bucket{node=\"3\",le=\"0.003\"} 1
kegbramble_request_duration_seconds_bucket{node=\"3\",le=\"0.01\"} 1
kegbramble_request_duration_seconds_bucket{node=\"3\",le=\"0.03\"} 1
kegbramble_request_duration_seconds_bucket{node=\"3\",le=\"0.1\"} 1
kegbramble_request_duration_seconds_bucket{node=\"3\",le=\"0.3\"} 1
kegbramble_request_duration_seconds_bucket{node=\"3\",le=\"1\"} 1
kegbramble_request_duration_seconds_bucket{node=\"3\",le=\"3\"} 1
kegbramble_request_duration_seconds_bucket{node=\"3\",le=\"10\"} 1
kegbramble_request_duration_seconds_bucket{node=\"3\",le=\"30\"} 2
kegbramble_request_duration_seconds_bucket{node=\"3\",le=\"+Inf\"} 2
kegbramble_request_duration_seconds_sum{node=\"3\"} 12.000250000
kegbramble_request_duration_seconds_count{node=\"3\"} 2
",
    ),
    // Of a node that nothing was sent to nothing is known.
    Row(
        &[],
        "
# TYPE kegbramble_start_time_seconds gauge
kegbramble_start_time_seconds{node=\"3\"} 784111000
# HELP kegbramble_peer_reachable Whether the last packet to another node went out, by its number; nothing until one was sent.
# TYPE kegbramble_peer_reachable gauge
kegbramble_peer_reachable{node=\"3\",peer=\"1\"} 1
kegbramble_peer_reachable{node=\"3\",peer=\"2\"} 0
# HELP kegbramble_sessions_made_total Sessions that were made.
",
    ),
    Row(&[Counted::Event(Event::Moved)], LAST),
];

/// Node 1 is reached, node 2 isn't, and nothing was sent to the others.
const PEERS: [Reach; NODES] = [
    Reach::Unknown,
    Reach::Answers,
    Reach::Silent,
    Reach::Unknown,
    Reach::Unknown,
    Reach::Unknown,
    Reach::Unknown,
    Reach::Unknown,
];

/// What there is at a node.
const GAUGES: Gauges = Gauges {
    waiting: 4,
    connections: 1000,
    journal: 1_073_741_824,
    now: 784_111_777,
    keys: Some(Census {
        active: 3,
        sent: 1,
        gone: 2,
        ended: 4,
    }),
    limit: 65_536,
    started: 784_111_000,
    peers: PEERS,
    turnover: Turnover {
        made: 40,
        ended: 20,
        expired: 7,
    },
    process: Process {
        resident: Some(1_736_704),
        open_files: Some(1006),
        file_limit: Some(20_000),
    },
};

/// That stands after the counters, each name with its own two lines before it, and nothing but the full stop comes after it. All known
/// keys are 3 and 1 and 2 and 4.
const LAST: &str = "
# HELP kegbramble_sessions_made_total Sessions that were made.
# TYPE kegbramble_sessions_made_total counter
kegbramble_sessions_made_total{node=\"3\"} 40
# HELP kegbramble_sessions_ended_total Sessions that a request has ended here, or has named once they had expired.
# TYPE kegbramble_sessions_ended_total counter
kegbramble_sessions_ended_total{node=\"3\"} 20
# HELP kegbramble_sessions_expired_total Sessions that have expired here before anything named them again.
# TYPE kegbramble_sessions_expired_total counter
kegbramble_sessions_expired_total{node=\"3\"} 7
# HELP kegbramble_sessions Sessions that the node has: active here, or sent to another node that has not acknowledged them.
# TYPE kegbramble_sessions gauge
kegbramble_sessions{node=\"3\",state=\"active\"} 3
kegbramble_sessions{node=\"3\",state=\"sent\"} 1
# HELP kegbramble_known_keys Keys of sessions that the node knows: those it has, those that have gone, and those that have ended.
# TYPE kegbramble_known_keys gauge
kegbramble_known_keys{node=\"3\"} 10
# HELP kegbramble_known_keys_limit So many keys the node knows at most; then it makes no session and takes none.
# TYPE kegbramble_known_keys_limit gauge
kegbramble_known_keys_limit{node=\"3\"} 65536
# HELP kegbramble_gone_keys Keys of sessions that have gone to another node, and are known here.
# TYPE kegbramble_gone_keys gauge
kegbramble_gone_keys{node=\"3\"} 2
# HELP kegbramble_ended_keys Keys of sessions that have ended here.
# TYPE kegbramble_ended_keys gauge
kegbramble_ended_keys{node=\"3\"} 4
# HELP kegbramble_waiting_requests Requests that wait for their sessions.
# TYPE kegbramble_waiting_requests gauge
kegbramble_waiting_requests{node=\"3\"} 4
# HELP kegbramble_connections Connections that are open, packets on their way among them.
# TYPE kegbramble_connections gauge
kegbramble_connections{node=\"3\"} 1000
# HELP kegbramble_journal_bytes The length of the journal.
# TYPE kegbramble_journal_bytes gauge
kegbramble_journal_bytes{node=\"3\"} 1073741824
# HELP kegbramble_process_resident_memory_bytes Memory of the process that is in the machine's.
# TYPE kegbramble_process_resident_memory_bytes gauge
kegbramble_process_resident_memory_bytes{node=\"3\"} 1736704
# HELP kegbramble_process_open_fds Files that the process has open, its connections among them.
# TYPE kegbramble_process_open_fds gauge
kegbramble_process_open_fds{node=\"3\"} 1006
# HELP kegbramble_process_max_fds So many files the process may have open.
# TYPE kegbramble_process_max_fds gauge
kegbramble_process_max_fds{node=\"3\"} 20000
# HELP kegbramble_time_seconds What the node took for the time when it wrote this, in seconds since 1970.
# TYPE kegbramble_time_seconds gauge
kegbramble_time_seconds{node=\"3\"} 784111777
.";

/// Counts all of it.
fn count_all(figures: &mut Figures, all: &[Counted]) {
    for one in all {
        match *one {
            Counted::Event(event) => figures.count(event),
            Counted::Write(nanoseconds) => figures.count_write(nanoseconds),
            Counted::Request(nanoseconds) => figures.count_request(nanoseconds),
        }
    }
}

/// The figures of node 3 at which that has happened, and a full stop.
fn text_of(rt: &impl Abort, alloc: Global, all: &[Counted], gauges: Gauges) -> String {
    let mut figures = Figures::default();
    count_all(&mut figures, all);
    let mut text = String::new(alloc);
    figures.write(&mut text, 3, gauges).expect(rt, "memory");
    add(rt, &mut text, ".");
    text
}

fn expect_lines(rt: &impl Abort, text: &str, lines: &str) {
    assert!(rt; text.contains(lines), "{lines}");
}

#[test]
fn each_figure_has_its_line(rt: HostRuntime) {
    for Row(all, lines) in &ROWS {
        let text = text_of(&rt, rt.alloc(), all, GAUGES);
        expect_lines(&rt, text.as_str(), lines);
    }
}

/// What is known of a node only once its journal was opened, which may take a while: a 0 would say that its sessions are gone.
const OF_THE_JOURNAL: [&str; 6] = [
    "kegbramble_sessions{",
    "kegbramble_known_keys{",
    "kegbramble_known_keys_limit{",
    "kegbramble_gone_keys{",
    "kegbramble_ended_keys{",
    "kegbramble_journal_bytes{",
];

/// Of what the system doesn't tell, and of what only an open journal tells, nothing is said.
#[test]
fn nothing_is_said_of_a_journal_that_was_not_opened(rt: HostRuntime) {
    let gauges = Gauges {
        keys: None,
        process: Process::default(),
        ..GAUGES
    };
    let text = text_of(&rt, rt.alloc(), &[], gauges);
    for name in OF_THE_JOURNAL {
        assert!(rt; !text.contains(name), "{name}");
    }
    expect_lines(
        &rt,
        text.as_str(),
        "\nkegbramble_connections{node=\"3\"} 1000\n# HELP kegbramble_time_seconds ",
    );
}
