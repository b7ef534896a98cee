//! What happens at a node: the line of each event after the time.

use super::texts::{Row, Said};
use sv_log::{Event, Loss, Phase, Refusal};
use sv_model::{Cause, Key, MoveRefusal};

/// An event, and its level and its line; those that have no level happen all the time, and no log has them.
pub static EVENTS: [Row; 28] = [
    Row(
        Said::Event(Event::Refused(Refusal {
            cause: Cause::ParkFull,
            number: 1,
            session: None,
        })),
        "warn request_refused cause=ParkFull number=1",
    ),
    Row(
        Said::Event(Event::Refused(Refusal {
            cause: Cause::Deadline,
            number: u64::MAX,
            session: None,
        })),
        "warn request_refused cause=Deadline number=18446744073709551615",
    ),
    Row(
        Said::Event(Event::Refused(Refusal {
            cause: Cause::TableFull,
            number: 2,
            session: None,
        })),
        "warn request_refused cause=TableFull number=2",
    ),
    Row(
        Said::Event(Event::Refused(Refusal {
            cause: Cause::SerialsSpent,
            number: 2,
            session: None,
        })),
        "warn request_refused cause=SerialsSpent number=2",
    ),
    Row(
        Said::Event(Event::Refused(Refusal {
            cause: Cause::WantsSpent,
            number: 2,
            session: None,
        })),
        "warn request_refused cause=WantsSpent number=2",
    ),
    Row(
        Said::Event(Event::Refused(Refusal {
            cause: Cause::JournalFull,
            number: 2,
            session: None,
        })),
        "warn request_refused cause=JournalFull number=2",
    ),
    Row(
        Said::Event(Event::Refused(Refusal {
            cause: Cause::Memory,
            number: 2,
            session: None,
        })),
        "warn request_refused cause=Memory number=2",
    ),
    Row(
        Said::Event(Event::Refused(Refusal {
            cause: Cause::Deadline,
            number: 3,
            session: Some(Key { home: 1, serial: 7 }),
        })),
        "warn request_refused cause=Deadline number=3 key=1.7",
    ),
    Row(Said::Event(Event::Accepted), "- accepted"),
    Row(
        Said::Event(Event::Answered { class: 2 }),
        "- answered class=2",
    ),
    Row(
        Said::Event(Event::BadRequest { fault: "BadHost" }),
        "warn bad_request fault=BadHost",
    ),
    Row(
        Said::Event(Event::GaveWay {
            phase: Phase::Resting,
        }),
        "warn client_gave_way phase=resting",
    ),
    Row(
        Said::Event(Event::Late {
            phase: Phase::Asking,
        }),
        "warn client_late phase=asking",
    ),
    Row(Said::Event(Event::NoRoom), "warn no_room"),
    Row(
        Said::Event(Event::PacketSent { to: 7 }),
        "- packet_sent to=7",
    ),
    Row(
        Said::Event(Event::PacketLost {
            to: 1,
            why: Loss::Broken,
        }),
        "warn packet_lost to=1 why=Broken",
    ),
    Row(
        Said::Event(Event::PeerSilent { node: 1 }),
        "warn peer_silent node=1",
    ),
    Row(
        Said::Event(Event::PeerAnswers { node: 1 }),
        "info peer_answers node=1",
    ),
    Row(
        Said::Event(Event::MoveOrdered {
            key: Key {
                home: 3,
                serial: 41,
            },
            to: 2,
        }),
        "info move_ordered key=3.41 to=2",
    ),
    Row(Said::Event(Event::Moved), "info moved"),
    Row(
        Said::Event(Event::MoveRefused {
            why: MoveRefusal::NotActive,
        }),
        "warn move_refused why=NotActive",
    ),
    Row(Said::Event(Event::HaltOrdered), "info halt_ordered"),
    Row(
        Said::Event(Event::OrderRefused {
            cause: Cause::Memory,
        }),
        "warn order_refused cause=Memory",
    ),
    Row(
        Said::Event(Event::LeftOut {
            cause: Cause::JournalFull,
        }),
        "warn input_left_out cause=JournalFull",
    ),
    Row(Said::Event(Event::Group { steps: 64 }), "- group steps=64"),
    Row(
        Said::Event(Event::Compacted {
            before: 4194305,
            after: 70,
        }),
        "info compacted before=4194305 after=70",
    ),
    Row(
        Said::Event(Event::NotCompacted { bytes: 4194305 }),
        "warn not_compacted bytes=4194305",
    ),
    Row(Said::Event(Event::NoFigures), "warn figures_unwritten"),
];
