//! Which listeners hear an event, and in which order.

use crate::container::cast::{has_notes, new_diary};
use crate::container::lives::{STARTED, started};
use crate::container::noting::Diary;
use crate::requests::text_of;
use std::alloc::Global;
use std::process::Abort;
use sv_model::{Engine, Event, Key, Secret, Sequence, Told};

const KEY: Key = Key { home: 0, serial: 1 };

/// A context and an event, by their numbers, and what is noted.
type Row = (u8, u8, &'static str);

// What ends something is heard by the last declared first, all else by the first declared first; in its context alone.
static ROWS: [Row; 14] = [
    (0, 1, "l1.up l2.up "),
    (0, 2, "l2.down l1.down "),
    (0, 3, "l1.in l2.in "),
    (0, 4, "l2.out l1.out "),
    (0, 5, "l1.created l2.created "),
    (0, 6, "l2.destroyed l1.destroyed "),
    (0, 7, "l1.added l2.added "),
    (0, 8, "l1.removed l2.removed "),
    (0, 9, "l1.replaced l2.replaced "),
    (0, 10, "l1.passivate l2.passivate "),
    (0, 11, "l1.activate l2.activate "),
    (0, 12, "l1.changed l2.changed "),
    (1, 6, "l4.destroyed l3.destroyed "),
    (2, 3, ""),
];

/// An event that has an attribute's name.
fn named_event(rt: &impl Abort, alloc: Global, number: u8) -> Event {
    let name = text_of(rt, alloc, "a");
    let old = Sequence::new(alloc);
    match number {
        7 => Event::Added {
            key: KEY,
            name,
            value: old,
        },
        8 => Event::Removed {
            key: KEY,
            name,
            old,
        },
        _ => Event::Replaced {
            key: KEY,
            name,
            old,
        },
    }
}

/// Any other event.
fn plain_event(number: u8) -> Event {
    match number {
        1 => Event::ContextUp,
        2 => Event::ContextDown,
        3 => Event::RequestIn,
        4 => Event::RequestOut,
        5 => Event::Created(KEY),
        6 => Event::Destroyed(KEY),
        10 => Event::Passivate(KEY),
        11 => Event::Activate(KEY),
        _ => Event::IdChanged {
            key: KEY,
            old: Secret([7; 16]),
        },
    }
}

/// The event of a number, from 1 on in the order of the variants.
fn event_of(rt: &impl Abort, alloc: Global, number: u8) -> Event {
    match number {
        7..=9 => named_event(rt, alloc, number),
        _ => plain_event(number),
    }
}

/// Tells an engine an event, by its number.
fn tell<E: Engine>(rt: &impl Abort, alloc: Global, engine: &mut E, context: u8, number: u8)
    requires { E.valid engine.old }
    ensures { E.valid engine.new }
{
    let event = event_of(rt, alloc, number);
    engine.tell(&[Told { context, event }]);
}

/// The listeners hear a row's event as it says.
fn is_heard(rt: &impl Abort, alloc: Global, diary: &Diary, row: &Row) -> bool {
    let (context, number, want) = *row;
    let mut container = started(rt, alloc, diary, "");
    let is_started = has_notes(diary, STARTED);
    tell(rt, alloc, &mut container, context, number);
    is_started && has_notes(diary, want)
}

pub fn listeners_hear_in_order(rt: &impl Abort, alloc: Global, input: usize) -> bool {
    match ROWS.get(input) {
        Some(row) => is_heard(rt, alloc, &new_diary(rt, alloc), row),
        None => false,
    }
}
