//! Which of the packets of a tick are sent.

use crate::fixtures::push;
use std::alloc::Global;
use std::process::Abort;
use sv_host::{Round, Share};
use sv_model::{Attributes, Key, Output, Packet, Secret, Session};

/// One tick after the other: it puts out the wants of the numbers from the first to the last, and so many are sent, of this sum.
const ROWS: &[(u64, u64, u64, u64)] = &[
    // The first 128, whose sum is 128 * 129 / 2; those after them, 128 more each; and the last 44, from 257 on, with the first 84.
    (1, 300, 128, 8_256),
    (1, 300, 128, 24_640),
    (1, 300, 128, 15_824),
    // Of those in front 128 are gone meanwhile: the next is 129 all the same.
    (129, 300, 128, 24_640),
    // All of them, where they are few, 290 in the middle; after them the first comes again.
    (280, 300, 21, 6_090),
    (1, 0, 0, 0),
    (1, 129, 128, 8_256),
    (1, 129, 128, 8_257),
];

fn want(number: u64) -> Output {
    Output::Send(Packet::Want {
        from: 0,
        to: 1,
        key: Key { home: 1, serial: 7 },
        boot: 1,
        want: number,
    })
}

/// The wants of the numbers from the first to the last.
fn wants(rt: &impl Abort, alloc: Global, first: u64, last: u64) -> Vec<Output> {
    let mut outputs = Vec::new(alloc);
    for number in first..=last {
        push(rt, &mut outputs, want(number));
    }
    outputs
}

/// The number of a want.
fn number_of(output: &Output) -> u64 {
    match output {
        Output::Send(Packet::Want { want, .. }) => *want,
        _ => 0,
    }
}

/// The number and the sum of those that are sent.
fn sent(round: &mut Round, outputs: &[Output]) -> (u64, u64) {
    let mut share = round.share(outputs);
    let (mut count, mut sum) = (0u64, 0u64);
    for output in outputs {
        if share.takes(output) {
            count = count.saturating_add(1);
            sum = sum.saturating_add(number_of(output));
        }
    }
    *round = share.end();
    (count, sum)
}

/// The same of the wants of the numbers from the first to the last.
fn sent_of(rt: &impl Abort, alloc: Global, round: &mut Round, first: u64, last: u64) -> (u64, u64) {
    let outputs = wants(rt, alloc, first, last);
    sent(round, outputs.as_slice())
}

/// One tick after the other: it puts out the wants of the numbers from 1 to the first number here, and the sessions of the serials from 1 to
/// the second one; so many wants are sent, of this sum, and so many sessions, of this one.
const BOTH_ROWS: &[(u64, u64, (u64, u64), (u64, u64))] = &[
    // Of many of both 96 wants and 32 sessions, 96 * 97 / 2 and 32 * 33 / 2, and then those after them.
    (300, 200, (96, 4_656), (32, 528)),
    (300, 200, (96, 13_872), (32, 1_552)),
    // Few wants leave the other places to sessions: all ten, and those from 65 to 182.
    (10, 200, (10, 55), (118, 14_573)),
    // And few sessions leave theirs to wants: those from 11 to 130, and all eight.
    (300, 8, (120, 8_460), (8, 36)),
];

/// A session that is on its way.
fn grant(alloc: Global, serial: u64) -> Output {
    Output::Send(Packet::Grant {
        from: 0,
        to: 1,
        key: Key { home: 0, serial },
        epoch: 2,
        session: Session {
            context: 0,
            secret: Secret([0; 16]),
            created: 0,
            last: 0,
            interval: 0,
            fresh: false,
            attributes: Attributes::new(alloc),
        },
    })
}

/// The wants of the numbers from 1, and the sessions of the serials from 1.
fn both(rt: &impl Abort, alloc: Global, last_want: u64, last_serial: u64) -> Vec<Output> {
    let mut outputs = wants(rt, alloc, 1, last_want);
    for serial in 1..=last_serial {
        push(rt, &mut outputs, grant(alloc, serial));
    }
    outputs
}

/// The serial of a session that is on its way.
fn serial_of(output: &Output) -> u64 {
    match output {
        Output::Send(Packet::Grant { key, .. }) => key.serial,
        _ => 0,
    }
}

/// The number and the sum of the wants, or of the sessions, that are sent of a share.
fn sent_of_both(share: &mut Share, outputs: &[Output]) -> ((u64, u64), (u64, u64)) {
    let (mut wants, mut serials) = ((0u64, 0u64), (0u64, 0u64));
    for output in outputs {
        if share.takes(output) {
            let (number, serial) = (number_of(output), serial_of(output));
            wants = (
                wants.0.saturating_add(u64::from(number > 0)),
                wants.1.saturating_add(number),
            );
            serials = (
                serials.0.saturating_add(u64::from(serial > 0)),
                serials.1.saturating_add(serial),
            );
        }
    }
    (wants, serials)
}

/// What isn't sent as it should be of ticks that put out both; and then of one of which the wants alone are sent: those from 131 to 258.
pub fn both_told(rt: &impl Abort, alloc: Global) -> String {
    let mut text = String::new(alloc);
    let mut round = Round::START;
    for &(last_want, last_serial, wants, serials) in BOTH_ROWS {
        let outputs = both(rt, alloc, last_want, last_serial);
        let mut share = round.share(outputs.as_slice());
        let found = sent_of_both(&mut share, outputs.as_slice());
        if found != (wants, serials) {
            write!(
                text,
                "{found:?} in the place of {wants:?} and {serials:?}, "
            )
            .expect(rt, "memory");
        }
        round = share.end();
    }
    let outputs = both(rt, alloc, 300, 8);
    let found = sent_of_both(
        &mut round.share_of_wants(outputs.as_slice()),
        outputs.as_slice(),
    );
    if found != ((128, 24_896), (0, 0)) {
        write!(text, "{found:?} of the wants alone").expect(rt, "memory");
    }
    text
}

/// How many are sent, and their sum, tick by tick, where these aren't what they should be.
pub fn told(rt: &impl Abort, alloc: Global) -> String {
    let mut text = String::new(alloc);
    let mut round = Round::START;
    for &(first, last, count, sum) in ROWS {
        let found = sent_of(rt, alloc, &mut round, first, last);
        if found != (count, sum) {
            write!(text, "{found:?} in the place of {count} and {sum}, ").expect(rt, "memory");
        }
    }
    text
}
