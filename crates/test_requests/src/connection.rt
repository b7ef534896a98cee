//! Messages, targets and parameters, a connection, and a node that stands alone: calls with the bytes that they have to write,
//! readers and writers that fail, an engine whose meaning is its own, and inputs that a loop makes.
//!
//! Each thing that is tried is a function that tells whether it came as it has to, of an input by its number; a test calls those of a table.

mod heads;
mod pipelines;
mod targets;
mod tests;

use crate::cases::{Case, Row, expect_all};
use std::alloc::Global;
use std::process::Abort;
use tests::{alone, parked, received};

/// What is tried, each by a function of this name.
#[derive(Clone, Copy)]
enum Trial {
    AFaultClosesTheReader,
    TwoHundredChunkedBodies,
    EveryEscapeOfOneByte,
    EveryEscapeOfOneByteInCapitals,
    EveryByteOfAscii,
    LongPaths,
    TheSiteIsAskedAsTheCallSays,
    WhatFollowsACloseIsNotRead,
    AReaderThatFails,
    AWriterThatFails,
    AReaderThatNeverEndsAHead,
    AReaderThatNeverEndsABody,
    Refusals,
    ARequestWaitsForItsAnswer,
    ALateAnswerThatIsNotWritten,
    TwoRequestsCutAnywhere,
    AFaultInTheSecondCutAnywhere,
    TheInputEndsInsideARequest,
    TheInputEndsBehindTwoRequests,
    AFaultyTarget,
    ANodeAloneAnswers,
    ANodeAloneKeepsItsSessions,
    ANodeAloneEndsWhatHasExpired,
    ANodeAloneHasNoPeers,
}

static PIPELINES: [Row<Trial>; 1] = [(
    Trial::TwoHundredChunkedBodies,
    4,
    "two hundred chunked bodies in pieces",
)];

static MESSAGES: [Row<Trial>; 5] = [
    (Trial::AFaultClosesTheReader, 1, "a fault closes the reader"),
    (Trial::EveryEscapeOfOneByte, 256, "every escape of one byte"),
    (
        Trial::EveryEscapeOfOneByteInCapitals,
        256,
        "every escape of one byte in capitals",
    ),
    (Trial::EveryByteOfAscii, 128, "every byte of ASCII"),
    (Trial::LongPaths, 1, "long paths"),
];

static CONNECTIONS: [Row<Trial>; 16] = [
    (
        Trial::TheSiteIsAskedAsTheCallSays,
        1,
        "the site is asked as the call says",
    ),
    (
        Trial::WhatFollowsACloseIsNotRead,
        1,
        "what follows a close is not read",
    ),
    // The read of each of 28 bytes fails, and then none.
    (Trial::AReaderThatFails, 29, "a reader that fails"),
    // Each of 11 writes fails, and the flush, and then none.
    (Trial::AWriterThatFails, 13, "a writer that fails"),
    (Trial::Refusals, 7, "refusals"),
    (
        Trial::ARequestWaitsForItsAnswer,
        2,
        "a request waits for its answer",
    ),
    (
        Trial::ALateAnswerThatIsNotWritten,
        1,
        "a late answer that is not written",
    ),
    (
        Trial::TwoRequestsCutAnywhere,
        received::CUTS_OF_TWO,
        "two requests cut anywhere: a part isn't closed, a whole one isn't dropped",
    ),
    (
        Trial::AFaultInTheSecondCutAnywhere,
        received::CUTS_OF_FAULT,
        "a fault in the second cut anywhere",
    ),
    (
        Trial::TheInputEndsInsideARequest,
        received::CUTS_OF_TWO - 1,
        "the input ends inside a request",
    ),
    (
        Trial::TheInputEndsBehindTwoRequests,
        1,
        "the input ends behind two requests",
    ),
    (Trial::AFaultyTarget, 2, "a faulty target"),
    (Trial::ANodeAloneAnswers, 1, "a node alone answers"),
    (
        Trial::ANodeAloneKeepsItsSessions,
        1,
        "a node alone keeps its sessions",
    ),
    (
        Trial::ANodeAloneEndsWhatHasExpired,
        1,
        "a node alone ends what has expired",
    ),
    (Trial::ANodeAloneHasNoPeers, 1, "a node alone has no peers"),
];

static ENDLESS: [Row<Trial>; 2] = [
    (
        Trial::AReaderThatNeverEndsAHead,
        1,
        "a reader that never ends a head",
    ),
    (
        Trial::AReaderThatNeverEndsABody,
        1,
        "a reader that never ends a body",
    ),
];

impl Case for Trial {
    fn holds<R: Abort>(self, rt: &R, alloc: Global, input: usize) -> bool {
        match self {
            Trial::AFaultClosesTheReader => heads::a_fault_closes_the_reader(alloc),
            Trial::TwoHundredChunkedBodies => {
                pipelines::two_hundred_chunked_bodies(rt, alloc, input)
            }
            Trial::EveryEscapeOfOneByte => targets::every_escape_of_one_byte(rt, alloc, input),
            Trial::EveryEscapeOfOneByteInCapitals => {
                targets::every_escape_of_one_byte_in_capitals(rt, alloc, input)
            }
            Trial::EveryByteOfAscii => targets::every_byte_of_ascii(rt, alloc, input),
            Trial::LongPaths => targets::long_paths(rt, alloc),
            Trial::TheSiteIsAskedAsTheCallSays => tests::the_site_is_asked_as_the_call_says(alloc),
            Trial::WhatFollowsACloseIsNotRead => tests::what_follows_a_close_is_not_read(alloc),
            Trial::AReaderThatFails => tests::a_reader_that_fails(alloc, input),
            Trial::AWriterThatFails => tests::a_writer_that_fails(alloc, input),
            Trial::AReaderThatNeverEndsAHead => tests::a_reader_that_never_ends_a_head(alloc),
            Trial::AReaderThatNeverEndsABody => tests::a_reader_that_never_ends_a_body(alloc),
            Trial::Refusals => tests::refusals(rt, alloc, input),
            Trial::ARequestWaitsForItsAnswer => {
                parked::a_request_waits_for_its_answer(rt, alloc, input)
            }
            Trial::ALateAnswerThatIsNotWritten => {
                parked::a_late_answer_that_is_not_written(rt, alloc)
            }
            Trial::TwoRequestsCutAnywhere => received::two_requests_cut_anywhere(rt, alloc, input),
            Trial::AFaultInTheSecondCutAnywhere => {
                received::a_fault_in_the_second_cut_anywhere(rt, alloc, input)
            }
            Trial::TheInputEndsInsideARequest => {
                received::the_input_ends_inside_a_request(rt, alloc, input)
            }
            Trial::TheInputEndsBehindTwoRequests => {
                received::the_input_ends_behind_two_requests(rt, alloc)
            }
            Trial::AFaultyTarget => received::a_faulty_target(rt, alloc, input),
            Trial::ANodeAloneAnswers => alone::a_node_alone_answers(rt, alloc),
            Trial::ANodeAloneKeepsItsSessions => alone::a_node_alone_keeps_its_sessions(rt, alloc),
            Trial::ANodeAloneEndsWhatHasExpired => {
                alone::a_node_alone_ends_what_has_expired(rt, alloc)
            }
            Trial::ANodeAloneHasNoPeers => alone::a_node_alone_has_no_peers(rt, alloc),
        }
    }
}

#[test]
fn pipelined_requests(rt: HostRuntime) {
    expect_all(&rt, &PIPELINES);
}

#[test]
fn messages_and_targets(rt: HostRuntime) {
    expect_all(&rt, &MESSAGES);
}

#[test]
fn connections(rt: HostRuntime) {
    expect_all(&rt, &CONNECTIONS);
}

#[test]
fn readers_that_never_end(rt: HostRuntime) {
    expect_all(&rt, &ENDLESS);
}
