//! A container's life from outside: objects that note what they live through, in one list; and the limits of the descriptor and the
//! mappings that it is made of, and what is said of a fault there.
//!
//! What is served is proved; which object is called when, that each is destroyed and dropped once, and in which order listeners
//! hear, no contract says, and these tests do. Expected notes are those of Jakarta Servlet 6.0, sections 2.3 ("Servlet Life
//! Cycle"), 6.2.1 ("Filter Lifecycle") and 11.3.2 ("Listener Registration"), or are reasoned out beside each row.
//!
//! Each thing that is tried is a function that tells whether it came as it has to, of an input by its number; a test calls those of a table.

mod boxed;
mod cast;
mod descriptor;
mod events;
mod faults;
mod lives;
mod mapping;
mod noting;
mod served;

use crate::cases::{Case, Row, expect_all};
use std::alloc::Global;
use std::process::Abort;

/// What is tried, each by a function of this name.
#[derive(Clone, Copy)]
enum Trial {
    BoxesLiveAsTheirObjectsDo,
    DropCallsNoObject,
    FaultsHandAllObjectsBack,
    FindsEachOfAsManyPatternsAsThereMayBe,
    JudgesAMegabyte,
    ListenersHearInOrder,
    LivesInOrder,
    RefusesPatternsPastTheLimit,
    RequestsReachTheirObjects,
    SaysWhatIsAtFault,
    SaysWhatToLookFor,
}

static OBJECTS: [Row<Trial>; 6] = [
    (Trial::LivesInOrder, 3, "lives in order"),
    (Trial::DropCallsNoObject, 1, "a drop calls no object"),
    (
        Trial::BoxesLiveAsTheirObjectsDo,
        1,
        "boxes live as their objects do",
    ),
    (Trial::ListenersHearInOrder, 14, "listeners hear in order"),
    (
        Trial::RequestsReachTheirObjects,
        7,
        "requests reach their objects",
    ),
    (
        Trial::FaultsHandAllObjectsBack,
        12,
        "faults hand all objects back",
    ),
];

static LARGE: [Row<Trial>; 1] = [(
    Trial::JudgesAMegabyte,
    1,
    "a descriptor of a megabyte is judged",
)];

static LIMITS: [Row<Trial>; 4] = [
    (
        Trial::SaysWhatToLookFor,
        8,
        "a descriptor's fault says what to look for",
    ),
    (
        Trial::SaysWhatIsAtFault,
        4,
        "a pattern's fault says what it is",
    ),
    (
        Trial::RefusesPatternsPastTheLimit,
        1,
        "patterns past the limit are refused",
    ),
    (
        Trial::FindsEachOfAsManyPatternsAsThereMayBe,
        1,
        "each of as many patterns as there may be is found",
    ),
];

impl Case for Trial {
    fn holds<R: Abort>(self, rt: &R, alloc: Global, input: usize) -> bool {
        match self {
            Trial::BoxesLiveAsTheirObjectsDo => boxed::boxes_live_as_their_objects_do(rt, alloc),
            Trial::DropCallsNoObject => lives::drop_calls_no_object(rt, alloc),
            Trial::FaultsHandAllObjectsBack => faults::faults_hand_all_objects_back(
                rt, alloc, input,
            ),
            Trial::FindsEachOfAsManyPatternsAsThereMayBe => {
                mapping::servlets::finds_each_of_as_many_patterns_as_there_may_be(rt, alloc)
            }
            Trial::JudgesAMegabyte => descriptor::size::judges_a_megabyte(rt, alloc),
            Trial::ListenersHearInOrder => events::listeners_hear_in_order(rt, alloc, input),
            Trial::LivesInOrder => lives::lives_in_order(rt, alloc, input),
            Trial::RefusesPatternsPastTheLimit => {
                mapping::servlets::refuses_patterns_past_the_limit(rt, alloc)
            }
            Trial::RequestsReachTheirObjects => {
                served::requests_reach_their_objects(rt, alloc, input)
            }
            Trial::SaysWhatIsAtFault => mapping::patterns::says_what_is_at_fault(rt, alloc, input),
            Trial::SaysWhatToLookFor => descriptor::texts::says_what_to_look_for(rt, alloc, input),
        }
    }
}

#[test]
fn lives_of_objects(rt: HostRuntime) {
    expect_all(&rt, &OBJECTS);
}

#[test]
fn a_large_descriptor(rt: HostRuntime) {
    expect_all(&rt, &LARGE);
}

#[test]
fn limits_and_faults(rt: HostRuntime) {
    expect_all(&rt, &LIMITS);
}
