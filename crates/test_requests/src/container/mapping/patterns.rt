//! What is said of a fault.

use std::alloc::Global;
use std::process::Abort;
use sv_mapping::MappingFault;

static FAULTS: [(MappingFault, &str); 4] = [
    (
        MappingFault::BadPattern,
        "a pattern has at most 256 bytes and no control character",
    ),
    (
        MappingFault::DuplicatePattern,
        "the pattern is mapped to a servlet of this context already",
    ),
    (
        MappingFault::TooMany,
        "a context has at most 256 servlet patterns",
    ),
    (
        MappingFault::Memory,
        "memory was refused while patterns were read or mapped",
    ),
];

/// What is said of a fault.
fn said(rt: &impl Abort, alloc: Global, fault: MappingFault) -> String {
    fault.to_string(alloc).expect(rt, "memory")
}

pub fn says_what_is_at_fault(rt: &impl Abort, alloc: Global, input: usize) -> bool {
    match FAULTS.get(input) {
        Some((fault, want)) => said(rt, alloc, *fault).as_str() == *want,
        None => false,
    }
}
