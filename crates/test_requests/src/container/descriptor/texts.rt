//! What is said of a fault.

use std::alloc::Global;
use std::process::Abort;
use sv_config::ConfigFault;

/// A fault, and a word of what is said of it.
static FAULTS: [(ConfigFault, &str); 8] = [
    (ConfigFault::NotToml, "TOML"),
    (ConfigFault::MissingField, "required"),
    (ConfigFault::WrongKind, "kind"),
    (ConfigFault::UnknownName, "unknown"),
    (ConfigFault::BadPattern, "spelled"),
    (ConfigFault::Duplicate, "twice"),
    (ConfigFault::LimitExceeded, "limit"),
    (ConfigFault::Memory, "memory"),
];

/// What is said of a fault.
fn said(rt: &impl Abort, alloc: Global, fault: ConfigFault) -> String {
    fault.to_string(alloc).expect(rt, "memory")
}

pub fn says_what_to_look_for(rt: &impl Abort, alloc: Global, input: usize) -> bool {
    match FAULTS.get(input) {
        Some((fault, word)) => said(rt, alloc, *fault).contains(*word),
        None => false,
    }
}
