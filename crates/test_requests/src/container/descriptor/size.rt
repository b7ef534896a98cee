//! Descriptors of a megabyte: read once, with no look at each pair.

use crate::fixtures::{add, text};
use std::alloc::Global;
use std::process::Abort;
use sv_config::{ConfigFault, Deployment};

/// A filter and its mapping, by a number.
fn lines(rt: &impl Abort, alloc: Global, n: usize) -> String {
    let lines = format!(in alloc;
        "[[context.filter]]\nname = \"f{n}\"\n[[context.filter-mapping]]\nfilter = \"f{n}\"\npattern = \"/{n}\"\n"
    );
    lines.expect(rt, "memory")
}

/// A descriptor of more than a million bytes: filters, and filter mappings that name them.
fn large(rt: &impl Abort, alloc: Global, names: usize) -> String {
    let mut all = text(rt, alloc, "[[context]]\npath = \"\"\n");
    for n in 0..names {
        add(rt, &mut all, &lines(rt, alloc, n));
    }
    all
}

pub fn judges_a_megabyte(rt: &impl Abort, alloc: Global) -> bool {
    let text = large(rt, alloc, 11_000);
    text.len() > 1_000_000 && has_too_many(alloc, &text)
}

/// A descriptor goes beyond a limit.
fn has_too_many(alloc: Global, text: &str) -> bool {
    Deployment::from_toml(alloc, text).err() == Some(ConfigFault::LimitExceeded)
}
