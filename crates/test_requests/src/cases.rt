//! Tables of what is tried.

use std::alloc::Global;
use std::process::Abort;

/// What is tried, of an input by its number.
pub trait Case: Copy {
    /// Whether the input comes as it has to.
    fn holds<R: Abort>(self, rt: &R, alloc: Global, input: usize) -> bool;
}

/// What is tried, how many inputs it has, and its name.
pub type Row<C> = (C, usize, &'static str);

fn expect(rt: &impl Abort, holds: bool, name: &str, input: usize) {
    assert!(rt; holds, "{name}, input {input}");
}

/// Each input of each row comes as it has to.
pub fn expect_all<C: Case>(rt: &(impl Abort + AllocGlobal), rows: &[Row<C>]) {
    for (case, inputs, name) in rows {
        for input in 0..*inputs {
            expect(rt, case.holds(rt, rt.alloc(), input), name, input);
        }
    }
}
