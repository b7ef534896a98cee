//! The version of the programs, in one place.
//!
//! The first line is the version, as the newest heading of CHANGELOG.md has it. The second is written over when a program is
//! installed (`deploy/install`): of which commit it was made, and whether it was proved. It has room for that, in blanks at its end.
#![tactic(auto)]

/// The version, a line feed, and how the program was made, with blanks after.
const STAMP: &str =
    "0.10.0\nnot installed: `./run install` writes here which commit it was made of, and whether that was proved                    ";

/// The version alone, as in `0.10.0`.
pub fn number() -> &'static str {
    match STAMP.split_once('\n') {
        Some((number, _)) => number,
        None => STAMP,
    }
}

/// The version, a line feed, and how the program was made.
pub fn version() -> &'static str {
    STAMP.trim_end()
}
