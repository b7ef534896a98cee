//! Tests of plain data, of its formats, of scripts, and of disks and journals, as their users call them.
//!
//! It stands on `sv_model`, `sv_record`, `sv_cluster` and `sv_journal`, and proves nothing of its own. What the bytes of records and
//! packets say are rows of `test_rows`.
#![tactic(auto)]

#[cfg(test)]
mod disk;
#[cfg(test)]
mod fixtures;
#[cfg(test)]
mod model;
#[cfg(test)]
mod record;
#[cfg(test)]
mod scripts;
