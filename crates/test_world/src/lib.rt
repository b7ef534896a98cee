//! Tests of the core of a node by itself, and of a world of nodes: how it starts, lists of events in one run, and tokens.
//!
//! The top of the world's floor: it stands on `sv_core` and `sv_world` and proves nothing of its own. What is expected is written
//! out by hand beside each row and event, from the table of the node's step. What worlds do event by event is told by
//! `test_cluster_rows`, whose nodes serve by real applications.
#![tactic(auto)]

#[cfg(test)]
mod act;
#[cfg(test)]
mod alone;
#[cfg(test)]
mod faults;
#[cfg(test)]
mod fixtures;
#[cfg(test)]
mod forgets;
#[cfg(test)]
mod limits;
#[cfg(test)]
mod room;
#[cfg(test)]
mod runs;
#[cfg(test)]
mod said;
#[cfg(test)]
mod stage;
#[cfg(test)]
mod starts;
