//! Tests of what serves a request, as its users call it: messages and targets, a connection, a node that stands alone, and the
//! container.
//!
//! It proves nothing of its own. What can be said in texts in and texts out are rows of `test_rows`.
#![tactic(auto)]

#[cfg(test)]
mod cases;
#[cfg(test)]
mod connection;
#[cfg(test)]
mod container;
#[cfg(test)]
mod fixtures;
#[cfg(test)]
mod requests;
