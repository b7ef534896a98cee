//! Tests of a node on its machine, as a program calls it: over real sockets, from its start to its end; of what it tells its operator;
//! and of a program's words, its descriptors, and streams of requests that its own objects serve.
//!
//! It stands on `sv_host` and `sv_launch`, and proves nothing of its own. A node serves its callers in the order in which they connect,
//! and a caller who has connected waits to be served. So a test needs one thread: each caller connects and says all that it will
//! say, the last one that the node is to stop; then the node runs; and then each caller reads what it was told. Frames are spelled
//! byte by byte.
#![tactic(auto)]

#[cfg(test)]
mod callers;
#[cfg(test)]
mod cases;
#[cfg(test)]
mod expect;
#[cfg(test)]
mod faults;
#[cfg(test)]
mod figures;
#[cfg(test)]
mod files;
#[cfg(test)]
mod fixtures;
#[cfg(test)]
mod kept;
#[cfg(test)]
mod launch;
#[cfg(test)]
mod lives;
#[cfg(test)]
mod log;
#[cfg(test)]
mod peers;
#[cfg(test)]
mod rounds;
#[cfg(test)]
mod scene;
#[cfg(test)]
mod times;
#[cfg(test)]
mod town;
