//! The connections of a node: its listener, sockets, clients, and those to other nodes.
//!
//! The floor between the sockets of a machine and a node, which knows no node. [`Acceptor`] listens and waits, [`Connections`] has
//! whoever is connected, each at a place, with how far that connection has come ([`State`]). What has come on one is a whole request,
//! a fault of one, or a frame ([`Heard`]); what is to be said on one is written as far as the other end takes it, and the rest later.
//!
//! What the kernel gives and takes of a socket is noted where it is asked (`stream`); what a clock does is outside what contracts can
//! say. They say which connection a call may change, what was said on each and what has come there, that an answer is for the client that
//! waits under its number and for nobody else, and that a connection of a node brings packets of that node alone.
#![tactic(auto)]

mod acceptor;
mod activation;
mod answers;
mod calls;
mod client;
mod connections;
mod deadline;
mod ending;
mod frames;
mod hearing;
pub mod laws;
mod lingering;
mod links;
mod open;
mod peers;
mod persistence;
mod queue;
mod socket;
mod state;
mod stream;
mod tape;
mod unread;

pub use acceptor::{Acceptor, Arrival, TURN_LIMIT};
pub use client::Client;
pub use connections::Connections;
pub use hearing::{Heard, PIECE};
pub use open::Open;
pub use peers::{address_of, loopback, port_of};
pub use persistence::Persistence;
pub use socket::{Socket, Written, comes_later};
pub use state::{Next, Peer, State, Turn};
pub use unread::name_of;
