//! The commands of a node, with what it answers in words.

ghost use Rattle.sv_model.specs.Keys.{IsKey};
ghost use Rattle.sv_record.specs.Frame.{IsFrame};

use crate::fault::Fault;
use sv_client::{Address, NodeNumber, command};
use sv_model::Key;
use sv_record::Frame;

/// How long a node may take for a command, in seconds: what it sends to a peer that doesn't answer takes one.
pub const PATIENCE: u64 = 10;

/// Where a node is called.
pub fn address(port: u16) -> Address {
    Address {
        port,
        patience: PATIENCE,
    }
}

/// What a node's answer to a command means; a tick and a halt have no other refusal than the fifth.
pub fn told(answer: u8) -> &'static str {
    match answer {
        0 => "done",
        1 => "the node knows no such session",
        2 => "the session isn't at this node",
        3 => "there is no such other node",
        4 => "the session can't be moved any more",
        5 => "the node has no room in its journal, or no memory",
        _ => "an answer that no node gives",
    }
}

/// Gives a command to the node at an address; its answer.
fn give(machine: &HostRuntime, address: Address, frame: &Frame) -> Result<u8, Fault>
    requires { IsFrame frame.now }
{
    match command(machine, address, frame) {
        Ok(answer) => Ok(answer),
        Err(_) => Err(Fault::Unanswered(address.port)),
    }
}

/// Has the node at an address hand a session over to another; its answer.
pub fn hand_over(
    machine: &HostRuntime,
    address: Address,
    key: Key,
    to: NodeNumber,
) -> Result<u8, Fault>
    requires { IsKey key }
{
    give(machine, address, &Frame::Move { key, to: to.value })
}

/// Has the node at an address do what is due; its answer.
pub fn tick(machine: &HostRuntime, address: Address) -> Result<u8, Fault> {
    give(machine, address, &Frame::Tick)
}

/// Halts the node at an address; its answer.
pub fn halt(machine: &HostRuntime, address: Address) -> Result<u8, Fault> {
    give(machine, address, &Frame::Halt)
}
