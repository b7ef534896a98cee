//! One exchange with a node, on a connection of its own.

ghost use Rattle.sv_record.specs.Frame.{IsFrame};

use std::io;
use std::io::{Read, Write};
use std::net::{Ipv4Addr, Net, OpenStream, SocketAddr, TcpStream};
use std::time::Duration;
use sv_record::{Frame, write_frame};
use thiserror::Error;

/// The network of a machine, and memory.
pub trait Network: Net + AllocGlobal {}

impl<R> Network for R
where
    R: Net + AllocGlobal,
{}

/// Where a node is called, and how long it may take.
#[derive(Clone, Copy, Debug, PartialEq, Eq)]
pub struct Address {
    /// Its port on the loopback address.
    pub port: u16,
    /// In seconds, above 0.
    pub patience: u64,
}

/// The node can't be reached, or doesn't answer as nodes do.
#[derive(Clone, Copy, Debug, PartialEq, Eq, Error)]
#[error("the node doesn't answer")]
pub struct Unanswered;

/// All that is answered to these bytes, up to the end of the connection.
fn answered(network: &impl Network, address: Address, bytes: &[u8]) -> io::Result<Vec<u8>> {
    let addr = SocketAddr::from((Ipv4Addr::LOCALHOST, address.port));
    let mut stream = TcpStream::connect(network, addr)?;
    stream.set_read_timeout(Some(Duration::from_secs(address.patience)))?;
    stream.write_all(bytes)?;
    let mut answer = Vec::new(network.alloc());
    stream.read_to_end(&mut answer)?;
    Ok(answer)
}

/// All that a node answers to these bytes.
pub fn exchange(
    network: &impl Network,
    address: Address,
    bytes: &[u8],
) -> Result<Vec<u8>, Unanswered> {
    match answered(network, address, bytes) {
        Ok(answer) => Ok(answer),
        Err(_) => Err(Unanswered),
    }
}

/// The byte that a node answers to a command.
pub fn command(network: &impl Network, address: Address, frame: &Frame) -> Result<u8, Unanswered>
    requires { IsFrame frame.now }
{
    let mut bytes = Vec::new(network.alloc());
    if write_frame(frame, &mut bytes).is_err() {
        return Err(Unanswered);
    }
    match exchange(network, address, bytes.as_slice())?.as_slice() {
        [byte] => Ok(*byte),
        _ => Err(Unanswered),
    }
}
