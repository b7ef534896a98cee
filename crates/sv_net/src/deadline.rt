//! How a node listens.

use crate::activation::handed_listener;
use std::io;
use std::net::{OpenStream, SocketAddr, TcpListener, TcpStream};
use std::os::fd::OwnedFd;
use std::time::Duration;

/// In seconds: so often a node looks at the time at least.
pub const TURN: u64 = 1;

/// A new listener. As many may stand at its door as the system lets (`net.core.somaxconn`); std's has room for 128.
fn bind(machine: &HostRuntime, addr: SocketAddr) -> io::Result<OwnedFd> {
    Ok(OwnedFd::from(mio::net::TcpListener::bind(machine, addr)?))
}

/// Listens at an address of this machine, by the listener that was handed over to this process, or by a new one. Where `accept`
/// waits, it does so for a turn at most.
pub fn listen(machine: &HostRuntime, addr: SocketAddr) -> io::Result<TcpListener> {
    let listener = match handed_listener(machine, addr)? {
        Some(listener) => OwnedFd::from(listener),
        None => bind(machine, addr)?,
    };
    let socket = TcpStream::from(listener);
    socket.set_nonblocking(false)?;
    socket.set_read_timeout(Some(Duration::from_secs(TURN)))?;
    Ok(TcpListener::from(OwnedFd::from(socket)))
}
