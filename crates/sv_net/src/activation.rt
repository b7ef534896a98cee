//! The listener that a service manager hands over (sd_listen_fds(3)), so that whoever connects while a node is started anew stands
//! at its door meanwhile.

use os::FromRawFd;
use std::io::ErrorKind;
use std::net::{OpenListener, SocketAddr, TcpListener};
use std::{env, io, process};

/// The first descriptor that is handed over.
const FIRST: i32 = 3;

/// The number in a variable of the environment; none where it isn't there, or is none.
fn number_in(machine: &HostRuntime, name: &str) -> Option<u32> {
    let text = env::var(machine, name).ok()?;
    text.parse().ok()
}

/// How many descriptors were handed over to this process.
fn handed_over(machine: &HostRuntime) -> u32 {
    if number_in(machine, "LISTEN_PID") != Some(process::id(machine.process())) {
        return 0;
    }
    number_in(machine, "LISTEN_FDS").unwrap_or(0)
}

/// The first of them.
fn first() -> TcpListener {
    // Whoever says that it was handed over has opened it for this process, and nothing else here knows its number.
    unsafe { TcpListener::from_raw_fd(FIRST) }
}

/// The listener that was handed over; none where none was.
///
/// # Errors
///
/// Others were handed over, or one that listens elsewhere than at this address.
pub fn handed_listener(machine: &HostRuntime, addr: SocketAddr) -> io::Result<Option<TcpListener>> {
    match handed_over(machine) {
        0 => return Ok(None),
        1 => {}
        _ => return Err(io::Error::from(ErrorKind::InvalidInput)),
    }
    let listener = first();
    if listener.local_addr()? != addr {
        return Err(io::Error::from(ErrorKind::AddrNotAvailable));
    }
    Ok(Some(listener))
}
