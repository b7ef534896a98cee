//! The other nodes of a cluster.

ghost use Rattle.std.specs.Prelude.{◌≡◌, IfSome, slice_get};
ghost use Rattle.std.specs.Option.{option_map};
ghost use Rattle.std.specs.Net.Socket.{socket_port};
ghost use Rattle.sv_net.specs.Peers.{port_at, IsLoopback};

use std::net::{IpAddr, Ipv4Addr, SocketAddr};

/// The loopback address of a port.
pub fn loopback(port: u16) -> SocketAddr
    ensures { IsLoopback port result }
{
    SocketAddr::new(IpAddr::V4(Ipv4Addr::LOCALHOST), port)
}

/// The port of a node; 0 where there is no such node.
pub fn port_of(ports: &[u16], node: u8) -> u16
    ensures { result ≡ port_at ports.now node }
{
    ports.get(usize::from(node)).copied().unwrap_or(0)
}

/// Where the node of a number listens.
pub fn address_of(ports: &[u16], node: u8) -> Option<SocketAddr>
    ensures port { option_map socket_port result ≡ slice_get ports.now node }
    ensures loopback { IfSome result (IsLoopback (port_at ports.now node)) }
{
    let port = ports.get(usize::from(node))?;
    Some(loopback(*port))
}
