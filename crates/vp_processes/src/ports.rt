//! Ports that no other program has.

use std::io;
use std::net::{Ipv4Addr, UdpSocket};

/// How often ports are chosen again, if another program takes one that was free.
pub const TRIES: usize = 20;

/// The status of a process that doesn't get its port.
pub const LINK_FAULT: u8 = 6;

fn bound(rt: HostRuntime, port: u16) -> io::Result<UdpSocket> {
    UdpSocket::bind(&rt, (Ipv4Addr::LOCALHOST, port))
}

/// A port that no socket has now.
pub fn free_port(rt: HostRuntime) -> io::Result<u16> {
    let address = bound(rt, 0)?.local_addr();
    Ok(address?.port())
}

/// Ports that no socket has now. If two are the same, no node starts, and others are chosen.
pub fn free_ports(rt: HostRuntime) -> io::Result<[u16; 4]> {
    Ok([
        free_port(rt)?,
        free_port(rt)?,
        free_port(rt)?,
        free_port(rt)?,
    ])
}

/// Whether no socket has one of these ports now.
pub fn are_free(rt: HostRuntime, ports: &[u16; 4]) -> bool {
    for port in ports {
        if bound(rt, *port).is_err() {
            return false;
        }
    }
    true
}
