//! A UDP socket of 127.0.0.1, which gets what it hands to its own port.

ghost use Rattle.std.specs.Prelude.{◌≡◌, None};

use std::io;
use std::net::{Ipv4Addr, UdpSocket};
use vp_adapters::Socket;
use vp_outside::{Failed, Link, MOST_GIVEN, OutFault};

/// A port that no socket has.
fn free_port(rt: &HostRuntime) -> io::Result<u16> {
    let socket = UdpSocket::bind(rt, (Ipv4Addr::LOCALHOST, 0))?;
    Ok(socket.local_addr()?.port())
}

/// What comes back of a piece that the link sends to its own port: the sender's port, the count, and the buffer's first and last byte.
fn echoed<L: Link>(link: &mut L, port: u16, piece: &[u8]) -> Result<(u16, usize, u8, u8), OutFault>
    requires { (L.state link.old).asked ≡ None }
{
    let mut buf = [b'-'; MOST_GIVEN];
    link.bind(port)?;
    link.send(port, piece)?;
    let (sender, count) = link.receive(&mut buf)?;
    Ok((sender, count, buf[0], buf[MOST_GIVEN - 1]))
}

#[test]
fn a_socket_gets_what_it_hands_to_its_own_port(rt: HostRuntime) {
    let port = free_port(&rt).expect(&rt, "a port");
    let piece = vec![in rt.alloc(); b'x'; MOST_GIVEN + 1].expect(&rt, "memory");
    let short = echoed(&mut Socket::new(&rt), port, b"ab");
    assert!(rt; short == Ok((port, 2, b'a', b'-')));
    let empty = echoed(&mut Socket::new(&rt), port, b"");
    assert!(rt; empty == Ok((port, 0, b'-', b'-')));
    let mut link = Socket::new(&rt);
    let long = echoed(&mut link, port, &piece);
    assert!(rt; long == Ok((port, MOST_GIVEN, b'x', b'x')));
    assert!(rt; link.faults() == 0 && link.losses() == 0);
}

#[test]
fn what_a_socket_can_not_do_is_counted(rt: HostRuntime) {
    let port = free_port(&rt).expect(&rt, "a port");
    let longest = vec![in rt.alloc(); b'x'; 70_000].expect(&rt, "memory");
    let mut link = Socket::new(&rt);
    link.bind(port).expect(&rt, "the port is free");
    let mut other = Socket::new(&rt);
    assert!(rt; other.bind(port) == Err(Failed), "the port is taken");
    assert!(rt; other.faults() == 1 && other.losses() == 0);
    assert!(rt; link.send(port, &longest) == Err(OutFault::Failed));
    assert!(rt; link.faults() == 0 && link.losses() == 1);
}

/// The port and the count of the next datagram that comes to the port, sent by a socket of 127.0.0.2 with this port.
fn from_elsewhere<L: Link>(rt: &HostRuntime, link: &mut L, port: u16) -> io::Result<(u16, usize)>
    requires { (L.state link.old).asked ≡ None }
{
    let mut buf = [0; MOST_GIVEN];
    let sender = UdpSocket::bind(rt, (Ipv4Addr::new(127, 0, 0, 2), port))?;
    if link.bind(port).is_err() {
        return Err(io::Error::from(io::ErrorKind::AddrInUse));
    }
    sender.send_to(b"abc", (Ipv4Addr::LOCALHOST, port))?;
    Ok(link.receive(&mut buf).unwrap_or((port, 0)))
}

#[test]
fn a_datagram_from_another_address_comes_from_port_0(rt: HostRuntime) {
    let port = free_port(&rt).expect(&rt, "a port");
    let received = from_elsewhere(&rt, &mut Socket::new(&rt), port);
    assert!(rt; received.expect(&rt, "a datagram") == (0, 3));
}

/// How many bytes the first datagram has that comes to the link at the port, of two that are sent there: 1 byte to 127.0.0.2, then 2 bytes to
/// 127.0.0.1.
fn first_to_arrive<L: Link>(rt: &HostRuntime, link: &mut L, port: u16) -> io::Result<usize>
    requires { (L.state link.old).asked ≡ None }
{
    let mut buf = [0; MOST_GIVEN];
    let sender = UdpSocket::bind(rt, (Ipv4Addr::LOCALHOST, 0))?;
    if link.bind(port).is_err() {
        return Err(io::Error::from(io::ErrorKind::AddrInUse));
    }
    let _ = sender.send_to(b"a", (Ipv4Addr::new(127, 0, 0, 2), port));
    sender.send_to(b"bc", (Ipv4Addr::LOCALHOST, port))?;
    Ok(link.receive(&mut buf).map_or(0, |received| received.1))
}

#[test]
fn what_is_sent_to_another_address_reaches_no_socket(rt: HostRuntime) {
    let port = free_port(&rt).expect(&rt, "a port");
    let arrived = first_to_arrive(&rt, &mut Socket::new(&rt), port);
    assert!(rt; arrived.expect(&rt, "a datagram") == 2);
}
