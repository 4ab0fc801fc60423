//! A link over a UDP socket.

ghost use Rattle.std.specs.Prelude.{◌≡◌, None, false, is_some, IsErrOf, IsSome};
ghost use Rattle.vp_outside.specs.Links.{Sends};
ghost use Rattle.vp_outside.specs.declared.sink.OutFault.TheVariants.{NoMemory as OutOfMemory};

use std::net::{IpAddr, Ipv4Addr, Net, SocketAddr, UdpSocket};
use vp_outside::{Failed, Link, MOST_GIVEN, OutFault};

/// A UDP socket of 127.0.0.1 as a link. Its state doesn't say what it has left or what was handed to it.
#[derive(Drop)]
pub struct Socket<N> {
    net: N,
    asked: Option<u16>,
    socket: Option<UdpSocket>,
    given: u64,
    faults: u64,
    losses: u64,
}

impl<N: Net> Socket<N> {
    /// Makes a link that is not bound to a port yet.
    pub fn new(net: N) -> Socket<N>
        ensures { ⟦<Socket<N> as Link>⟧.state result ≡
            record {
              left = None;
              given = 0;
              handed = None;
              asked = None;
              bound = false;
              faults = 0;
              losses = 0;
            } }
    {
        Socket {
            net,
            asked: None,
            socket: None,
            given: 0,
            faults: 0,
            losses: 0,
        }
    }
}

/// The sender's port on 127.0.0.1, and 0 for a sender elsewhere.
fn port_of(sender: &SocketAddr) -> u16 {
    if sender.ip() == IpAddr::V4(Ipv4Addr::LOCALHOST) {
        sender.port()
    } else {
        0
    }
}

impl<N: Net> Link for Socket<N> {
    ghost state = { λ s. record {
      left = None;
      given = s.given;
      handed = None;
      asked = s.asked;
      bound = is_some s.socket;
      faults = s.faults;
      losses = s.losses;
    } };

    fn faults(&self) -> u64 {
        self.faults
    }

    fn losses(&self) -> u64 {
        self.losses
    }

    fn bind(&mut self, port: u16) -> Result<(), Failed> {
        self.asked = Some(port);
        self.socket = UdpSocket::bind(&self.net, (Ipv4Addr::LOCALHOST, port)).ok();
        if self.socket.is_none() {
            self.faults = self.faults.saturating_add(1);
            return Err(Failed);
        }
        Ok(())
    }

    /// Waits for a datagram. One that comes from another address than 127.0.0.1 comes from port 0, which no site has.
    fn receive(&mut self, buf: &mut [u8]) -> Result<(u16, usize), Failed> {
        let Some(socket) = &self.socket else {
            unreachable!()
        };
        match socket.recv_from(&mut buf[..MOST_GIVEN]) {
            Ok((count, sender)) => {
                self.given = self.given.saturating_add(1);
                Ok((port_of(&sender), count))
            }
            Err(_) => {
                self.faults = self.faults.saturating_add(1);
                Err(Failed)
            }
        }
    }

    /// Sends the datagram. It never runs out of memory.
    fn send(&mut self, port: u16, piece: &[u8]) -> Result<(), OutFault>
        requires bound { IsSome self.old.socket }
        ensures sends { Sends port piece.now (⟦<Socket<N> as Link>⟧.state self.old)
            (⟦<Socket<N> as Link>⟧.state self.new) result }
        ensures no_memory { IsErrOf result OutOfMemory → ⊥ }
    {
        let Some(socket) = &self.socket else {
            unreachable!()
        };
        match socket.send_to(piece, (Ipv4Addr::LOCALHOST, port)) {
            Ok(count) if count == piece.len() => Ok(()),
            _ => {
                self.losses = self.losses.saturating_add(1);
                Err(OutFault::Failed)
            }
        }
    }
}
