//! Datagrams on their way.

use std::marker::Model;

/// A datagram on its way from one port to another. Its bytes are lent.
#[derive(Drop)]
pub struct Letter<'a> {
    pub from: u16,
    pub to: u16,
    pub bytes: &'a [u8],
}

impl<'a> Model for Letter<'a> {
    ghost use Rattle.vp_cluster.specs.Letter.{Letter as SentLetter};

    ghost Value = { SentLetter };

    ghost view = { λ l. record { from = l.from; to = l.to; bytes = l.bytes.now } };
}
