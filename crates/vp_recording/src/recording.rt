//! What nodes record of their lives.

use bytes::Bytes;
use vp_base::{Seq, SiteId};
use vp_outside::Datagrams;

/// A datagram that a node took, and those that it handed over in that turn: messages, and then replies. Their ports are 0.
#[derive(Drop)]
pub struct Turn {
    pub frame: Bytes,
    pub outs: Datagrams,
}

/// Turns, in order.
pub type Turns = Seq<Turn>;

/// One life of a site's node.
#[derive(Drop)]
pub struct Recording {
    pub site: SiteId,
    pub life: u32,
    pub turns: Turns,
    /// Whether it says how the life ended. In one that doesn't, the last turn may have more datagrams than are recorded.
    pub ended: bool,
}

/// The recordings of several nodes; those of one site by life.
pub type Recordings = Seq<Recording>;
