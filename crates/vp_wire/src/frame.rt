//! Frames: what is in the datagrams of sites and clients.

ghost use Rattle.std.specs.Prelude.{◌≡◌};
ghost use Rattle.vp_wire.specs.Grammar.{frame_of};

use vp_base::{Answer, Call, CopyOf, Message, NoMemory};

/// What is in a datagram. Sites have numbers from 1 to 16, and a client is 0: a message goes from site to site, a reply from a site
/// to 0, and everything else from 0 to a site.
#[derive(Drop)]
pub struct Frame {
    /// 1 or 2: how the body is spelled. Frames of version 2 are sent, and both are read.
    pub version: u8,
    pub from: u8,
    pub to: u8,
    pub body: Body,
}

/// What a frame says. Bodies without a field are orders to a node.
#[derive(Drop)]
pub enum Body {
    /// A message from site to site.
    Message(Message),
    /// The call of a client.
    Call(Call),
    /// The answer to a client's call.
    Reply(Answer),
    /// The node is to give its site a tick.
    Tick,
    /// The node is to have its site probe the other sites, each of which is then sent a `Message::Probe`.
    ProbeNow,
    /// The node is to stop.
    Stop,
}

/// The version of the frames that nodes and clients send.
pub const SENT: u8 = 2;

impl Frame {
    /// A frame as it is sent.
    pub fn of(from: u8, to: u8, body: Body) -> Frame
        ensures { result ≡ frame_of from to body }
    {
        Frame {
            version: SENT,
            from,
            to,
            body,
        }
    }
}

impl CopyOf for Frame {
    fn copy_of(&self) -> Result<Frame, NoMemory> {
        Ok(Frame {
            version: self.version,
            from: self.from,
            to: self.to,
            body: self.body.copy_of()?,
        })
    }
}

impl CopyOf for Body {
    fn copy_of(&self) -> Result<Body, NoMemory> {
        Ok(match self {
            Body::Message(message) => Body::Message(message.copy_of()?),
            Body::Call(call) => Body::Call(call.copy_of()?),
            Body::Reply(answer) => Body::Reply(answer.copy_of()?),
            Body::Tick => Body::Tick,
            Body::ProbeNow => Body::ProbeNow,
            Body::Stop => Body::Stop,
        })
    }
}
