//! Sending a call to a site and waiting for its answer.

ghost use Rattle.std.specs.Prelude.{◌≡◌, IsTrue, IfOk};
ghost use Rattle.vp_base.specs.Calls.{IsCall};
ghost use Rattle.vp_outside.specs.Links.{Sends, StaysBound};
ghost use Rattle.vp_runs.specs.Asking.{call_frame};
ghost use Rattle.vp_wire.specs.Grammar.{frame_bytes};
ghost use Rattle.vp_laws.specs.Shapes.{IsAnswer};
ghost use Rattle.vp_client.specs.Asked.{Asks, of_output};
ghost use Rattle.vp_client.specs.declared.asking.AskFault.TheVariants.{LinkFault as LinkFailed, NoMemory as OutOfMemory};

use crate::answering::find_answer;
use bytes::BytesMut;
use std::alloc::Global;
use vp_base::{Answer, Call, CopyOf, NoMemory, SiteId};
use vp_outside::{Failed, Link, MOST_GIVEN, OutFault};
use vp_wire::{Body, Frame, encode};

/// Why there is no answer. The call may be done all the same.
#[derive(Clone, Copy, Debug, Drop, PartialEq, Eq)]
pub enum AskFault {
    /// `turns` datagrams came, and none was the answer.
    NoAnswer { turns: u64 },
    /// The link failed.
    LinkFault,
    NoMemory,
}

impl From<Failed> for AskFault {
    ghost from_gives = { λ _ fault. fault ≡ LinkFailed };

    fn from(_: Failed) -> AskFault {
        AskFault::LinkFault
    }
}

impl From<NoMemory> for AskFault {
    ghost from_gives = { λ _ fault. fault ≡ OutOfMemory };

    fn from(_: NoMemory) -> AskFault {
        AskFault::NoMemory
    }
}

impl From<OutFault> for AskFault {
    ghost from_gives = { λ given fault. fault ≡ of_output given };

    fn from(fault: OutFault) -> AskFault {
        match fault {
            OutFault::Failed => AskFault::LinkFault,
            OutFault::NoMemory => AskFault::NoMemory,
        }
    }
}

/// Sends the call to the site's port once, and takes datagrams, at most `turns`, until the answer comes. It waits as long as no datagram
/// comes.
#[tactic(auto, using(crate::proofs::Asked::unsent, crate::proofs::Asked::begun))]
pub fn ask<L: Link>(
    alloc: Global,
    link: &mut L,
    port: u16,
    site: SiteId,
    call: &Call,
    turns: u64,
) -> Result<Answer, AskFault>
    requires bound { IsTrue (L.state link.old).bound }
    requires call { IsCall call.now }
    ensures asks { Asks port site call.now turns (L.state link.old) (L.state link.new) result }
    ensures stays { StaysBound (L.state link.old) (L.state link.new) }
    ensures shaped { IfOk result IsAnswer }
{
    send_call(alloc, link, port, site, call)?;
    let mut buf = [0; MOST_GIVEN];
    for _ in 0..turns {
        let (from, count) = link.receive(&mut buf)?;
        if from != port {
            continue;
        }
        if let Some(answer) = find_answer(alloc, port, site, call, &buf[..count])? {
            return Ok(answer);
        }
    }
    Err(AskFault::NoAnswer { turns })
}

/// Sends the frame of the call.
#[tactic(auto, using(crate::proofs::Calls::call_is_framed))]
fn send_call<L: Link>(
    alloc: Global,
    link: &mut L,
    port: u16,
    site: SiteId,
    call: &Call,
) -> Result<(), OutFault>
    requires bound { IsTrue (L.state link.old).bound }
    requires call { IsCall call.now }
    ensures { Sends port (frame_bytes (call_frame site call.now)) (L.state link.old) (L.state link.new)
        result }
{
    let frame = Frame::of(0, site.get(), Body::Call(call.copy_of()?));
    let mut bytes = BytesMut::new(alloc);
    encode(&frame, &mut bytes)?;
    link.send(port, &bytes)
}
