//! What the frame of a turn asks of its site.

ghost use Rattle.std.specs.Prelude.{◌≡◌, if◌then◌else◌, IfOk};
ghost use Rattle.vp_fitting.specs.Asked.{asks, asks_body};
ghost use Rattle.vp_runs.specs.Arrivals.{IsArrival};
ghost use Rattle.vp_runs.specs.declared.arrival.Arrival.TheVariants.{Gives, Stray};
ghost use Rattle.vp_wire.specs.Grammar.{IsFrame};

use std::alloc::Global;
use vp_base::{Input, NoMemory, SiteId};
use vp_runs::Arrival;
use vp_wire::{Body, Frame, WireFault, decode, frames_are_read};

/// An input, if it is for the site.
fn given(here: bool, input: Input) -> Arrival
    ensures { result ≡ (if here then Gives input else Stray) }
{
    if here {
        Arrival::Gives { input }
    } else {
        Arrival::Stray
    }
}

/// What the frame asks of the site. A frame that stops a node stops that of any site.
fn asked_by(site: SiteId, frame: Frame) -> Arrival
    requires { IsFrame frame }
    ensures { result ≡ asks_body site frame frame.body }
{
    let Frame {
        version: _,
        from,
        to,
        body,
    } = frame;
    let here = to == site.get();
    match body {
        Body::Message(message) => given(
            here,
            Input::Message {
                from: SiteId::of(from),
                message,
            },
        ),
        Body::Call(call) => given(here, Input::Call { from: 0, call }),
        Body::Reply(_) => Arrival::Stray,
        Body::Tick => given(here, Input::Tick),
        Body::ProbeNow => given(here, Input::Probe),
        Body::Stop => Arrival::Stops,
    }
}

/// Decodes the bytes of a turn's frame, and says what it asks of the site. A call comes from port 0.
pub fn asked(alloc: Global, site: SiteId, bytes: &[u8]) -> Result<Arrival, NoMemory>
    ensures what { IfOk result (λ it. it ≡ asks site bytes.now) }
    ensures form { IfOk result IsArrival }
{
    frames_are_read();
    match decode(alloc, bytes) {
        Ok(frame) => Ok(asked_by(site, frame)),
        Err(WireFault::BadFrame { at }) => Ok(Arrival::Bad { at }),
        Err(WireFault::NoMemory) => Err(NoMemory),
    }
}
