//! What a datagram that comes is to a node.

ghost use Rattle.std.specs.Prelude.{◌≡◌, ◌==◌, IfOk, Ok, find, option_map};
ghost use Rattle.vp_runs.specs.Arrivals.{IsArrival, site_at, is_for, arrival_in, arrival_of, arrival};
ghost use Rattle.vp_wire.specs.Grammar.{IsFrame};

use std::alloc::Global;
use vp_base::{Input, NoMemory, SiteId};
use vp_catalog::Catalog;
use vp_runs::Arrival;
use vp_wire::{Body, Frame, WireFault, decode, frames_are_read};

/// The site that has the port in the catalogue.
fn owner_of(catalog: &Catalog, port: u16) -> Option<SiteId>
    ensures { result ≡ option_map (λ site. site.0) (find (λ site. site.1 == port) catalog.now.sites) }
{
    catalog
        .ports()
        .iter()
        .find(|site| site.1 == port)
        .map(|site| site.0)
}

/// The number of the site that has the port; 0 where none has it.
fn site_at(catalog: &Catalog, port: u16) -> u8
    ensures { result ≡ site_at catalog.now port }
{
    match owner_of(catalog, port) {
        Some(site) => site.get(),
        None => 0,
    }
}

/// Whether the frame is for the site, and comes from the port of the site that sent it. A client's frame is from 0.
fn is_for(catalog: &Catalog, id: SiteId, port: u16, frame: &Frame) -> bool
    ensures { result ≡ is_for catalog.now id port frame.now }
{
    frame.to == id.get() && frame.from == site_at(catalog, port)
}

/// What a frame for the site is to it. A reply is stray: no site waits for one.
fn arrival_in(port: u16, frame: Frame) -> Arrival
    requires { IsFrame frame }
    ensures { result ≡ arrival_in port frame.from frame.body }
{
    let Frame { from, body, .. } = frame;
    match body {
        Body::Message(message) => Arrival::Gives {
            input: Input::Message {
                from: SiteId::of(from),
                message,
            },
        },
        Body::Call(call) => Arrival::Gives {
            input: Input::Call { from: port, call },
        },
        Body::Reply(_) => Arrival::Stray,
        Body::Tick => Arrival::Gives { input: Input::Tick },
        Body::ProbeNow => Arrival::Gives {
            input: Input::Probe,
        },
        Body::Stop => Arrival::Stops,
    }
}

/// What the frame is to the site.
fn arrival_of(catalog: &Catalog, id: SiteId, port: u16, frame: Frame) -> Arrival
    requires { IsFrame frame }
    ensures { result ≡ arrival_of catalog.now id port (Ok frame) }
{
    if is_for(catalog, id, port, &frame) {
        arrival_in(port, frame)
    } else {
        Arrival::Stray
    }
}

/// Decodes the datagram, and says what it is to the site.
pub fn arrival(
    alloc: Global,
    catalog: &Catalog,
    id: SiteId,
    port: u16,
    bytes: &[u8],
) -> Result<Arrival, NoMemory>
    ensures what { IfOk result
        (λ it. it ≡ arrival catalog.now id (record { port = port; bytes = bytes.now })) }
    ensures form { IfOk result IsArrival }
{
    frames_are_read();
    match decode(alloc, bytes) {
        Ok(frame) => Ok(arrival_of(catalog, id, port, frame)),
        Err(WireFault::BadFrame { at }) => Ok(Arrival::Bad { at }),
        Err(WireFault::NoMemory) => Err(NoMemory),
    }
}
