//! The command that answers a session.

ghost use Rattle.std.specs.Prelude.{◌≡◌, None};
ghost use Rattle.vp_gateway.specs.Served.{gate};
ghost use Rattle.vp_top.specs.GatewayEnds.{GatewayEnds, PrintsDefined, PrintsLine, last_line, status_of};

use crate::plan::{Gateway, refused, too_long, usage};
use std::alloc::Global;
use vp_base::NoMemory;
use vp_catalog::CatalogFault;
use vp_gateway::{GateEnd, serve};
use vp_outside::{Link, Sink, Source};
use vp_status::{RunOutput, Status};

/// Answers the session of the source as this gateway, and prints why it ended after the answers.
#[tactic(auto, using(crate::proofs::Sessions::gateway_ends))]
pub fn serve_session<S: Source, K: Sink, L: Link>(
    alloc: Global,
    source: &mut S,
    sink: &mut K,
    link: &mut L,
    gateway: &Gateway,
) -> Status
    requires fresh { (L.state link.old).asked ≡ None }
    ensures ends { GatewayEnds gateway.now.port gateway.now.turns gateway.now.site
        (gate (S.state source.old) (S.state source.new) (K.state sink.old) (K.state sink.new) (L.state link.old) (L.state link.new)) result }
{
    let end = serve(
        alloc,
        source,
        sink,
        link,
        gateway.port,
        gateway.site,
        gateway.turns,
    );
    tell(alloc, sink, end)
}

/// Prints the line after the answers, where the answers don't tell the end and more can be printed, and answers the status.
#[tactic(auto, using(crate::proofs::Sessions::line_told, crate::proofs::Sessions::refusal_told))]
fn tell<K: Sink>(alloc: Global, sink: &mut K, end: GateEnd) -> Status
    ensures { PrintsLine (status_of end) (last_line end) (K.state sink.old) (K.state sink.new) result }
{
    match end {
        GateEnd::Done => Status::Done,
        GateEnd::BadLine { line, at } => {
            print_line(sink, refused(alloc, CatalogFault::BadLine { line, at }))
        }
        GateEnd::Twice { line } => print_line(sink, refused(alloc, CatalogFault::Twice { line })),
        GateEnd::TooMany { line, limit } => {
            print_line(sink, refused(alloc, CatalogFault::TooMany { line, limit }))
        }
        GateEnd::NoSite => print_line(sink, usage(alloc)),
        GateEnd::ReadFault => Status::SourceFault,
        GateEnd::WriteFault => Status::SinkFault,
        GateEnd::LinkFault => print_line(sink, RunOutput::link_fault(alloc)),
        GateEnd::Limit => print_line(sink, too_long(alloc)),
        GateEnd::NoMemory => Status::NoMemory,
    }
}

fn print_line<K: Sink>(sink: &mut K, line: Result<RunOutput, NoMemory>) -> Status
    ensures { PrintsDefined line (K.state sink.old) (K.state sink.new) result }
{
    match line {
        Ok(defined) => defined.print(sink),
        Err(NoMemory) => Status::NoMemory,
    }
}
