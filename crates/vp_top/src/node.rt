//! The command that runs a node.

ghost use Rattle.std.specs.Prelude.{◌≡◌, ◌++◌, None, true, IfOk, OnOk};
ghost use Rattle.vp_model.specs.Words.{has};
ghost use Rattle.vp_model.specs.Catalogue.{sites_of};
ghost use Rattle.vp_status.specs.Lines.{bad_log_text};
ghost use Rattle.vp_status.specs.Printing.{Prints};
ghost use Rattle.vp_serving.specs.Serving.{either, outside};
ghost use Rattle.vp_top.specs.NodeEnds.{DecidedIfCalm, HasCause, NodeEnds, last_line, status_of};

use std::alloc::Global;
use vp_base::{NoMemory, SiteId, Word};
use vp_catalog::Catalog;
use vp_outside::{Disk, Link, OutFault, Sink};
use vp_serving::{End, serve};
use vp_status::{RunOutput, Status};
use vp_text::print_number;

/// Attaches the log of this name, serves the node on it for at most `turns` datagrams, and prints why it ended after its recording.
pub fn serve_log<L: Link, D: Disk, K: Sink>(
    catalog: &Catalog,
    id: SiteId,
    log: &Word,
    link: &mut L,
    disk: &mut D,
    sink: &mut K,
    turns: u64,
) -> Status
    requires fresh { (L.state link.old).asked ≡ None }
    requires id { has (sites_of catalog.now) id ≡ true }
    ensures ends { NodeEnds catalog.now id turns log.now
        (outside (L.state link.old) (L.state link.new) (K.state sink.old) (K.state sink.new) (D.state disk.old) (D.state disk.new)) result }
    ensures cause { HasCause catalog.now id log.now
        (outside (L.state link.old) (L.state link.new) (K.state sink.old) (K.state sink.new) (D.state disk.old) (D.state disk.new)) result }
    ensures decided { DecidedIfCalm catalog.now id log.now
        (outside (L.state link.old) (L.state link.new) (K.state sink.old) (K.state sink.new) (D.state disk.old) (D.state disk.new)) result }
{
    let end = match disk.attach(log) {
        Ok(()) => serve(catalog, id, link, disk, sink, turns),
        Err(OutFault::Failed) => Err(End::DiskFault),
        Err(OutFault::NoMemory) => Err(End::NoMemory),
    };
    report_end(catalog.sites().allocator(), sink, end)
}

/// Prints the line after the recording, and returns the status.
fn report_end<K: Sink>(alloc: Global, sink: &mut K, end: Result<End, End>) -> Status
    ensures { Prints (status_of (either end)) (last_line (either end)) (K.state sink.old) (K.state sink.new) result }
{
    let end = match end {
        Ok(end) | Err(end) => end,
    };
    match last_line(alloc, end) {
        Ok(text) => RunOutput {
            status: status_of(end),
            text,
        }
        .print(sink),
        Err(NoMemory) => Status::NoMemory,
    }
}

fn status_of(end: End) -> Status
    ensures { result ≡ status_of end }
{
    match end {
        End::Stopped | End::TurnsDone => Status::Done,
        End::LinkFault => Status::LinkFault,
        End::DiskFault => Status::DiskFault,
        End::WriteFault => Status::SinkFault,
        End::BadLog { .. } => Status::BadLog,
        End::LivesSpent { .. } => Status::LivesSpent,
        End::NoMemory => Status::NoMemory,
    }
}

/// Makes the line that says why the node ended; empty where the recording says it, and where nothing more can be printed.
fn last_line(alloc: Global, end: End) -> Result<Vec<u8>, NoMemory>
    ensures { IfOk result (λ line. line.items ≡ last_line end) }
{
    let mut line = Vec::new(alloc);
    match end {
        End::Stopped | End::TurnsDone | End::WriteFault | End::NoMemory => {}
        End::LinkFault => line.extend_from_slice(b"link fault\n")?,
        End::DiskFault => line.extend_from_slice(b"disk fault\n")?,
        End::BadLog { half, at } => print_bad_log(half, at, &mut line)?,
        End::LivesSpent { .. } => line.extend_from_slice(b"lives spent\n")?,
    }
    Ok(line)
}

/// Appends the line of a damaged log. If memory runs out, a beginning of it is appended.
pub(crate) fn print_bad_log(half: u8, at: u64, out: &mut Vec<u8>) -> Result<(), NoMemory>
    ensures { OnOk result (out.new.items ≡ out.old.items ++ bad_log_text half at) }
{
    out.extend_from_slice(b"bad log ")?;
    print_number(out, u64::from(half))?;
    out.extend_from_slice(b" at ")?;
    print_number(out, at)?;
    out.push(b'\n')?;
    Ok(())
}
