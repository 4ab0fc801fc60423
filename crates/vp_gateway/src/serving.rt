//! Serving a session: the lines of a source.

ghost use Rattle.std.specs.Prelude.{◌≡◌, None, IsTrue};
ghost use Rattle.vp_gateway.specs.Causes.{RisesAt};
ghost use Rattle.vp_gateway.specs.Ends.{end_of};
ghost use Rattle.vp_gateway.specs.Sessions.{talk};
ghost use Rattle.vp_gateway.specs.Answering.{AnswersLines};
ghost use Rattle.vp_gateway.specs.Served.{Serves, gate};
ghost use Rattle.vp_gateway.specs.declared.end.GateEnd.TheVariants as ends;

use crate::answering::answer;
use crate::asked::MOST_LINE;
use crate::end::GateEnd;
use crate::head::open;
use std::alloc::Global;
use vp_base::SiteId;
use vp_lines::{LineFound, ReadBuffer};
use vp_outside::{Link, Sink, Source};

/// Reads a catalogue and the line `session`, binds the gateway's own port, and answers each further line before more is taken: a call
/// with the answer of the site, another line with its fault.
pub fn serve<S: Source, K: Sink, L: Link>(
    alloc: Global,
    source: &mut S,
    sink: &mut K,
    link: &mut L,
    own: u16,
    site: SiteId,
    turns: u64,
) -> GateEnd
    requires fresh { (L.state link.old).asked ≡ None }
    ensures serves { Serves own site turns
        (gate (S.state source.old) (S.state source.new) (K.state sink.old) (K.state sink.new) (L.state link.old) (L.state link.new)) result }
    ensures source_cause { RisesAt ends.ReadFault result (S.state source.old).faults
        (S.state source.new).faults }
    ensures sink_cause { RisesAt ends.WriteFault result (K.state sink.old).faults (K.state sink.new).faults }
{
    let mut unread = ReadBuffer::new();
    match open(alloc, source, &mut unread, site) {
        Err(end) => end,
        Ok(port) => match link.bind(own) {
            Err(_) => GateEnd::LinkFault,
            Ok(()) => {
                match answer_lines(alloc, source, &mut unread, sink, link, port, site, turns) {
                    Ok(()) => GateEnd::Done,
                    Err(end) => end,
                }
            }
        },
    }
}

/// Answers each line, to the end of the input.
fn answer_lines<S: Source, K: Sink, L: Link>(
    alloc: Global,
    source: &mut S,
    unread: &mut ReadBuffer,
    sink: &mut K,
    link: &mut L,
    port: u16,
    site: SiteId,
    turns: u64,
) -> Result<(), GateEnd>
    requires bound { IsTrue (L.state link.old).bound }
    ensures answers { AnswersLines port site turns unread.old (S.state source.old) (S.state source.new)
        (talk (K.state sink.old) (K.state sink.new) (L.state link.old) (L.state link.new)) result }
    ensures source_cause { RisesAt ends.ReadFault (end_of result) (S.state source.old).faults
        (S.state source.new).faults }
    ensures sink_cause { RisesAt ends.WriteFault (end_of result) (K.state sink.old).faults
        (K.state sink.new).faults }
{
    let mut line = Vec::new(alloc);
    'lines: loop {
        match unread.next(source, &mut line, MOST_LINE + 1)? {
            LineFound::End => return Ok(()),
            LineFound::Rest => {
                return answer(alloc, sink, link, port, site, turns, &line, false);
            }
            LineFound::Line => answer(alloc, sink, link, port, site, turns, &line, true)?,
        }
    }
}
