//! Reading the head of a session: a catalogue and the line `session`.

ghost use Rattle.std.specs.Prelude.{◌≡◌, ◌⊎◌, false, OnOk};
ghost use Rattle.vp_text.specs.Documents.{HasNoNewline, IsLine};
ghost use Rattle.vp_catalog.specs.Document.{IsCatalogueSoFar};
ghost use Rattle.vp_lines.specs.Ahead.{ahead_at_start};
ghost use Rattle.vp_gateway.specs.Causes.{RisesAt};
ghost use Rattle.vp_gateway.specs.Ends.{end_of};
ghost use Rattle.vp_gateway.specs.Opening.{text_of, end_by_limit, TakesLine, FindsPort, Opens};
ghost use Rattle.vp_gateway.specs.declared.end.GateEnd.TheVariants as ends;

use crate::end::GateEnd;
use std::alloc::Global;
use vp_base::{LineFault, NoMemory, SiteId};
use vp_catalog::CatalogFault;
use vp_heads::{Head, parse_head};
use vp_lines::{LineFound, MOST_TAKEN, ReadBuffer};
use vp_outside::Source;
use vp_text::Cursor;

/// Reads a catalogue and the line `session`, and returns the port of the site. If more bytes were taken than an input may have, the
/// fault is `Limit`, whatever else is wrong.
pub fn open<S: Source>(
    alloc: Global,
    source: &mut S,
    unread: &mut ReadBuffer,
    site: SiteId,
) -> Result<u16, GateEnd>
    requires { unread.old ≡ ahead_at_start }
    ensures opens { Opens site unread.new (S.state source.old) (S.state source.new) result }
    ensures cause { RisesAt ends.ReadFault (end_of result) (S.state source.old).faults
        (S.state source.new).faults }
{
    match find_port(alloc, source, unread, site) {
        Ok(port) => Ok(port),
        Err(end) => Err(end_by_limit(end, unread.is_spent())),
    }
}

/// Returns the fault `Limit` instead of the other one, if more bytes were taken than an input may have.
fn end_by_limit(end: GateEnd, spent: bool) -> GateEnd
    ensures { result ≡ end_by_limit spent end }
{
    match end {
        GateEnd::BadLine { .. } if spent => GateEnd::Limit,
        GateEnd::Twice { .. } if spent => GateEnd::Limit,
        GateEnd::TooMany { .. } if spent => GateEnd::Limit,
        GateEnd::NoSite if spent => GateEnd::Limit,
        _ => end,
    }
}

/// Reads a catalogue and the line `session`, and finds the port of the site in it.
fn find_port<S: Source>(
    alloc: Global,
    source: &mut S,
    unread: &mut ReadBuffer,
    site: SiteId,
) -> Result<u16, GateEnd>
    requires { unread.old ≡ ahead_at_start }
    ensures finds { FindsPort site unread.new (S.state source.old) (S.state source.new) result }
    ensures cause { RisesAt ends.ReadFault (end_of result) (S.state source.old).faults
        (S.state source.new).faults }
{
    let mut head = Head::new(alloc);
    let mut line = Vec::new(alloc);
    let mut number = 1;
    'lines: while !head.opened {
        let found = unread.next(source, &mut line, MOST_TAKEN)?;
        end_line(&mut line, found)?;
        add_line(alloc, &mut head, &line, number)?;
        number += 1;
    }
    match head.catalog.port(site) {
        Some(port) => Ok(port),
        None => Err(GateEnd::NoSite),
    }
}

/// Adds the newline to a line whose newline has come.
fn end_line(line: &mut Vec<u8>, found: LineFound) -> Result<(), NoMemory>
    ensures { OnOk result (line.new.items ≡ text_of found line.old.items) }
{
    match found {
        LineFound::Line => {
            line.push(b'\n')?;
            Ok(())
        }
        LineFound::Rest => Ok(()),
        LineFound::End => Ok(()),
    }
}

/// Reads the text as the line of this number, and adds what it says to the head.
fn add_line(alloc: Global, head: &mut Head, text: &[u8], number: usize) -> Result<(), CatalogFault>
    requires closed { head.old.opened ≡ false }
    requires so_far { IsCatalogueSoFar head.old.catalog }
    requires one { IsLine text.now ⊎ HasNoNewline text.now }
    ensures { TakesLine head.old text.now number head.new result }
{
    let mut cursor = Cursor::new(text);
    match parse_head(alloc, &mut cursor, &head.catalog, b"session\n") {
        Ok(line) => head.add(line, number),
        Err(LineFault::NoMemory) => Err(CatalogFault::NoMemory),
        Err(LineFault::Unexpected(e)) => Err(CatalogFault::BadLine {
            line: number,
            at: text.len() - e.left + 1,
        }),
    }
}
