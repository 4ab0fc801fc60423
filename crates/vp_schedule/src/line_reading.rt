//! Reading the lines of a schedule.

ghost use Rattle.std.specs.Prelude.{◌≡◌, ◌≤◌, length};
ghost use Rattle.vp_text.specs.Reading.{Tries};
ghost use Rattle.vp_base.specs.Faults.{line_left};
ghost use Rattle.vp_schedule.specs.Drafts.{sites_said};
ghost use Rattle.vp_schedule.specs.LineReading.{head_line_at, event_line_at, line_at};

use crate::draft::ScheduleDraft;
use crate::event_reading::parse_event;
use crate::line::ScheduleLine;
use std::alloc::Global;
use vp_base::{LineFault, SiteId};
use vp_catalog::Catalog;
use vp_heads::{HeadLine, parse_head};
use vp_text::Cursor;

/// A line of the catalogue or, where there is a site, the line `events`.
#[tactic(auto, unfolding(crate::specs::LineReading::head_line_at))]
fn parse_head_line(
    alloc: Global,
    cursor: &mut Cursor,
    catalog: &Catalog,
) -> Result<ScheduleLine, LineFault>
    ensures { Tries (λ line. line) line_left result cursor.new (head_line_at catalog.now cursor.old) }
{
    match parse_head(alloc, cursor, catalog, b"events\n")? {
        HeadLine::Entry(entry) => Ok(ScheduleLine::Entry(entry)),
        HeadLine::Key => Ok(ScheduleLine::Events),
    }
}

#[tactic(auto, unfolding(crate::specs::LineReading::event_line_at))]
fn parse_event_line(
    alloc: Global,
    cursor: &mut Cursor,
    sites: &[SiteId],
) -> Result<ScheduleLine, LineFault>
    requires { length sites.now ≤ 16 }
    ensures { Tries (λ line. line) line_left result cursor.new (event_line_at sites.now cursor.old) }
{
    let event = parse_event(alloc, cursor, sites)?;
    cursor.literal(b"\n")?;
    Ok(ScheduleLine::Event(event))
}

/// Reads a line that the lines before it allow.
#[tactic(auto, unfolding(crate::specs::LineReading::line_at))]
pub fn parse_line(
    alloc: Global,
    cursor: &mut Cursor,
    draft: &ScheduleDraft,
) -> Result<ScheduleLine, LineFault>
    requires { length (sites_said draft.now) ≤ 16 }
    ensures { Tries (λ line. line) line_left result cursor.new (line_at draft.now cursor.old) }
{
    let catalog = &draft.schedule.catalog;
    if draft.opened {
        parse_event_line(alloc, cursor, catalog.sites().as_slice())
    } else {
        parse_head_line(alloc, cursor, catalog)
    }
}
