//! Reading events, as a schedule has them.

ghost use Rattle.std.specs.Prelude.{◌≡◌, ◌≤◌, length};
ghost use Rattle.vp_text.specs.Reading.{Reads, Tries};
ghost use Rattle.vp_base.specs.Faults.{line_left};
ghost use Rattle.vp_catalog.specs.Sites.{site_at};
ghost use Rattle.vp_schedule.specs.Kinds.{kinds_over};
ghost use Rattle.vp_schedule.specs.EventReading.{other_sites, pair_at, called_at, fields_at, event_at};

use crate::kind::{EventKind, parse_kind};
use crate::reading::parse_call;
use std::alloc::Global;
use vp_base::{Event, LAST_SITE, LineFault, MOST_MESSAGES, MOST_STEPS, SiteId};
use vp_catalog::parse_site;
use vp_text::{Cursor, Unexpected};

/// The kinds of event lines that these sites allow: a line names a pair of sites only where there are two.
fn kinds_over(sites: &[SiteId]) -> &'static [EventKind]
    ensures { result.now ≡ kinds_over sites.now }
{
    if sites.len() < 2 {
        &[
            EventKind::Call,
            EventKind::Deliver,
            EventKind::Flow,
            EventKind::Tick,
            EventKind::Probe,
            EventKind::Crash,
            EventKind::Restart,
        ]
    } else {
        &[
            EventKind::Call,
            EventKind::Deliver,
            EventKind::Flow,
            EventKind::Tick,
            EventKind::Probe,
            EventKind::Crash,
            EventKind::Restart,
            EventKind::Cut,
            EventKind::Heal,
        ]
    }
}

/// Reads the number of a site of the list other than this one.
fn parse_other(cursor: &mut Cursor, sites: &[SiteId], site: SiteId) -> Result<SiteId, Unexpected>
    requires { length sites.now ≤ 16 }
    ensures { Reads (λ s. s) (λ e. e.left) result cursor.new
        (site_at (other_sites sites.now site) 0 cursor.old) }
{
    let mut others = [site; LAST_SITE as usize];
    let mut count = 0;
    for other in sites {
        if *other != site {
            others[count] = *other;
            count += 1;
        }
    }
    parse_site(cursor, &others[..count], 0)
}

/// Reads two different sites.
#[tactic(auto, unfolding(crate::specs::EventReading::pair_at))]
fn parse_pair(cursor: &mut Cursor, sites: &[SiteId]) -> Result<(SiteId, SiteId), Unexpected>
    requires { length sites.now ≤ 16 }
    ensures { Reads (λ pair. pair) (λ e. e.left) result cursor.new (pair_at sites.now cursor.old) }
{
    let a = parse_site(cursor, sites, 0)?;
    cursor.literal(b" ")?;
    let b = parse_other(cursor, sites, a)?;
    Ok((a, b))
}

/// Reads a site and a call.
#[tactic(auto, unfolding(crate::specs::EventReading::called_at))]
fn parse_called(alloc: Global, cursor: &mut Cursor, sites: &[SiteId]) -> Result<Event, LineFault>
    ensures { Tries (λ event. event) line_left result cursor.new (called_at sites.now cursor.old) }
{
    let site = parse_site(cursor, sites, 0)?;
    cursor.literal(b" ")?;
    let call = parse_call(alloc, cursor)?;
    Ok(Event::Call { site, call })
}

/// Reads what follows the word of a line of this kind.
#[tactic(auto, unfolding(crate::specs::EventReading::fields_at))]
fn parse_fields(
    alloc: Global,
    cursor: &mut Cursor,
    kind: EventKind,
    sites: &[SiteId],
) -> Result<Event, LineFault>
    requires { length sites.now ≤ 16 }
    ensures { Tries (λ event. event) line_left result cursor.new (fields_at sites.now kind cursor.old) }
{
    let event = match kind {
        EventKind::Call => parse_called(alloc, cursor, sites)?,
        EventKind::Deliver => Event::Deliver {
            k: cursor.number_u32(1, MOST_MESSAGES)?,
        },
        EventKind::Flow => Event::Flow {
            count: cursor.number_u32(1, MOST_STEPS)?,
        },
        EventKind::Tick => Event::Tick {
            site: parse_site(cursor, sites, 0)?,
        },
        EventKind::Probe => Event::Probe {
            site: parse_site(cursor, sites, 0)?,
        },
        EventKind::Crash => Event::Crash {
            site: parse_site(cursor, sites, 0)?,
        },
        EventKind::Restart => Event::Restart {
            site: parse_site(cursor, sites, 0)?,
        },
        EventKind::Cut => {
            let (a, b) = parse_pair(cursor, sites)?;
            Event::Cut { a, b }
        }
        EventKind::Heal => {
            let (a, b) = parse_pair(cursor, sites)?;
            Event::Heal { a, b }
        }
    };
    Ok(event)
}

/// Reads an event over these sites from the front of what is left, without the end of its line.
#[tactic(auto, unfolding(crate::specs::EventReading::event_at))]
pub fn parse_event(alloc: Global, cursor: &mut Cursor, sites: &[SiteId]) -> Result<Event, LineFault>
    requires { length sites.now ≤ 16 }
    ensures { Tries (λ event. event) line_left result cursor.new (event_at sites.now cursor.old) }
{
    let kind = parse_kind(cursor, kinds_over(sites))?;
    parse_fields(alloc, cursor, kind, sites)
}
