//! Reading the lines of a catalogue.

ghost use Rattle.std.specs.Prelude.{◌≡◌, ◌∷◌, [], ◌≤◌, ◌<◌, length, IfOk, IfSome};
ghost use Rattle.vp_text.specs.Reading.{Reads, Tries, number_at, next_at, either};
ghost use Rattle.vp_base.specs.Faults.{line_left};
ghost use Rattle.vp_catalog.specs.EntryReading.{some_above, weight_at, weights_at, record_at, port_at, entry_at};

use crate::catalog::Catalog;
use crate::entry::Entry;
use crate::placed::CatalogRecord;
use crate::site::parse_site;
use std::alloc::Global;
use vp_base::{LAST_SITE, LineFault, Name, SiteId, Value};
use vp_text::{Cursor, Unexpected};

/// Reads a number from 1 to 65535.
fn parse_u16(cursor: &mut Cursor) -> Result<u16, Unexpected>
    ensures { Reads (λ n. n) (λ e. e.left) result cursor.new (number_at 1 65535 cursor.old) }
{
    let number = cursor.number_u32(1, 65535)?;
    Ok(number as u16)
}

/// Reads a holder above the given one and the weight of its copy.
#[tactic(auto, unfolding(crate::specs::EntryReading::weight_at))]
fn parse_weight(
    cursor: &mut Cursor,
    sites: &[SiteId],
    above: u8,
) -> Result<(SiteId, u16), Unexpected>
    ensures read { Reads (λ w. w) (λ e. e.left) result cursor.new (weight_at sites.now above cursor.old) }
    ensures higher { IfOk result (λ w. above < w.0) }
{
    cursor.literal(b" ")?;
    let site = parse_site(cursor, sites, above)?;
    cursor.literal(b":")?;
    let weight = parse_u16(cursor)?;
    Ok((site, weight))
}

/// Whether one of the sites is above the given one.
fn has_above(sites: &[SiteId], above: u8) -> bool
    ensures { result ≡ some_above sites.now above }
{
    for site in sites {
        if above < site.get() {
            return true;
        }
    }
    false
}

/// Reads the next holder, or the end of the line, which is `None`.
#[tactic(auto, unfolding(vp_text::specs::Reading::next_at))]
fn parse_next(
    cursor: &mut Cursor,
    sites: &[SiteId],
    above: u8,
) -> Result<Option<(SiteId, u16)>, Unexpected>
    ensures read { Reads (λ w. w) (λ e. e.left) result cursor.new
        (next_at (some_above sites.now above) (weight_at sites.now above) (10 ∷ []) cursor.old) }
    ensures higher { IfOk result (λ next. IfSome next (λ w. above < w.0)) }
{
    let mut other = cursor.fork();
    match cursor.literal(b"\n") {
        Ok(()) => Ok(None),
        Err(first) if !has_above(sites, above) => Err(first),
        Err(first) => match parse_weight(&mut other, sites, above) {
            Ok(weight) => {
                *cursor = other;
                Ok(Some(weight))
            }
            Err(second) => Err(first.farther(second)),
        },
    }
}

/// Reads holders up to the end of the line, at least one.
fn parse_weights(
    alloc: Global,
    cursor: &mut Cursor,
    sites: &[SiteId],
) -> Result<Vec<(SiteId, u16)>, LineFault>
    ensures read { Tries (λ w. w.items) line_left result cursor.new (weights_at sites.now cursor.old) }
    ensures few { IfOk result (λ w. length w.items ≤ 16) }
{
    let first = parse_weight(cursor, sites, 0)?;
    let mut weights = Vec::new(alloc);
    let mut next = Some(first);
    while let Some(weight) = next {
        let above = weight.0.get();
        weights.push(weight)?;
        next = parse_next(cursor, sites, above)?;
    }
    Ok(weights)
}

#[tactic(auto, unfolding(crate::specs::EntryReading::record_at))]
fn parse_record(alloc: Global, cursor: &mut Cursor, sites: &[SiteId]) -> Result<Entry, LineFault>
    ensures { Tries (λ e. e) line_left result cursor.new (record_at sites.now cursor.old) }
{
    cursor.literal(b"record ")?;
    let name = Name::parse(alloc, cursor)?;
    cursor.literal(b" ")?;
    let start = Value::parse(alloc, cursor)?;
    let weights = parse_weights(alloc, cursor, sites)?;
    Ok(Entry::Record(CatalogRecord::new(alloc, name, start, weights)?))
}

/// Reads a site above the last one, and its port.
#[tactic(auto, unfolding(crate::specs::EntryReading::port_at))]
fn parse_port(cursor: &mut Cursor, last: u8) -> Result<Entry, Unexpected>
    requires { last < 16 }
    ensures { Reads (λ e. e) (λ e. e.left) result cursor.new (port_at last cursor.old) }
{
    cursor.literal(b"site ")?;
    let site = SiteId::of(cursor.number_u8(last + 1, LAST_SITE)?);
    cursor.literal(b" ")?;
    let port = parse_u16(cursor)?;
    cursor.literal(b"\n")?;
    Ok(Entry::Site { site, port })
}

/// Reads a site line or a record line.
fn parse_either(
    alloc: Global,
    cursor: &mut Cursor,
    sites: &[SiteId],
    last: u8,
) -> Result<Entry, LineFault>
    requires { last < 16 }
    ensures { Tries (λ e. e) line_left result cursor.new
        (either (port_at last cursor.old) (record_at sites.now cursor.old)) }
{
    let mut other = cursor.fork();
    match parse_port(cursor, last) {
        Ok(entry) => Ok(entry),
        Err(first) => match parse_record(alloc, &mut other, sites) {
            Ok(entry) => {
                *cursor = other;
                Ok(entry)
            }
            Err(LineFault::NoMemory) => Err(LineFault::NoMemory),
            Err(LineFault::Unexpected(second)) => Err(LineFault::Unexpected(first.farther(second))),
        },
    }
}

/// Reads the next line, which the lines before it allow. Where memory is lacking, the cursor may be anywhere in the line.
#[tactic(auto, unfolding(crate::specs::EntryReading::entry_at))]
pub fn parse_entry(
    alloc: Global,
    cursor: &mut Cursor,
    catalog: &Catalog,
) -> Result<Entry, LineFault>
    ensures { Tries (λ e. e) line_left result cursor.new (entry_at catalog.now cursor.old) }
{
    let sites = catalog.sites().as_slice();
    let last = catalog.last_site();
    if catalog.count() > 0 || last >= LAST_SITE {
        parse_record(alloc, cursor, sites)
    } else if sites.is_empty() {
        Ok(parse_port(cursor, last)?)
    } else {
        parse_either(alloc, cursor, sites, last)
    }
}
