//! Reading sites and records.

ghost use Rattle.std.specs.Prelude.{◌≤◌, ◌+◌, ◌-◌, IfOk};
ghost use Rattle.vp_text.specs.Reading.{Reads, Tries};
ghost use Rattle.vp_base.specs.Faults.{line_left};
ghost use Rattle.vp_bytes.specs.Reading.{ascending_at, recs_at, run_at, sites_at};

use crate::reading::read_byte;
use std::alloc::Global;
use vp_base::{LAST_SITE, LineFault, MOST_OPS, RecId, Recs, SiteId, Sites};
use vp_text::{Cursor, Unexpected};

/// Reads a count from `few` to 16 and then as many sites, ascending.
#[tactic(auto, unfolding(crate::specs::Reading::sites_at, crate::specs::Reading::counted_at))]
pub fn read_sites(alloc: Global, cursor: &mut Cursor, few: u8) -> Result<Sites, LineFault>
    ensures { Tries (λ s. s) line_left result cursor.new (sites_at few cursor.old) }
{
    let count = read_byte(cursor, few, LAST_SITE)?;
    read_some_sites(alloc, cursor, count)
}

/// Reads `count` sites, ascending.
fn read_some_sites(alloc: Global, cursor: &mut Cursor, count: u8) -> Result<Sites, LineFault>
    requires { count ≤ 16 }
    ensures { Tries (λ s. s) line_left result cursor.new
        (run_at (λ c. c) (ascending_at 16) count 1 cursor.old) }
{
    let mut sites = Sites::new(alloc);
    let mut left = count;
    let mut least = 1;
    while left > 0 {
        left -= 1;
        let site = read_byte(cursor, least, LAST_SITE - left)?;
        sites.push(SiteId::of(site))?;
        least = site + 1;
    }
    Ok(sites)
}

/// Reads a count up to 64 and then as many records, ascending.
#[tactic(auto, unfolding(crate::specs::Reading::recs_at, crate::specs::Reading::counted_at))]
pub fn read_recs(alloc: Global, cursor: &mut Cursor) -> Result<Recs, LineFault>
    ensures { Tries (λ r. r) line_left result cursor.new (recs_at cursor.old) }
{
    let count = read_byte(cursor, 0, MOST_OPS)?;
    read_some_recs(alloc, cursor, count)
}

/// Reads `count` records, ascending.
fn read_some_recs(alloc: Global, cursor: &mut Cursor, count: u8) -> Result<Recs, LineFault>
    requires { count ≤ 64 }
    ensures { Tries (λ r. r) line_left result cursor.new
        (run_at (λ c. c) (ascending_at 255) count 0 cursor.old) }
{
    let mut recs = Recs::new(alloc);
    let mut left = count;
    let mut least = 0;
    while left > 0 {
        left -= 1;
        let rec = read_rec_from(cursor, least, left)?;
        recs.push(RecId::new(rec))?;
        least = u16::from(rec) + 1;
    }
    Ok(recs)
}

/// Reads a record from `least` on that leaves room for the others after it.
fn read_rec_from(cursor: &mut Cursor, least: u16, following: u8) -> Result<u8, Unexpected>
    requires { least + following ≤ 255 }
    ensures read { Reads (λ x. x) (λ e. e.left) result cursor.new
        (ascending_at 255 following least cursor.old) }
    ensures range { IfOk result (λ x. (least ≤ x) × (x ≤ 255 - following)) }
{
    read_byte(cursor, least as u8, 255 - following)
}
