//! Tables of weights: reading and writing them.

ghost use Rattle.std.specs.Prelude.{◌≡◌, ◌≤◌, ◌+◌, ◌-◌, ◌++◌, IfOk, length};
ghost use Rattle.vp_text.specs.Printing.{Appends};
ghost use Rattle.vp_text.specs.Reading.{Reads, Tries};
ghost use Rattle.vp_base.specs.Faults.{line_left};
ghost use Rattle.vp_bytes.specs.Reading.{run_at};
ghost use Rattle.vp_contents.specs.Tables.{IsMaybeTable, maybe_table_at, maybe_table_bytes, table_at, table_bytes, weight_at, weight_bytes};
ghost use Rattle.vp_contents.specs.declared.version.Version.TheVariants as versions;

use crate::contents::put_mark;
use crate::values::put_u16;
use crate::version::Version;
use bytes::BufMut;
use std::alloc::Global;
use vp_base::{LAST_SITE, LineFault, NoMemory, SiteId, Table};
use vp_bytes::{put_byte, read_byte, read_u16_within};
use vp_text::{Cursor, Unexpected};

/// Reads a table: a count from 1 to 16 and then as many weights of sites, ascending.
#[tactic(auto, using(crate::proofs::TablesExact::table_read))]
pub fn read_table(alloc: Global, cursor: &mut Cursor) -> Result<Table, LineFault>
    ensures { Tries (λ t. t) line_left result cursor.new (table_at cursor.old) }
{
    let shares = read_shares(alloc, cursor)?;
    Ok(Table::of(shares))
}

/// Reads a count from 1 to 16 and then as many weights of sites, ascending.
#[tactic(auto, unfolding(crate::specs::Tables::table_at, vp_bytes::specs::Reading::counted_at))]
fn read_shares(alloc: Global, cursor: &mut Cursor) -> Result<Vec<(SiteId, u16)>, LineFault>
    ensures { Tries (λ t. t.items) line_left result cursor.new (table_at cursor.old) }
{
    let count = read_byte(cursor, 1, LAST_SITE)?;
    read_some_weights(alloc, cursor, count)
}

/// Reads `count` weights of sites, ascending.
fn read_some_weights(
    alloc: Global,
    cursor: &mut Cursor,
    count: u8,
) -> Result<Vec<(SiteId, u16)>, LineFault>
    requires { count ≤ 16 }
    ensures { Tries (λ t. t.items) line_left result cursor.new
        (run_at (λ weight. weight.0) weight_at count 1 cursor.old) }
{
    let mut shares = Vec::new(alloc);
    let mut left = count;
    let mut least = 1;
    while left > 0 {
        left -= 1;
        let weight = read_weight(cursor, least, left)?;
        least = weight.0.get() + 1;
        shares.push(weight)?;
    }
    Ok(shares)
}

/// Reads a site from `least` on that leaves room for the others after it, and its weight.
#[tactic(auto, unfolding(crate::specs::Tables::weight_at))]
fn read_weight(cursor: &mut Cursor, least: u8, following: u8) -> Result<(SiteId, u16), Unexpected>
    requires least { 1 ≤ least }
    requires room { least + following ≤ 16 }
    ensures read { Reads (λ w. w) (λ e. e.left) result cursor.new (weight_at following least cursor.old) }
    ensures range { IfOk result (λ w. (least ≤ w.0) × (w.0 ≤ 16 - following)) }
{
    let site = read_byte(cursor, least, LAST_SITE - following)?;
    let weight = read_u16_within(cursor, 1, u16::MAX)?;
    Ok((SiteId::of(site), weight))
}

/// Reads a table where one may be left out: in the second version 1 and a table, or 0 for none; in the first none, of no bytes.
#[tactic(auto, unfolding(crate::specs::Tables::maybe_table_at))]
pub fn read_maybe_table(
    alloc: Global,
    cursor: &mut Cursor,
    version: Version,
) -> Result<Option<Table>, LineFault>
    ensures { Tries (λ t. t) line_left result cursor.new (maybe_table_at version cursor.old) }
{
    match version {
        Version::First => Ok(None),
        Version::Second => read_marked_table(alloc, cursor),
    }
}

/// Reads 1 and a table, or 0 for none.
#[tactic(auto, unfolding(crate::specs::Tables::maybe_table_at))]
fn read_marked_table(alloc: Global, cursor: &mut Cursor) -> Result<Option<Table>, LineFault>
    ensures { Tries (λ t. t) line_left result cursor.new (maybe_table_at versions.Second cursor.old) }
{
    let mark = read_byte(cursor, 0, 1)?;
    if mark == 0 {
        return Ok(None);
    }
    let table = read_table(alloc, cursor)?;
    Ok(Some(table))
}

/// Appends the count of the weights and then the weights.
#[tactic(auto, using(vp_bytes::proofs::Writing::writing))]
pub fn put_table<B: BufMut>(out: &mut B, table: &Table) -> Result<(), NoMemory>
    ensures { Appends result (B.written out.old) (table_bytes table.now) (B.written out.new) }
{
    let shares = table.as_slice();
    put_byte(out, shares.len() as u8)?;
    for weight in shares {
        put_weight(out, weight.0, weight.1)?;
    }
    Ok(())
}

/// Appends a site and its weight.
#[tactic(auto, using(vp_bytes::proofs::Writing::writing))]
fn put_weight<B: BufMut>(out: &mut B, site: SiteId, weight: u16) -> Result<(), NoMemory>
    ensures { Appends result (B.written out.old) (weight_bytes (site, weight)) (B.written out.new) }
{
    put_byte(out, site.get())?;
    put_u16(out, weight)
}

/// Appends a table, or none where it is left out. The version can say it.
#[tactic(auto, using(vp_bytes::proofs::Writing::writing))]
pub fn put_maybe_table<B: BufMut>(
    out: &mut B,
    version: Version,
    table: &Option<Table>,
) -> Result<(), NoMemory>
    requires { IsMaybeTable version table.now }
    ensures { Appends result (B.written out.old) (maybe_table_bytes version table.now) (B.written out.new) }
{
    match table {
        None => put_mark(out, version, 0),
        Some(table) => {
            put_mark(out, version, 1)?;
            put_table(out, table)
        }
    }
}
