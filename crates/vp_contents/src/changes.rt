//! Changes of records: reading and writing them.

ghost use Rattle.std.specs.Prelude.{◌≡◌, ◌≤◌, ◌+◌, ◌-◌, ◌++◌, IfOk};
ghost use Rattle.vp_text.specs.Printing.{Appends};
ghost use Rattle.vp_text.specs.Reading.{Tries};
ghost use Rattle.vp_base.specs.Faults.{line_left};
ghost use Rattle.vp_bytes.specs.Reading.{run_at};
ghost use Rattle.vp_contents.specs.Changes.{IsChange, IsPut, IsWrites, change_at, change_bytes, marked_change_at, put_bytes, write_at, write_bytes, writes_at, writes_bytes};
ghost use Rattle.vp_contents.specs.declared.version.Version.TheVariants as versions;

use crate::contents::{put_absent, put_mark, put_present};
use crate::tables::{put_maybe_table, read_maybe_table, read_table};
use crate::values::read_value;
use crate::version::Version;
use bytes::BufMut;
use std::alloc::Global;
use vp_base::{Change, LineFault, MOST_OPS, NoMemory, Put, RecId, Writes};
use vp_bytes::{put_byte, read_byte};
use vp_text::Cursor;

/// Reads a count up to 64 and then as many records with their changes, ascending by record.
#[tactic(auto, unfolding(crate::specs::Changes::writes_at, vp_bytes::specs::Reading::counted_at))]
pub fn read_writes(
    alloc: Global,
    cursor: &mut Cursor,
    version: Version,
) -> Result<Writes, LineFault>
    ensures { Tries (λ w. w) line_left result cursor.new (writes_at version cursor.old) }
{
    let count = read_byte(cursor, 0, MOST_OPS)?;
    read_some_writes(alloc, cursor, version, count)
}

/// Reads `count` records with their changes, ascending by record.
fn read_some_writes(
    alloc: Global,
    cursor: &mut Cursor,
    version: Version,
    count: u8,
) -> Result<Writes, LineFault>
    requires { count ≤ 64 }
    ensures { Tries (λ w. w) line_left result cursor.new
        (run_at (λ write. write.0) (write_at version) count 0 cursor.old) }
{
    let mut writes = Writes::new(alloc);
    let mut left = count;
    let mut least = 0;
    while left > 0 {
        left -= 1;
        let write = read_write(alloc, cursor, version, least, left)?;
        least = u16::from(write.0.get()) + 1;
        writes.push(write)?;
    }
    Ok(writes)
}

/// Reads a record from `least` on that leaves room for the others after it, and its change.
#[tactic(auto, unfolding(crate::specs::Changes::write_at))]
fn read_write(
    alloc: Global,
    cursor: &mut Cursor,
    version: Version,
    least: u16,
    following: u8,
) -> Result<(RecId, Change), LineFault>
    requires { least + following ≤ 255 }
    ensures read { Tries (λ w. w) line_left result cursor.new (write_at version following least cursor.old) }
    ensures range { IfOk result (λ w. (least ≤ w.0) × (w.0 ≤ 255 - following)) }
{
    let rec = read_byte(cursor, least as u8, 255 - following)?;
    let change = read_change(alloc, cursor, version)?;
    Ok((RecId::new(rec), change))
}

/// Reads a change: in the first version a value, in the second a put and a table or none.
#[tactic(auto, unfolding(crate::specs::Changes::change_at))]
fn read_change(alloc: Global, cursor: &mut Cursor, version: Version) -> Result<Change, LineFault>
    ensures { Tries (λ c. c) line_left result cursor.new (change_at version cursor.old) }
{
    match version {
        Version::First => read_value_put(alloc, cursor),
        Version::Second => read_marked_change(alloc, cursor),
    }
}

#[tactic(auto, unfolding(crate::specs::Changes::change_at))]
fn read_value_put(alloc: Global, cursor: &mut Cursor) -> Result<Change, LineFault>
    ensures { Tries (λ c. c) line_left result cursor.new (change_at versions.First cursor.old) }
{
    let value = read_value(alloc, cursor, Version::First)?;
    Ok(Change {
        put: Put::Value { value },
        table: None,
    })
}

#[tactic(auto, unfolding(crate::specs::Changes::change_at))]
fn read_marked_change(alloc: Global, cursor: &mut Cursor) -> Result<Change, LineFault>
    ensures { Tries (λ c. c) line_left result cursor.new (change_at versions.Second cursor.old) }
{
    let mark = read_byte(cursor, 0, 2)?;
    read_after_mark(alloc, cursor, mark)
}

/// Reads what follows the mark of a put: a table or none after 0, and after 1 and a value; after 2, which keeps the content, always a
/// table.
#[tactic(auto, unfolding(crate::specs::Changes::marked_change_at))]
fn read_after_mark(alloc: Global, cursor: &mut Cursor, mark: u8) -> Result<Change, LineFault>
    ensures { Tries (λ c. c) line_left result cursor.new (marked_change_at mark cursor.old) }
{
    if mark == 0 {
        let table = read_maybe_table(alloc, cursor, Version::Second)?;
        return Ok(Change {
            put: Put::Absent,
            table,
        });
    }
    if mark == 1 {
        let value = read_value(alloc, cursor, Version::Second)?;
        let table = read_maybe_table(alloc, cursor, Version::Second)?;
        return Ok(Change {
            put: Put::Value { value },
            table,
        });
    }
    read_byte(cursor, 1, 1)?;
    let table = read_table(alloc, cursor)?;
    Ok(Change {
        put: Put::Keep,
        table: Some(table),
    })
}

/// Appends the count of the changes and then each record with its change.
#[tactic(auto, using(vp_bytes::proofs::Writing::writing))]
pub fn put_writes<B: BufMut>(
    out: &mut B,
    version: Version,
    writes: &[(RecId, Change)],
) -> Result<(), NoMemory>
    requires { IsWrites version writes.now }
    ensures { Appends result (B.written out.old) (writes_bytes version writes.now) (B.written out.new) }
{
    put_byte(out, writes.len() as u8)?;
    for write in writes {
        put_write(out, version, write.0, &write.1)?;
    }
    Ok(())
}

/// Appends a record and its change.
#[tactic(auto, using(vp_bytes::proofs::Writing::writing))]
fn put_write<B: BufMut>(
    out: &mut B,
    version: Version,
    rec: RecId,
    change: &Change,
) -> Result<(), NoMemory>
    requires { IsChange version change.now }
    ensures { Appends result (B.written out.old) (write_bytes version (rec, change.now)) (B.written out.new) }
{
    put_byte(out, rec.get())?;
    put_change(out, version, change)
}

/// Appends a change: its put, and its table or none.
#[tactic(auto, using(vp_bytes::proofs::Writing::writing))]
fn put_change<B: BufMut>(out: &mut B, version: Version, change: &Change) -> Result<(), NoMemory>
    requires { IsChange version change.now }
    ensures { Appends result (B.written out.old) (change_bytes version change.now) (B.written out.new) }
{
    put_put(out, version, &change.put)?;
    put_maybe_table(out, version, &change.table)
}

/// Appends what a change makes of the content.
#[tactic(auto, using(vp_bytes::proofs::Writing::writing))]
fn put_put<B: BufMut>(out: &mut B, version: Version, put: &Put) -> Result<(), NoMemory>
    requires { IsPut version put.now }
    ensures { Appends result (B.written out.old) (put_bytes version put.now) (B.written out.new) }
{
    match put {
        Put::Absent => put_absent(out, version),
        Put::Value { value } => put_present(out, version, value),
        Put::Keep => put_mark(out, version, 2),
    }
}
