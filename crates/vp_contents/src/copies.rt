//! Copies of records: reading and writing them.

ghost use Rattle.std.specs.Prelude.{◌≡◌, ◌≤◌, ◌+◌, ◌-◌, ◌++◌, IfOk, length};
ghost use Rattle.vp_text.specs.Printing.{Appends};
ghost use Rattle.vp_text.specs.Reading.{Tries};
ghost use Rattle.vp_base.specs.Faults.{line_left};
ghost use Rattle.vp_bytes.specs.Reading.{run_at};
ghost use Rattle.vp_contents.specs.Copies.{IsCopies, IsStored, copies_at, copies_bytes, copy_at, copy_bytes, stored_at, stored_bytes};

use crate::contents::{put_content, read_content};
use crate::tables::{put_maybe_table, read_maybe_table};
use crate::values::put_u16;
use crate::version::Version;
use bytes::BufMut;
use std::alloc::Global;
use vp_base::{Copies, LineFault, MOST_RECORDS, NoMemory, RecId, Stored};
use vp_bytes::{put_byte, put_view, read_byte, read_u16_within, read_view};
use vp_text::Cursor;

/// Reads a count of 16 bits and then as many copies, up to 256, ascending by record.
#[tactic(auto, unfolding(crate::specs::Copies::copies_at))]
pub fn read_copies(
    alloc: Global,
    cursor: &mut Cursor,
    version: Version,
) -> Result<Copies, LineFault>
    ensures { Tries (λ c. c) line_left result cursor.new (copies_at version cursor.old) }
{
    let count = read_u16_within(cursor, 0, MOST_RECORDS as u16)?;
    read_some_copies(alloc, cursor, version, count)
}

/// Reads `count` copies, ascending by record.
fn read_some_copies(
    alloc: Global,
    cursor: &mut Cursor,
    version: Version,
    count: u16,
) -> Result<Copies, LineFault>
    requires { count ≤ 256 }
    ensures { Tries (λ c. c) line_left result cursor.new
        (run_at (λ copy. copy.0) (copy_at version) count 0 cursor.old) }
{
    let mut copies = Copies::new(alloc);
    let mut left = count;
    let mut least = 0;
    while left > 0 {
        left -= 1;
        let copy = read_copy(alloc, cursor, version, least, left)?;
        least = u16::from(copy.0.get()) + 1;
        copies.push(copy)?;
    }
    Ok(copies)
}

/// Reads a record from `least` on, one that leaves room for the others after it, and its copy.
#[tactic(auto, unfolding(crate::specs::Copies::copy_at))]
fn read_copy(
    alloc: Global,
    cursor: &mut Cursor,
    version: Version,
    least: u16,
    following: u16,
) -> Result<(RecId, Stored), LineFault>
    requires { least + following ≤ 255 }
    ensures read { Tries (λ c. c) line_left result cursor.new (copy_at version following least cursor.old) }
    ensures range { IfOk result (λ c. (least ≤ c.0) × (c.0 ≤ 255 - following)) }
{
    let rec = read_byte(cursor, least as u8, (255 - following) as u8)?;
    let stored = read_stored(alloc, cursor, version)?;
    Ok((RecId::new(rec), stored))
}

/// Reads a copy: its content, its table or none, and its date.
#[tactic(auto, unfolding(crate::specs::Copies::stored_at))]
pub fn read_stored(
    alloc: Global,
    cursor: &mut Cursor,
    version: Version,
) -> Result<Stored, LineFault>
    ensures { Tries (λ s. s) line_left result cursor.new (stored_at version cursor.old) }
{
    let value = read_content(alloc, cursor, version)?;
    let table = read_maybe_table(alloc, cursor, version)?;
    let date = read_view(cursor)?;
    Ok(Stored { value, table, date })
}

/// Appends the count of the copies and then the copies.
#[tactic(auto, using(vp_bytes::proofs::Writing::writing))]
pub fn put_copies<B: BufMut>(
    out: &mut B,
    version: Version,
    copies: &[(RecId, Stored)],
) -> Result<(), NoMemory>
    requires { IsCopies version copies.now }
    ensures { Appends result (B.written out.old) (copies_bytes version copies.now) (B.written out.new) }
{
    put_u16(out, copies.len() as u16)?;
    for copy in copies {
        put_copy(out, version, copy.0, &copy.1)?;
    }
    Ok(())
}

/// Appends a record and its copy, which the version can say.
#[tactic(auto, using(vp_bytes::proofs::Writing::writing))]
pub fn put_copy<B: BufMut>(
    out: &mut B,
    version: Version,
    rec: RecId,
    stored: &Stored,
) -> Result<(), NoMemory>
    requires { IsStored version stored.now }
    ensures { Appends result (B.written out.old) (copy_bytes version (rec, stored.now)) (B.written out.new) }
{
    put_byte(out, rec.get())?;
    put_stored(out, version, stored)
}

/// Appends the content of a copy, its table or none, and its date.
#[tactic(auto, using(vp_bytes::proofs::Writing::writing))]
fn put_stored<B: BufMut>(out: &mut B, version: Version, stored: &Stored) -> Result<(), NoMemory>
    requires { IsStored version stored.now }
    ensures { Appends result (B.written out.old) (stored_bytes version stored.now) (B.written out.new) }
{
    put_content(out, version, &stored.value)?;
    put_maybe_table(out, version, &stored.table)?;
    put_view(out, &stored.date)
}
