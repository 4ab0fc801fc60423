//! Contents: reading and writing them.

ghost use Rattle.std.specs.Prelude.{◌≡◌, ◌++◌, None, Some};
ghost use Rattle.vp_text.specs.Printing.{Appends};
ghost use Rattle.vp_text.specs.Reading.{Tries};
ghost use Rattle.vp_base.specs.Faults.{line_left};
ghost use Rattle.vp_contents.specs.Contents.{IsContent, content_at, content_bytes, mark_bytes};
ghost use Rattle.vp_contents.specs.Values.{IsValueIn};
ghost use Rattle.vp_contents.specs.declared.version.Version.TheVariants as versions;

use crate::values::{put_value, read_value};
use crate::version::Version;
use bytes::BufMut;
use std::alloc::Global;
use vp_base::{LineFault, NoMemory, Value};
use vp_bytes::{put_byte, read_byte};
use vp_text::Cursor;

/// Reads a content: in the first version a value, in the second 1 and a value, or 0 for none.
#[tactic(auto, unfolding(crate::specs::Contents::content_at))]
pub fn read_content(
    alloc: Global,
    cursor: &mut Cursor,
    version: Version,
) -> Result<Option<Value>, LineFault>
    ensures { Tries (λ a. a) line_left result cursor.new (content_at version cursor.old) }
{
    match version {
        Version::First => read_present(alloc, cursor),
        Version::Second => read_marked(alloc, cursor),
    }
}

/// Reads a value.
#[tactic(auto, unfolding(crate::specs::Contents::content_at))]
fn read_present(alloc: Global, cursor: &mut Cursor) -> Result<Option<Value>, LineFault>
    ensures { Tries (λ a. a) line_left result cursor.new (content_at versions.First cursor.old) }
{
    let value = read_value(alloc, cursor, Version::First)?;
    Ok(Some(value))
}

/// Reads 1 and a value, or 0 for none.
#[tactic(auto, unfolding(crate::specs::Contents::content_at))]
fn read_marked(alloc: Global, cursor: &mut Cursor) -> Result<Option<Value>, LineFault>
    ensures { Tries (λ a. a) line_left result cursor.new (content_at versions.Second cursor.old) }
{
    let mark = read_byte(cursor, 0, 1)?;
    if mark == 0 {
        return Ok(None);
    }
    let value = read_value(alloc, cursor, Version::Second)?;
    Ok(Some(value))
}

/// Appends a content, which the version can say.
#[tactic(auto, using(vp_bytes::proofs::Writing::writing))]
pub fn put_content<B: BufMut>(
    out: &mut B,
    version: Version,
    content: &Option<Value>,
) -> Result<(), NoMemory>
    requires { IsContent version content.now }
    ensures { Appends result (B.written out.old) (content_bytes version content.now) (B.written out.new) }
{
    match content {
        None => put_absent(out, version),
        Some(value) => put_present(out, version, value),
    }
}

/// Appends the content that is no value. The first version has none, and no byte for it.
#[tactic(auto, using(vp_bytes::proofs::Writing::writing))]
pub fn put_absent<B: BufMut>(out: &mut B, version: Version) -> Result<(), NoMemory>
    ensures { Appends result (B.written out.old) (content_bytes version None) (B.written out.new) }
{
    put_mark(out, version, 0)
}

/// Appends the content that is this value.
#[tactic(auto, using(vp_bytes::proofs::Writing::writing))]
pub fn put_present<B: BufMut>(out: &mut B, version: Version, value: &Value) -> Result<(), NoMemory>
    requires { IsValueIn version value.now }
    ensures { Appends result (B.written out.old) (content_bytes version (Some value.now)) (B.written out.new) }
{
    put_mark(out, version, 1)?;
    put_value(out, version, value)
}

/// Appends the byte that says what follows, where the version has one.
#[tactic(auto, using(vp_bytes::proofs::Writing::writing))]
pub fn put_mark<B: BufMut>(out: &mut B, version: Version, mark: u8) -> Result<(), NoMemory>
    ensures { Appends result (B.written out.old) (mark_bytes version mark) (B.written out.new) }
{
    match version {
        Version::First => Ok(()),
        Version::Second => put_byte(out, mark),
    }
}
