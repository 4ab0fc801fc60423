//! Values: reading and writing them.

ghost use Rattle.std.specs.Prelude.{◌≡◌, ◌≤◌, ◌++◌, IfOk, OnErr, OnOk, length};
ghost use Rattle.vp_text.specs.Classes.{most};
ghost use Rattle.vp_text.specs.Printing.{Appends};
ghost use Rattle.vp_text.specs.Reading.{Reads, Tries};
ghost use Rattle.vp_text.specs.declared.class.Class.TheVariants as classes;
ghost use Rattle.vp_base.specs.Faults.{line_left};
ghost use Rattle.vp_base.specs.Words.{IsValue};
ghost use Rattle.vp_contents.specs.declared.version.Version.TheVariants as versions;
ghost use Rattle.vp_contents.specs.Values.{IsValueIn, length_at, length_bytes, most_length, value_at, value_bytes};

use crate::version::Version;
use bytes::BufMut;
use std::alloc::Global;
use vp_base::{LineFault, NameFault, NoMemory, Value};
use vp_bytes::{put_byte, read_byte, read_u16_within, read_word_bytes};
use vp_text::{Class, Cursor, Unexpected};

/// The most bytes of a value in the first version.
const MOST_IN_FIRST: u8 = 64;

/// Reads the length of a value and then the value.
pub fn read_value(alloc: Global, cursor: &mut Cursor, version: Version) -> Result<Value, LineFault>
    ensures { Tries (λ a. a) line_left result cursor.new (value_at version cursor.old) }
{
    let word = read_word(cursor, version)?;
    match Value::read(alloc, word) {
        Ok(value) => Ok(value),
        Err(NameFault::NoMemory) => Err(LineFault::NoMemory),
        Err(NameFault::BadName { .. }) => unreachable!(),
    }
}

/// Reads the length of a value and then the bytes of one.
#[tactic(auto, unfolding(crate::specs::Values::value_at))]
fn read_word<'a>(cursor: &mut Cursor<'a>, version: Version) -> Result<&'a [u8], Unexpected>
    ensures read { Reads (λ w. w.now) (λ e. e.left) result cursor.new (value_at version cursor.old) }
    ensures allowed { IfOk result (λ w. IsValue w.now w.now) }
{
    let count = usize::from(read_length(cursor, version)?);
    read_word_bytes(cursor, Class::Value, count)
}

/// Reads the length of a value.
#[tactic(auto, unfolding(crate::specs::Values::length_at))]
fn read_length(cursor: &mut Cursor, version: Version) -> Result<u16, Unexpected>
    ensures read { Reads (λ n. n) (λ e. e.left) result cursor.new (length_at version cursor.old) }
    ensures range { IfOk result (λ n. (1 ≤ n) × (n ≤ most classes.Value)) }
{
    match version {
        Version::First => {
            let count = read_byte(cursor, 1, MOST_IN_FIRST)?;
            Ok(u16::from(count))
        }
        Version::Second => read_u16_within(cursor, 1, Class::Value.most() as u16),
    }
}

/// Appends the length of a value and then the value.
#[tactic(auto, using(vp_bytes::proofs::Writing::writing))]
pub fn put_value<B: BufMut>(out: &mut B, version: Version, value: &Value) -> Result<(), NoMemory>
    requires { IsValueIn version value.now }
    ensures { Appends result (B.written out.old) (value_bytes version value.now) (B.written out.new) }
{
    put_counted(out, version, value.as_bytes())
}

/// Appends the count of the bytes and then the bytes.
#[tactic(auto, using(vp_bytes::proofs::Writing::writing))]
fn put_counted<B: BufMut>(out: &mut B, version: Version, bytes: &[u8]) -> Result<(), NoMemory>
    requires { length bytes.now ≤ most_length version }
    ensures { Appends result (B.written out.old) (value_bytes version bytes.now) (B.written out.new) }
{
    put_length(out, version, bytes.len())?;
    out.put_slice(bytes)?;
    Ok(())
}

/// Appends the length of a value, or without memory nothing.
fn put_length<B: BufMut>(out: &mut B, version: Version, count: usize) -> Result<(), NoMemory>
    requires { count ≤ most_length version }
    ensures ok { OnOk result (B.written out.new ≡ B.written out.old ++ length_bytes version count) }
    ensures err { OnErr result (B.written out.new ≡ B.written out.old) }
{
    match version {
        Version::First => put_byte(out, count as u8),
        Version::Second => put_u16(out, count as u16),
    }
}

/// Appends a number in 2 bytes, the highest first, or without memory nothing.
#[tactic(auto, unfolding(vp_bytes::specs::Fields::number_bytes))]
pub fn put_u16<B: BufMut>(out: &mut B, number: u16) -> Result<(), NoMemory>
    ensures ok { OnOk result (B.written out.new ≡ B.written out.old ++ length_bytes versions.Second number) }
    ensures err { OnErr result (B.written out.new ≡ B.written out.old) }
{
    out.put_u16(number)?;
    Ok(())
}
