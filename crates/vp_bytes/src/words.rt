//! Reading names, and the bytes of words.

ghost use Rattle.std.specs.Prelude.{◌≤◌, IfOk, drop, length, take};
ghost use Rattle.vp_text.specs.Classes.{has, most};
ghost use Rattle.vp_text.specs.Reading.{Reads, Tries};
ghost use Rattle.vp_text.specs.Tokens.{IsWord};
ghost use Rattle.vp_text.specs.declared.class.Class.TheVariants as classes;
ghost use Rattle.vp_base.specs.Faults.{line_left};
ghost use Rattle.vp_bytes.specs.Reading.{name_at, word_at, word_run_at};

use crate::reading::read_byte;
use std::alloc::Global;
use vp_base::{LineFault, Name, NameFault};
use vp_text::{Class, Cursor, Unexpected};

/// Reads a count of bytes and then a name of as many.
#[tactic(auto, unfolding(crate::specs::Reading::name_at))]
pub fn read_name(alloc: Global, cursor: &mut Cursor) -> Result<Name, LineFault>
    ensures { Tries (λ a. a) line_left result cursor.new (name_at cursor.old) }
{
    let word = read_word(cursor)?;
    match Name::read(alloc, word) {
        Ok(name) => Ok(name),
        Err(NameFault::NoMemory) => Err(LineFault::NoMemory),
        Err(NameFault::BadName { .. }) => unreachable!(),
    }
}

/// Reads a count of bytes and then the bytes of a name of as many.
#[tactic(auto, unfolding(crate::specs::Reading::counted_at))]
fn read_word<'a>(cursor: &mut Cursor<'a>) -> Result<&'a [u8], Unexpected>
    ensures read { Reads (λ w. w.now) (λ e. e.left) result cursor.new (word_at classes.Name cursor.old) }
    ensures allowed { IfOk result (λ w. IsWord (has classes.Name) (most classes.Name) w.now w.now) }
{
    let count = usize::from(read_byte(cursor, 1, Class::Name.most() as u8)?);
    read_word_bytes(cursor, Class::Name, count)
}

/// Reads as many bytes of the class.
pub fn read_word_bytes<'a>(
    cursor: &mut Cursor<'a>,
    class: Class,
    count: usize,
) -> Result<&'a [u8], Unexpected>
    ensures read { Reads (λ w. w.now) (λ e. e.left) result cursor.new (word_run_at class count cursor.old) }
    ensures allowed { 1 ≤ count → count ≤ most class → IfOk result (λ w. IsWord (has class) (most class) w.now w.now) }
{
    let rest = cursor.rest();
    check_word(rest, class, count)?;
    cursor.advance(count);
    Ok(&rest[..count])
}

/// Whether the first `count` bytes are all of the class. The error names the first that isn't.
fn check_word(bytes: &[u8], class: Class, count: usize) -> Result<(), Unexpected>
    ensures read { Reads (λ _. take count bytes.now) (λ e. e.left) result (drop count bytes.now)
        (word_run_at class count bytes.now) }
    ensures enough { IfOk result (λ _. count ≤ length bytes.now) }
{
    let mut good = 0;
    while good < count {
        if good == bytes.len() || !class.has(bytes[good]) {
            return Err(Unexpected {
                left: bytes.len() - good,
            });
        }
        good += 1;
    }
    Ok(())
}
