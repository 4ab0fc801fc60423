//! Names: a contract sees one as its bytes. They are in place, so that a name takes no memory.

ghost use Rattle.std.specs.Prelude.{◌≡◌, ◌++◌, OnOk, OnErr, IfOk};
ghost use Rattle.std.specs.Str.{bytes_eq};
ghost use Rattle.vp_text.specs.Meaning.{Answers};
ghost use Rattle.vp_text.specs.Reading.{Reads, Tries, whole, word_at};
ghost use Rattle.vp_text.specs.Tokens.{IsWord};
ghost use Rattle.vp_text.specs.Classes.{has, most};
ghost use Rattle.vp_text.specs.declared.class.Class.TheVariants as classes;
ghost use Rattle.vp_base.specs.Words.{IsName};
ghost use Rattle.vp_base.specs.Faults.{bad_place, name_place, line_left};

use crate::fault::{BadName, LineFault, NameFault};
use crate::memory::NoMemory;
use crate::seq::CopyOf;
use std::alloc::Global;
use std::marker::Model;
use vp_text::{Class, Cursor, Unexpected};

/// The name of a record: 1 to 16 bytes of a to z, 0 to 9 and the underscore.
#[derive(Drop)]
pub struct Name {
    bytes: [u8; 16],
    len: u8,
}

impl Model for Name {
    ghost use Rattle.std.specs.Prelude.{List, ℕ, take, ◌≤◌};
    ghost use Rattle.vp_base.specs.Words.{IsName};

    ghost Value = { List ℕ };

    ghost view = { λ a. take a.len a.bytes };

    ghost invariant = { λ a. (a.len ≤ 16) × IsName (take a.len a.bytes) (take a.len a.bytes) };
}

impl CopyOf for Name {
    fn copy_of(&self) -> Result<Name, NoMemory> {
        Ok(self.duplicate())
    }
}

impl Name {
    /// Makes an equal name. It takes no memory.
    pub(crate) fn duplicate(&self) -> Name
        ensures { result ≡ self.now }
    {
        Name {
            bytes: self.bytes,
            len: self.len,
        }
    }

    /// The name that this word is.
    fn of(word: &[u8]) -> Name
        requires { IsName word.now word.now }
        ensures { result ≡ word.now }
    {
        let mut bytes = [0; 16];
        bytes[..word.len()].copy_from_slice(word);
        Name {
            bytes,
            len: word.len() as u8,
        }
    }

    /// Reads the whole text as a name. `BadName` says how many of its bytes begin a name.
    pub fn read(_alloc: Global, text: &[u8]) -> Result<Name, NameFault>
        ensures { Answers IsName (λ a. a) name_place text.now result }
    {
        let word = whole_word(Class::Name, text)?;
        Ok(Name::of(word))
    }

    /// Reads a name from the front of what is left, as long as it goes. It takes no memory.
    pub fn parse(_alloc: Global, cursor: &mut Cursor) -> Result<Name, LineFault>
        ensures taken { Tries (λ a. a) line_left result cursor.new
            (word_at (has classes.Name) (most classes.Name) cursor.old) }
        ensures allowed { IfOk result (λ a. IsName a a) }
    {
        let word = cursor.word(Class::Name)?;
        Ok(Name::of(word))
    }

    /// Its bytes, which are also its text.
    pub fn as_bytes(&self) -> &[u8]
        ensures bytes { result.now ≡ self.now }
        ensures allowed { IsName self.now self.now }
    {
        &self.bytes[..self.len as usize]
    }

    /// Whether its bytes are those of the word.
    pub fn is(&self, word: &[u8]) -> bool
        ensures { result ≡ bytes_eq self.now word.now }
    {
        self.as_bytes() == word
    }

    /// Appends its text. Where memory is lacking, `out` stays as it is.
    pub fn print(&self, out: &mut Vec<u8>) -> Result<(), NoMemory>
        ensures ok { OnOk result (out.new.items ≡ out.old.items ++ self.now) }
        ensures err { OnErr result (out.new.items ≡ out.old.items) }
    {
        out.extend_from_slice(self.as_bytes())?;
        Ok(())
    }
}

/// The word of the kind that the whole text is.
pub(crate) fn whole_word(class: Class, text: &[u8]) -> Result<&[u8], BadName>
    ensures { Answers (IsWord (has class) (most class)) (λ w. w.now) bad_place text.now result }
{
    let mut cursor = Cursor::new(text);
    match parse_whole(class, &mut cursor) {
        Ok(word) => Ok(word),
        Err(e) => Err(BadName {
            at: text.len() - e.left,
        }),
    }
}

fn parse_whole<'a>(class: Class, cursor: &mut Cursor<'a>) -> Result<&'a [u8], Unexpected>
    ensures { Reads (λ w. w.now) (λ e. e.left) result cursor.new
        (whole (word_at (has class) (most class)) cursor.old) }
{
    let word = cursor.word(class)?;
    cursor.end()?;
    Ok(word)
}
