//! Values: a contract sees one as its bytes.

ghost use Rattle.std.specs.Prelude.{◌≡◌, ◌++◌, OnOk, OnErr, IfOk};
ghost use Rattle.std.specs.Str.{bytes_eq};
ghost use Rattle.vp_text.specs.Meaning.{Answers};
ghost use Rattle.vp_text.specs.Reading.{Tries, word_at};
ghost use Rattle.vp_text.specs.Classes.{has, most};
ghost use Rattle.vp_text.specs.declared.class.Class.TheVariants as classes;
ghost use Rattle.vp_base.specs.Words.{IsValue};
ghost use Rattle.vp_base.specs.Faults.{name_place, line_left};

use crate::fault::{LineFault, NameFault};
use crate::memory::NoMemory;
use crate::seq::CopyOf;
use crate::text::whole_word;
use std::alloc::Global;
use std::marker::Model;
use std::rc::Rc;
use vp_text::{Class, Cursor};

/// The most bytes that are in place.
const SHORT: usize = 22;

/// The bytes of a value: few are in place, more are shared by all its copies.
#[derive(Drop)]
enum Bytes {
    Short { bytes: [u8; 22], len: u8 },
    Long { bytes: Rc<Vec<u8>> },
}

/// The value of a record: 1 to 1,024 printed bytes of ASCII, without spaces. A copy of it takes no memory.
#[derive(Drop)]
pub struct Value {
    bytes: Bytes,
}

impl Model for Value {
    ghost use Rattle.std.specs.Prelude.{List, ℕ};
    ghost use Rattle.vp_base.specs.Words.{IsValue};
    ghost use Rattle.vp_base.specs.ValueBytes.{bytes_of, IsKept};

    ghost Value = { List ℕ };

    ghost view = { λ a. bytes_of a.bytes };

    ghost invariant = { λ a. IsKept a.bytes × IsValue (bytes_of a.bytes) (bytes_of a.bytes) };
}

impl CopyOf for Value {
    /// It takes no memory, and fails only where the bytes are shared too often to count.
    fn copy_of(&self) -> Result<Value, NoMemory> {
        let bytes = match &self.bytes {
            Bytes::Short { bytes, len } => Bytes::Short {
                bytes: *bytes,
                len: *len,
            },
            Bytes::Long { bytes } => Bytes::Long {
                bytes: bytes.clone()?,
            },
        };
        Ok(Value { bytes })
    }
}

impl Value {
    /// The word, which is one.
    fn of(alloc: Global, word: &[u8]) -> Result<Value, NoMemory>
        requires { IsValue word.now word.now }
        ensures { IfOk result (λ a. a ≡ word.now) }
    {
        if word.len() > SHORT {
            let bytes = Rc::new(alloc, word.to_vec(alloc)?)?;
            return Ok(Value {
                bytes: Bytes::Long { bytes },
            });
        }
        let mut bytes = [0; 22];
        bytes[..word.len()].copy_from_slice(word);
        Ok(Value {
            bytes: Bytes::Short {
                bytes,
                len: word.len() as u8,
            },
        })
    }

    /// The value that the whole text is. `BadName` says how many of its bytes begin one.
    pub fn read(alloc: Global, text: &[u8]) -> Result<Value, NameFault>
        ensures { Answers IsValue (λ a. a) name_place text.now result }
    {
        let word = whole_word(Class::Value, text)?;
        Ok(Value::of(alloc, word)?)
    }

    /// Reads a value from the front of what is left, as long as it goes.
    pub fn parse(alloc: Global, cursor: &mut Cursor) -> Result<Value, LineFault>
        ensures taken { Tries (λ a. a) line_left result cursor.new
            (word_at (has classes.Value) (most classes.Value) cursor.old) }
        ensures allowed { IfOk result (λ a. IsValue a a) }
    {
        let word = cursor.word(Class::Value)?;
        Ok(Value::of(alloc, word)?)
    }

    /// Its bytes, which are its text.
    pub fn as_bytes(&self) -> &[u8]
        ensures bytes { result.now ≡ self.now }
        ensures allowed { IsValue self.now self.now }
    {
        match &self.bytes {
            Bytes::Short { bytes, len } => &bytes[..*len as usize],
            Bytes::Long { bytes } => bytes.as_ref().as_slice(),
        }
    }

    /// Whether it is this word.
    pub fn is(&self, word: &[u8]) -> bool
        ensures { result ≡ bytes_eq self.now word.now }
    {
        self.as_bytes() == word
    }

    /// Appends its text. Without memory the bytes stay as they are.
    pub fn print(&self, out: &mut Vec<u8>) -> Result<(), NoMemory>
        ensures ok { OnOk result (out.new.items ≡ out.old.items ++ self.now) }
        ensures err { OnErr result (out.new.items ≡ out.old.items) }
    {
        out.extend_from_slice(self.as_bytes())?;
        Ok(())
    }
}
