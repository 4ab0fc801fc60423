//! A cursor: a place in a text, from which fields are read.

ghost use Rattle.std.specs.Prelude.{◌≡◌, ◌≤◌, length, drop, min, IfOk, IfErr};
ghost use Rattle.vp_text.specs.Reading.{Reads, end_at, literal_at, word_at, number_at};
ghost use Rattle.vp_text.specs.Classes.{has, most};
ghost use Rattle.vp_text.specs.Tokens.{IsWord};

use crate::class::Class;
use crate::digits::with_digit;
use std::marker::Model;

/// The fault where `left` bytes are still unread: no allowed text goes on from there as the bytes do.
#[derive(Clone, Copy, Debug, PartialEq, Eq)]
pub struct Unexpected {
    pub left: usize,
}

impl Unexpected {
    /// Chooses, of two faults in one text, the one farther on. Where two readings of a text both fail, only the farther one's place
    /// is a fault: up to there one of them could go on.
    pub fn farther(self, other: Unexpected) -> Unexpected
        ensures { result.left ≡ min self.left other.left }
    {
        Unexpected {
            left: self.left.min(other.left),
        }
    }
}

/// A place in a text. A contract sees it as the bytes from there to the end.
///
/// Each method that reads a field moves the cursor to the end of that field. After an `Err` the cursor is at the fault, and the
/// bytes before the fault are passed: to try another reading, `fork` the cursor first.
#[derive(Drop)]
pub struct Cursor<'a> {
    rest: &'a [u8],
}

impl<'a> Model for Cursor<'a> {
    ghost use Rattle.std.specs.Prelude.{List, ℕ};

    ghost Value = { List ℕ };

    ghost view = { λ c. c.rest.now };
}

impl<'a> Cursor<'a> {
    /// Makes a cursor at the start of the text.
    pub fn new(text: &'a [u8]) -> Cursor<'a>
        ensures { result ≡ text.now }
    {
        Cursor { rest: text }
    }

    /// The number of bytes that are left.
    pub fn left(&self) -> usize
        ensures { result ≡ length self.now }
    {
        self.rest.len()
    }

    /// The bytes that are left. They may be used for longer than the cursor.
    pub fn rest(&self) -> &'a [u8]
        ensures { result.now ≡ self.now }
    {
        self.rest
    }

    /// Makes another cursor at the same place; moving one does not move the other.
    pub fn fork(&self) -> Cursor<'a>
        ensures { result ≡ self.now }
    {
        Cursor { rest: self.rest }
    }

    /// Passes over `count` bytes, whatever they are.
    pub fn advance(&mut self, count: usize)
        requires { count ≤ length self.old }
        ensures { self.new ≡ drop count self.old }
    {
        self.rest = &self.rest[count..];
    }

    /// Succeeds at the end of the text, where nothing is left. The cursor doesn't move.
    pub fn end(&mut self) -> Result<(), Unexpected>
        ensures read { Reads (λ x. x) (λ e. e.left) result self.new (end_at self.old) }
        ensures unmoved { self.new ≡ self.old }
        ensures stands { IfErr result (λ e. length self.new ≡ e.left) }
    {
        if self.rest.is_empty() {
            Ok(())
        } else {
            Err(Unexpected {
                left: self.rest.len(),
            })
        }
    }

    /// Reads exactly these bytes.
    pub fn literal(&mut self, text: &[u8]) -> Result<(), Unexpected>
        ensures read { Reads (λ x. x) (λ e. e.left) result self.new (literal_at text.now self.old) }
        ensures stands { IfErr result (λ e. length self.new ≡ e.left) }
    {
        for expected in text {
            match self.rest.split_first() {
                Some((byte, rest)) if *byte == *expected => self.rest = rest,
                _ => {
                    return Err(Unexpected {
                        left: self.rest.len(),
                    });
                }
            }
        }
        Ok(())
    }

    /// Reads a word of the kind, as long as it goes: up to the first byte that is not allowed in it or would make it too long.
    pub fn word(&mut self, class: Class) -> Result<&'a [u8], Unexpected>
        ensures read { Reads (λ x. x.now) (λ e. e.left) result self.new
            (word_at (has class) (most class) self.old) }
        ensures allowed { IfOk result (λ w. IsWord (has class) (most class) w.now w.now) }
        ensures stands { IfErr result (λ e. length self.new ≡ e.left) }
    {
        let mut count = 0;
        while count < class.most() && count < self.rest.len() && class.has(self.rest[count]) {
            count += 1;
        }
        if count == 0 {
            return Err(Unexpected {
                left: self.rest.len(),
            });
        }
        let (word, rest) = self.rest.split_at(count);
        self.rest = rest;
        Ok(word)
    }

    /// Reads a number from `least` to `most` that has 8 bits, as `number` does.
    pub fn number_u8(&mut self, least: u8, most: u8) -> Result<u8, Unexpected>
        ensures read { Reads (λ x. x) (λ e. e.left) result self.new (number_at least most self.old) }
        ensures range { IfOk result (λ n. (least ≤ n) × (n ≤ most)) }
        ensures stands { IfErr result (λ e. length self.new ≡ e.left) }
    {
        let number = self.number(u64::from(least), u64::from(most))?;
        Ok(number as u8)
    }

    /// Reads a number from `least` to `most` that has 32 bits, as `number` does.
    pub fn number_u32(&mut self, least: u32, most: u32) -> Result<u32, Unexpected>
        ensures read { Reads (λ x. x) (λ e. e.left) result self.new (number_at least most self.old) }
        ensures range { IfOk result (λ n. (least ≤ n) × (n ≤ most)) }
        ensures stands { IfErr result (λ e. length self.new ≡ e.left) }
    {
        let number = self.number(u64::from(least), u64::from(most))?;
        Ok(number as u32)
    }

    /// Reads a number from `least` to `most`, in decimal digits without leading zeros.
    ///
    /// It reads a digit only where some number of the range begins with the digits up to it: from 1 to 16 it reads the 1 of `17`
    /// and leaves the 7, and from 5 to 9 it reads nothing of `30`.
    pub fn number(&mut self, least: u64, most: u64) -> Result<u64, Unexpected>
        ensures read { Reads (λ x. x) (λ e. e.left) result self.new (number_at least most self.old) }
        ensures range { IfOk result (λ n. (least ≤ n) × (n ≤ most)) }
        ensures stands { IfErr result (λ e. length self.new ≡ e.left) }
    {
        let mut number = None;
        while let Some((byte, rest)) = self.rest.split_first() {
            let Some(next) = with_digit(number, *byte, least, most) else {
                break;
            };
            number = Some(next);
            self.rest = rest;
        }
        match number {
            Some(number) if least <= number && number <= most => Ok(number),
            _ => Err(Unexpected {
                left: self.rest.len(),
            }),
        }
    }
}
