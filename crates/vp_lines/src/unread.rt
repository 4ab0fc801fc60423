//! Bytes that were taken from a source and not passed yet.

ghost use Rattle.std.specs.Prelude.{◌≡◌, ◌==◌, ◌≤◌, ◌<◌, ◌++◌, length, take, vec_len, position, OnOk};
ghost use Rattle.vp_outside.specs.Input.{HasInputCause};
ghost use Rattle.vp_lines.specs.Ahead.{ahead_at_start, rest_found, Passes, Fills, Finds};

use std::alloc::AllocError;
use std::marker::Model;
use vp_outside::{InputFault, Source};

/// How many bytes may be taken from an input: 16 MiB.
pub const MOST_TAKEN: usize = 16_777_216;

/// How many bytes are taken from the source at a time.
const PIECE: usize = 8192;

/// What was found in a source.
#[derive(Clone, Copy, Debug, Drop, PartialEq, Eq)]
pub enum LineFound {
    /// A line, whose newline has come.
    Line,
    /// Bytes after the last newline, and the end of input.
    Rest,
    /// The end of input.
    End,
}

/// Bytes that were taken from a source and not passed yet. Contracts see them, and how many more may be taken.
#[derive(Drop)]
pub struct ReadBuffer {
    piece: [u8; PIECE],
    at: usize,
    end: usize,
    credit: usize,
}

impl Model for ReadBuffer {
    ghost use Rattle.std.specs.Prelude.{◌≤◌, ◌-◌, take, drop};
    ghost use Rattle.vp_lines.specs.Ahead.{Ahead};

    ghost Value = { Ahead };

    ghost view = { λ u. record { unread = take (u.end - u.at) (drop u.at u.piece); credit = u.credit } };

    ghost invariant = { λ u. (u.at ≤ u.end) × (u.end ≤ 8192) × (u.credit ≤ 16777217) };
}

impl ReadBuffer {
    /// Makes the state before anything is taken.
    pub fn new() -> ReadBuffer
        ensures { result ≡ ahead_at_start }
    {
        ReadBuffer {
            piece: [0; PIECE],
            at: 0,
            end: 0,
            credit: MOST_TAKEN + 1,
        }
    }

    /// Whether more was taken than is allowed.
    pub fn is_spent(&self) -> bool
        ensures { result ≡ (self.now.credit == 0) }
    {
        self.credit == 0
    }

    /// Reads the next line: takes bytes from the source until a newline has come or the input has ended, and replaces the content
    /// of `line` by the line without its newline, or by the first `most` bytes of a longer one. Once more was taken than is
    /// allowed, the lines that end within the limit are still found, and then the error is `TooLong`.
    pub fn next<S: Source>(
        &mut self,
        source: &mut S,
        line: &mut Vec<u8>,
        most: usize,
    ) -> Result<LineFound, InputFault>
        requires some { 0 < most }
        ensures finds { Finds most self.old self.new line.new.items (S.state source.old) (S.state source.new)
            result }
        ensures cause { HasInputCause (S.state source.old).faults (S.state source.new).faults result }
    {
        line.clear();
        loop {
            let whole = self.pass(line, most)?;
            if whole {
                return Ok(LineFound::Line);
            }
            let more = self.fill(source)?;
            if !more {
                return Ok(rest_of(line));
            }
        }
    }

    /// Passes over the bytes up to the newline, it included, and appends them to the line; passes over all bytes where there is no
    /// newline. Returns whether there was one.
    fn pass(&mut self, line: &mut Vec<u8>, most: usize) -> Result<bool, AllocError>
        requires { vec_len line.old ≤ most }
        ensures { Passes most self.old self.new line.old.items line.new.items result }
    {
        let unread = &self.piece[self.at..self.end];
        match newline_in(unread) {
            Some(count) => {
                append(line, &unread[..count], most)?;
                self.at += count + 1;
                Ok(true)
            }
            None => {
                append(line, unread, most)?;
                self.at = self.end;
                Ok(false)
            }
        }
    }

    /// Takes the next piece where nothing is unread, and returns whether there was one: at the end of input there is none.
    fn fill<S: Source>(&mut self, source: &mut S) -> Result<bool, InputFault>
        requires { length self.old.unread ≡ 0 }
        ensures fills { Fills self.old self.new (S.state source.old) (S.state source.new) result }
        ensures cause { HasInputCause (S.state source.old).faults (S.state source.new).faults result }
    {
        if self.credit == 0 {
            return Err(InputFault::TooLong);
        }
        let count = source.take(&mut self.piece)?;
        self.at = 0;
        self.end = count.min(self.credit - 1);
        self.credit = self.credit.saturating_sub(count);
        Ok(count > 0)
    }
}

/// What is found at the end of input, by what came after the last newline.
fn rest_of(line: &[u8]) -> LineFound
    ensures { result ≡ rest_found line.now }
{
    if line.is_empty() {
        LineFound::End
    } else {
        LineFound::Rest
    }
}

/// The place of the first newline.
fn newline_in(bytes: &[u8]) -> Option<usize>
    ensures { result ≡ position (λ b. b == 10) bytes.now }
{
    bytes.iter().position(|b| *b == 10)
}

/// Appends bytes to a line, up to a length of `most`.
fn append(line: &mut Vec<u8>, bytes: &[u8], most: usize) -> Result<(), AllocError>
    requires { vec_len line.old ≤ most }
    ensures { OnOk result (line.new.items ≡ take most (line.old.items ++ bytes.now)) }
{
    let room = bytes.len().min(most - line.len());
    line.extend_from_slice(&bytes[..room])
}
