//! The bytes of a log in memory.

ghost use Rattle.std.specs.Prelude.{◌≡◌, ◌↔◌, IsTrue, ◌+◌, ◌-◌, ◌^◌, ◌<◌, ◌≤◌, ◌++◌, [], IfOk, IfSome, List, ℕ, Some, OnErr, OnOk, drop, length, replicate, take, vec_len};
ghost use Rattle.std.specs.List.{position};
ghost use Rattle.std.specs.Str.{bytes_eq};
ghost use Rattle.vp_disks.specs.NamedLogs.{is_named, halves_of};
ghost use Rattle.std.specs.declared.option.Option.{Option};
ghost use Rattle.vp_outside.specs.Disk.{Halves, half_of, in_half, write_bytes_at};

use std::alloc::Global;
use std::marker::Model;
use vp_base::{NoMemory, Seq, Word};

/// The two halves of a log, each from its first byte on.
#[derive(Drop)]
pub struct LogBytes {
    first: Vec<u8>,
    second: Vec<u8>,
}

impl Model for LogBytes {
    ghost use Rattle.vp_outside.specs.Disk.{Halves};

    ghost Value = { Halves };

    ghost view = { λ log. (log.first.items, log.second.items) };
}

impl LogBytes {
    /// Makes a log of two empty halves.
    pub fn new(alloc: Global) -> LogBytes
        ensures { result ≡ ([], []) }
    {
        LogBytes {
            first: Vec::new(alloc),
            second: Vec::new(alloc),
        }
    }

    /// Makes a log of these halves without copying them.
    pub fn of_halves(first: Vec<u8>, second: Vec<u8>) -> LogBytes
        ensures { result ≡ (first.items, second.items) }
    {
        LogBytes { first, second }
    }

    /// The bytes of a half, 0 or 1.
    pub fn half(&self, half: u8) -> &[u8]
        ensures { result.now ≡ half_of half self.now }
    {
        if half == 0 { &self.first } else { &self.second }
    }

    /// Writes the piece from the byte `at` of a half on; what is between the old end and `at` becomes 0. Without memory the log
    /// stays as it is.
    pub fn write_at(&mut self, half: u8, at: u64, piece: &[u8]) -> Result<(), NoMemory>
        requires { at + length piece.now ≤ 2 ^ 62 }
        ensures ok { OnOk result (self.new ≡ in_half half (write_bytes_at at piece.now) self.old) }
        ensures err { OnErr result (self.new ≡ self.old) }
    {
        if half == 0 {
            write_over(&mut self.first, at as usize, piece)
        } else {
            write_over(&mut self.second, at as usize, piece)
        }
    }

    /// Cuts a half to a length in bytes; a shorter half stays as it is.
    pub fn cut(&mut self, half: u8, length: u64)
        ensures { self.new ≡ in_half half (take length) self.old }
    {
        if half == 0 {
            self.first.truncate(length as usize);
        } else {
            self.second.truncate(length as usize);
        }
    }
}

/// A log that is kept by name.
#[derive(Drop)]
pub struct NamedLog {
    pub name: Word,
    pub log: LogBytes,
}

impl NamedLog {
    /// Whether the log has this name.
    pub fn is_of(&self, name: &Word) -> bool
        ensures { result ≡ bytes_eq self.now.name name.now }
    {
        self.name.as_slice() == name.as_slice()
    }
}

/// Finds the place of the log of that name; where there is none, appends an empty one. Without memory the list stays as it is.
pub fn take_place(alloc: Global, logs: &mut Vec<NamedLog>, name: &Word) -> Result<usize, NoMemory>
    ensures place { IfOk result (λ place. position (is_named name.now) logs.new.items ≡ Some place) }
    ensures ok { OnOk result
        ((log : Option (List ℕ)) → (unnamed : Halves) →
        halves_of log unnamed logs.new.items ≡ halves_of log unnamed logs.old.items) }
    ensures err { OnErr result (logs.new.items ≡ logs.old.items) }
{
    match place_of(logs, name) {
        Some(place) => Ok(place),
        None => {
            let place = logs.len();
            logs.push(NamedLog {
                name: kept(alloc, name.as_slice())?,
                log: LogBytes::new(alloc),
            })?;
            Ok(place)
        }
    }
}

fn place_of(logs: &[NamedLog], name: &Word) -> Option<usize>
    ensures place { result ≡ position (is_named name.now) logs.now }
    ensures within { IfSome result (λ place. place < length logs.now) }
{
    logs.iter().position(|log| log.is_of(name))
}

/// Writes over what is there, and past the end. What is between the old end and `at` becomes 0.
fn write_over(half: &mut Vec<u8>, at: usize, piece: &[u8]) -> Result<(), NoMemory>
    requires { at + length piece.now ≤ 2 ^ 62 }
    ensures ok { OnOk result (half.new.items ≡ write_bytes_at at piece.now half.old.items) }
    ensures err { OnErr result (half.new.items ≡ half.old.items) }
{
    lengthen(half, at + piece.len())?;
    overwrite(half, at, piece);
    Ok(())
}

/// Appends zeros, up to that length.
fn lengthen(half: &mut Vec<u8>, length: usize) -> Result<(), NoMemory>
    ensures ok { OnOk result (half.new.items ≡ half.old.items ++ replicate (length - vec_len half.old) 0) }
    ensures err { OnErr result (half.new.items ≡ half.old.items) }
{
    if half.len() < length {
        half.resize(length, 0)?;
    }
    Ok(())
}

fn overwrite(bytes: &mut [u8], at: usize, piece: &[u8])
    requires { at + length piece.now ≤ length bytes.old }
    ensures { bytes.new ≡ take at bytes.old ++ piece.now ++ drop (at + length piece.now) bytes.old }
{
    bytes[at..at + piece.len()].copy_from_slice(piece);
}

/// Whether the piece ends at 2^62 or before, so that it may be written there.
pub fn fits(at: u64, piece: &[u8]) -> bool
    ensures { IsTrue result ↔ (at + length piece.now ≤ 2 ^ 62) }
{
    const LONGEST: u64 = 1 << 62;
    let length = piece.len() as u64;
    length <= LONGEST && at <= LONGEST - length
}

/// Copies the bytes to a list of their own.
fn kept(alloc: Global, bytes: &[u8]) -> Result<Seq<u8>, NoMemory>
    ensures { IfOk result (λ kept. kept ≡ bytes.now) }
{
    Ok(Seq::from_vec(bytes.to_vec(alloc)?))
}
