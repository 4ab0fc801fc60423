//! Readers and writers of the standard library as sources and sinks.

ghost use Rattle.std.specs.Prelude.{◌≡◌, false, IsErrOf};
ghost use Rattle.vp_outside.specs.Output.{Puts};
ghost use Rattle.vp_outside.specs.declared.sink.OutFault.TheVariants.{NoMemory as OutOfMemory};

use crate::sink::{OutFault, Sink};
use crate::source::{Failed, Source};
use std::io::{Read, Write};

/// A reader of the standard library as a source. Contracts know what is left of it where the reader says.
#[derive(Drop)]
pub struct Reading<R> {
    inner: R,
    taken: u64,
    ended: bool,
    faults: u64,
}

impl<R: Read> Reading<R> {
    /// Makes a source of the reader, from which nothing has been taken.
    pub fn new(inner: R) -> Reading<R>
        ensures left { (⟦<Reading<R> as Source>⟧.state result).left ≡ R.remaining inner }
        ensures taken { (⟦<Reading<R> as Source>⟧.state result).taken ≡ 0 }
        ensures ended { (⟦<Reading<R> as Source>⟧.state result).ended ≡ false }
        ensures faults { (⟦<Reading<R> as Source>⟧.state result).faults ≡ 0 }
    {
        Reading {
            inner,
            taken: 0,
            ended: false,
            faults: 0,
        }
    }
}

impl<R: Read> Source for Reading<R> {
    ghost state = { λ s. record { left = R.remaining s.inner; taken = s.taken; ended = s.ended; faults = s.faults } };

    fn faults(&self) -> u64 {
        self.faults
    }

    fn take(&mut self, buf: &mut [u8]) -> Result<usize, Failed> {
        match self.inner.read(buf) {
            Ok(count) => {
                self.taken = self.taken.saturating_add(count as u64);
                if !buf.is_empty() {
                    self.ended = count == 0;
                }
                Ok(count)
            }
            Err(_) => {
                self.faults = self.faults.saturating_add(1);
                Err(Failed)
            }
        }
    }
}

/// A writer of the standard library as a sink. Contracts know what it holds where the writer says.
#[derive(Drop)]
pub struct Writing<W> {
    inner: W,
    faults: u64,
}

impl<W: Write> Writing<W> {
    /// Makes a sink of the writer.
    pub fn new(inner: W) -> Writing<W>
        ensures held { (⟦<Writing<W> as Sink>⟧.state result).held ≡ W.contents inner }
        ensures faults { (⟦<Writing<W> as Sink>⟧.state result).faults ≡ 0 }
    {
        Writing { inner, faults: 0 }
    }
}

impl<W: Write> Sink for Writing<W> {
    ghost state = { λ s. record { held = W.contents s.inner; faults = s.faults } };

    fn faults(&self) -> u64 {
        self.faults
    }

    /// Want of memory is never its error.
    fn put(&mut self, piece: &[u8]) -> Result<usize, OutFault>
        ensures puts { Puts piece.now (⟦<Writing<W> as Sink>⟧.state self.old)
            (⟦<Writing<W> as Sink>⟧.state self.new) result }
        ensures no_memory { IsErrOf result OutOfMemory → ⊥ }
    {
        match self.inner.write(piece) {
            Ok(count) if count > 0 || piece.is_empty() => Ok(count),
            _ => {
                self.faults = self.faults.saturating_add(1);
                Err(OutFault::Failed)
            }
        }
    }
}
