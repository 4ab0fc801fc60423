//! Sinks in memory.

ghost use Rattle.std.specs.Prelude.{◌≡◌, ◌<◌, [], Some, length, min, IsErr, IsErrOf, IfOk};
ghost use Rattle.vp_outside.specs.Output.{Puts};
ghost use Rattle.vp_outside.specs.Plans.{CountsCall, new_plan};

use crate::fault_plan::FaultPlan;
use crate::sink::{OutFault, Sink};
use std::alloc::Global;

/// A sink that collects bytes in memory, with a plan of the calls that fail. Contracts know what it holds.
#[derive(Drop)]
pub struct TextSink {
    bytes: Vec<u8>,
    /// Which calls fail. A call that lacks memory isn't counted.
    pub plan: FaultPlan,
    /// How many bytes a call takes at most.
    pub most: usize,
    ghost some: { 0 < most },
}

impl TextSink {
    /// Makes an empty sink at which the calls with these numbers fail. The first call has number 1.
    pub fn new(alloc: Global, failing: Vec<u64>) -> TextSink
        ensures held { (⟦<TextSink as Sink>⟧.state result).held ≡ Some [] }
        ensures plan { result.plan ≡ new_plan failing }
        ensures most { result.most ≡ usize.MAX }
    {
        TextSink {
            bytes: Vec::new(alloc),
            plan: FaultPlan::new(failing),
            most: usize::MAX,
        }
    }

    /// The bytes that it holds.
    pub fn bytes(&self) -> &[u8]
        ensures { Some result.now ≡ (⟦<TextSink as Sink>⟧.state self.now).held }
    {
        &self.bytes
    }
}

impl Sink for TextSink {
    ghost state = { λ s. record { held = Some s.bytes.items; faults = s.plan.faults } };

    fn faults(&self) -> u64 {
        self.plan.faults
    }

    fn put(&mut self, piece: &[u8]) -> Result<usize, OutFault>
        ensures puts { Puts piece.now (⟦<TextSink as Sink>⟧.state self.old)
            (⟦<TextSink as Sink>⟧.state self.new) result }
        ensures plan { ¬ IsErrOf result OutFault.NoMemory →
            CountsCall self.old.plan self.new.plan (IsErr result) }
        ensures no_memory { IsErrOf result OutFault.NoMemory → self.new.plan ≡ self.old.plan }
        ensures most { self.new.most ≡ self.old.most }
        ensures piece { IfOk result (λ n. n ≡ min (length piece.now) self.old.most) }
    {
        let count = piece.len().min(self.most);
        self.bytes.reserve(count)?;
        if self.plan.fails_now() {
            return Err(OutFault::Failed);
        }
        self.bytes.extend_from_slice(&piece[..count])?;
        Ok(count)
    }
}

/// A sink that collects bytes in memory and never fails except for want of it. Contracts know what it holds.
#[derive(Drop)]
pub struct SureSink {
    bytes: Vec<u8>,
}

impl SureSink {
    /// Makes an empty sink.
    pub fn new(alloc: Global) -> SureSink
        ensures { (⟦<SureSink as Sink>⟧.state result).held ≡ Some [] }
    {
        SureSink {
            bytes: Vec::new(alloc),
        }
    }

    /// The bytes that it holds.
    pub fn bytes(&self) -> &[u8]
        ensures { Some result.now ≡ (⟦<SureSink as Sink>⟧.state self.now).held }
    {
        &self.bytes
    }
}

impl Sink for SureSink {
    ghost state = { λ s. record { held = Some s.bytes.items; faults = 0 } };

    fn faults(&self) -> u64 {
        0
    }

    fn put(&mut self, piece: &[u8]) -> Result<usize, OutFault> {
        self.bytes.extend_from_slice(piece)?;
        Ok(piece.len())
    }
}
