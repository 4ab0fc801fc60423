//! Sources in memory.

ghost use Rattle.std.specs.Prelude.{◌≡◌, ◌+◌, ◌-◌, ◌<◌, ◌≤◌, ◌==◌, ◌++◌, if◌then◌else◌, nat_lt, min, false, Some, length, take, drop, vec_len, IsErr, IfOk, IfSome};
ghost use Rattle.vp_outside.specs.Input.{Takes};
ghost use Rattle.vp_outside.specs.Plans.{CountsCall, new_plan};

use crate::fault_plan::FaultPlan;
use crate::source::{Failed, Source};

/// Bytes that are given in order from the first one.
#[derive(Drop)]
struct Text {
    bytes: Vec<u8>,
    at: usize,
    ended: bool,
    ghost within: { at ≤ vec_len bytes },
}

impl Text {
    fn new(bytes: Vec<u8>) -> Text
        ensures bytes { result.bytes ≡ bytes }
        ensures at { result.at ≡ 0 }
        ensures ended { result.ended ≡ false }
    {
        Text {
            bytes,
            at: 0,
            ended: false,
        }
    }

    /// Copies what is left to the front of the buffer, as much as it has room for, but no more than `most` bytes.
    fn give(&mut self, buf: &mut [u8], most: usize) -> usize
        ensures count { result ≡ min (min (length buf.old) most) (length self.old.bytes.items - self.old.at) }
        ensures given { buf.new ≡ take result (drop self.old.at self.old.bytes.items) ++ drop result buf.old }
        ensures at { self.new.at ≡ self.old.at + result }
        ensures bytes { self.new.bytes ≡ self.old.bytes }
        ensures ended { self.new.ended ≡ (if nat_lt 0 (length buf.old) then result == 0 else self.old.ended) }
    {
        let count = buf.len().min(most).min(self.bytes.len() - self.at);
        buf[..count].copy_from_slice(&self.bytes[self.at..self.at + count]);
        self.at += count;
        if !buf.is_empty() {
            self.ended = count == 0;
        }
        count
    }
}

/// A source that gives a text in memory, with a plan of the calls that fail. Contracts know what is left.
#[derive(Drop)]
pub struct TextSource {
    text: Text,
    /// Which calls fail.
    pub plan: FaultPlan,
    /// How many bytes a call gives at most.
    pub most: usize,
    ghost some: { 0 < most },
}

impl TextSource {
    /// Makes a source of the bytes at which the calls with these numbers fail. The first call has number 1.
    pub fn new(bytes: Vec<u8>, failing: Vec<u64>) -> TextSource
        ensures left { (⟦<TextSource as Source>⟧.state result).left ≡ Some bytes.items }
        ensures taken { (⟦<TextSource as Source>⟧.state result).taken ≡ 0 }
        ensures ended { (⟦<TextSource as Source>⟧.state result).ended ≡ false }
        ensures plan { result.plan ≡ new_plan failing }
        ensures most { result.most ≡ usize.MAX }
    {
        TextSource {
            text: Text::new(bytes),
            plan: FaultPlan::new(failing),
            most: usize::MAX,
        }
    }
}

impl Source for TextSource {
    ghost state = { λ s. record {
      left = Some (drop s.text.at s.text.bytes.items);
      taken = s.text.at;
      ended = s.text.ended;
      faults = s.plan.faults;
    } };

    fn faults(&self) -> u64 {
        self.plan.faults
    }

    fn take(&mut self, buf: &mut [u8]) -> Result<usize, Failed>
        ensures takes { Takes buf.new (⟦<TextSource as Source>⟧.state self.old)
            (⟦<TextSource as Source>⟧.state self.new) result }
        ensures plan { CountsCall self.old.plan self.new.plan (IsErr result) }
        ensures most { self.new.most ≡ self.old.most }
        ensures piece { IfOk result (λ n. IfSome (⟦<TextSource as Source>⟧.state self.old).left (λ left.
            n ≡ min (min (length buf.old) self.old.most) (length left))) }
    {
        if self.plan.fails_now() {
            return Err(Failed);
        }
        Ok(self.text.give(buf, self.most))
    }
}

/// A source that gives a text in memory and never fails. Contracts know what is left.
#[derive(Drop)]
pub struct SureSource {
    text: Text,
}

impl SureSource {
    /// Makes a source of the bytes.
    pub fn new(bytes: Vec<u8>) -> SureSource
        ensures left { (⟦<SureSource as Source>⟧.state result).left ≡ Some bytes.items }
        ensures taken { (⟦<SureSource as Source>⟧.state result).taken ≡ 0 }
        ensures ended { (⟦<SureSource as Source>⟧.state result).ended ≡ false }
    {
        SureSource {
            text: Text::new(bytes),
        }
    }
}

impl Source for SureSource {
    ghost state = { λ s. record {
      left = Some (drop s.text.at s.text.bytes.items);
      taken = s.text.at;
      ended = s.text.ended;
      faults = 0;
    } };

    fn faults(&self) -> u64 {
        0
    }

    fn take(&mut self, buf: &mut [u8]) -> Result<usize, Failed> {
        Ok(self.text.give(buf, usize::MAX))
    }
}
