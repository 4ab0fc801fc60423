//! Sources, from which input comes.

ghost use Rattle.std.specs.Prelude.{◌≡◌, ◌<◌, ◌≤◌, ℕ, List, length, vec_len, IfOk, OnOk, OnErr, IsErrOf};
ghost use Rattle.vp_outside.specs.Input.{SourceState, IsEnded, Took, Takes, HasInputCause};
ghost use Rattle.vp_outside.specs.declared.source.InputFault.TheVariants.{NoMemory as OutOfMemory, Failed as InputFailed};

use std::alloc::{AllocError, Global};

/// The error of a call where the world outside failed.
#[derive(Clone, Copy, Debug, PartialEq, Eq)]
pub struct Failed;

/// What input is read from.
pub trait Source {
    /// Its state, as contracts see it.
    ghost state: { Self → SourceState };

    /// How often a call failed.
    fn faults(&self) -> u64
        ensures { result ≡ (state self.now).faults };

    /// Copies the next bytes to the front of the buffer, and returns how many. Where the buffer isn't empty, 0 means the end of
    /// input. A call that fails takes nothing.
    fn take(&mut self, buf: &mut [u8]) -> Result<usize, Failed>
        ensures { Takes buf.new (state self.old) (state self.new) result };
}

/// Why an input couldn't be read as a whole.
#[derive(Clone, Copy, Debug, PartialEq, Eq)]
pub enum InputFault {
    /// The source failed.
    Failed,
    /// The input is longer than the limit.
    TooLong,
    /// Memory is lacking.
    NoMemory,
}

impl From<Failed> for InputFault {
    ghost from_gives = { λ _ fault. fault ≡ InputFailed };

    fn from(_: Failed) -> InputFault {
        InputFault::Failed
    }
}

impl From<AllocError> for InputFault {
    ghost from_gives = { λ _ fault. fault ≡ OutOfMemory };

    fn from(_: AllocError) -> InputFault {
        InputFault::NoMemory
    }
}

/// Reads the source to the end of input. The error is `TooLong` once more than `limit` bytes were taken.
pub fn read_to_end<S: Source>(
    alloc: Global,
    source: &mut S,
    limit: usize,
) -> Result<Vec<u8>, InputFault>
    ensures bytes { IfOk result (λ bytes. Took bytes.items (S.state source.old) (S.state source.new)) }
    ensures ended { OnOk result (IsEnded (S.state source.new)) }
    ensures fits { IfOk result (λ bytes. vec_len bytes ≤ limit) }
    ensures err { OnErr result ((bytes : List ℕ) × Took bytes (S.state source.old) (S.state source.new)) }
    ensures too_long { IsErrOf result InputFault.TooLong → ((bytes : List ℕ) × (limit < length bytes)
        × Took bytes (S.state source.old) (S.state source.new)) }
    ensures cause { HasInputCause (S.state source.old).faults (S.state source.new).faults result }
{
    let mut bytes = Vec::new(alloc);
    let mut buf = [0; 8192];
    while bytes.len() <= limit {
        let count = source.take(&mut buf)?;
        if count == 0 {
            return Ok(bytes);
        }
        bytes.extend_from_slice(&buf[..count])?;
    }
    Err(InputFault::TooLong)
}
