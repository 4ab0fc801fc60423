//! Sinks, to which output goes.

ghost use Rattle.std.specs.Prelude.{◌≡◌, OnOk, OnErr};
ghost use Rattle.std.specs.Io.KnownBytes.{Appends};
ghost use Rattle.vp_outside.specs.Output.{SinkState, Puts, AppendsPrefix, HasOutCause};
ghost use Rattle.vp_outside.specs.declared.sink.OutFault.TheVariants.{NoMemory as OutOfMemory, Failed as OutputFailed};

use crate::source::Failed;
use std::alloc::AllocError;
use vp_base::NoMemory;

/// Why a call that hands something out did not do so.
#[derive(Clone, Copy, Debug, PartialEq, Eq)]
pub enum OutFault {
    /// The world outside failed.
    Failed,
    /// Memory is lacking.
    NoMemory,
}

impl From<Failed> for OutFault {
    ghost from_gives = { λ _ fault. fault ≡ OutputFailed };

    fn from(_: Failed) -> OutFault {
        OutFault::Failed
    }
}

impl From<NoMemory> for OutFault {
    ghost from_gives = { λ _ fault. fault ≡ OutOfMemory };

    fn from(_: NoMemory) -> OutFault {
        OutFault::NoMemory
    }
}

impl From<AllocError> for OutFault {
    ghost from_gives = { λ _ fault. fault ≡ OutOfMemory };

    fn from(_: AllocError) -> OutFault {
        OutFault::NoMemory
    }
}

/// What output is written to.
pub trait Sink {
    /// Its state, as contracts see it.
    ghost state: { Self → SinkState };

    /// How often a call failed.
    fn faults(&self) -> u64
        ensures { result ≡ (state self.now).faults };

    /// Takes a prefix of the piece, and returns its length in bytes. A call that fails or lacks memory takes nothing.
    fn put(&mut self, piece: &[u8]) -> Result<usize, OutFault>
        ensures { Puts piece.now (state self.old) (state self.new) result };
}

/// Puts all the bytes, piece by piece. After an error a prefix of them has been put.
pub fn write_all<K: Sink>(sink: &mut K, bytes: &[u8]) -> Result<(), OutFault>
    ensures ok { OnOk result (Appends (K.state sink.old).held (K.state sink.new).held bytes.now) }
    ensures err { OnErr result (AppendsPrefix (K.state sink.old).held (K.state sink.new).held bytes.now) }
    ensures cause { HasOutCause (K.state sink.old).faults (K.state sink.new).faults result }
{
    let mut at = 0;
    while at < bytes.len() {
        at += sink.put(&bytes[at..])?;
    }
    Ok(())
}
