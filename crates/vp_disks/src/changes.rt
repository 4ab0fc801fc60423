//! The calls that changed a disk in memory.

use vp_base::{Seq, Word};

/// A call that changed a disk in memory or what it keeps. All but `Attached` concern the log that was attached then. Contracts see the
/// record of a disk as a list of these; a disk keeps them as a `ChangeList`.
#[derive(Drop)]
pub enum Change {
    /// The log of this name was attached. The calls after this one concern it, up to the next `Attached`.
    Attached(Word),
    /// The piece was written from the byte `at` of the half on.
    Wrote { half: u8, at: u64, piece: Seq<u8> },
    /// The half was cut to the length.
    Cut { half: u8, length: u64 },
    /// Both halves of the log were synced.
    Synced,
    /// The log was given these halves, as if they had always been there.
    Laid { first: Seq<u8>, second: Seq<u8> },
}
