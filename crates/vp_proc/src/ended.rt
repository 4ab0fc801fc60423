//! How a procedure ends.

use vp_base::{Answer, Ops};

/// How a procedure ends.
#[derive(Drop)]
pub enum End {
    /// The commit was answered, and this is the result.
    Done { number: u64 },
    /// The read on this line was told no number.
    NotNumber { line: u32 },
    /// A sum or a difference on this line is out of range.
    Overflow { line: u32 },
    /// A line `fail` with this code was reached.
    Failed { code: u8 },
    /// A call got this answer, and not what it asked for.
    Refused { answer: Answer },
}

/// The operations that were answered, and the end.
#[derive(Drop)]
pub struct Ended {
    pub ops: Ops,
    pub end: End,
}
