//! The lines of a history.

use vp_base::{Commit, Name, Value};

/// A line after the line `history`.
#[derive(Drop)]
pub enum HistoryLine {
    /// The starting value of a record. These lines come first, in catalogue order.
    Start { name: Name, value: Value },
    /// A committed transaction, with its view and its operations.
    Commit(Commit),
    /// The end of the history.
    End,
}
