//! Why bytes are not a batch.

/// Why no batch could be decoded.
#[derive(Clone, Copy, Debug, Drop, PartialEq, Eq)]
pub enum BatchFault {
    /// The bytes are no list of log records: the longest prefix that begins one has `at` bytes.
    BadRecord { at: usize },
    /// Memory is lacking; nothing is known of the bytes.
    NoMemory,
}
