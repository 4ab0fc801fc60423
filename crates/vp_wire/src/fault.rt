//! Why bytes are not a frame.

/// Why no frame could be decoded.
#[derive(Clone, Copy, Debug, Drop, PartialEq, Eq)]
pub enum WireFault {
    /// The bytes are no frame: their longest prefix that begins one has `at` bytes.
    BadFrame { at: usize },
    /// Memory is lacking; nothing is known of the bytes.
    NoMemory,
}
