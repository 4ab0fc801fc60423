//! What a datagram is to a node.

use vp_base::Input;

/// What a datagram that comes is to a node.
#[derive(Drop)]
pub enum Arrival {
    /// Bytes that are no frame: the first `at` of them can begin one.
    Bad { at: usize },
    /// A frame that is ignored: it is for another site, or its sender's port isn't the one that it came from.
    Stray,
    /// The frame that ends the run.
    Stops,
    /// An input of the site.
    Gives { input: Input },
}
