//! The lines of a head.

use vp_catalog::Entry;

/// What a line of a head says.
#[derive(Drop)]
pub enum HeadLine {
    /// A line of the catalogue.
    Entry(Entry),
    /// The key line.
    Key,
}
