//! The lines of a catalogue.

use crate::placed::CatalogRecord;
use vp_base::SiteId;

/// What a line of a catalogue says.
#[derive(Drop)]
pub enum Entry {
    /// A site and its port.
    Site { site: SiteId, port: u16 },
    /// A record and the weights of its copies.
    Record(CatalogRecord),
}
