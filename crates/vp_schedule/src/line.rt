//! The lines of a schedule.

use vp_base::Event;
use vp_catalog::Entry;

/// What a line of a schedule says.
#[derive(Drop)]
pub enum ScheduleLine {
    /// A line of the catalogue.
    Entry(Entry),
    /// The line `events`.
    Events,
    /// A line with an event.
    Event(Event),
}
