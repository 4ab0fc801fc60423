//! Lines of a trace, of which event and content are lent.

use vp_base::{Event, Shown};

/// A line of a trace: an event, and what it gave. Both are lent, so that a run copies neither.
#[derive(Drop)]
pub struct LentLine<'a> {
    pub event: &'a Event,
    pub shown: &'a Shown,
}
