//! What the first lines of a schedule say.

ghost use Rattle.std.specs.Prelude.{◌≡◌};
ghost use Rattle.vp_schedule.specs.Drafts.{blank, IsAllowed, Adds};

use crate::fault::ScheduleFault;
use crate::line::ScheduleLine;
use crate::schedule::Schedule;
use std::alloc::Global;
use vp_base::{Events, MOST_EVENTS};
use vp_catalog::Catalog;

/// A schedule as far as it was read, and whether the line `events` has come.
#[derive(Drop)]
pub struct ScheduleDraft {
    pub schedule: Schedule,
    pub opened: bool,
}

impl ScheduleDraft {
    /// Makes the draft of no lines. Takes no memory.
    pub fn new(alloc: Global) -> ScheduleDraft
        ensures { result ≡ blank }
    {
        ScheduleDraft {
            schedule: Schedule {
                catalog: Catalog::new(alloc),
                events: Events::new(alloc),
            },
            opened: false,
        }
    }

    /// Adds what the line of this number says. After an `Err` the draft is as it was.
    pub fn add(&mut self, line: ScheduleLine, number: usize) -> Result<(), ScheduleFault>
        requires { IsAllowed self.old line }
        ensures { Adds self.old line number self.new result }
    {
        match line {
            ScheduleLine::Entry(entry) => self.schedule.catalog.add(entry, number)?,
            ScheduleLine::Events => self.opened = true,
            ScheduleLine::Event(event) => {
                if self.schedule.events.as_slice().len() >= MOST_EVENTS as usize {
                    return Err(ScheduleFault::TooMany {
                        line: number,
                        limit: MOST_EVENTS,
                    });
                }
                self.schedule.events.push(event)?;
            }
        }
        Ok(())
    }
}
