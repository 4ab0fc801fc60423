//! A schedule: a catalogue and the events of a run over it.

use std::marker::Model;
use vp_base::{CopyOf, Events, NoMemory};
use vp_catalog::Catalog;

/// The input of a run: a catalogue and the events over its sites, at most 100,000. A contract sees it as the `Schedule` of the
/// definitions.
pub struct Schedule {
    pub catalog: Catalog,
    pub events: Events,
}

impl Drop for Schedule {
    fn drop(self) {
        let Schedule {
            catalog: _,
            events: _,
        } = self;
    }
}

impl Model for Schedule {
    ghost use Rattle.vp_model.specs.World.{Schedule};

    ghost Value = { Schedule };

    ghost view = { λ s. record { catalogue = s.catalog; events = s.events } };
}

impl CopyOf for Schedule {
    fn copy_of(&self) -> Result<Schedule, NoMemory> {
        Ok(Schedule {
            catalog: self.catalog.copy_of()?,
            events: self.events.copy_of()?,
        })
    }
}
