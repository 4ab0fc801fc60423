//! A schedule as far as it is put together, with the world that it leads to.

ghost use Rattle.std.specs.Prelude.{◌≡◌, [], IfOk};
ghost use Rattle.vp_catalog.specs.Document.{IsCatalogue};
ghost use Rattle.vp_model.specs.Catalogue.{sites_of};
ghost use Rattle.vp_model.specs.Limits.{refused, world_limits};
ghost use Rattle.vp_model.specs.World.{start_world};
ghost use Rattle.vp_merge.specs.Faults.{Ends};
ghost use Rattle.vp_merge.specs.Played.{Goes, IsPlayed, IsPut};

use crate::fault::MergeFault;
use vp_base::{CopyOf, Event, Events, NoMemory};
use vp_catalog::Catalog;
use vp_world::{PlainStepper, World, WorldStep};

/// The events so far, and the world that they lead to.
#[derive(Drop)]
pub struct Played {
    pub world: World,
    pub events: Events,
}

/// The same with one more event, whose line can be read.
#[derive(Drop)]
pub struct PlayedStep {
    pub step: WorldStep,
    pub events: Events,
}

impl Played {
    /// No events over this catalogue.
    pub fn start(catalog: &Catalog) -> Result<Played, NoMemory>
        requires { IsCatalogue catalog.now }
        ensures played { IfOk result IsPlayed }
        ensures world { IfOk result (λ p. p.world ≡ record { catalogue = catalog.now; world = start_world catalog.now }) }
        ensures events { IfOk result (λ p. p.events ≡ []) }
    {
        Ok(Played {
            world: World::new(catalog.copy_of()?)?,
            events: Events::new(catalog.sites().allocator()),
        })
    }

    /// Does one more event.
    pub fn next(self, event: Event) -> Result<PlayedStep, MergeFault>
        requires played { IsPlayed self }
        requires put { IsPut (sites_of self.world.catalogue) event }
        ensures goes { IfOk result (Goes event self) }
        ensures end { Ends (refused world_limits self.world.catalogue event self.world.world) result }
    {
        let Played { world, mut events } = self;
        let step = world.next_by(&event, &mut PlainStepper)?;
        events.push(event)?;
        Ok(PlayedStep { step, events })
    }
}

impl PlayedStep {
    /// Goes on from there.
    pub fn into_played(self) -> Result<Played, NoMemory>
        ensures { IfOk result (λ p. (p.world ≡ self.step.0) × (p.events ≡ self.events)) }
    {
        let PlayedStep { step, events } = self;
        Ok(Played {
            world: step.into_world()?,
            events,
        })
    }
}
