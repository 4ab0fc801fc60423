//! Steppers: who does the steps of the sites of a world.

ghost use Rattle.std.specs.Prelude.{◌≡◌, OnOk, IfOk, Option, ⊤};
ghost use Rattle.vp_model.specs.Site.{SiteState};
ghost use Rattle.vp_model.specs.Step.{step};
ghost use Rattle.vp_world.specs.Asked.{life_start, IfStarted};

use crate::lent::LentInput;
use vp_base::{CopyOf, Effects, Event, NoMemory, SiteId};
use vp_catalog::Catalog;
use vp_records::Durable;
use vp_site::{Site, StartFault};

/// Who does the steps of the sites of a world. A site is lent to it for a step, and comes from it where a site starts again.
pub trait Stepper {
    ghost use Rattle.vp_model.specs.Catalogue.{Catalogue};
    ghost use Rattle.vp_world.specs.Asked.{Asked};

    /// What it may be asked for, in its state before.
    ghost may: { Catalogue → Asked → Self → Type 0 };

    /// What it makes of what it is asked for, by its states before and after.
    ghost did: { Asked → Self → Self → Type 0 };

    /// Does the step of the input, which the event brings, at the site. If memory runs out, the site is gone, as in a crash.
    fn step(
        &mut self,
        catalog: &Catalog,
        event: &Event,
        site: Site,
        input: &LentInput,
    ) -> Result<(Site, Effects), NoMemory>
        requires { may catalog.now (Asked.steps event.now site input.now) self.old }
        ensures stepped { IfOk result
            (λ r. record { site = r.0; effects = r.1 } ≡ step catalog.now site input.now) }
        ensures did { OnOk result (did (Asked.steps event.now site input.now) self.old self.new) };

    /// Notes that the site, which was up, crashes.
    fn crash(&mut self, site: SiteId)
        ensures { did (Asked.crashes site) self.old self.new };

    /// Starts the site, which is down, in its next life. The world keeps this durable part of it; a stepper that keeps it too may start
    /// the site from its own, which is the same.
    fn restart(
        &mut self,
        catalog: &Catalog,
        id: SiteId,
        durable: &Durable,
    ) -> Result<Site, StartFault>
        requires { (site : Option SiteState) × may catalog.now (Asked.restarts id site) self.old }
        ensures did { IfStarted result (λ site. did (Asked.restarts id site) self.old self.new) }
        ensures started { may catalog.now (Asked.restarts id (life_start catalog.now id durable.now)) self.old →
            IfStarted result (λ site. site ≡ life_start catalog.now id durable.now) };
}

/// A stepper that only does the steps: sites start from what the world keeps of them.
#[derive(Clone, Copy, Drop)]
pub struct PlainStepper;

impl Stepper for PlainStepper {
    ghost may = { λ _ _ _. ⊤ };

    ghost did = { λ _ _ _. ⊤ };

    fn step(
        &mut self,
        catalog: &Catalog,
        _: &Event,
        site: Site,
        input: &LentInput,
    ) -> Result<(Site, Effects), NoMemory> {
        site.step(catalog, &input.copied()?)
    }

    fn crash(&mut self, _: SiteId) {}

    fn restart(
        &mut self,
        catalog: &Catalog,
        id: SiteId,
        durable: &Durable,
    ) -> Result<Site, StartFault> {
        let (site, _) = Site::start(catalog, id, durable.copy_of()?)?;
        Ok(site)
    }
}
