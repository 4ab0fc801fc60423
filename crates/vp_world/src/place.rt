//! A site of the world, up or down.

ghost use Rattle.std.specs.Prelude.{◌≡◌, ◌==◌, ◌-◌, ◌^◌, ◌&&◌, not, OnOk, OnErr, IfOk, IfSome, is_some, if◌then◌else◌, option_map, option_to_list, option_copied, option_and_then, Some, None};
ghost use Rattle.std.specs.Option.{option_map_or};
ghost use Rattle.vp_base.specs.declared.entry.LogRecord.TheVariants as log_record;
ghost use Rattle.vp_model.specs.Durable.{apply, apply_all};
ghost use Rattle.vp_model.specs.Generated.{newest};
ghost use Rattle.vp_model.specs.Step.{step};
ghost use Rattle.vp_model.specs.World.{start_place, after_step};
ghost use Rattle.vp_world.specs.Asked.{Asked, restart_asked};
ghost use Rattle.vp_world.specs.Places.{newly_agreed, place_effects, stepped_place, crashed_place, restarted_place, restart_line, Did, KeepsSome, GivesUp};

use crate::lent::LentInput;
use crate::stepper::Stepper;
use std::marker::Model;
use vp_base::{CopyOf, Effects, Event, LogRecord, Newest, NoMemory, Shown, SiteId, View, ViewId};
use vp_catalog::Catalog;
use vp_records::Durable;
use vp_site::{Site, StartFault};

/// What a step gives besides the site and its log: its effects, and the view that it fixes, if it fixes one.
#[derive(Drop)]
pub struct PlaceEffects {
    pub effects: Effects,
    pub agreed: Option<View>,
}

/// A site of the world: what its log keeps, and the site itself while it is up.
#[derive(Drop)]
pub struct Place {
    id: SiteId,
    durable: Durable,
    up: Option<Site>,
}

impl Model for Place {
    ghost use Rattle.vp_model.specs.World.{Place as PlaceState};

    ghost Value = { PlaceState };

    ghost view = { λ p. record { id = p.id; durable = p.durable; up = p.up } };
}

/// The view that is held now, if the site had invited to it.
fn newly_agreed(inviting: Option<ViewId>, held: Option<&View>) -> Result<Option<View>, NoMemory>
    ensures { IfOk result (λ agreed. agreed ≡ newly_agreed inviting (option_copied held.entry)) }
{
    match (inviting, held) {
        (Some(inviting), Some(view)) => {
            if view.id == inviting {
                Ok(Some(view.copy_of()?))
            } else {
                Ok(None)
            }
        }
        _ => Ok(None),
    }
}

impl Place {
    /// Starts the site in its first life, with an empty log.
    #[tactic(auto, unfolding(vp_model::specs::Step::start))]
    pub fn start(catalog: &Catalog, id: SiteId) -> Result<Place, NoMemory>
        ensures { IfOk result (λ place. place ≡ start_place catalog.now id) }
    {
        let durable = Durable::empty(catalog.copies(id)?);
        match Site::start(catalog, id, durable.copy_of()?) {
            Ok((site, _)) => {
                let mut place = Place {
                    id,
                    durable,
                    up: None,
                };
                place.begin_life(site)?;
                Ok(place)
            }
            // a first life is never the last one
            Err(StartFault::LivesSpent { .. }) => unreachable!(),
            Err(StartFault::NoMemory) => Err(NoMemory),
        }
    }

    /// The number of the site, from 1 to 16.
    pub fn id(&self) -> SiteId
        ensures { result ≡ self.now.id }
    {
        self.id
    }

    /// Whether the site is up.
    pub fn is_up(&self) -> bool
        ensures { result ≡ is_some self.now.up }
    {
        self.up.is_some()
    }

    /// The newest live transaction of the site, if it is up and has one.
    pub fn newest(&self) -> Option<Newest>
        ensures { result ≡ option_and_then (λ site. newest site.live) self.now.up }
    {
        match &self.up {
            None => None,
            Some(site) => site.newest(),
        }
    }

    /// Takes the site out of its place, which is down then.
    pub fn take_site(&mut self) -> Option<Site>
        ensures site { result ≡ self.old.up }
        ensures place { self.new ≡ crashed_place self.old }
    {
        self.up.take()
    }

    /// Puts the site into its place, and its start into what the log keeps. If memory runs out, nothing changes.
    fn begin_life(&mut self, site: Site) -> Result<(), NoMemory>
        ensures err { OnErr result (self.new ≡ self.old) }
        ensures begun { OnOk result
            (self.new ≡
            record self.old
            { durable = apply (log_record.Start site.life) self.old.durable; up = Some site }) }
    {
        self.durable.apply(&LogRecord::Start { life: site.life() })?;
        self.up = Some(site);
        Ok(())
    }

    /// Starts the site again, if it is down and a life is left. If memory runs out, it is down as before.
    #[tactic(auto, unfolding(vp_model::specs::Step::start))]
    pub fn restart<S: Stepper>(
        &mut self,
        catalog: &Catalog,
        stepper: &mut S,
    ) -> Result<Shown, NoMemory>
        requires { IfSome (restart_asked catalog.now self.old) (λ a. S.may catalog.now a stepper.old) }
        ensures place { OnOk result (self.new ≡ restarted_place catalog.now self.old) }
        ensures shown { IfOk result (λ shown. shown ≡ restart_line self.old) }
        ensures did { OnOk result (Did S.did (restart_asked catalog.now self.old) stepper.old stepper.new) }
        ensures err { OnErr result (self.new ≡ self.old) }
    {
        if self.is_up() {
            return Ok(Shown::Up { site: self.id });
        }
        match stepper.restart(catalog, self.id, &self.durable) {
            Ok(site) => {
                let life = site.life();
                self.begin_life(site)?;
                Ok(Shown::Life { life })
            }
            Err(StartFault::LivesSpent { life }) => Ok(Shown::LivesSpent { life }),
            Err(StartFault::NoMemory) => Err(NoMemory),
        }
    }

    /// Does the step of the input, which the event brings, if the site is up; if it is down, nothing is done. If memory runs out, the
    /// site is gone, as in a crash, and its log has some of the first records of the step, maybe none.
    pub fn step<S: Stepper>(
        &mut self,
        catalog: &Catalog,
        event: &Event,
        input: &LentInput,
        stepper: &mut S,
    ) -> Result<Option<PlaceEffects>, NoMemory>
        requires { IfSome self.old.up
            (λ site. S.may catalog.now (Asked.steps event.now site input.now) stepper.old) }
        ensures taken { IfOk result
            (λ t. t ≡ option_map (λ site. place_effects site (step catalog.now site input.now)) self.old.up) }
        ensures place { OnOk result (self.new ≡ stepped_place catalog.now input.now self.old) }
        ensures did { OnOk result
            (Did (λ site. S.did (Asked.steps event.now site input.now)) self.old.up stepper.old stepper.new) }
        ensures left { OnErr result (GivesUp catalog.now input.now self.old self.new) }
    {
        match self.up.take() {
            None => Ok(None),
            Some(site) => Ok(Some(self.step_up(site, catalog, event, input, stepper)?)),
        }
    }

    /// Does the step of the input at this site, which is up.
    fn step_up<S: Stepper>(
        &mut self,
        site: Site,
        catalog: &Catalog,
        event: &Event,
        input: &LentInput,
        stepper: &mut S,
    ) -> Result<PlaceEffects, NoMemory>
        requires { S.may catalog.now (Asked.steps event.now site input.now) stepper.old }
        ensures taken { IfOk result (λ t. t ≡ place_effects site (step catalog.now site input.now)) }
        ensures place { OnOk result (self.new ≡ after_step (step catalog.now site input.now) self.old) }
        ensures did { OnOk result (S.did (Asked.steps event.now site input.now) stepper.old stepper.new) }
        ensures left { OnErr result
            (KeepsSome (step catalog.now site input.now).effects.records self.old self.new) }
    {
        let inviting = site.inviting();
        let (site, effects) = stepper.step(catalog, event, site, input)?;
        let agreed = newly_agreed(inviting, site.held())?;
        self.take_back(site, effects.records.as_slice())?;
        Ok(PlaceEffects { effects, agreed })
    }

    /// Puts the site back after its step, and the records that the step forced into what the log keeps.
    fn take_back(&mut self, site: Site, records: &[LogRecord]) -> Result<(), NoMemory>
        ensures back { OnOk result
            (self.new ≡
            record self.old { durable = apply_all records.now self.old.durable; up = Some site }) }
        ensures left { OnErr result (KeepsSome records.now self.old self.new) }
    {
        self.durable.apply_all(records)?;
        self.up = Some(site);
        Ok(())
    }
}
