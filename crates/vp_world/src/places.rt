//! The sites of the world.

ghost use Rattle.std.specs.Prelude.{◌≡◌, ◌==◌, ◌<◌, OnOk, OnErr, IfOk, IfSome, is_some, if◌then◌else◌, length, map, option_map, option_copied, option_and_then, None};
ghost use Rattle.std.specs.Option.{option_map_or};
ghost use Rattle.std.specs.List.{position};
ghost use Rattle.vp_base.specs.declared.event.Shown.TheVariants as shown;
ghost use Rattle.vp_model.specs.Catalogue.{sites_of};
ghost use Rattle.vp_model.specs.Generated.{newest};
ghost use Rattle.vp_model.specs.Step.{step};
ghost use Rattle.vp_model.specs.World.{start_place, place_of, change_place};
ghost use Rattle.vp_world.specs.Asked.{Asked, restart_asked};
ghost use Rattle.vp_world.specs.Places.{site_in, place_effects, stepped_place, crashed_place, restarted_place, restart_line, Did, GivesUpAt};

use crate::lent::LentInput;
use crate::place::{Place, PlaceEffects};
use crate::stepper::Stepper;
use std::alloc::Global;
use std::marker::Model;
use vp_base::{Event, Newest, NoMemory, Shown, SiteId};
use vp_catalog::Catalog;
use vp_site::Site;

/// The sites of the world, in the order of the catalogue.
pub struct Places {
    items: Vec<Place>,
}

impl Drop for Places {
    fn drop(self) {
        let Places { items: _ } = self;
    }
}

impl Model for Places {
    ghost use Rattle.std.specs.Prelude.{List};
    ghost use Rattle.vp_model.specs.World.{Place as PlaceState};

    ghost Value = { List PlaceState };

    ghost view = { λ p. p.items.items };
}

/// Starts all sites of the catalogue in their first life.
fn start_all(alloc: Global, catalog: &Catalog) -> Result<Vec<Place>, NoMemory>
    ensures { IfOk result (λ places. places.items ≡ map (start_place catalog.now) (sites_of catalog.now)) }
{
    let mut places = Vec::new(alloc);
    for site in catalog.sites().as_slice() {
        places.push(Place::start(catalog, *site)?)?;
    }
    Ok(places)
}

fn place_at(places: &[Place], id: SiteId) -> Option<usize>
    ensures place { result ≡ position (λ p. p.id == id) places.now }
    ensures within { IfSome result (λ i. i < length places.now) }
{
    places.iter().position(|place| place.id() == id)
}

fn find_place(places: &[Place], id: SiteId) -> Option<&Place>
    ensures { option_copied result ≡ place_of id places.now }
{
    places.iter().find(|place| place.id() == id)
}

/// Does the step of the input, which the event brings, at the site, if it is up.
#[tactic(auto, using(vp_lists::proofs::Found::first_changes, vp_lists::proofs::Found::first_places))]
fn step_at<S: Stepper>(
    places: &mut [Place],
    catalog: &Catalog,
    id: SiteId,
    event: &Event,
    input: &LentInput,
    stepper: &mut S,
) -> Result<Option<PlaceEffects>, NoMemory>
    requires { IfSome (site_in id places.old)
        (λ site. S.may catalog.now (Asked.steps event.now site input.now) stepper.old) }
    ensures taken { IfOk result
        (λ t. t ≡ option_map (λ site. place_effects site (step catalog.now site input.now)) (site_in id places.old)) }
    ensures places { OnOk result
        (places.new ≡ change_place id (stepped_place catalog.now input.now) places.old) }
    ensures did { OnOk result
        (Did (λ site. S.did (Asked.steps event.now site input.now)) (site_in id places.old) stepper.old
        stepper.new) }
    ensures left { OnErr result (GivesUpAt catalog.now id input.now places.old places.new) }
{
    match place_at(places, id) {
        None => Ok(None),
        Some(i) => places[i].step(catalog, event, input, stepper),
    }
}

/// Takes the site out of its place, which is down then.
#[tactic(auto, using(vp_lists::proofs::Found::first_changes, vp_lists::proofs::Found::first_places))]
fn take_at(places: &mut [Place], id: SiteId) -> Option<Site>
    ensures site { result ≡ site_in id places.old }
    ensures places { places.new ≡ change_place id crashed_place places.old }
{
    match place_at(places, id) {
        None => None,
        Some(i) => places[i].take_site(),
    }
}

/// Starts the site again, if it is down and a life is left.
#[tactic(auto, using(vp_lists::proofs::Found::first_changes, vp_lists::proofs::Found::first_places))]
fn restart_at<S: Stepper>(
    places: &mut [Place],
    catalog: &Catalog,
    id: SiteId,
    stepper: &mut S,
) -> Result<Shown, NoMemory>
    requires { IfSome (option_and_then (restart_asked catalog.now) (place_of id places.old))
        (λ a. S.may catalog.now a stepper.old) }
    ensures places { OnOk result (places.new ≡ change_place id (restarted_place catalog.now) places.old) }
    ensures shown { IfOk result (λ s. s ≡ option_map_or restart_line (place_of id places.old) shown.Nothing) }
    ensures did { OnOk result
        (Did S.did (option_and_then (restart_asked catalog.now) (place_of id places.old)) stepper.old
        stepper.new) }
    ensures err { OnErr result (places.new ≡ places.old) }
{
    match place_at(places, id) {
        None => Ok(Shown::Nothing),
        Some(i) => places[i].restart(catalog, stepper),
    }
}

impl Places {
    /// Starts all sites of the catalogue in their first life.
    pub fn start(alloc: Global, catalog: &Catalog) -> Result<Places, NoMemory>
        ensures { IfOk result (λ places. places ≡ map (start_place catalog.now) (sites_of catalog.now)) }
    {
        Ok(Places {
            items: start_all(alloc, catalog)?,
        })
    }

    /// Whether the site is up; false if the catalogue lacks it.
    pub fn is_up(&self, id: SiteId) -> bool
        ensures { result ≡ is_some (site_in id self.now) }
    {
        match find_place(&self.items, id) {
            None => false,
            Some(place) => place.is_up(),
        }
    }

    /// The newest live transaction of the site, if it is up and has one.
    pub fn newest(&self, id: SiteId) -> Option<Newest>
        ensures { result ≡ option_and_then (λ site. newest site.live) (site_in id self.now) }
    {
        match find_place(&self.items, id) {
            None => None,
            Some(place) => place.newest(),
        }
    }

    /// Does the step of the input, which the event brings, if the site is up; if it is down, nothing is done. If memory runs out, that
    /// site is gone, as in a crash, and its log has some of the first records of the step, maybe none; the other places are as before.
    pub fn step<S: Stepper>(
        &mut self,
        catalog: &Catalog,
        id: SiteId,
        event: &Event,
        input: &LentInput,
        stepper: &mut S,
    ) -> Result<Option<PlaceEffects>, NoMemory>
        requires { IfSome (site_in id self.old)
            (λ site. S.may catalog.now (Asked.steps event.now site input.now) stepper.old) }
        ensures taken { IfOk result
            (λ t. t ≡ option_map (λ site. place_effects site (step catalog.now site input.now))
            (site_in id self.old)) }
        ensures places { OnOk result
            (self.new ≡ change_place id (stepped_place catalog.now input.now) self.old) }
        ensures did { OnOk result
            (Did (λ site. S.did (Asked.steps event.now site input.now)) (site_in id self.old) stepper.old
            stepper.new) }
        ensures left { OnErr result (GivesUpAt catalog.now id input.now self.old self.new) }
    {
        step_at(&mut self.items, catalog, id, event, input, stepper)
    }

    /// Takes the site out of its place, which is down then; none where it is down already.
    pub fn take_site(&mut self, id: SiteId) -> Option<Site>
        ensures site { result ≡ site_in id self.old }
        ensures places { self.new ≡ change_place id crashed_place self.old }
    {
        take_at(&mut self.items, id)
    }

    /// Starts the site again, if it is down and a life is left. If memory runs out, all places are as before.
    pub fn restart<S: Stepper>(
        &mut self,
        catalog: &Catalog,
        id: SiteId,
        stepper: &mut S,
    ) -> Result<Shown, NoMemory>
        requires { IfSome (option_and_then (restart_asked catalog.now) (place_of id self.old))
            (λ a. S.may catalog.now a stepper.old) }
        ensures places { OnOk result (self.new ≡ change_place id (restarted_place catalog.now) self.old) }
        ensures shown { IfOk result
            (λ s. s ≡ option_map_or restart_line (place_of id self.old) shown.Nothing) }
        ensures did { OnOk result
            (Did S.did (option_and_then (restart_asked catalog.now) (place_of id self.old)) stepper.old
            stepper.new) }
        ensures err { OnErr result (self.new ≡ self.old) }
    {
        restart_at(&mut self.items, catalog, id, stepper)
    }
}
