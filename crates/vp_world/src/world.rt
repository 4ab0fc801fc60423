//! The world of a schedule.

ghost use Rattle.std.specs.Prelude.{◌≡◌, ◌≤◌, IfOk, IsSome, OnErr, OnOk, is_some, length, option_and_then};
ghost use Rattle.vp_model.specs.Limits.{world_limits, refused};
ghost use Rattle.vp_model.specs.Generated.{newest};
ghost use Rattle.vp_model.specs.World.{start_world, site_of, is_cut, message_at, next, flowing};
ghost use Rattle.vp_world.specs.Limits.{Ends};
ghost use Rattle.vp_world.specs.Steps.{taker, passed_over, IsReady, DoesEvent};

use crate::end::WorldEnd;
use crate::happened::WorldStep;
use crate::state::State;
use crate::stepper::{PlainStepper, Stepper};
use std::marker::Model;
use vp_base::{Commits, CopyOf, Event, Line, Newest, NoMemory, SiteId};
use vp_catalog::Catalog;
use vp_site::Site;

/// The sites of a catalogue, with their messages. The state is boxed, so that few bytes are moved where a world is passed from call to
/// call.
pub struct World {
    pub(crate) catalog: Box<Catalog>,
    pub(crate) state: Box<State>,
}

impl Drop for World {
    fn drop(self) {
        let World {
            catalog: _,
            state: _,
        } = self;
    }
}

impl Model for World {
    ghost use Rattle.vp_world.specs.Known.{Known, IsWithinLimits};

    ghost Value = { Known };

    ghost view = { λ w. record { catalogue = w.catalog.value; world = w.state.value } };

    ghost invariant = { λ w. IsWithinLimits w.state.value };
}

impl World {
    /// Starts a world, with each site of the catalogue up in its first life.
    #[tactic(auto, unfolding(vp_model::specs::World::start_world))]
    pub fn new(catalog: Catalog) -> Result<World, NoMemory>
        ensures { IfOk result (λ w. w ≡ record { catalogue = catalog; world = start_world catalog }) }
    {
        let alloc = catalog.sites().allocator();
        let state = Box::new(alloc, State::start(alloc, &catalog)?)?;
        Ok(World {
            catalog: Box::new(alloc, catalog)?,
            state,
        })
    }

    /// Does the event, and returns the line that the trace shows for it. A flow is a step that changes nothing else: its messages are
    /// delivered one after the other, each as `flowing` says. After an error the world is gone.
    pub fn next(self, event: &Event) -> Result<(World, Line), WorldEnd>
        ensures world { IfOk result
            (λ r. r.0 ≡
            record { catalogue = self.catalogue; world = (next self.catalogue event.now self.world).world }) }
        ensures line { IfOk result
            (λ r. r.1 ≡
            record { event = event.now; shown = (next self.catalogue event.now self.world).shown }) }
        ensures end { Ends (refused world_limits self.catalogue event.now self.world) result }
    {
        let happened = self.next_by(event, &mut PlainStepper)?;
        let line = Line {
            event: event.copy_of()?,
            shown: happened.shown().copy_of()?,
        };
        Ok((happened.into_world()?, line))
    }

    /// Does the event, where the stepper does what it asks of a site: a step, a crash or a restart. The world goes on once what it gave was
    /// shown. After an error the world is gone.
    pub fn next_by<S: Stepper>(self, event: &Event, stepper: &mut S) -> Result<WorldStep, WorldEnd>
        requires { IsReady S.may self.catalogue event.now self.world stepper.old }
        ensures world { IfOk result
            (λ r. r.0 ≡
            record { catalogue = self.catalogue; world = (next self.catalogue event.now self.world).world }) }
        ensures shown { IfOk result (λ r. r.1 ≡ (next self.catalogue event.now self.world).shown) }
        ensures end { Ends (refused world_limits self.catalogue event.now self.world) result }
        ensures did { OnOk result
            (DoesEvent S.did self.catalogue event.now self.world stepper.old stepper.new) }
    {
        let World { catalog, mut state } = self;
        let shown = state.next(&catalog, event, stepper)?;
        Ok(WorldStep {
            catalog,
            state,
            shown,
        })
    }

    /// The number of the lowest message that may be delivered now and never was.
    pub fn flowing(&self) -> Option<u32>
        ensures { result ≡ flowing self.now.world }
    {
        self.state.flowing()
    }

    /// The site whose step the event is now. There is none where the site is down or not in the catalogue, where there is no such
    /// message or its pair is cut, and for an event that is no site's step.
    pub fn taker(&self, event: &Event) -> Result<Option<SiteId>, NoMemory>
        ensures { IfOk result (λ site. site ≡ taker self.now.catalogue event.now self.now.world) }
    {
        self.state.taker(event)
    }

    /// Marks message `k`, which was sent, as delivered, without giving it to a site: no flow delivers it. If memory runs out, the world
    /// stays as it is.
    pub fn pass_over(&mut self, k: u32) -> Result<(), NoMemory>
        requires { IsSome (message_at self.old.world k) }
        ensures passed { OnOk result (self.new ≡ record self.old { world = passed_over k self.old.world }) }
        ensures err { OnErr result (self.new ≡ self.old) }
    {
        self.state.pass_over(k)
    }

    /// The newest live transaction of the site; none where the site is down or has no live one.
    pub fn newest(&self, site: SiteId) -> Option<Newest>
        ensures { result ≡ option_and_then (λ site. newest site.live) (site_of self.now.world site) }
    {
        self.state.places.newest(site)
    }

    /// Whether the site is up; false if the catalogue lacks it.
    pub fn is_up(&self, site: SiteId) -> bool
        ensures { result ≡ is_some (site_of self.now.world site) }
    {
        self.state.places.is_up(site)
    }

    /// Whether the pair is cut, whichever of the two is named first.
    pub fn is_cut(&self, a: SiteId, b: SiteId) -> bool
        ensures { result ≡ is_cut self.now.world a b }
    {
        self.state.cuts.has(a, b)
    }

    /// Takes the site out, if it is up, and drops all else.
    pub fn into_site(self, site: SiteId) -> Option<Site>
        ensures { result ≡ site_of self.world site }
    {
        let World {
            catalog: _,
            mut state,
        } = self;
        state.places.take_site(site)
    }

    /// The number of messages that were sent, delivered or not.
    pub fn messages(&self) -> usize
        ensures count { result ≡ length self.now.world.sent }
        ensures few { result ≤ 2000000 }
    {
        self.state.mail.count()
    }

    /// The transactions that were committed, in the order of the steps.
    pub fn journal(&self) -> &Commits
        ensures { result.now ≡ self.now.world.journal }
    {
        &self.state.journal
    }

    /// The catalogue of the world.
    pub fn catalog(&self) -> &Catalog
        ensures { result.now ≡ self.now.catalogue }
    {
        &self.catalog
    }
}
